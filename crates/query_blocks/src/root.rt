// The root page of a query.

ghost use Rattle.std.specs.Prelude.{◌≡◌, map, option_copied, option_map};
ghost use Rattle.site_spec.specs.Root.{has_no_args};
ghost use Rattle.struql_ast.specs.Reading.{term_of};
ghost use Rattle.query_blocks.specs.Blocks.{body_of, scope_of};
ghost use Rattle.query_blocks.specs.Roots.{root_of_bodies, first_root};

use crate::{QueryBlock, QueryBlocks};
use sd_value::Str;
use struql_ast::SkolemTerm;

fn is_without_arguments(term: &SkolemTerm) -> bool
    ensures { result ≡ has_no_args (term_of term.now).args }
{
    match term.args.as_slice() {
        [] => true,
        [_, ..] => false,
    }
}

// The first term without arguments.
fn root_among(creates: &Vec<SkolemTerm>) -> Option<&SkolemTerm>
    ensures { option_map term_of (option_copied result)
        ≡ first_root (map term_of creates.now.items) }
{
    for term in creates {
        if is_without_arguments(term) {
            return Some(term);
        }
    }
    None
}

// The function of the first term without arguments in the blocks.
fn root_in(blocks: &[QueryBlock]) -> Option<&Str>
    ensures { option_copied result ≡ root_of_bodies (map body_of blocks.now) }
{
    for block in blocks {
        if let Some(term) = root_among(&block.creates) {
            return Some(&term.function);
        }
    }
    None
}

/// The function of the root page: that of the first term without arguments in a CREATE, in the order of the text.
pub fn root_of(scopes: &QueryBlocks) -> Option<&Str>
    ensures { option_copied result ≡ root_of_bodies (scope_of scopes.now).bodies }
{
    root_in(scopes.blocks.as_slice())
}
