// What a term is, its places aside.

ghost use Rattle.std.specs.Prelude.{◌≡◌, [], map};
ghost use Rattle.struql_ast.specs.Reading.{operand_of, term_of, target_of};
ghost use Rattle.query_parts.specs.Same.{same_list, same_operand, same_term};
ghost use Rattle.constraint_recheck.specs.Recheck.{is_of as ends_in};

use sd_value::Str;
use struql_ast::{Operand, SkolemTerm, Target};

fn are_none(args: &[Operand]) -> bool
    ensures { result ≡ same_list same_operand (map operand_of args.now) [] }
{
    match args {
        [] => true,
        [_, ..] => false,
    }
}

/// Whether the term is the function's without arguments, which is the term of the root's page.
pub fn is_root(term: &SkolemTerm, function: &Str) -> bool
    ensures { result
        ≡ same_term (term_of term.now) (record { function = function.now; args = [] }) }
{
    term.function == *function && are_none(&term.args)
}

/// Whether the target is a term of the function.
pub fn is_of(target: &Target, function: &Str) -> bool
    ensures { result ≡ ends_in function.now (target_of target.now) }
{
    match target {
        Target::Plain(_) | Target::Summed(_, _) => false,
        Target::Made(term) => term.function == *function,
    }
}
