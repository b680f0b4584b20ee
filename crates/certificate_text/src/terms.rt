// The terms of a function, each with the path of its block.

ghost use Rattle.std.specs.Prelude.{◌≡◌, ◌++◌, ◌∷◌, [], IfOk, length, map};
ghost use Rattle.std.specs.List.{flat_map};
ghost use Rattle.struql_ast.specs.Reading.{term_of, target_of, link_of, collect_of};
ghost use Rattle.site_spec.specs.Site.{target_terms, ends_of, terms_of as terms_of_body};
ghost use Rattle.query_blocks.specs.Blocks.{body_of};
ghost use Rattle.certificate_text.specs.Lines.{terms_named, placed_terms};
ghost use Rattle.certificate_text.specs.Written.{placed_of};

use query_blocks::QueryBlock;
use sd_value::{NoMemory, Str};
use std::alloc::Global;
use struql_ast::{Collect, Link, SkolemTerm, Target};

/// A term of a query, and the path of its block.
#[derive(Drop)]
pub struct WrittenTerm<'a> {
    pub path: &'a Str,
    pub term: &'a SkolemTerm,
}

fn push_term<'a>(
    function: &Str,
    path: &'a Str,
    term: &'a SkolemTerm,
    found: &mut Vec<WrittenTerm<'a>>,
) -> Result<(), NoMemory>
    ensures { IfOk result (λ _. map placed_of found.new.items ≡ map placed_of found.old.items
        ++ terms_named function.now path.now (term_of term.now ∷ [])) }
{
    if term.function == *function {
        found.push(WrittenTerm { path, term })?;
    }
    Ok(())
}

fn push_terms<'a>(
    function: &Str,
    path: &'a Str,
    terms: &'a [SkolemTerm],
    found: &mut Vec<WrittenTerm<'a>>,
) -> Result<(), NoMemory>
    ensures { IfOk result (λ _. map placed_of found.new.items ≡ map placed_of found.old.items
        ++ terms_named function.now path.now (flat_map (λ t. term_of t ∷ []) terms.now)) }
{
    for term in terms {
        push_term(function, path, term, found)?;
    }
    Ok(())
}

fn push_target<'a>(
    function: &Str,
    path: &'a Str,
    target: &'a Target,
    found: &mut Vec<WrittenTerm<'a>>,
) -> Result<(), NoMemory>
    ensures { IfOk result (λ _. map placed_of found.new.items ≡ map placed_of found.old.items
        ++ terms_named function.now path.now (target_terms (target_of target.now))) }
{
    match target {
        Target::Plain(_) | Target::Summed(_, _) => Ok(()),
        Target::Made(term) => push_term(function, path, term, found),
    }
}

fn push_ends<'a>(
    function: &Str,
    path: &'a Str,
    link: &'a Link,
    found: &mut Vec<WrittenTerm<'a>>,
) -> Result<(), NoMemory>
    ensures { IfOk result (λ _. map placed_of found.new.items ≡ map placed_of found.old.items
        ++ terms_named function.now path.now (ends_of (link_of link.now))) }
{
    push_target(function, path, &link.source, found)?;
    push_target(function, path, &link.target, found)
}

fn push_links<'a>(
    function: &Str,
    path: &'a Str,
    links: &'a [Link],
    found: &mut Vec<WrittenTerm<'a>>,
) -> Result<(), NoMemory>
    ensures { IfOk result (λ _. map placed_of found.new.items ≡ map placed_of found.old.items
        ++ terms_named function.now path.now (flat_map (λ k. ends_of (link_of k)) links.now)) }
{
    for link in links {
        push_ends(function, path, link, found)?;
    }
    Ok(())
}

fn push_collects<'a>(
    function: &Str,
    path: &'a Str,
    collects: &'a [Collect],
    found: &mut Vec<WrittenTerm<'a>>,
) -> Result<(), NoMemory>
    ensures { IfOk result (λ _. map placed_of found.new.items ≡ map placed_of found.old.items
        ++ terms_named function.now path.now
        (flat_map (λ k. target_terms (target_of k.target)) collects.now)) }
{
    for collect in collects {
        push_target(function, path, &collect.target, found)?;
    }
    Ok(())
}

fn push_block<'a>(
    function: &Str,
    path: &'a Str,
    block: &'a QueryBlock,
    found: &mut Vec<WrittenTerm<'a>>,
) -> Result<(), NoMemory>
    ensures { IfOk result (λ _. map placed_of found.new.items ≡ map placed_of found.old.items
        ++ terms_named function.now path.now (terms_of_body (body_of block.now))) }
{
    push_terms(function, path, &block.creates, found)?;
    push_links(function, path, &block.links, found)?;
    push_collects(function, path, &block.collects, found)?;
    Ok(())
}

/// The terms of the function, in the order of the text.
pub fn terms_of<'a>(
    alloc: Global,
    blocks: &'a [QueryBlock],
    paths: &'a [Str],
    function: &Str,
) -> Result<Vec<WrittenTerm<'a>>, NoMemory>
    requires { length paths.now ≡ length blocks.now }
    ensures { IfOk result (λ found. map placed_of found.items
        ≡ placed_terms function.now paths.now (map body_of blocks.now)) }
{
    let mut found = Vec::new(alloc);
    for i in 0..blocks.len() {
        push_block(function, &paths[i], &blocks[i], &mut found)?;
    }
    Ok(found)
}
