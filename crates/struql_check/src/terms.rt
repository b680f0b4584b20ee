//! The terms of a query, and the checks of their functions.

ghost use Rattle.std.specs.Prelude.{◌≡◌, ◌++◌, ◌∷◌, [], false, IfOk, map};
ghost use Rattle.std.specs.List.{flat_map};
ghost use Rattle.struql_ast.specs.Written.{target_written, term_written, link_written, collect_written, blocks_written};
ghost use Rattle.struql_check.specs.Scope.{seen, target_terms, link_terms, collect_terms, terms_within};

use sd_value::{NoMemory, Str};
use std::alloc::Global;
use struql_ast::{Block, Collect, Link, SkolemTerm, Target};

/// A term where it is.
#[derive(Drop)]
pub struct SeenTerm {
    pub function: Str,
    /// How many arguments it has.
    pub arity: usize,
    /// It is in LINK or COLLECT, and not in CREATE.
    pub linked: bool,
    /// The place of its first byte.
    pub at: u64,
}

fn push_term(
    alloc: Global,
    found: &mut Vec<SeenTerm>,
    linked: bool,
    term: &SkolemTerm,
) -> Result<(), NoMemory>
    ensures { IfOk result (λ _. found.new.items
        ≡ found.old.items ++ seen linked (term_written term.now) ∷ []) }
{
    let function = term.function.copy(alloc)?;
    found.push(SeenTerm {
        function,
        arity: term.args.len(),
        linked,
        at: term.span.start,
    })?;
    Ok(())
}

fn push_target(alloc: Global, found: &mut Vec<SeenTerm>, target: &Target) -> Result<(), NoMemory>
    ensures { IfOk result (λ _. found.new.items
        ≡ found.old.items ++ target_terms (target_written target.now)) }
{
    match target {
        Target::Plain(_) | Target::Summed(_, _) => Ok(()),
        Target::Made(term) => push_term(alloc, found, true, term),
    }
}

fn push_link(alloc: Global, found: &mut Vec<SeenTerm>, link: &Link) -> Result<(), NoMemory>
    ensures { IfOk result (λ _. found.new.items
        ≡ found.old.items ++ link_terms (link_written link.now)) }
{
    push_target(alloc, found, &link.source)?;
    push_target(alloc, found, &link.target)
}

fn push_creates(
    alloc: Global,
    found: &mut Vec<SeenTerm>,
    terms: &[SkolemTerm],
) -> Result<(), NoMemory>
    ensures { IfOk result (λ _. found.new.items
        ≡ found.old.items ++ map (seen false) (map term_written terms.now)) }
{
    for term in terms {
        push_term(alloc, found, false, term)?;
    }
    Ok(())
}

fn push_links(alloc: Global, found: &mut Vec<SeenTerm>, links: &[Link]) -> Result<(), NoMemory>
    ensures { IfOk result (λ _. found.new.items
        ≡ found.old.items ++ flat_map link_terms (map link_written links.now)) }
{
    for link in links {
        push_link(alloc, found, link)?;
    }
    Ok(())
}

fn push_collects(
    alloc: Global,
    found: &mut Vec<SeenTerm>,
    collects: &[Collect],
) -> Result<(), NoMemory>
    ensures { IfOk result (λ _. found.new.items
        ≡ found.old.items ++ flat_map collect_terms (map collect_written collects.now)) }
{
    for collect in collects {
        push_target(alloc, found, &collect.target)?;
    }
    Ok(())
}

/// Adds the terms of blocks, in the text's order.
pub(crate) fn push_terms(
    alloc: Global,
    found: &mut Vec<SeenTerm>,
    blocks: &[Block],
) -> Result<(), NoMemory>
    ensures { IfOk result (λ _. found.new.items
        ≡ found.old.items ++ terms_within (blocks_written blocks.now)) }
{
    for block in blocks {
        push_creates(alloc, found, &block.creates)?;
        push_links(alloc, found, &block.links)?;
        push_collects(alloc, found, &block.collects)?;
        push_terms(alloc, found, &block.blocks)?;
    }
    Ok(())
}
