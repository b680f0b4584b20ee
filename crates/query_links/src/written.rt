// The terms of a function where they are written.

ghost use Rattle.std.specs.Prelude.{◌≡◌, ◌++◌, ◌∷◌, [], ℕ, IfOk, OnOk, map, filter};
ghost use Rattle.std.specs.List.{flat_map};
ghost use Rattle.query_spec.specs.Mentions.{same_name, chain_of};
ghost use Rattle.site_spec.specs.Site.{target_terms, terms_of, ends_of};
ghost use Rattle.struql_ast.specs.Reading.{term_of, target_of, link_of, collect_of};
ghost use Rattle.query_blocks.specs.Blocks.{body_of, scope_of, AreCheckedBlocks};
ghost use Rattle.constraint_spec.specs.Placed.{body_mentions, mentions_of};
ghost use Rattle.query_links.specs.Mentions.{plain_terms, of_function, mention_under, mention_of, HaveChains};

use query_blocks::{QueryBlock, QueryBlocks};
use sd_value::{NoMemory, Str};
use std::alloc::Global;
use struql_ast::{Chain, Collect, Link, SkolemTerm, Target};

/// A term, and the chain of the block in which it is written.
#[derive(Drop)]
pub struct Mention<'a> {
    pub chain: &'a Chain,
    pub term: &'a SkolemTerm,
}

// Adds the term, if it is one of the function.
fn add<'a>(
    found: &mut Vec<&'a SkolemTerm>,
    function: &Str,
    term: &'a SkolemTerm,
) -> Result<(), NoMemory>
    ensures { OnOk result (plain_terms found.new.items ≡ plain_terms found.old.items
        ++ of_function function.now (term_of term.now ∷ [])) }
{
    if term.function == *function {
        found.push(term)?;
    }
    Ok(())
}

// Adds the target, if it is a term of the function.
fn add_target<'a>(
    found: &mut Vec<&'a SkolemTerm>,
    function: &Str,
    target: &'a Target,
) -> Result<(), NoMemory>
    ensures { OnOk result (plain_terms found.new.items ≡ plain_terms found.old.items
        ++ of_function function.now (target_terms (target_of target.now))) }
{
    match target {
        Target::Plain(_) | Target::Summed(_, _) => Ok(()),
        Target::Made(term) => add(found, function, term),
    }
}

// Adds the ends of the link that are terms of the function.
fn add_ends<'a>(
    found: &mut Vec<&'a SkolemTerm>,
    function: &Str,
    link: &'a Link,
) -> Result<(), NoMemory>
    ensures { OnOk result (plain_terms found.new.items ≡ plain_terms found.old.items
        ++ of_function function.now (ends_of (link_of link.now))) }
{
    add_target(found, function, &link.source)?;
    add_target(found, function, &link.target)?;
    Ok(())
}

fn add_terms<'a>(
    found: &mut Vec<&'a SkolemTerm>,
    function: &Str,
    terms: &'a [SkolemTerm],
) -> Result<(), NoMemory>
    ensures { OnOk result (plain_terms found.new.items ≡ plain_terms found.old.items
        ++ of_function function.now (map term_of terms.now)) }
{
    for term in terms {
        add(found, function, term)?;
    }
    Ok(())
}

fn add_links<'a>(
    found: &mut Vec<&'a SkolemTerm>,
    function: &Str,
    links: &'a [Link],
) -> Result<(), NoMemory>
    ensures { OnOk result (plain_terms found.new.items ≡ plain_terms found.old.items
        ++ of_function function.now (flat_map ends_of (map link_of links.now))) }
{
    for link in links {
        add_ends(found, function, link)?;
    }
    Ok(())
}

fn add_collects<'a>(
    found: &mut Vec<&'a SkolemTerm>,
    function: &Str,
    collects: &'a [Collect],
) -> Result<(), NoMemory>
    ensures { OnOk result (plain_terms found.new.items ≡ plain_terms found.old.items
        ++ of_function function.now (flat_map (λ c. target_terms c.target)
        (map collect_of collects.now))) }
{
    for collect in collects {
        add_target(found, function, &collect.target)?;
    }
    Ok(())
}

// The block's terms of the function: those in CREATE, in LINK and in COLLECT.
fn terms_in<'a>(
    alloc: Global,
    function: &Str,
    block: &'a QueryBlock,
) -> Result<Vec<&'a SkolemTerm>, NoMemory>
    ensures { IfOk result (λ found. plain_terms found.items
        ≡ of_function function.now (terms_of (body_of block.now))) }
{
    let mut found = Vec::new(alloc);
    add_terms(&mut found, function, &block.creates)?;
    add_links(&mut found, function, &block.links)?;
    add_collects(&mut found, function, &block.collects)?;
    Ok(found)
}

// Adds the terms, each with the chain.
fn add_mentions<'a>(
    found: &mut Vec<Mention<'a>>,
    chain: &'a Chain,
    terms: &[&'a SkolemTerm],
) -> Result<(), NoMemory>
    ensures written { OnOk result (map mention_of found.new.items ≡ map mention_of found.old.items
        ++ map (mention_under chain.now.conditions) (plain_terms terms.now)) }
    ensures chains { (version : ℕ) → HaveChains version found.old.items
        → chain.now ≡ chain_of version chain.now.conditions
        → OnOk result (HaveChains version found.new.items) }
{
    for term in terms {
        found.push(Mention { chain, term: *term })?;
    }
    Ok(())
}

// Adds the block's mentions of the function.
fn add_of_block<'a>(
    alloc: Global,
    found: &mut Vec<Mention<'a>>,
    function: &Str,
    block: &'a QueryBlock,
) -> Result<(), NoMemory>
    ensures written { OnOk result (map mention_of found.new.items ≡ map mention_of found.old.items
        ++ filter (λ m. same_name m.term.function function.now)
        (body_mentions (body_of block.now))) }
    ensures chains { (version : ℕ) → HaveChains version found.old.items
        → block.now.chain ≡ chain_of version block.now.chain.conditions
        → OnOk result (HaveChains version found.new.items) }
{
    let terms = terms_in(alloc, function, block)?;
    add_mentions(found, &block.chain, &terms)
}

/// All mentions of the function, block by block: those in CREATE, in LINK and in COLLECT.
pub fn mentions<'a>(
    alloc: Global,
    query: &'a QueryBlocks,
    function: &Str,
) -> Result<Vec<Mention<'a>>, NoMemory>
    requires { AreCheckedBlocks query.now.version query.now.blocks.items }
    ensures written { IfOk result (λ found. map mention_of found.items
        ≡ mentions_of (scope_of query.now) function.now) }
    ensures chains { IfOk result (λ found. HaveChains query.now.version found.items) }
{
    let mut found = Vec::new(alloc);
    for block in &query.blocks {
        add_of_block(alloc, &mut found, function, block)?;
    }
    Ok(found)
}
