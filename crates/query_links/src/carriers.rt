// The links of a function that may carry a label.

ghost use Rattle.std.specs.Prelude.{◌≡◌, ◌++◌, ◌∷◌, [], IfOk, OnOk, option_copied};
ghost use Rattle.std.specs.List.{list_all};
ghost use Rattle.query_blocks.specs.Blocks.{body_of, scope_of};
ghost use Rattle.constraint_spec.specs.Placed.{body_links, links_of};
ghost use Rattle.constraint_recheck.specs.Recheck.{may_carry as carries, single, determined};
ghost use Rattle.constraint_recheck.specs.Recheck.{each_may as each};
ghost use Rattle.struql_ast.specs.Reading.{target_of};
ghost use Rattle.query_links.specs.Links.{placed, plain_links, carried, one_passes, has_target_in_source};
ghost use Rattle.query_links.specs.Links.{is_end as ends, ends_at};

use crate::determined::is_determined;
use crate::labels::{AskedLabel, may_carry};
use entailment::{Judge, is_of};
use query_blocks::{QueryBlock, QueryBlocks};
use sd_value::{NoMemory, Str};
use std::alloc::Global;
use struql_ast::{Chain, Link, Target};

// Adds the link, if it may carry the label.
fn add<'a, J: Judge>(
    judge: &J,
    version: u8,
    function: &Str,
    label: &AskedLabel,
    chain: &Chain,
    link: &'a Link,
    found: &mut Vec<&'a Link>,
) -> Result<(), NoMemory>
    ensures { OnOk result (plain_links found.new.items ≡ plain_links found.old.items ++ carried
        (carries (J.tests judge.now) version function.now label.now)
        (placed chain.now.conditions link.now ∷ [])) }
{
    if may_carry(judge, version, function, label, chain, link) {
        found.push(link)?;
    }
    Ok(())
}

// Adds the links of the block that may carry the label.
fn add_of_block<'a, J: Judge>(
    judge: &J,
    version: u8,
    function: &Str,
    label: &AskedLabel,
    block: &'a QueryBlock,
    found: &mut Vec<&'a Link>,
) -> Result<(), NoMemory>
    ensures { OnOk result (plain_links found.new.items ≡ plain_links found.old.items ++ carried
        (carries (J.tests judge.now) version function.now label.now)
        (body_links (body_of block.now))) }
{
    for link in &block.links {
        add(judge, version, function, label, &block.chain, link, found)?;
    }
    Ok(())
}

// The links of the function that may carry the label.
fn carriers<'a, J: Judge>(
    alloc: Global,
    judge: &J,
    query: &'a QueryBlocks,
    function: &Str,
    label: &AskedLabel,
) -> Result<Vec<&'a Link>, NoMemory>
    ensures { IfOk result (λ found. plain_links found.items ≡ carried (carries (J.tests judge.now)
        query.now.version function.now label.now) (links_of (scope_of query.now))) }
{
    let mut found = Vec::new(alloc);
    for block in &query.blocks {
        add_of_block(judge, query.version, function, label, block, &mut found)?;
    }
    Ok(found)
}

// Whether the target is a term of the function. With no function none is.
fn is_end(target: &Target, function: Option<&Str>) -> bool
    ensures { result ≡ ends (option_copied function.entry) (target_of target.now) }
{
    match function {
        None => false,
        Some(function) => is_of(target, function),
    }
}

fn all_end(links: &[&Link], function: Option<&Str>) -> bool
    ensures { result ≡ list_all (λ k. ends (option_copied function.entry) (target_of k.now.target))
        links.now }
{
    for link in links {
        if !is_end(&link.target, function) {
            return false;
        }
    }
    true
}

/// Whether each link of the function that may carry the label ends at a term of the target. With no
/// target, whether there is no such link.
pub fn each_may<J: Judge>(
    alloc: Global,
    judge: &J,
    query: &QueryBlocks,
    function: &Str,
    label: &AskedLabel,
    target: Option<&Str>,
) -> Result<bool, NoMemory>
    ensures { IfOk result (λ b. b ≡ each (J.tests judge.now) (scope_of query.now) function.now
        label.now (ends_at (option_copied target.entry))) }
{
    let found = carriers(alloc, judge, query, function, label)?;
    Ok(all_end(&found, target))
}

// Whether there is one link alone, whose source determines its target.
fn is_determined_alone(links: &[&Link]) -> bool
    ensures { result ≡ one_passes has_target_in_source (plain_links links.now) }
{
    match links {
        [] => false,
        [link] => is_determined(link),
        [_, _, ..] => false,
    }
}

/// Whether exactly one link of the function may carry the label, and its source determines its
/// target.
pub fn is_single<J: Judge>(
    alloc: Global,
    judge: &J,
    query: &QueryBlocks,
    function: &Str,
    label: &AskedLabel,
) -> Result<bool, NoMemory>
    ensures { IfOk result (λ b. b ≡ single (carries (J.tests judge.now) query.now.version
        function.now label.now) determined (links_of (scope_of query.now))) }
{
    let found = carriers(alloc, judge, query, function, label)?;
    Ok(is_determined_alone(&found))
}
