//! The blocks on which the pages of a function rest.
ghost use Rattle.std.specs.Prelude.{◌≡◌, map};
ghost use Rattle.std.specs.List.{list_any};
ghost use Rattle.struql_ast.specs.Reading.{term_of, target_of, label_of, link_of, collect_of};
ghost use Rattle.query_blocks.specs.Blocks.{body_of};
ghost use Rattle.edit_footprint.specs.Rests as tests;

use crate::reads::Reads;
use query_blocks::QueryBlock;
use sd_value::Str;
use struql_ast::{Collect, Link, LinkLabel, SkolemTerm, Target};

fn some_term(function: &Str, terms: &[SkolemTerm]) -> bool
    ensures { result ≡ list_any (tests.is_of function.now) (map term_of terms.now) }
{
    for term in terms {
        if term.function == *function {
            return true;
        }
    }
    false
}

fn is_made_of(function: &Str, target: &Target) -> bool
    ensures { result ≡ tests.is_made_of function.now (target_of target.now) }
{
    match target {
        Target::Plain(_) | Target::Summed(_, _) => false,
        Target::Made(term) => term.function == *function,
    }
}

fn some_end(function: &Str, links: &[Link]) -> bool
    ensures { result ≡ list_any (tests.link_names function.now) (map link_of links.now) }
{
    for link in links {
        if is_made_of(function, &link.source) || is_made_of(function, &link.target) {
            return true;
        }
    }
    false
}

fn some_put(function: &Str, collects: &[Collect]) -> bool
    ensures { result ≡ list_any (tests.collect_names function.now) (map collect_of collects.now) }
{
    for collect in collects {
        if is_made_of(function, &collect.target) {
            return true;
        }
    }
    false
}

fn may_carry(label: &LinkLabel, wanted: &Str) -> bool
    ensures { result ≡ tests.may_carry (label_of label.now) wanted.now }
{
    match label {
        LinkLabel::Quoted(text) => *text == *wanted,
        LinkLabel::Variable(_, _) => true,
    }
}

fn carries_some(label: &LinkLabel, labels: &[Str]) -> bool
    ensures { result ≡ list_any (tests.may_carry (label_of label.now)) labels.now }
{
    for wanted in labels {
        if may_carry(label, wanted) {
            return true;
        }
    }
    false
}

fn some_own_link(function: &Str, own: &[Str], links: &[Link]) -> bool
    ensures { result ≡ list_any (tests.has_own_link function.now own.now) (map link_of links.now) }
{
    for link in links {
        if is_made_of(function, &link.source) && carries_some(&link.label, own) {
            return true;
        }
    }
    false
}

fn some_link(others: &[Str], links: &[Link]) -> bool
    ensures { result ≡ list_any (tests.has_link others.now) (map link_of links.now) }
{
    for link in links {
        if carries_some(&link.label, others) {
            return true;
        }
    }
    false
}

fn is_among(names: &[Str], name: &Str) -> bool
    ensures { result ≡ list_any (tests.same name.now) names.now }
{
    for other in names {
        if *name == *other {
            return true;
        }
    }
    false
}

fn some_under(names: &[Str], collects: &[Collect]) -> bool
    ensures { result ≡ list_any (tests.is_under names.now) (map collect_of collects.now) }
{
    for collect in collects {
        if is_among(names, &collect.collection) {
            return true;
        }
    }
    false
}

fn names_term(function: &Str, block: &QueryBlock) -> bool
    ensures { result ≡ tests.names_term function.now (body_of block.now) }
{
    some_term(function, block.creates.as_slice())
        || some_end(function, block.links.as_slice())
        || some_put(function, block.collects.as_slice())
}

fn is_read(function: &Str, reads: &Reads, block: &QueryBlock) -> bool
    ensures { result ≡ tests.is_read function.now reads.now.own.items reads.now.others.items
        reads.now.collections.items (body_of block.now) }
{
    some_own_link(function, reads.own.as_slice(), block.links.as_slice())
        || some_link(reads.others.as_slice(), block.links.as_slice())
        || some_under(reads.collections.as_slice(), block.collects.as_slice())
}

/// Whether the pages of the function, whose template reads so, rest on the block.
pub fn rests_on(function: &Str, reads: &Reads, block: &QueryBlock) -> bool
    ensures { result ≡ tests.rests_on function.now reads.now.own.items reads.now.others.items
        reads.now.collections.items (body_of block.now) }
{
    names_term(function, block) || is_read(function, reads, block)
}
