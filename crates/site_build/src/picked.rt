// Look-ups by halves in the ascending lists of a site's contents.
ghost use Rattle.std.specs.Prelude.{◌↔◌, Contains, IfOk, IsTrue, length};
ghost use Rattle.std.specs.List.Sorted.{IsStrictlySortedBy};
ghost use Rattle.sd_value.specs.Order.{bytes_cmp, term_cmp, value_cmp};
ghost use Rattle.sd_value.specs.Ascending.{ListsExactly};
ghost use Rattle.site_build.specs.Ordered.{joined_cmp, put_cmp};
ghost use Rattle.site_build.specs.Places.{at_link, at_name, at_term};
ghost use Rattle.site_build.specs.Ranges.{AreRanges, range_at};

use crate::ordered::{Joined, Put};
use crate::ranges::Range;
use indexmap::IndexMap;
use list_lookup::{Query, give_all, has, part};
use sd_value::{NoMemory, Str, Term, Value, copy};
use std::alloc::Global;
use std::cmp::Ordering;

#[derive(Debug, Drop)]
struct LinksFrom<'a> {
    from: &'a Term,
    label: &'a Str,
}

impl<'a> Query<Joined> for LinksFrom<'a> {
    type Given = Value;

    ghost at = { λ q j. at_link q.from.now q.label.now j };

    ghost gives = { λ j. j.to };

    fn place(&self, item: &Joined) -> Ordering {
        let by_page = item.from.cmp(self.from);
        if by_page.is_ne() {
            return by_page;
        }
        item.label.cmp(self.label)
    }

    fn give(&self, alloc: Global, item: &Joined) -> Result<Value, NoMemory> {
        copy(alloc, &item.to)
    }
}

#[derive(Debug, Drop)]
struct PutsUnder<'a> {
    name: &'a Str,
}

impl<'a> Query<Put> for PutsUnder<'a> {
    type Given = Value;

    ghost at = { λ q p. at_name q.name.now p };

    ghost gives = { λ p. p.value };

    fn place(&self, item: &Put) -> Ordering {
        item.collection.cmp(self.name)
    }

    fn give(&self, alloc: Global, item: &Put) -> Result<Value, NoMemory> {
        copy(alloc, &item.value)
    }
}

#[derive(Debug, Drop)]
struct TermAt<'a> {
    term: &'a Term,
}

impl<'a> Query<Term> for TermAt<'a> {
    type Given = Term;

    ghost at = { λ q t. at_term q.term.now t };

    ghost gives = { λ t. t };

    fn place(&self, item: &Term) -> Ordering {
        item.cmp(self.term)
    }

    fn give(&self, alloc: Global, item: &Term) -> Result<Term, NoMemory> {
        item.copy(alloc)
    }
}

/// Where the links lead from the page by the label. Only the range of the page's links is looked through.
pub fn ends_from(
    alloc: Global,
    links: &[Joined],
    ranges: &IndexMap<Term, Range>,
    from: &Term,
    label: &Str,
) -> Result<Vec<Value>, NoMemory>
    requires ascending { IsStrictlySortedBy joined_cmp links.now }
    requires ranges { AreRanges links.now (length links.now) (range_at ranges.now) }
    ensures { IfOk result (λ vs. ListsExactly value_cmp (λ v. Contains links.now (record {
      from = from.now;
      label = label.now;
      to = v;
    })) vs.items) }
{
    let Some(range) = ranges.get(from) else {
        return Ok(Vec::new(alloc));
    };
    let query = LinksFrom { from, label };
    let near = &links[range.start..range.stop];
    give_all(alloc, part(near, &query), &query)
}

/// The values that are put under the name.
pub fn put_values(alloc: Global, puts: &[Put], name: &Str) -> Result<Vec<Value>, NoMemory>
    requires { IsStrictlySortedBy put_cmp puts.now }
    ensures { IfOk result (λ vs. ListsExactly value_cmp (λ v. Contains puts.now (record {
      collection = name.now;
      value = v;
    })) vs.items) }
{
    let query = PutsUnder { name };
    give_all(alloc, part(puts, &query), &query)
}

/// Whether the term is among the terms.
pub fn has_term(terms: &[Term], term: &Term) -> bool
    requires { IsStrictlySortedBy term_cmp terms.now }
    ensures { IsTrue result ↔ Contains terms.now term.now }
{
    has(terms, &TermAt { term })
}
