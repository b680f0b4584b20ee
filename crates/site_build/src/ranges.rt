// Where the links from each page are in a list of links, so that they are found by the page's hash.
ghost use Rattle.std.specs.Prelude.{◌≡◌, ◌<◌, ◌+◌, Some, IfOk, OnOk, cond, length};
ghost use Rattle.std.specs.Option.{option_copied};
ghost use Rattle.std.specs.Ordering.{eq_by_cmp};
ghost use Rattle.sd_value.specs.declared.Term.{Term as AnyTerm};
ghost use Rattle.sd_value.specs.Order.{term_cmp};
ghost use Rattle.site_build.specs.Ranges as specs;

use crate::ordered::Joined;
use indexmap::IndexMap;
use sd_value::{NoMemory, Term};
use std::alloc::Global;

/// A part of a list: the place of its first item, and the one behind its last.
#[derive(Clone, Copy, Debug)]
pub struct Range {
    pub start: usize,
    pub stop: usize,
}

fn start_of(range: Option<&Range>, place: usize) -> usize
    ensures { result ≡ specs.start_of (option_copied range.entry) place }
{
    match range {
        Some(range) => range.start,
        None => place,
    }
}

// Adds the place of a link from the page. It lies behind all that were added before.
fn add_place(
    alloc: Global,
    ranges: &mut IndexMap<Term, Range>,
    from: &Term,
    place: usize,
) -> Result<(), NoMemory>
    requires { place < usize.MAX }
    ensures { OnOk result ((t : AnyTerm) → specs.range_at ranges.new t
        ≡ cond (eq_by_cmp term_cmp from.now t) (Some (record {
          start = specs.start_of (specs.range_at ranges.old from.now) place;
          stop = place + 1;
        })) (specs.range_at ranges.old t)) }
{
    let start = start_of(ranges.get(from), place);
    let stop = place + 1;
    ranges.insert(from.copy(alloc)?, Range { start, stop })?;
    Ok(())
}

/// The range of each page that links start from.
pub(crate) fn ranges_of(alloc: Global, links: &[Joined]) -> Result<IndexMap<Term, Range>, NoMemory>
    ensures { IfOk result
        (λ ranges. specs.AreRanges links.now (length links.now) (specs.range_at ranges)) }
{
    let mut ranges = IndexMap::new(alloc);
    for place in 0..links.len() {
        add_place(alloc, &mut ranges, &links[place].from, place)?;
    }
    Ok(ranges)
}
