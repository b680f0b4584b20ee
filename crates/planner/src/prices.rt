//! Counts by name, so that each condition is priced by one look-up.
ghost use Rattle.std.specs.Prelude.{◌≡◌, IfOk};
ghost use Rattle.planner.specs.Prices.{CountsAs, IsPriced, count_in};

use plan_spec::{Counted, Counts};
use sd_value::{NoMemory, Str};
use std::alloc::Global;
use std::collections::BTreeMap;

/// Counts, and the same by name.
#[derive(Drop)]
pub(crate) struct Prices<'a> {
    pub(crate) counts: &'a Counts,
    pub(crate) labels: BTreeMap<Str, u64>,
    pub(crate) collections: BTreeMap<Str, u64>,
}

// The counts by name: of each name the first. They are entered from the last one on, so that it stays.
fn by_name(alloc: Global, counted: &[Counted]) -> Result<BTreeMap<Str, u64>, NoMemory>
    ensures { IfOk result (CountsAs counted.now) }
{
    let mut counts = BTreeMap::new(alloc);
    let mut rest = counted.len();
    while rest > 0 {
        rest -= 1;
        let entry = &counted[rest];
        let name = entry.name.copy(alloc)?;
        counts.insert(name, entry.count)?;
    }
    Ok(counts)
}

/// The counts, and the same by name.
pub(crate) fn priced<'a>(alloc: Global, counts: &'a Counts) -> Result<Prices<'a>, NoMemory>
    ensures priced { IfOk result (λ prices. IsPriced prices.counts.now prices.labels
        prices.collections) }
    ensures counts { IfOk result (λ prices. prices.counts.now ≡ counts.now) }
{
    let labels = by_name(alloc, counts.labels.as_slice())?;
    let collections = by_name(alloc, counts.collections.as_slice())?;
    Ok(Prices {
        counts,
        labels,
        collections,
    })
}

/// The count of that name.
pub(crate) fn count_in(counts: &BTreeMap<Str, u64>, name: &Str) -> u64
    ensures { result ≡ count_in counts.now name.now }
{
    match counts.get(name) {
        Some(count) => *count,
        None => 0,
    }
}
