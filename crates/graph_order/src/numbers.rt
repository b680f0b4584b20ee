// The members with their numbers, in the order of their nodes.
ghost use Rattle.std.specs.Prelude.{◌≡◌, ◌<◌, ◌^◌, IfOk, refl, length, take, Contains};
ghost use Rattle.std.specs.Option.{option_copied};
ghost use Rattle.std.specs.Ordering.{eq_by_cmp, as_partial_cmp};
ghost use Rattle.std.specs.Cmp.{partial_equiv_from_equiv, eq_by_cmp_equiv};
ghost use Rattle.std.specs.Cmp.{partial_order_from_agreeing_total};
ghost use Rattle.sd_value.specs.Ascending.{ListsExactly};
ghost use Rattle.graph_order.specs.Numbers.{numbers_from, name_before, numbered_cmp};
ghost use Rattle.graph_order.specs.Numbers.{numbered_cmp-total, numbered_cmp-exact};

use sd_value::{ExactOrd, NoMemory, Str, sort_and_dedup};
use std::alloc::Global;
use std::cmp::Ordering;

/// A member, and how many are before it in the order.
#[derive(Debug, Drop)]
pub(crate) struct Numbered {
    pub(crate) node: Str,
    pub(crate) number: usize,
}

impl PartialEq for Numbered {
    ghost eq = { eq_by_cmp numbered_cmp };

    ghost laws = { partial_equiv_from_equiv (eq_by_cmp_equiv numbered_cmp-total) };

    fn eq(&self, other: &Numbered) -> bool {
        self.cmp(other).is_eq()
    }
}

impl Eq for Numbered {
    ghost laws = { eq_by_cmp_equiv numbered_cmp-total };
}

impl PartialOrd for Numbered {
    ghost partial_cmp = { as_partial_cmp numbered_cmp };

    ghost laws = { partial_order_from_agreeing_total numbered_cmp numbered_cmp-total (λ a b. refl)
        (λ a b. refl) };

    fn partial_cmp(&self, other: &Numbered) -> Option<Ordering> {
        Some(self.cmp(other))
    }
}

impl Ord for Numbered {
    ghost cmp = { numbered_cmp };

    ghost total = { numbered_cmp-total };

    ghost matches_partial_cmp = { λ a b. refl };

    ghost matches_eq = { λ a b. refl };

    fn cmp(&self, other: &Numbered) -> Ordering {
        let by_number = self.number.cmp(&other.number);
        self.node.cmp(&other.node).then(by_number)
    }
}

impl ExactOrd for Numbered {
    ghost exact = { numbered_cmp-exact };
}

fn with_numbers(alloc: Global, names: &[Str]) -> Result<Vec<Numbered>, NoMemory>
    ensures { IfOk result (λ ms. ms.items ≡ numbers_from 0 names.now) }
{
    let mut members = Vec::with_capacity(alloc, names.len())?;
    for number in 0..names.len() {
        let node = names[number].copy(alloc)?;
        members.push(Numbered { node, number })?;
    }
    Ok(members)
}

/// The names with their numbers. The edges of an order are put into a graph by node, since those that come in order
/// nearly cost least there.
pub(crate) fn by_node(alloc: Global, names: &[Str]) -> Result<Vec<Numbered>, NoMemory>
    ensures { IfOk result (λ ms.
        ListsExactly numbered_cmp (Contains (numbers_from 0 names.now)) ms.items) }
{
    let mut members = with_numbers(alloc, names)?;
    sort_and_dedup(&mut members);
    Ok(members)
}

/// The name before that of a number.
pub(crate) fn name_before(names: &[Str], number: usize) -> Option<&Str>
    ensures { option_copied result ≡ name_before names.now number }
{
    if number == 0 {
        return None;
    }
    names.get(number - 1)
}
