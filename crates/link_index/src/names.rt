//! Sets of names.

ghost use Rattle.std.specs.Prelude.{◌≡◌, ◌↔◌, ℕ, List, IsTrue, Contains};

use sd_value::{Str, sort_and_dedup};
use std::marker::Model;

/// A set of names.
#[derive(Drop)]
pub struct NameSet {
    items: Vec<Str>,
}

impl Model for NameSet {
    ghost use Rattle.std.specs.Prelude.{ℕ, List};
    ghost use Rattle.std.specs.List.Sorted.{IsStrictlySortedBy};
    ghost use Rattle.sd_value.specs.Order.{bytes_cmp};

    ghost Value = { List (List ℕ) };

    ghost view = { λ s. s.items.items };

    ghost invariant = { λ s. IsStrictlySortedBy bytes_cmp s.items.items };
}

impl NameSet {
    /// The set of these names.
    pub fn of(items: Vec<Str>) -> NameSet
        ensures { (name : List ℕ) → Contains result name ↔ Contains items.items name }
    {
        let mut items = items;
        sort_and_dedup(&mut items);
        NameSet { items }
    }

    /// The names, ascending, each once.
    pub fn items(&self) -> &[Str]
        ensures { result.now ≡ self.now }
    {
        self.items.as_slice()
    }

    /// Whether the name is in the set.
    pub fn has(&self, name: &Str) -> bool
        ensures { IsTrue result ↔ Contains self.now name.now }
    {
        self.items.binary_search(name).is_ok()
    }
}
