//! What a page in hand knows already, by key.
ghost use Rattle.std.specs.Prelude.{◌≡◌, [], Contains, MatchOption, MatchResult, true};
ghost use Rattle.std.specs.Map.{keys_of};
ghost use Rattle.click_time.specs.Keys.{name_key, term_key, value_key, edge_key};
ghost use Rattle.click_time.specs.Known.{Puts};

use indexmap::IndexMap;
use sd_value::{NoMemory, Str, Term, Value};
use std::alloc::{AllocFailed, Global};
use std::hash::Hash;

/// Keys of which no two that differ are called equal.
pub(crate) trait ExactKey: Eq + Hash {
    ghost exact: { (x y : Self) → Self.eq x y ≡ true → x ≡ y };
}

impl ExactKey for Str {
    ghost exact = { name_key };
}

impl ExactKey for Term {
    ghost exact = { term_key };
}

impl ExactKey for Value {
    ghost exact = { value_key };
}

impl ExactKey for (Value, Str) {
    ghost exact = { edge_key };
}

/// What was reported by key. A key without an answer was asked, and memory was wanted.
#[derive(Drop)]
pub(crate) struct Known<K: ExactKey, T> {
    told: IndexMap<K, Option<T>>,
}

impl<K: ExactKey + Drop, T: Drop> Known<K, T> {
    /// Nothing was asked.
    pub(crate) fn new(alloc: Global) -> Known<K, T>
        ensures { result.told.entries ≡ [] }
    {
        Known {
            told: IndexMap::new(alloc),
        }
    }

    /// What the key has, where it was asked.
    pub(crate) fn find(&self, key: &K) -> Option<&Option<T>>
        ensures { MatchOption result (Contains (keys_of self.now.told.entries) key.now → ⊥)
            (λ t. Contains self.now.told.entries (key.now, t.now)) }
    {
        match self.told.get(key) {
            Some(told) => Some(told),
            None => None,
        }
    }

    /// Gives the key this in place of what it had.
    pub(crate) fn put(&mut self, key: K, told: Option<T>) -> Result<(), NoMemory>
        ensures { MatchResult result
            (λ _. Puts key told self.old.told.entries self.new.told.entries)
            (λ _. self.new.told.entries ≡ self.old.told.entries) }
    {
        match self.told.insert(key, told) {
            Ok(_old) => Ok(()),
            Err(AllocFailed { value: _refused }) => Err(NoMemory),
        }
    }
}
