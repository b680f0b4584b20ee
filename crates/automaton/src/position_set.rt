//! Sets of positions.

ghost use Rattle.std.specs.Prelude.{◌≡◌, ℕ, true, false, ◌<◌, ◌⊎◌, ◌↔◌, IsTrue, IfOk, length};
ghost use Rattle.automaton.specs.PositionSet.{Has};

use std::marker::Model;

/// The most positions that an automaton has.
pub const MAX_POSITIONS: u32 = 256;

/// A set of positions below 256, one bit for each.
#[derive(Debug)]
pub struct PositionSet {
    words: [u64; 4],
}

impl Model for PositionSet {
    ghost use Rattle.std.specs.Prelude.{List, ℕ, length, ◌≡◌};

    ghost Value = { List ℕ };

    ghost view = { λ s. s.words };

    ghost invariant = { λ s. length s.words ≡ 4 };

    ghost inverse = { λ w. record { words = w } };
}

impl Clone for PositionSet {
    fn clone(&self) -> Result<PositionSet, std::alloc::AllocError>
        ensures { IfOk result (λ set. set ≡ self.now) }
    {
        Ok(*self)
    }
}

impl Copy for PositionSet {}

impl PositionSet {
    /// The empty set.
    pub fn new() -> PositionSet
        ensures { (p : ℕ) → ¬ (Has result p) }
    {
        PositionSet { words: [0; 4] }
    }

    /// Whether the position is in it.
    pub fn contains(&self, p: u32) -> bool
        requires { p < MAX_POSITIONS }
        ensures { IsTrue result ↔ Has self.now p }
    {
        self.words[(p / 64) as usize] >> (p % 64) & 1 == 1
    }

    /// Adds the position.
    pub fn insert(&mut self, p: u32)
        requires { p < MAX_POSITIONS }
        ensures { (q : ℕ) → Has self.new q ↔ ((q ≡ p) ⊎ Has self.old q) }
    {
        self.words[(p / 64) as usize] |= 1 << (p % 64);
    }

    /// Adds the positions of the other set.
    pub fn add_all(&mut self, other: &PositionSet)
        ensures { (q : ℕ) → Has self.new q ↔ (Has self.old q ⊎ Has other.now q) }
    {
        for k in 0..4 {
            self.words[k] |= other.words[k];
        }
    }

    /// Takes the positions of the other set out.
    pub fn remove_all(&mut self, other: &PositionSet)
        ensures { (q : ℕ) → Has self.new q ↔ (Has self.old q × ¬ (Has other.now q)) }
    {
        for k in 0..4 {
            self.words[k] &= !other.words[k];
        }
    }

    /// Whether the two sets have a position in common.
    pub fn meets(&self, other: &PositionSet) -> bool
        ensures { IsTrue result ↔ ((q : ℕ) × Has self.now q × Has other.now q) }
    {
        for k in 0..4 {
            if self.words[k] & other.words[k] != 0 {
                return true;
            }
        }
        false
    }

    /// Whether no position is in it.
    pub fn is_empty(&self) -> bool
        ensures none { result ≡ true → (q : ℕ) → ¬ (Has self.now q) }
        ensures some { result ≡ false → (q : ℕ) × Has self.now q }
    {
        !self.meets(self)
    }
}
