// The tables of an expression, and what they answer.

ghost use Rattle.std.specs.Prelude.{◌≡◌, ℕ, ◌<◌, ◌≤◌, ◌↔◌, IsTrue, length, vec_len, IfOk, slice_get};
ghost use Rattle.std.specs.Option.{option_copied};
ghost use Rattle.rpe.specs.Regex.{Word};
ghost use Rattle.rpe.specs.Language.{InLanguage, positions};
ghost use Rattle.rpe.specs.Reading.{regex_of};
ghost use Rattle.automaton.specs.PositionSet.{Has};
ghost use Rattle.automaton.specs.Positions.{Fits, ReadsIn};
ghost use Rattle.automaton.specs.Table.{row, HasWord, StandsFor};

use crate::build::{add, count_positions, transposed};
use crate::position_set::{MAX_POSITIONS, PositionSet};
use rpe::Rpe;
use sd_value::{NoMemory, Str};
use std::alloc::Global;
use std::marker::Model;

/// The tables of a path expression. Positions are numbered from 0, from the left.
#[derive(Debug)]
pub struct Automaton {
    letters: Vec<Option<Str>>,
    has_empty: bool,
    first: PositionSet,
    last: PositionSet,
    next: Vec<PositionSet>,
    // The same turned around: for each position those that it may follow.
    previous: Vec<PositionSet>,
}

// Written out, so that it is proved here once, and not again in each crate that drops one.
impl Drop for Automaton {
    fn drop(self) {
        let Automaton {
            letters: _letters,
            has_empty: _has_empty,
            first: _first,
            last: _last,
            next: _next,
            previous: _previous,
        } = self;
    }
}

impl Model for Automaton {
    ghost use Rattle.std.specs.Prelude.{◌≡◌, ◌≤◌, length};
    ghost use Rattle.automaton.specs.Table.{Table, IsTurned};

    ghost Value = { Table };

    ghost view = { λ a. record {
      letters = a.letters.items;
      has_empty = a.has_empty;
      first = a.first;
      last = a.last;
      next = a.next.items;
    } };

    ghost invariant = { λ a. (length a.next.items ≡ length a.letters.items)
        × (length a.previous.items ≡ length a.letters.items)
        × (length a.letters.items ≤ 256) × IsTurned a.next.items a.previous.items };
}

/// Why an expression has no automaton.
#[derive(Clone, Copy, Debug, PartialEq, Eq)]
pub enum RpeRefusal {
    /// Labels and wildcards together are in it more than 256 times.
    TooManyPositions,
    /// Out of memory.
    NoMemory,
}

// Whether the label may be where the letter is.
fn fits(letter: &Option<Str>, label: &Str) -> bool
    ensures { IsTrue result ↔ Fits letter.now label.now }
{
    match letter {
        None => true,
        Some(k) => k.bytes() == label.bytes(),
    }
}

// The union of the rows at the positions of the set.
fn union_of(rows: &Vec<PositionSet>, set: &PositionSet) -> PositionSet
    requires { vec_len rows.now ≤ 256 }
    ensures { (q : ℕ) → Has result q ↔ ((p : ℕ) × Has set.now p × Has (row rows.now.items p) q) }
{
    let mut union = PositionSet::new();
    for p in 0..rows.len() {
        if set.contains(p as u32) {
            union.add_all(&rows[p]);
        }
    }
    union
}

impl Automaton {
    /// The automaton whose words are those of the expression. An expression in which labels and wildcards together are
    /// more than 256 times is refused, before any memory is asked for.
    pub fn of(alloc: Global, expression: &Rpe) -> Result<Automaton, RpeRefusal>
        ensures words { IfOk result
            (λ a. (w : Word) → HasWord a w ↔ InLanguage (regex_of expression.now) w) }
        ensures positions { IfOk result
            (λ a. length a.letters ≡ positions (regex_of expression.now)) }
        ensures too_many { (result ≡ Err RpeRefusal.TooManyPositions)
            ↔ (256 < positions (regex_of expression.now)) }
    {
        if count_positions(expression) > MAX_POSITIONS {
            return Err(RpeRefusal::TooManyPositions);
        }
        match Automaton::build(alloc, expression) {
            Ok(automaton) => Ok(automaton),
            Err(NoMemory) => Err(RpeRefusal::NoMemory),
        }
    }

    // The automaton of an expression with few enough positions.
    fn build(alloc: Global, expression: &Rpe) -> Result<Automaton, NoMemory>
        requires { positions (regex_of expression.now) ≤ 256 }
        ensures { IfOk result (λ a. StandsFor a (regex_of expression.now)) }
    {
        let mut letters = Vec::new(alloc);
        let mut next = Vec::new(alloc);
        let ends = add(alloc, expression, &mut letters, &mut next)?;
        let previous = transposed(alloc, &next)?;
        Ok(Automaton {
            letters,
            has_empty: ends.has_empty,
            first: ends.first,
            last: ends.last,
            next,
            previous,
        })
    }

    /// The number of positions.
    pub fn positions(&self) -> u32
        ensures value { result ≡ length self.now.letters }
        ensures bound { result ≤ 256 }
    {
        self.letters.len() as u32
    }

    /// Whether the empty word is one of the automaton's.
    pub fn has_empty(&self) -> bool
        ensures { result ≡ self.now.has_empty }
    {
        self.has_empty
    }

    /// Whether a word may begin at the position.
    pub fn first(&self, p: u32) -> bool
        requires { p < length self.now.letters }
        ensures { IsTrue result ↔ Has self.now.first p }
    {
        let _letters = &self.letters;
        self.first.contains(p)
    }

    /// Whether a word may end at the position.
    pub fn last(&self, p: u32) -> bool
        requires { p < length self.now.letters }
        ensures { IsTrue result ↔ Has self.now.last p }
    {
        let _letters = &self.letters;
        self.last.contains(p)
    }

    /// Whether `q` may be right after `p`.
    pub fn follows(&self, p: u32, q: u32) -> bool
        requires p { p < length self.now.letters }
        requires q { q < length self.now.letters }
        ensures { IsTrue result ↔ Has (row self.now.next p) q }
    {
        self.next[p as usize].contains(q)
    }

    /// The label at the position, or none for a wildcard.
    pub fn letter(&self, p: u32) -> Option<&Str>
        requires { p < length self.now.letters }
        ensures { slice_get self.now.letters p ≡ Some (option_copied result) }
    {
        self.letters[p as usize].as_ref()
    }

    /// Whether the word is one of the automaton's.
    pub fn accepts(&self, word: &[Str]) -> bool
        ensures { IsTrue result ↔ HasWord self.now word.now }
    {
        if word.is_empty() {
            return self.has_empty;
        }
        let mut current = self.reading(&self.begins(), &word[0]);
        for k in 1..word.len() {
            let reach = self.after(&current);
            current = self.reading(&reach, &word[k]);
        }
        current.meets(&self.last)
    }

    /// The positions at which a word may begin.
    pub fn begins(&self) -> PositionSet
        ensures { result ≡ self.now.first }
    {
        self.first
    }

    /// The positions at which a word may end.
    pub fn endings(&self) -> PositionSet
        ensures { result ≡ self.now.last }
    {
        self.last
    }

    /// Whether a word may begin at one of the positions.
    pub fn starts(&self, set: &PositionSet) -> bool
        ensures { IsTrue result ↔ ((p : ℕ) × Has set.now p × Has self.now.first p) }
    {
        set.meets(&self.first)
    }

    /// Whether a word may end at one of the positions.
    pub fn ends(&self, set: &PositionSet) -> bool
        ensures { IsTrue result ↔ ((p : ℕ) × Has set.now p × Has self.now.last p) }
    {
        set.meets(&self.last)
    }

    /// The positions that may be right after one of the set.
    pub fn after(&self, set: &PositionSet) -> PositionSet
        ensures { (q : ℕ) → Has result q ↔ ((p : ℕ) × Has set.now p × Has (row self.now.next p) q) }
    {
        union_of(&self.next, set)
    }

    /// The positions that may be right before one of the set.
    pub fn before(&self, set: &PositionSet) -> PositionSet
        ensures { (p : ℕ) → Has result p ↔ ((q : ℕ) × Has set.now q × Has (row self.now.next p) q) }
    {
        union_of(&self.previous, set)
    }

    /// The positions of the set at which the label may be.
    pub fn reading(&self, set: &PositionSet, label: &Str) -> PositionSet
        ensures { (q : ℕ) → Has result q ↔ (Has set.now q × ReadsIn self.now.letters q label.now) }
    {
        let mut kept = PositionSet::new();
        for p in 0..self.letters.len() {
            if set.contains(p as u32) && fits(&self.letters[p], label) {
                kept.insert(p as u32);
            }
        }
        kept
    }
}
