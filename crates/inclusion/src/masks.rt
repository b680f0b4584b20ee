// The tables of a second automaton as sets of its positions, one bit for each, against those of a
// first one.

ghost use Rattle.std.specs.Prelude.{◌≡◌, ℕ, ◌^◌, ◌<◌, ◌≤◌, ◌↔◌, IsTrue, IfOk, length, slice_index};
ghost use Rattle.std.specs.Option.{option_copied};
ghost use Rattle.automaton.specs.PositionSet.{Has};
ghost use Rattle.automaton.specs.Table.{row};
ghost use Rattle.inclusion.specs.Masks.{Bit, Covers, CoversAt, IsMasks, IsReach};

use automaton::{Automaton, PositionSet};
use sd_value::{NoMemory, Str};
use std::alloc::Global;

/// What the second automaton may do.
#[derive(Drop)]
pub struct Masks {
    /// Where a word may begin.
    pub first: u32,
    /// Where a word may end.
    pub last: u32,
    /// For each of its positions those that may stand right after it.
    pub next: Vec<u32>,
    /// For each position of the first automaton those of the second that read all that it reads.
    pub covers: Vec<u32>,
}

// The positions of the set that are below the count.
fn mask_of(set: &PositionSet, count: u32) -> u32
    requires { count ≤ 16 }
    ensures below { result < 2 ^ count }
    ensures bits { (i : ℕ) → Bit result i ↔ ((i < count) × Has set.now i) }
{
    let mut mask = 0;
    for i in 0..count {
        if set.contains(i) {
            mask |= 1 << i;
        }
    }
    mask
}

// Whether all that may stand where the first letter stands may stand where the other does.
fn is_covered(letter: Option<&Str>, other: Option<&Str>) -> bool
    ensures { IsTrue result ↔ Covers (option_copied letter.entry) (option_copied other.entry) }
{
    match other {
        None => true,
        Some(l) => match letter {
            None => false,
            Some(k) => k.bytes() == l.bytes(),
        },
    }
}

// The positions of the second that read all that the first reads at one.
fn covers_of(a: &Automaton, p: u32, b: &Automaton) -> u32
    requires place { p < length a.now.letters }
    requires few { length b.now.letters ≤ 16 }
    ensures below { result < 2 ^ length b.now.letters }
    ensures bits { (i : ℕ) → Bit result i ↔ CoversAt a.now.letters p b.now.letters i }
{
    let letter = a.letter(p);
    let mut mask = 0;
    for i in 0..b.positions() {
        if is_covered(letter, b.letter(i)) {
            mask |= 1 << i;
        }
    }
    mask
}

/// The position alone.
pub fn alone(p: u32) -> PositionSet
    requires { p < 256 }
    ensures { (q : ℕ) → Has result q ↔ (q ≡ p) }
{
    let mut set = PositionSet::new();
    set.insert(p);
    set
}

fn next_of(alloc: Global, b: &Automaton) -> Result<Vec<u32>, NoMemory>
    requires { length b.now.letters ≤ 16 }
    ensures len { IfOk result (λ next. length next.items ≡ length b.now.letters) }
    ensures bits { IfOk result (λ next. (r i : ℕ) → r < length b.now.letters
        → Bit (slice_index next.items r) i ↔ ((i < length b.now.letters)
        × Has (row b.now.next r) i)) }
{
    let mut next = Vec::new(alloc);
    for r in 0..b.positions() {
        next.push(mask_of(&b.after(&alone(r)), b.positions()))?;
    }
    Ok(next)
}

fn all_covers(alloc: Global, a: &Automaton, b: &Automaton) -> Result<Vec<u32>, NoMemory>
    requires { length b.now.letters ≤ 16 }
    ensures len { IfOk result (λ covers. length covers.items ≡ length a.now.letters) }
    ensures below { IfOk result (λ covers. (p : ℕ) → p < length a.now.letters
        → slice_index covers.items p < 2 ^ length b.now.letters) }
    ensures bits { IfOk result (λ covers. (p i : ℕ) → p < length a.now.letters
        → Bit (slice_index covers.items p) i ↔ CoversAt a.now.letters p b.now.letters i) }
{
    let mut covers = Vec::new(alloc);
    for p in 0..a.positions() {
        covers.push(covers_of(a, p, b))?;
    }
    Ok(covers)
}

/// What the second automaton may do, beside what the first reads.
pub fn masks_of(alloc: Global, a: &Automaton, b: &Automaton) -> Result<Masks, NoMemory>
    requires { length b.now.letters ≤ 16 }
    ensures { IfOk result (λ masks. IsMasks a.now b.now masks) }
{
    let next = next_of(alloc, b)?;
    let covers = all_covers(alloc, a, b)?;
    Ok(Masks {
        first: mask_of(&b.begins(), b.positions()),
        last: mask_of(&b.endings(), b.positions()),
        next,
        covers,
    })
}

/// The positions right after one of the set.
pub fn reach_of(next: &Vec<u32>, set: u32) -> u32
    requires { length next.now.items ≤ 16 }
    ensures { IsReach next.now.items set result }
{
    let mut reach = 0;
    for r in 0..next.len() {
        if set >> r & 1 == 1 {
            reach |= next[r];
        }
    }
    reach
}
