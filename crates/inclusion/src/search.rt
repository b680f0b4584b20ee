// The search for a word of one automaton that another has not, over pairs of a position of the first and the set of
// positions of the second that the same letters lead to.

ghost use Rattle.std.specs.Prelude.{◌≡◌, ℕ, ◌+◌, ◌*◌, ◌^◌, ◌<◌, ◌≤◌, ◌↔◌, IsTrue, IfOk, MatchOption, length, slice_index, bit_and};
ghost use Rattle.rpe.specs.Regex.{Word};
ghost use Rattle.automaton.specs.PositionSet.{Has};
ghost use Rattle.automaton.specs.Table.{HasWord};
ghost use Rattle.inclusion.specs.Search.{AreListed, IsPairOf, Grows, HasEach, Fills};

use crate::masks::{Masks, alone, masks_of, reach_of};
use crate::spelled::spelled;
use automaton::{Automaton, PositionSet};
use sd_value::{NoMemory, Str};
use std::alloc::Global;

/// A position of the first automaton, which a word's last letter so far stands at, and the positions of the second at
/// which it may stand.
#[derive(Clone, Copy)]
pub struct Pair {
    pub position: u32,
    pub set: u32,
}

// Adds the pair to the list where it isn't marked.
fn add_pair(
    marks: &mut Vec<bool>,
    order: &mut Vec<Pair>,
    width: usize,
    pair: Pair,
) -> Result<(), NoMemory>
    requires set { pair.set < width }
    requires width { width ≤ 65536 }
    requires position { pair.position < 16 }
    requires place { pair.position * width + pair.set < length marks.old.items }
    requires listed { AreListed width marks.old.items order.old.items }
    ensures listed { IfOk result (λ _. AreListed width marks.new.items order.new.items) }
    ensures grows { IfOk result (λ _. Grows (λ x. x ≡ pair) marks.old.items marks.new.items
        order.old.items order.new.items) }
    ensures here { IfOk result (λ _. HasEach (λ x. x ≡ pair) order.new.items) }
{
    let place = pair.position as usize * width + pair.set as usize;
    if !marks[place] {
        marks[place] = true;
        order.push(pair)?;
    }
    Ok(())
}

// Adds the pair of each position of the set, with those of the reached positions of the second that
// cover it.
fn add_pairs(
    a: &Automaton,
    positions: &PositionSet,
    reach: u32,
    masks: &Masks,
    marks: &mut Vec<bool>,
    order: &mut Vec<Pair>,
    width: usize,
) -> Result<(), NoMemory>
    requires few { length a.now.letters ≤ 16 }
    requires rows { length masks.now.covers.items ≡ length a.now.letters }
    requires sets { (p : ℕ) → p < length a.now.letters → slice_index masks.now.covers.items p <
        width }
    requires width { width ≤ 65536 }
    requires size { length marks.old.items ≡ width * length a.now.letters }
    requires listed { AreListed width marks.old.items order.old.items }
    ensures listed { IfOk result (λ _. AreListed width marks.new.items order.new.items) }
    ensures grows { IfOk result (λ _. Grows (IsPairOf (length a.now.letters) positions.now reach
        masks.now.covers.items)
        marks.old.items marks.new.items order.old.items order.new.items) }
    ensures each { IfOk result (λ _. HasEach (IsPairOf (length a.now.letters) positions.now reach
        masks.now.covers.items) order.new.items) }
{
    for p in 0..a.positions() {
        if positions.contains(p) {
            let set = reach & masks.covers[p as usize];
            add_pair(marks, order, width, Pair { position: p, set })?;
        }
    }
    Ok(())
}

// The number of sets of so many positions.
fn sets_of(count: u32) -> usize
    requires { count ≤ 16 }
    ensures value { result ≡ 2 ^ count }
    ensures bound { result ≤ 65536 }
{
    1 << count
}

// Whether a word may end at the pair in the first automaton, and not in the second.
fn ends_alone(a: &Automaton, masks: &Masks, pair: Pair) -> bool
    requires { pair.position < length a.now.letters }
    ensures { IsTrue result ↔ (Has a.now.last pair.position × (bit_and pair.set masks.now.last
        ≡ 0)) }
{
    a.last(pair.position) && pair.set & masks.last == 0
}

// Lengthens the list to so many numbers.
fn fill(from: &mut Vec<usize>, count: usize, number: usize) -> Result<(), NoMemory>
    requires { length from.old.items ≤ count }
    ensures { IfOk result (λ _. Fills from.old.items from.new.items count number) }
{
    for _k in from.len()..count {
        from.push(number)?;
    }
    Ok(())
}

/// A word of the first automaton that isn't one of the second, or none where each is.
pub fn missing_word(
    alloc: Global,
    a: &Automaton,
    b: &Automaton,
) -> Result<Option<Vec<Str>>, NoMemory>
    requires a { length a.now.letters ≤ 16 }
    requires b { length b.now.letters ≤ 16 }
    ensures { IfOk result (λ found. MatchOption found ((w : Word) → HasWord a.now w
        → HasWord b.now w)
        (λ word. HasWord a.now word.items × ¬ (HasWord b.now word.items))) }
{
    if a.has_empty() && !b.has_empty() {
        return Ok(Some(Vec::new(alloc)));
    }
    search(alloc, a, b)
}

// The same where the second has the empty word if the first has it.
fn search(alloc: Global, a: &Automaton, b: &Automaton) -> Result<Option<Vec<Str>>, NoMemory>
    requires a { length a.now.letters ≤ 16 }
    requires b { length b.now.letters ≤ 16 }
    requires empty { IsTrue a.now.has_empty → IsTrue b.now.has_empty }
    ensures { IfOk result (λ found. MatchOption found ((w : Word) → HasWord a.now w
        → HasWord b.now w)
        (λ word. HasWord a.now word.items × ¬ (HasWord b.now word.items))) }
{
    let masks = masks_of(alloc, a, b)?;
    let width = sets_of(b.positions());
    let mut marks = vec![in alloc; false; width * a.positions() as usize]?;
    let mut order = Vec::new(alloc);
    add_pairs(
        a,
        &a.begins(),
        masks.first,
        &masks,
        &mut marks,
        &mut order,
        width,
    )?;
    // For each pair of the list one more than the place of the pair that it follows, or 0 where it
    // begins.
    let mut from = Vec::new(alloc);
    fill(&mut from, order.len(), 0)?;
    let mut done = 0;
    while done < order.len() {
        let pair = order[done];
        if ends_alone(a, &masks, pair) {
            return Ok(Some(spelled(alloc, a, b, &order, &from, done)?));
        }
        let follow = a.after(&alone(pair.position));
        let reach = reach_of(&masks.next, pair.set);
        add_pairs(a, &follow, reach, &masks, &mut marks, &mut order, width)?;
        done += 1;
        fill(&mut from, order.len(), done)?;
    }
    Ok(None)
}
