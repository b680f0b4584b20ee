// A word that the search found, by the pairs that led to its end.

ghost use Rattle.std.specs.Prelude.{◌≡◌, ◌<◌, IfOk, Option, Some, length, slice_get};
ghost use Rattle.rpe.specs.Regex.{Label};
ghost use Rattle.automaton.specs.Table.{HasWord};
ghost use Rattle.inclusion.specs.Spelled.{IsUnnamed, filled, IsTrail};

use crate::search::Pair;
use automaton::Automaton;
use sd_value::{NoMemory, Str};
use std::alloc::Global;

// A label that none of the automaton's letters is: it is longer than each.
fn unnamed_label(alloc: Global, b: &Automaton) -> Result<Str, NoMemory>
    ensures { IfOk result (IsUnnamed b.now.letters) }
{
    let mut longest = 0;
    for p in 0..b.positions() {
        if let Some(label) = b.letter(p) {
            longest = longest.max(label.bytes().len());
        }
    }
    let bytes = vec![in alloc; b'x'; longest + 1]?;
    Str::of(alloc, bytes)
}

// The label at the position, or the other where any label may stand.
fn label_at(alloc: Global, a: &Automaton, p: u32, other: &Str) -> Result<Str, NoMemory>
    requires { p < length a.now.letters }
    ensures { IfOk result (λ label. (k : Option Label) × (slice_get a.now.letters p ≡ Some k)
        × (label ≡ filled k other.now)) }
{
    match a.letter(p) {
        None => other.copy(alloc),
        Some(label) => label.copy(alloc),
    }
}

/// The word that led to the pair at the place, at which the first automaton may end and the second may not.
pub fn spelled(
    alloc: Global,
    a: &Automaton,
    b: &Automaton,
    order: &Vec<Pair>,
    from: &Vec<usize>,
    end: usize,
) -> Result<Vec<Str>, NoMemory>
    requires { IsTrail a.now b.now order.now.items from.now.items end }
    ensures { IfOk result (λ word. HasWord a.now word.items × ¬ (HasWord b.now word.items)) }
{
    let other = unnamed_label(alloc, b)?;
    let mut word = Vec::new(alloc);
    let mut place = end;
    while from[place] > 0 {
        word.push(label_at(alloc, a, order[place].position, &other)?)?;
        place = from[place] - 1;
    }
    word.push(label_at(alloc, a, order[place].position, &other)?)?;
    word.reverse();
    Ok(word)
}
