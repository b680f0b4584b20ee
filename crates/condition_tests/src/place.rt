// What is known of a condition's ends.
ghost use Rattle.std.specs.Prelude.{◌≡◌, ◌<◌, MatchOption, length, None, Some, slice_get};
ghost use Rattle.condition_tests.specs.Places.{IsKnown, IsFree, PlaceInRange, AtomInRange, IsWhole, IsGround};

use crate::literal::{Atom, Slot};
use sd_value::Value;

/// The value of a variable, if it has one yet.
pub fn value_of(slot: usize, current: &[Option<Value>]) -> Option<&Value>
    requires { slot < length current.now }
    ensures { MatchOption result (slice_get current.now slot ≡ Some None)
        (λ v. slice_get current.now slot ≡ Some (Some v.now)) }
{
    current[slot].as_ref()
}

/// The value at a place, if it is known.
pub fn known<'a>(place: &'a Slot, current: &'a [Option<Value>]) -> Option<&'a Value>
    requires { PlaceInRange (length current.now) place.now }
    ensures { MatchOption result (IsFree place.now current.now)
        (λ v. IsKnown place.now current.now v.now) }
{
    match place {
        Slot::Variable(slot) => value_of(*slot, current),
        Slot::Fixed(value) => Some(value),
    }
}

/// The variable at a place, if it has no value yet.
pub fn free_at(place: &Slot, current: &[Option<Value>]) -> Option<usize>
    requires { PlaceInRange (length current.now) place.now }
    ensures { MatchOption result (IsWhole place.now current.now)
        (λ k. (place.now ≡ Slot.Variable k) × (slice_get current.now k ≡ Some None)) }
{
    match place {
        Slot::Variable(slot) => match value_of(*slot, current) {
            Some(_) => None,
            None => Some(*slot),
        },
        Slot::Fixed(_) => None,
    }
}

/// A variable of the atom with no value yet.
pub fn free_slot(atom: &Atom, current: &[Option<Value>]) -> Option<usize>
    requires { AtomInRange (length current.now) atom.now }
    ensures { MatchOption result (IsGround atom.now current.now)
        (λ k. slice_get current.now k ≡ Some None) }
{
    match atom {
        Atom::One(place, _) => free_at(place, current),
        Atom::Two(from, _, to) => match free_at(from, current) {
            Some(slot) => Some(slot),
            None => free_at(to, current),
        },
        Atom::Arc(from, arc, to) => match free_at(from, current) {
            Some(slot) => Some(slot),
            None => match value_of(*arc, current) {
                Some(_) => free_at(to, current),
                None => Some(*arc),
            },
        },
    }
}
