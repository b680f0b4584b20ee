// Steps of a walk, seen from its start or from its end.

ghost use Rattle.std.specs.Prelude.{ℕ, ◌≡◌, ◌↔◌, IfOk, IsTrue, Contains};
ghost use Rattle.sd_value.specs.declared.Value.{Value as AnyValue};
ghost use Rattle.graph_spec.specs.DataGraph.{Name};
ghost use Rattle.automaton.specs.PositionSet.{Has};
ghost use Rattle.walks.specs.Directions.{Leaves, Opens, Closes, IsNext, origin};

use automaton::{Automaton, PositionSet};
use graph_spec::Step;
use sd_value::{NoMemory, Value};
use std::alloc::Global;
use store::Store;

/// The two ways to search for a walk.
#[derive(Clone, Copy)]
pub enum Direction {
    /// From the walk's start.
    Onward,
    /// From the walk's end.
    Backward,
}

impl Direction {
    /// The value at which a search on this way for a walk from the one to the other begins.
    pub fn origin<'a>(self, start: &'a Value, end: &'a Value) -> &'a Value
        ensures { result.now ≡ origin self start.now end.now }
    {
        match self {
            Direction::Onward => start,
            Direction::Backward => end,
        }
    }

    // The edges that lead on from the value.
    pub(crate) fn leaving<S: Store>(
        self,
        alloc: Global,
        store: &S,
        value: &Value,
    ) -> Result<Vec<Step>, NoMemory>
        ensures { IfOk result (λ steps. (label : Name) (end : AnyValue) →
            Contains steps.items (record {
              label = label;
              end = end;
            }) ↔ Leaves (S.graph store.now) self value.now label end) }
    {
        match self {
            Direction::Onward => store.out_all(alloc, value),
            Direction::Backward => store.incoming(alloc, value),
        }
    }

    // The positions that read a walk's first label on this way.
    pub(crate) fn opening(self, automaton: &Automaton) -> PositionSet
        ensures { (p : ℕ) → Has result p ↔ Opens automaton.now self p }
    {
        match self {
            Direction::Onward => automaton.begins(),
            Direction::Backward => automaton.endings(),
        }
    }

    // The positions that may read the next label after one of the set.
    pub(crate) fn next(self, automaton: &Automaton, set: &PositionSet) -> PositionSet
        ensures { (q : ℕ) → Has result q
            ↔ ((p : ℕ) × Has set.now p × IsNext automaton.now self p q) }
    {
        match self {
            Direction::Onward => automaton.after(set),
            Direction::Backward => {
                let earlier = automaton.before(set);
                earlier
            }
        }
    }

    // Whether one of the positions may read a walk's last label on this way.
    pub(crate) fn closes(self, automaton: &Automaton, set: &PositionSet) -> bool
        ensures { IsTrue result ↔ ((p : ℕ) × Has set.now p × Closes automaton.now self p) }
    {
        match self {
            Direction::Onward => automaton.ends(set),
            Direction::Backward => automaton.starts(set),
        }
    }
}
