//! The values that walks of a data graph join, over any store.
//!
//! The empty word joins every value with itself, also one that is not in the graph.
#![tactic(auto)]

ghost use Rattle.std.specs.Prelude.{◌↔◌};
ghost use Rattle.sd_value.specs.declared.Value.{Value as AnyValue};
ghost use Rattle.rpe.specs.Regex.{Regex, Word};
ghost use Rattle.rpe.specs.Language.{InLanguage};
ghost use Rattle.graph_spec.specs.DataGraph.{DataGraph};
ghost use Rattle.graph_spec.specs.Walk.{Walk};
ghost use Rattle.automaton.specs.Table.{Table, HasWord};
ghost use Rattle.walks.specs.Joins.{Joins};

mod direction;
mod search;

pub use direction::Direction;
pub use search::{Winner, joins, race, reach, within};

/// Where an automaton's words are those of an expression, as `Automaton::of` reports, its walks are the walks that spell a word of
/// the expression.
pub fn automata_join_what_expressions_join()
    ensures { (G : DataGraph) (t : Table) (r : Regex) (u v : AnyValue)
        → ((w : Word) → HasWord t w ↔ InLanguage r w)
        → Joins G t u v ↔ ((w : Word) × InLanguage r w × Walk G u w v) }
{}
