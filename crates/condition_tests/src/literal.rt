//! Conditions with variables by number: what the search works on.
use crate::value_set::ValueSet;
use automaton::Automaton;
use query_spec::{Op, Test};
use sd_value::{Str, Value};

/// An end of a condition: a variable by its number in the chain, or a value.
#[derive(Drop)]
pub enum Slot {
    Variable(usize),
    Fixed(Value),
}

/// What one value may have.
#[derive(Drop)]
pub enum Property {
    Member(Str),
    OneOf(ValueSet),
    Kind(Test),
}

/// How two values may be related.
#[derive(Drop)]
pub enum Relation {
    Edge(Str),
    Walk(Automaton),
    Compare(Op),
}

/// A condition without `not`.
#[derive(Drop)]
pub enum Atom {
    One(Slot, Property),
    Two(Slot, Relation, Slot),
    /// An edge whose label is the variable of this number.
    Arc(Slot, usize, Slot),
}

/// An atom, or its negation.
#[derive(Drop)]
pub struct Literal {
    pub negated: bool,
    pub atom: Atom,
}

/// What a step of a plan asks: that a condition holds, or that the variable of that number has a value.
#[derive(Drop)]
pub enum Goal {
    Holds(Literal),
    Domain(usize),
}
