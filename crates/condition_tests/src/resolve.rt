// Conditions with names, made into goals with numbers.
ghost use Rattle.std.specs.Prelude.{◌≡◌, ◌≤◌, ℕ, length, map, IfOk, Contains};
ghost use Rattle.rpe.specs.Language.{positions};
ghost use Rattle.query_spec.specs.Mentions.{IsDeclared, condition_positions};
ghost use Rattle.query_spec.specs.Query.{path};
ghost use Rattle.rpe.specs.Reading.{regex_of};
ghost use Rattle.struql_ast.specs.Reading.{operand_of, step_of, condition_of};
ghost use Rattle.condition_tests.specs.Resolved.{IsPlaceOf, IsAtomOf, IsRelationOf, IsReady, IsPlain, StandsFor, step_declared, declared};
ghost use Rattle.condition_tests.specs.Places.{PlaceInRange, AtomInRange};

use crate::literal::{Atom, Goal, Literal, Property, Relation, Slot};
use crate::value_set::ValueSet;
use automaton::{Automaton, RpeRefusal};
use query_spec::{Variable, index_of};
use rpe::Rpe;
use sd_value::{NoMemory, copied_list, copy};
use std::alloc::Global;
use struql_ast::{Condition, Operand, PathStep};

// Where the operand's value is in a row.
fn place_of(alloc: Global, variables: &[Variable], operand: &Operand) -> Result<Slot, NoMemory>
    requires { IsDeclared variables.now (operand_of operand.now) }
    ensures place { IfOk result (λ p. IsPlaceOf variables.now (operand_of operand.now) p) }
    ensures in_range { IfOk result (λ p. PlaceInRange (length variables.now) p) }
{
    match operand {
        Operand::Variable(name, _) => {
            let slot = index_of(variables, name);
            Ok(Slot::Variable(slot))
        }
        Operand::Constant(value, _) => {
            let value = copy(alloc, value)?;
            Ok(Slot::Fixed(value))
        }
    }
}

// A label alone is looked up as an edge, and any other expression is walked.
fn relation_of(alloc: Global, expression: &Rpe) -> Result<Relation, NoMemory>
    requires { positions (regex_of expression.now) ≤ 256 }
    ensures { IfOk result (IsRelationOf (regex_of expression.now)) }
{
    match expression {
        Rpe::Label(label) => {
            let label = label.copy(alloc)?;
            Ok(Relation::Edge(label))
        }
        _ => match Automaton::of(alloc, expression) {
            Ok(automaton) => Ok(Relation::Walk(automaton)),
            Err(RpeRefusal::NoMemory) => Err(NoMemory),
            Err(RpeRefusal::TooManyPositions) => unreachable!(),
        },
    }
}

fn path_of(
    alloc: Global,
    variables: &[Variable],
    from: &Operand,
    step: &PathStep,
    to: &Operand,
) -> Result<Atom, NoMemory>
    requires from { IsDeclared variables.now (operand_of from.now) }
    requires step { step_declared variables.now (step_of step.now) }
    requires to { IsDeclared variables.now (operand_of to.now) }
    requires small { condition_positions (path (operand_of from.now) (step_of step.now)
        (operand_of to.now)) ≤ 256 }
    ensures atom { IfOk result (λ a. (version : ℕ)
        → IsAtomOf version variables.now
        (path (operand_of from.now) (step_of step.now) (operand_of to.now)) a) }
    ensures in_range { IfOk result (λ a. AtomInRange (length variables.now) a) }
{
    let first = place_of(alloc, variables, from)?;
    let last = place_of(alloc, variables, to)?;
    match step {
        PathStep::ArcVariable(name, _) => {
            let slot = index_of(variables, name);
            Ok(Atom::Arc(first, slot, last))
        }
        PathStep::Expression(expression, _) => {
            let relation = relation_of(alloc, expression)?;
            Ok(Atom::Two(first, relation, last))
        }
    }
}

// The atom of a condition without `not`.
fn atom_of(alloc: Global, variables: &[Variable], condition: &Condition) -> Result<Atom, NoMemory>
    requires names { declared variables.now (condition_of condition.now) }
    requires plain { IsPlain (condition_of condition.now) }
    requires small { condition_positions (condition_of condition.now) ≤ 256 }
    ensures atom { IfOk result (λ a. (version : ℕ)
        → IsAtomOf version variables.now (condition_of condition.now) a) }
    ensures in_range { IfOk result (λ a. AtomInRange (length variables.now) a) }
{
    match condition {
        Condition::Member {
            collection,
            variable,
            ..
        } => {
            let slot = index_of(variables, variable);
            let collection = collection.copy(alloc)?;
            Ok(Atom::One(Slot::Variable(slot), Property::Member(collection)))
        }
        Condition::Path { from, step, to, .. } => path_of(alloc, variables, from, step, to),
        Condition::Compare {
            left,
            op,
            right,
            ..
        } => {
            let first = place_of(alloc, variables, left)?;
            let last = place_of(alloc, variables, right)?;
            Ok(Atom::Two(first, Relation::Compare(*op), last))
        }
        Condition::OneOf {
            operand,
            constants,
            ..
        } => {
            let place = place_of(alloc, variables, operand)?;
            let constants = ValueSet::of(copied_list(alloc, constants.items())?);
            Ok(Atom::One(place, Property::OneOf(constants)))
        }
        Condition::Kind { test, variable, .. } => {
            let slot = index_of(variables, variable);
            Ok(Atom::One(Slot::Variable(slot), Property::Kind(*test)))
        }
        Condition::Not(..) => unreachable!(),
    }
}

/// The goal that stands for the condition.
pub fn goal_of(
    alloc: Global,
    variables: &[Variable],
    condition: &Condition,
) -> Result<Goal, NoMemory>
    requires { IsReady variables.now (condition_of condition.now) }
    ensures { IfOk result (λ g. (version : ℕ)
        → StandsFor version variables.now (condition_of condition.now) g) }
{
    match condition {
        Condition::Not(inner, _) => {
            let atom = atom_of(alloc, variables, inner)?;
            Ok(Goal::Holds(Literal {
                negated: true,
                atom,
            }))
        }
        _ => {
            let atom = atom_of(alloc, variables, condition)?;
            Ok(Goal::Holds(Literal {
                negated: false,
                atom,
            }))
        }
    }
}
