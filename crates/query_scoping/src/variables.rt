//! The variables of a chain of conditions.

ghost use Rattle.std.specs.Prelude.{◌≡◌, ◌++◌, ◌∷◌, [], ℕ, List, IfOk, map};
ghost use Rattle.std.specs.List.{flat_map, list_any};
ghost use Rattle.query_spec.specs.Mentions.{operand_names, step_names, names, arc_names, first_mentions, variables_of, same_name};
ghost use Rattle.struql_ast.specs.Reading.{operand_of, step_of, condition_of};

use query_spec::Variable;
use sd_value::{NoMemory, Str};
use std::alloc::Global;
use struql_ast::{Condition, Operand, PathStep};

fn push_name(alloc: Global, found: &mut Vec<Str>, name: &Str) -> Result<(), NoMemory>
    ensures { IfOk result (λ _. found.new.items ≡ found.old.items ++ name.now ∷ []) }
{
    found.push(name.copy(alloc)?)?;
    Ok(())
}

fn push_operand(alloc: Global, found: &mut Vec<Str>, operand: &Operand) -> Result<(), NoMemory>
    ensures { IfOk result (λ _. found.new.items
        ≡ found.old.items ++ operand_names (operand_of operand.now)) }
{
    match operand {
        Operand::Variable(name, _) => push_name(alloc, found, name),
        Operand::Constant(_, _) => Ok(()),
    }
}

fn push_step(alloc: Global, found: &mut Vec<Str>, step: &PathStep) -> Result<(), NoMemory>
    ensures { IfOk result (λ _. found.new.items
        ≡ found.old.items ++ step_names (step_of step.now)) }
{
    match step {
        PathStep::ArcVariable(name, _) => push_name(alloc, found, name),
        PathStep::Expression(_, _) => Ok(()),
    }
}

fn push_names(alloc: Global, found: &mut Vec<Str>, condition: &Condition) -> Result<(), NoMemory>
    ensures { IfOk result (λ _. found.new.items
        ≡ found.old.items ++ names (condition_of condition.now)) }
{
    match condition {
        Condition::Member { variable, .. } | Condition::Kind { variable, .. } => {
            push_name(alloc, found, variable)
        }
        Condition::Path { from, step, to, .. } => {
            push_operand(alloc, found, from)?;
            push_step(alloc, found, step)?;
            push_operand(alloc, found, to)
        }
        Condition::Compare { left, right, .. } => {
            push_operand(alloc, found, left)?;
            push_operand(alloc, found, right)
        }
        Condition::OneOf { operand, .. } => push_operand(alloc, found, operand),
        Condition::Not(inner, _) => push_names(alloc, found, inner),
    }
}

fn push_arc_names(
    alloc: Global,
    found: &mut Vec<Str>,
    condition: &Condition,
) -> Result<(), NoMemory>
    ensures { IfOk result (λ _. found.new.items
        ≡ found.old.items ++ arc_names (condition_of condition.now)) }
{
    match condition {
        Condition::Path { step, .. } => push_step(alloc, found, step),
        Condition::Not(inner, _) => push_arc_names(alloc, found, inner),
        _ => Ok(()),
    }
}

fn names_of(alloc: Global, conditions: &[Condition]) -> Result<Vec<Str>, NoMemory>
    ensures { IfOk result (λ found. found.items
        ≡ flat_map names (map condition_of conditions.now)) }
{
    let mut found = Vec::new(alloc);
    for condition in conditions {
        push_names(alloc, &mut found, condition)?;
    }
    Ok(found)
}

fn arc_names_of(alloc: Global, conditions: &[Condition]) -> Result<Vec<Str>, NoMemory>
    ensures { IfOk result (λ found. found.items
        ≡ flat_map arc_names (map condition_of conditions.now)) }
{
    let mut found = Vec::new(alloc);
    for condition in conditions {
        push_arc_names(alloc, &mut found, condition)?;
    }
    Ok(found)
}

fn is_among(names: &[Str], name: &Str) -> bool
    ensures { result ≡ list_any (same_name name.now) names.now }
{
    names.iter().any(|other| name == other)
}

fn add_first(alloc: Global, firsts: &mut Vec<Str>, name: &Str) -> Result<(), NoMemory>
    ensures { IfOk result (λ _. (xs : List (List ℕ)) → firsts.old.items ≡ first_mentions xs
        → firsts.new.items ≡ first_mentions (xs ++ name.now ∷ [])) }
{
    if is_among(firsts, name) {
        return Ok(());
    }
    push_name(alloc, firsts, name)?;
    Ok(())
}

/// Each name once, where it first is. A chain has few names.
fn first_names(alloc: Global, names: &[Str]) -> Result<Vec<Str>, NoMemory>
    ensures { IfOk result (λ firsts. firsts.items ≡ first_mentions names.now) }
{
    let mut firsts = Vec::new(alloc);
    for name in names {
        add_first(alloc, &mut firsts, name)?;
    }
    Ok(firsts)
}

/// The variables of these conditions, by first mention.
pub(crate) fn variables_of(
    alloc: Global,
    conditions: &[Condition],
) -> Result<Vec<Variable>, NoMemory>
    ensures { IfOk result (λ variables. variables.items
        ≡ variables_of (map condition_of conditions.now)) }
{
    let names = names_of(alloc, conditions)?;
    let firsts = first_names(alloc, &names)?;
    let arcs = arc_names_of(alloc, conditions)?;
    let mut variables = Vec::new(alloc);
    for name in &firsts {
        variables.push(Variable {
            name: name.copy(alloc)?,
            arc: is_among(&arcs, name),
        })?;
    }
    Ok(variables)
}
