// The different expressions of a query.

ghost use Rattle.std.specs.Prelude.{◌≡◌, IfOk, map, All, Contains};
ghost use Rattle.std.specs.List.{list_any};
ghost use Rattle.rpe.specs.Regex.{any};
ghost use Rattle.rpe.specs.Reading.{regex_of};
ghost use Rattle.query_spec.specs.Query.{Body};
ghost use Rattle.struql_ast.specs.Reading.{condition_of};
ghost use Rattle.query_blocks.specs.Blocks.{body_of};
ghost use Rattle.query_parts.specs.Same.{same_regex};
ghost use Rattle.constraint_recheck.specs.Entails.{IsKnown};
ghost use Rattle.inclusion.specs.Known.{Keeps, AreKnownBlocks};

use query_blocks::QueryBlock;
use query_parts::{copied_rpe, same_rpe};
use rpe::Rpe;
use sd_value::NoMemory;
use std::alloc::Global;
use struql_ast::{Condition, PathStep};

fn is_among(all: &[Rpe], expression: &Rpe) -> bool
    ensures { result ≡ list_any (λ e. same_regex (regex_of e) (regex_of expression.now)) all.now }
{
    all.iter().any(|e| same_rpe(e, expression))
}

// Adds the expression, where it is new.
fn add(alloc: Global, all: &mut Vec<Rpe>, expression: &Rpe) -> Result<(), NoMemory>
    ensures kept { IfOk result (λ u. Keeps all.old.items all.new.items) }
    ensures there { IfOk result (λ u. Contains (map regex_of all.new.items)
        (regex_of expression.now)) }
{
    if !is_among(all, expression) {
        all.push(copied_rpe(alloc, expression)?)?;
    }
    Ok(())
}

// Adds the condition's expression, if it has one.
fn add_of_condition(
    alloc: Global,
    all: &mut Vec<Rpe>,
    condition: &Condition,
) -> Result<(), NoMemory>
    ensures kept { IfOk result (λ u. Keeps all.old.items all.new.items) }
    ensures there { IfOk result (λ u. IsKnown (Contains (map regex_of all.new.items))
        (condition_of condition.now)) }
{
    match condition {
        Condition::Path {
            from: _,
            step,
            to: _,
            span: _,
        } => match step {
            PathStep::Expression(expression, _) => add(alloc, all, expression),
            PathStep::ArcVariable(_, _) => Ok(()),
        },
        Condition::Not(inner, _) => add_of_condition(alloc, all, inner),
        _ => Ok(()),
    }
}

fn add_of_conditions(
    alloc: Global,
    all: &mut Vec<Rpe>,
    conditions: &[Condition],
) -> Result<(), NoMemory>
    ensures kept { IfOk result (λ u. Keeps all.old.items all.new.items) }
    ensures there { IfOk result (λ u. All (λ c. IsKnown (Contains (map regex_of all.new.items))
        (condition_of c)) conditions.now) }
{
    for condition in conditions {
        add_of_condition(alloc, all, condition)?;
    }
    Ok(())
}

fn add_of_block(alloc: Global, all: &mut Vec<Rpe>, block: &QueryBlock) -> Result<(), NoMemory>
    ensures kept { IfOk result (λ u. Keeps all.old.items all.new.items) }
    ensures there { IfOk result (λ u. All (IsKnown (Contains (map regex_of all.new.items)))
        (body_of block.now).conditions) }
{
    add_of_conditions(alloc, all, block.chain.conditions())
}

/// The different expressions of the blocks, after that of any one label.
pub fn expressions_of(alloc: Global, blocks: &[QueryBlock]) -> Result<Vec<Rpe>, NoMemory>
    ensures any_label { IfOk result (λ all. Contains (map regex_of all.items) any) }
    ensures known { IfOk result (λ all. AreKnownBlocks all.items blocks.now) }
{
    let mut all = Vec::new(alloc);
    all.push(Rpe::Any)?;
    for block in blocks {
        add_of_block(alloc, &mut all, block)?;
    }
    Ok(all)
}
