//! What a plan sees of conditions.
ghost use Rattle.std.specs.Prelude.{◌≡◌, ◌<◌, ◌≤◌, ◌^◌, IfOk, ℕ, length, map};
ghost use Rattle.query_spec.specs.Query.{path};
ghost use Rattle.rpe.specs.Reading.{regex_of};
ghost use Rattle.struql_ast.specs.Reading.{operand_of, step_of, condition_of};
ghost use Rattle.plan_spec.specs.Shape.{number_of, side_of, one, path_kind, compare_kind, equals_of_one};
ghost use Rattle.plan_spec.specs.Shape.{shape_of, shapes_of};
ghost use Rattle.planner.specs.Prices.{IsPriced};
ghost use Rattle.planner.specs.Ranges.{ShapesInRange};

use crate::prices::{Prices, count_in, priced};
use plan_spec::{Counts, Kind, Shape};
use query_spec::{Op, Variable};
use rpe::Rpe;
use sd_value::{NoMemory, Str};
use std::alloc::Global;
use struql_ast::{Chain, Condition, Operand, PathStep};

// The number of the first variable of that name.
fn number_of(variables: &[Variable], name: &Str) -> Option<u32>
    requires { length variables.now < 2 ^ 32 }
    ensures { result ≡ number_of variables.now name.now }
{
    for i in 0..variables.len() {
        if variables[i].name == *name {
            return Some(i as u32);
        }
    }
    None
}

fn side_of(variables: &[Variable], operand: &Operand) -> Option<u32>
    requires { length variables.now < 2 ^ 32 }
    ensures { result ≡ side_of variables.now (operand_of operand.now) }
{
    match operand {
        Operand::Variable(name, _) => number_of(variables, name),
        Operand::Constant(_, _) => None,
    }
}

fn path_kind(prices: &Prices, expression: &Rpe) -> Kind
    requires { IsPriced prices.now.counts.now prices.now.labels prices.now.collections }
    ensures { result ≡ path_kind prices.now.counts.now (regex_of expression.now) }
{
    match expression {
        Rpe::Label(label) => Kind::Edges(count_in(&prices.labels, label)),
        _ => Kind::Walk,
    }
}

fn path_shape(
    prices: &Prices,
    variables: &[Variable],
    from: &Operand,
    step: &PathStep,
    to: &Operand,
) -> Shape
    requires priced { IsPriced prices.now.counts.now prices.now.labels prices.now.collections }
    requires few { length variables.now < 2 ^ 32 }
    ensures { (version : ℕ) → result ≡ shape_of prices.now.counts.now version variables.now
        (path (operand_of from.now) (step_of step.now) (operand_of to.now)) }
{
    let from = side_of(variables, from);
    let to = side_of(variables, to);
    match step {
        PathStep::ArcVariable(name, _) => Shape {
            kind: Kind::Edges(prices.counts.sizes.edges),
            from,
            arc: number_of(variables, name),
            to,
        },
        PathStep::Expression(expression, _) => Shape {
            kind: path_kind(prices, expression),
            from,
            arc: None,
            to,
        },
    }
}

// How many values equal one at most.
fn equals_of_one(version: u8) -> u128
    ensures value { result ≡ equals_of_one version }
    ensures few { result ≤ 2 }
{
    if version >= 2 { 2 } else { 1 }
}

fn compare_kind(version: u8, op: Op) -> Kind
    ensures { result ≡ compare_kind version op }
{
    match op {
        Op::Eq => Kind::Equal(equals_of_one(version)),
        _ => Kind::Test,
    }
}

// A shape on one place.
fn one(kind: Kind, side: Option<u32>) -> Shape
    ensures { result ≡ one kind side }
{
    Shape {
        kind,
        from: side,
        arc: None,
        to: None,
    }
}

fn shape_of(prices: &Prices, version: u8, variables: &[Variable], condition: &Condition) -> Shape
    requires priced { IsPriced prices.now.counts.now prices.now.labels prices.now.collections }
    requires few { length variables.now < 2 ^ 32 }
    ensures { result
        ≡ shape_of prices.now.counts.now version variables.now (condition_of condition.now) }
{
    match condition {
        Condition::Member {
            collection,
            variable,
            ..
        } => {
            let count = count_in(&prices.collections, collection);
            one(Kind::Listed(count as u128), number_of(variables, variable))
        }
        Condition::Path { from, step, to, .. } => path_shape(prices, variables, from, step, to),
        Condition::Compare {
            left,
            op,
            right,
            ..
        } => Shape {
            kind: compare_kind(version, *op),
            from: side_of(variables, left),
            arc: None,
            to: side_of(variables, right),
        },
        Condition::OneOf {
            operand,
            constants,
            ..
        } => {
            let count = equals_of_one(version) * constants.items().len() as u128;
            one(Kind::Listed(count), side_of(variables, operand))
        }
        Condition::Kind { variable, .. } => one(Kind::Test, number_of(variables, variable)),
        Condition::Not(inner, _) => Shape {
            kind: Kind::Test,
            ..shape_of(prices, version, variables, inner)
        },
    }
}

// The shapes of the conditions, one each.
fn shapes_from(
    alloc: Global,
    prices: &Prices,
    version: u8,
    variables: &[Variable],
    conditions: &[Condition],
) -> Result<Vec<Shape>, NoMemory>
    requires priced { IsPriced prices.now.counts.now prices.now.labels prices.now.collections }
    requires few { length variables.now < 2 ^ 32 }
    ensures { IfOk result (λ shapes. shapes.items
        ≡ map (shape_of prices.now.counts.now version variables.now)
        (map condition_of conditions.now)) }
{
    let mut shapes = Vec::new(alloc);
    for condition in conditions {
        shapes.push(shape_of(prices, version, variables, condition))?;
    }
    Ok(shapes)
}

// The shapes of a chain's conditions.
pub(crate) fn shapes_of_chain(
    alloc: Global,
    counts: &Counts,
    chain: &Chain,
) -> Result<Vec<Shape>, NoMemory>
    requires { length chain.now.variables < 2 ^ 32 }
    ensures shapes { IfOk result (λ shapes. shapes.items ≡ shapes_of counts.now chain.now) }
    ensures in_range { IfOk result (λ shapes.
        ShapesInRange (length chain.now.variables) shapes.items) }
{
    let prices = priced(alloc, counts)?;
    let shapes = shapes_from(
        alloc,
        &prices,
        chain.version(),
        chain.variables(),
        chain.conditions(),
    )?;
    Ok(shapes)
}
