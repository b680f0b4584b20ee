// What is stated of values, added to a graph that is built.
ghost use Rattle.std.specs.Prelude.{◌≡◌, ◌++◌, suc, IfOk, codes};
ghost use Rattle.std.specs.List.{flat_map};
ghost use Rattle.counterexample_spec.specs.Frozen.{declared, joined, edge, edge_by};
ghost use Rattle.counterexample_spec.specs.Frozen.{ending as ending_of, step as step_of, along};
ghost use Rattle.refute_site.specs.Adding.{AddsAll};
ghost use Rattle.refute_site.specs.Patterns.{copy_of};

use crate::freezing::ChainCopy;
use sd_graph::{GraphBuilder, GraphRefusal};
use sd_value::{Datum, NoMemory, Str, Value, copy};
use std::alloc::Global;
use token_writer::{put, put_number};

// Declares the value, if it is a node.
fn add_value(alloc: Global, builder: &mut GraphBuilder, value: &Value) -> Result<(), GraphRefusal>
    ensures { AddsAll (declared value.now) builder.old builder.new result }
{
    match value {
        Value::Data(Datum::Node(name)) => builder.add_node(alloc, name),
        _ => Ok(()),
    }
}

/// Declares the nodes among the values.
pub(crate) fn add_values(
    alloc: Global,
    builder: &mut GraphBuilder,
    values: &[Value],
) -> Result<(), GraphRefusal>
    ensures { AddsAll (flat_map declared values.now) builder.old builder.new result }
{
    for value in values {
        add_value(alloc, builder, value)?;
    }
    Ok(())
}

/// Makes the value a member, if it is a node.
pub(crate) fn add_member(
    alloc: Global,
    builder: &mut GraphBuilder,
    collection: &Str,
    value: &Value,
) -> Result<(), GraphRefusal>
    ensures { AddsAll (joined collection.now value.now) builder.old builder.new result }
{
    match value {
        Value::Data(Datum::Node(name)) => builder.add_member(alloc, collection, name),
        _ => Ok(()),
    }
}

// Adds the edge, if it starts at a node and ends at no page.
fn add_edge(
    alloc: Global,
    builder: &mut GraphBuilder,
    from: &Value,
    label: &Str,
    to: &Value,
) -> Result<(), GraphRefusal>
    ensures { AddsAll (edge from.now label.now to.now) builder.old builder.new result }
{
    let Value::Data(Datum::Node(name)) = from else {
        return Ok(());
    };
    match to {
        Value::Data(_) => builder.add_edge(alloc, name, label, to),
        Value::Page(_) => Ok(()),
    }
}

/// Adds the edge by a label that is a value.
pub(crate) fn add_edge_by(
    alloc: Global,
    builder: &mut GraphBuilder,
    from: &Value,
    label: &Value,
    to: &Value,
) -> Result<(), GraphRefusal>
    ensures { AddsAll (edge_by from.now label.now to.now) builder.old builder.new result }
{
    match label {
        Value::Data(Datum::Text(text)) => add_edge(alloc, builder, from, text, to),
        _ => Ok(()),
    }
}

fn ending(chain_copy: ChainCopy) -> &'static [u8]
    ensures { result.now ≡ ending_of (copy_of chain_copy.entry) }
{
    match chain_copy {
        ChainCopy::First => b"",
        ChainCopy::Second(_) => b"_2",
    }
}

// The node of this number within the path of the condition of number k.
fn step(alloc: Global, chain_copy: ChainCopy, k: usize, number: usize) -> Result<Value, NoMemory>
    ensures { IfOk result (λ v. v ≡ step_of (copy_of chain_copy.entry) k number) }
{
    let mut name = Vec::from_slice(alloc, b"step_")?;
    put_number(k as u128, &mut name)?;
    put(b"_", &mut name)?;
    put_number(number as u128, &mut name)?;
    put(ending(chain_copy), &mut name)?;
    Ok(Value::Data(Datum::Node(Str::of(alloc, name)?)))
}

/// Adds the edges of the word from one value to another, over nodes of the path.
pub(crate) fn add_along(
    alloc: Global,
    builder: &mut GraphBuilder,
    chain_copy: ChainCopy,
    k: usize,
    from: &Value,
    word: &[Str],
    to: &Value,
) -> Result<(), GraphRefusal>
    ensures { AddsAll (along (step_of (copy_of chain_copy.entry) k) 1 from.now word.now to.now)
        builder.old builder.new result }
{
    let mut start = copy(alloc, from)?;
    for (j, label) in word.iter().enumerate() {
        let end = if j + 1 < word.len() {
            step(alloc, chain_copy, k, j + 1)?
        } else {
            copy(alloc, to)?
        };
        add_edge(alloc, builder, &start, label, &end)?;
        start = end;
    }
    Ok(())
}
