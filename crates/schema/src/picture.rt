//! The schema in Graphviz's language.

ghost use Rattle.std.specs.Prelude.{◌≡◌, ◌++◌, IfOk, ℕ, List};
ghost use Rattle.std.specs.List.{flat_map};
ghost use Rattle.std.specs.List.Sorted.{IsSorted};
ghost use Rattle.schema.specs.Orders.{edge_cmp};
ghost use Rattle.schema.specs.Picture.{node_text, IsPicture};
ghost use Rattle.schema.specs.Lines.{end_name, row_label, row_ends, row_statement, row_statements};

use crate::print::put_function;
use crate::starting::links_from;
use crate::{SchemaEdge, SchemaFunction, schema};
use sd_value::NoMemory;
use std::alloc::Global;
use struql_check::Checked;
use token_writer::{put, put_number, put_quoted};

/// Appends the name of a function's node.
fn put_node(alloc: Global, function: &SchemaFunction, out: &mut Vec<u8>) -> Result<(), NoMemory>
    ensures { IfOk result (λ _. out.new.items ≡ out.old.items ++ node_text function.now) }
{
    let mut name = Vec::new(alloc);
    put_function(function, &mut name)?;
    put_quoted(name.as_slice(), out)
}

/// Appends the name of the node at which a link ends.
fn put_end_node(
    alloc: Global,
    target: &Option<SchemaFunction>,
    out: &mut Vec<u8>,
) -> Result<(), NoMemory>
    ensures { IfOk result (λ _. out.new.items ≡ out.old.items ++ end_name target.now) }
{
    match target {
        Some(function) => put_node(alloc, function, out),
        None => put_quoted(b"other", out),
    }
}

/// What stands at an edge.
fn label_of(alloc: Global, edge: &SchemaEdge) -> Result<Vec<u8>, NoMemory>
    ensures { IfOk result (λ label. label.items ≡ row_label edge.now) }
{
    let mut label = Vec::new(alloc);
    put_number(edge.number as u128, &mut label)?;
    put(b": ", &mut label)?;
    put(edge.label.bytes(), &mut label)?;
    put(edge.conditions.bytes(), &mut label)?;
    Ok(label)
}

/// Appends the two ends of a link that starts at the function.
fn put_ends(
    alloc: Global,
    function: &SchemaFunction,
    edge: &SchemaEdge,
    out: &mut Vec<u8>,
) -> Result<(), NoMemory>
    ensures { IfOk result (λ _. out.new.items ≡ out.old.items ++ row_ends function.now edge.now) }
{
    put(b"  ", out)?;
    put_node(alloc, function, out)?;
    put(b" -> ", out)?;
    put_end_node(alloc, &edge.target, out)
}

/// Appends the edge of a link that starts at the function.
fn put_statement(
    alloc: Global,
    function: &SchemaFunction,
    edge: &SchemaEdge,
    out: &mut Vec<u8>,
) -> Result<(), NoMemory>
    ensures { IfOk result (λ _. out.new.items
        ≡ out.old.items ++ row_statement function.now edge.now) }
{
    let label = label_of(alloc, edge)?;
    put_ends(alloc, function, edge, out)?;
    put(b" [label=", out)?;
    put_quoted(label.as_slice(), out)?;
    put(b"]\n", out)
}

fn put_statements(
    alloc: Global,
    function: &SchemaFunction,
    edges: &[SchemaEdge],
    out: &mut Vec<u8>,
) -> Result<(), NoMemory>
    ensures { IfOk result (λ _. out.new.items
        ≡ out.old.items ++ flat_map (row_statement function.now) edges.now) }
{
    for edge in edges {
        put_statement(alloc, function, edge, out)?;
    }
    Ok(())
}

/// Appends the node of a function, and the edges of the links that start at it.
fn put_part(
    alloc: Global,
    function: &SchemaFunction,
    edges: &[SchemaEdge],
    out: &mut Vec<u8>,
) -> Result<(), NoMemory>
    requires { IsSorted edge_cmp edges.now }
    ensures { IfOk result (λ _. out.new.items
        ≡ out.old.items ++ row_statements edges.now function.now) }
{
    put(b"  ", out)?;
    put_node(alloc, function, out)?;
    put(b"\n", out)?;
    put_statements(alloc, function, links_from(edges, &function.name), out)
}

/// Appends the nodes of all functions, and all edges.
fn put_parts(
    alloc: Global,
    functions: &[SchemaFunction],
    edges: &[SchemaEdge],
    out: &mut Vec<u8>,
) -> Result<(), NoMemory>
    requires { IsSorted edge_cmp edges.now }
    ensures { IfOk result (λ _. out.new.items
        ≡ out.old.items ++ flat_map (row_statements edges.now) functions.now) }
{
    for function in functions {
        put_part(alloc, function, edges, out)?;
    }
    Ok(())
}

/// Appends the schema of a checked query in Graphviz's language: a node for `other` and for each function, and an edge
/// for each link, with its number, its label and its block's conditions as its text. After `NoMemory` what `out` holds is
/// not said.
pub fn print_dot(alloc: Global, checked: &Checked, out: &mut Vec<u8>) -> Result<(), NoMemory>
    ensures { IfOk result (λ _. (text : List ℕ) × IsPicture checked.now text
        × (out.new.items ≡ out.old.items ++ text)) }
{
    let schema = schema(alloc, checked)?;
    put(b"digraph site {\n  \"other\"\n", out)?;
    put_parts(alloc, &schema.functions, &schema.edges, out)?;
    put(b"}\n", out)?;
    Ok(())
}
