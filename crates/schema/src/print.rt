//! The text of the schema.

ghost use Rattle.std.specs.Prelude.{◌≡◌, ◌++◌, IfOk, ℕ, List};
ghost use Rattle.std.specs.List.{flat_map};
ghost use Rattle.std.specs.List.Sorted.{IsSorted};
ghost use Rattle.schema.specs.Orders.{edge_cmp};
ghost use Rattle.schema.specs.Text.{function_name, IsSchemaText};
ghost use Rattle.schema.specs.Lines.{end_word, row_head, row_line, row_lines};

use crate::starting::links_from;
use crate::{SchemaEdge, SchemaFunction, schema};
use sd_value::NoMemory;
use std::alloc::Global;
use struql_check::Checked;
use token_writer::{put, put_number};

/// Appends `F/ARITY`.
pub fn put_function(function: &SchemaFunction, out: &mut Vec<u8>) -> Result<(), NoMemory>
    ensures { IfOk result (λ _. out.new.items ≡ out.old.items ++ function_name function.now) }
{
    put(function.name.bytes(), out)?;
    put(b"/", out)?;
    put_number(function.arity as u128, out)
}

/// Appends the function at which a link ends, or `other`.
fn put_end(target: &Option<SchemaFunction>, out: &mut Vec<u8>) -> Result<(), NoMemory>
    ensures { IfOk result (λ _. out.new.items ≡ out.old.items ++ end_word target.now) }
{
    match target {
        Some(function) => put(function.name.bytes(), out),
        None => put(b"other", out),
    }
}

/// Appends a link's number and the path of its block.
fn put_head(edge: &SchemaEdge, out: &mut Vec<u8>) -> Result<(), NoMemory>
    ensures { IfOk result (λ _. out.new.items ≡ out.old.items ++ row_head edge.now) }
{
    put(b"  link ", out)?;
    put_number(edge.number as u128, out)?;
    put(b" in ", out)?;
    put(edge.path.bytes(), out)?;
    put(b": ", out)
}

/// Appends the line of a link.
fn put_edge(edge: &SchemaEdge, out: &mut Vec<u8>) -> Result<(), NoMemory>
    ensures { IfOk result (λ _. out.new.items ≡ out.old.items ++ row_line edge.now) }
{
    put_head(edge, out)?;
    put(edge.link.bytes(), out)?;
    put(b" to ", out)?;
    put_end(&edge.target, out)?;
    put(b"\n", out)
}

fn put_edges(edges: &[SchemaEdge], out: &mut Vec<u8>) -> Result<(), NoMemory>
    ensures { IfOk result (λ _. out.new.items ≡ out.old.items ++ flat_map row_line edges.now) }
{
    for edge in edges {
        put_edge(edge, out)?;
    }
    Ok(())
}

/// Appends the line of a function, and those of the links that start at it.
fn put_lines(
    function: &SchemaFunction,
    edges: &[SchemaEdge],
    out: &mut Vec<u8>,
) -> Result<(), NoMemory>
    requires { IsSorted edge_cmp edges.now }
    ensures { IfOk result (λ _. out.new.items ≡ out.old.items ++ row_lines edges.now function.now) }
{
    put_function(function, out)?;
    put(b"\n", out)?;
    put_edges(links_from(edges, &function.name), out)
}

/// Appends the lines of all functions.
fn put_all_lines(
    functions: &[SchemaFunction],
    edges: &[SchemaEdge],
    out: &mut Vec<u8>,
) -> Result<(), NoMemory>
    requires { IsSorted edge_cmp edges.now }
    ensures { IfOk result (λ _. out.new.items
        ≡ out.old.items ++ flat_map (row_lines edges.now) functions.now) }
{
    for function in functions {
        put_lines(function, edges, out)?;
    }
    Ok(())
}

/// Appends the text of a checked query's schema: `other`, and for each function, ascending, a line `F/ARITY` and a line
/// for each link that starts at it, `  link N in PATH: LINK to TARGET`. After `NoMemory` what `out` holds is not said.
pub fn print_schema(alloc: Global, checked: &Checked, out: &mut Vec<u8>) -> Result<(), NoMemory>
    ensures { IfOk result (λ _. (text : List ℕ) × IsSchemaText checked.now text
        × (out.new.items ≡ out.old.items ++ text)) }
{
    let schema = schema(alloc, checked)?;
    put(b"other\n", out)?;
    put_all_lines(&schema.functions, &schema.edges, out)?;
    Ok(())
}
