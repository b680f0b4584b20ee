// A data graph as it is written.
ghost use Rattle.std.specs.Prelude.{◌≡◌, ◌∷◌, ◌++◌, [], OnOk, IfSome, IfNone, IsTrue, map};
ghost use Rattle.std.specs.List.{flat_map};
ghost use Rattle.sd_ddl.specs.Groups.{collection_in, IsByNode};
ghost use Rattle.sd_ddl.specs.Written.{quoted_byte, quoted, value_text, step_of, step_line, further_text, in_text};
ghost use Rattle.sd_ddl.specs.Written.{object_text, graph_text};

use crate::groups::{by_node, edges_at, members_at};
use sd_graph::{Edge, Graph, Member};
use sd_value::{Datum, NoMemory, Str, Value};
use std::alloc::Global;
use token_writer::put_int;

// What stands for a byte of a text in quotes, where that is not the byte itself.
fn escape(byte: u8) -> Option<&'static [u8]>
    ensures some { IfSome result (λ text. text.now ≡ quoted_byte byte) }
    ensures none { IfNone result (quoted_byte byte ≡ byte ∷ []) }
{
    match byte {
        b'"' => Some(b"\\\""),
        b'\\' => Some(b"\\\\"),
        b'\n' => Some(b"\\n"),
        b'\r' => Some(b"\\r"),
        b'\t' => Some(b"\\t"),
        _ => None,
    }
}

fn push_byte(out: &mut Vec<u8>, byte: u8) -> Result<(), NoMemory>
    ensures { OnOk result (out.new.items ≡ out.old.items ++ quoted_byte byte) }
{
    match escape(byte) {
        Some(text) => out.extend_from_slice(text)?,
        None => out.push(byte)?,
    }
    Ok(())
}

// Whether each byte stands for itself in quotes, as in most texts.
fn is_plain(bytes: &[u8]) -> bool
    ensures { IsTrue result → flat_map quoted_byte bytes.now ≡ bytes.now }
{
    for byte in bytes {
        if escape(*byte).is_some() {
            return false;
        }
    }
    true
}

fn push_escaped(out: &mut Vec<u8>, bytes: &[u8]) -> Result<(), NoMemory>
    ensures { OnOk result (out.new.items ≡ out.old.items ++ flat_map quoted_byte bytes.now) }
{
    for byte in bytes {
        push_byte(out, *byte)?;
    }
    Ok(())
}

// What is between the quotes.
fn push_inner(out: &mut Vec<u8>, bytes: &[u8]) -> Result<(), NoMemory>
    ensures { OnOk result (out.new.items ≡ out.old.items ++ flat_map quoted_byte bytes.now) }
{
    if !is_plain(bytes) {
        return push_escaped(out, bytes);
    }
    out.extend_from_slice(bytes)?;
    Ok(())
}

fn push_quoted(out: &mut Vec<u8>, text: &Str) -> Result<(), NoMemory>
    ensures { OnOk result (out.new.items ≡ out.old.items ++ quoted text.now) }
{
    out.push(b'"')?;
    push_inner(out, text.bytes())?;
    out.push(b'"')?;
    Ok(())
}

// A word before a text in quotes.
fn push_kinded(out: &mut Vec<u8>, word: &[u8], text: &Str) -> Result<(), NoMemory>
    ensures { OnOk result (out.new.items ≡ out.old.items ++ (word.now ++ quoted text.now)) }
{
    out.extend_from_slice(word)?;
    push_quoted(out, text)
}

fn push_value(out: &mut Vec<u8>, value: &Value) -> Result<(), NoMemory>
    ensures { OnOk result (out.new.items ≡ out.old.items ++ value_text value.now) }
{
    match value {
        Value::Data(Datum::Int(number)) => put_int(*number, out),
        Value::Data(Datum::Text(text)) => push_quoted(out, text),
        Value::Data(Datum::Url(text)) => push_kinded(out, b"url ", text),
        Value::Data(Datum::File(text)) => push_kinded(out, b"file ", text),
        Value::Data(Datum::Node(name)) => push_kinded(out, b"&", name),
        Value::Page(_) => Ok(()),
    }
}

fn push_edge(out: &mut Vec<u8>, edge: &Edge) -> Result<(), NoMemory>
    ensures { OnOk result (out.new.items ≡ out.old.items ++ step_line (step_of edge.now)) }
{
    push_kinded(out, b"  ", &edge.label)?;
    out.extend_from_slice(b" ")?;
    push_value(out, &edge.to)?;
    out.extend_from_slice(b"\n")?;
    Ok(())
}

fn push_further_name(out: &mut Vec<u8>, name: &Str) -> Result<(), NoMemory>
    ensures { OnOk result (out.new.items ≡ out.old.items ++ further_text name.now) }
{
    push_kinded(out, b", ", name)
}

fn push_further(out: &mut Vec<u8>, members: &[&Member]) -> Result<(), NoMemory>
    ensures { OnOk result
        (out.new.items ≡ out.old.items ++ flat_map further_text (map collection_in members.now)) }
{
    for member in members {
        push_further_name(out, &member.collection)?;
    }
    Ok(())
}

// The collections of a node, whose members these are.
fn push_collections(out: &mut Vec<u8>, members: &[&Member]) -> Result<(), NoMemory>
    ensures { OnOk result
        (out.new.items ≡ out.old.items ++ in_text (map collection_in members.now)) }
{
    match members {
        [] => Ok(()),
        [first, others @ ..] => {
            push_kinded(out, b" in ", &first.collection)?;
            push_further(out, others)
        }
    }
}

fn push_edges(out: &mut Vec<u8>, edges: &[Edge]) -> Result<(), NoMemory>
    ensures { OnOk result
        (out.new.items ≡ out.old.items ++ flat_map step_line (map step_of edges.now)) }
{
    for edge in edges {
        push_edge(out, edge)?;
    }
    Ok(())
}

fn push_object(
    out: &mut Vec<u8>,
    node: &Str,
    members: &[&Member],
    edges: &[Edge],
) -> Result<(), NoMemory>
    ensures { OnOk result (out.new.items
        ≡ out.old.items
        ++ object_text node.now (map collection_in members.now) (map step_of edges.now)) }
{
    push_kinded(out, b"object ", node)?;
    push_collections(out, members)?;
    out.extend_from_slice(b" {\n")?;
    push_edges(out, edges)?;
    out.extend_from_slice(b"}\n")?;
    Ok(())
}

// The objects of a graph, whose members are by node. Nodes, edges and members are in one order, so that what a node
// has is at the front of what is left of them.
fn push_nodes(out: &mut Vec<u8>, graph: &Graph, sorted: &[&Member]) -> Result<(), NoMemory>
    requires { IsByNode graph.now.members sorted.now }
    ensures { OnOk result (out.new.items ≡ out.old.items ++ graph_text graph.now) }
{
    let mut members_done = 0;
    let mut edges_done = 0;
    for node in graph.nodes() {
        let members = &sorted[members_done..];
        let edges = &graph.edges()[edges_done..];
        let own_members = members_at(members, node);
        let own_edges = edges_at(edges, node);
        push_object(out, node, &members[..own_members], &edges[..own_edges])?;
        members_done += own_members;
        edges_done += own_edges;
    }
    Ok(())
}

/// Adds the canonical text of a graph to `out`: each node's object, ascending, with its collections and edges.
pub fn write_ddl(alloc: Global, graph: &Graph, out: &mut Vec<u8>) -> Result<(), NoMemory>
    ensures { OnOk result (out.new.items ≡ out.old.items ++ graph_text graph.now) }
{
    let sorted = by_node(alloc, graph.member_pairs())?;
    push_nodes(out, graph, sorted.as_slice())
}
