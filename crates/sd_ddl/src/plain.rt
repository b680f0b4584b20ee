// A text without directives, read statement by statement.
ghost use Rattle.std.specs.Prelude.{◌≡◌, ◌+◌, ◌^◌, ◌<◌, length, map, IfSome, IsTrue, OnOk};
ghost use Rattle.sd_graph.specs.ProgramLimits.{AreWithinProgram};
ghost use Rattle.sd_graph.specs.Stating.{Leads};
ghost use Rattle.ddl_text.specs.declared.tree.Statement.TheVariants.{Object};
ghost use Rattle.sd_ddl.specs.Parts.{parts_of, member_part, edge_part};
ghost use Rattle.sd_ddl.specs.Steps.{said};
ghost use Rattle.sd_ddl.specs.Stops.{all_said};
ghost use Rattle.sd_ddl.specs.Plain.{no_kinds, AddsNext, AddsAll, ReadsAll};

use crate::conflict::{Stop, add_edge, stop_at, value_of};
use crate::kinds::StatedKinds;
use ddl_text::{Field, Statement, next_statement};
use sd_graph::{GraphBuilder, Limits};
use sd_lex::{Rest, Token, text_rest};
use sd_value::Str;
use std::alloc::Global;
use token_reader::Word;

// Adds that the object is in these collections.
fn add_members(
    alloc: Global,
    object: &Str,
    collections: &[Word],
    graph: &mut GraphBuilder,
) -> Result<(), Stop>
    ensures { OnOk result (Leads graph.old
        (all_said no_kinds (map (member_part object.now) collections.now)) graph.new) }
{
    for collection in collections {
        let answer = graph.add_member(alloc, &collection.text, object);
        stop_at(answer, collection.place)?;
    }
    Ok(())
}

// Adds an attribute. A text without a kind is a Text.
fn add_field(
    alloc: Global,
    object: &Str,
    field: &Field,
    graph: &mut GraphBuilder,
) -> Result<(), Stop>
    ensures { OnOk result
        (Leads graph.old (said no_kinds (edge_part object.now field.now)) graph.new) }
{
    let value = value_of(alloc, StatedKinds::Nothing, &field.value.content)?;
    add_edge(
        alloc,
        object,
        &field.name.text,
        value,
        field.value.place,
        graph,
    )
}

// Adds the object's attributes.
fn add_fields(
    alloc: Global,
    object: &Str,
    fields: &[Field],
    graph: &mut GraphBuilder,
) -> Result<(), Stop>
    ensures { OnOk result (Leads graph.old
        (all_said no_kinds (map (edge_part object.now) fields.now)) graph.new) }
{
    for field in fields {
        add_field(alloc, object, field, graph)?;
    }
    Ok(())
}

// Adds what an object states.
fn add_object(
    alloc: Global,
    name: &Word,
    collections: &[Word],
    fields: &[Field],
    graph: &mut GraphBuilder,
) -> Result<(), Stop>
    ensures { OnOk result (Leads graph.old
        (all_said no_kinds (parts_of (Object name.now collections.now fields.now))) graph.new) }
{
    stop_at(graph.add_node(alloc, &name.text), name.place)?;
    add_members(alloc, &name.text, collections, graph)?;
    add_fields(alloc, &name.text, fields, graph)
}

// Adds what the next statement states, where it is an object's and all of it fits. What is left of
// the text then. `tokens` is room for the statement's tokens.
fn add_next<'a>(
    alloc: Global,
    rest: Rest<'a>,
    tokens: &mut Vec<Token>,
    graph: &mut GraphBuilder,
) -> Option<Rest<'a>>
    requires { rest.at + length rest.bytes.now < 2 ^ 64 }
    ensures { IfSome result (AddsNext rest.entry.at rest.entry.bytes.now graph.old graph.new) }
{
    let (statement, left) = next_statement(alloc, rest, tokens)?;
    let Statement::Object(name, collections, fields) = &statement else {
        return None;
    };
    match add_object(alloc, name, collections.items(), fields.items(), graph) {
        Ok(()) => Some(left),
        Err(_) => None,
    }
}

// Adds what a text states, statement by statement, as long as nothing speaks against it. Whether
// all was added.
fn add_all(alloc: Global, start: Rest, graph: &mut GraphBuilder) -> bool
    requires { start.at + length start.bytes.now < 2 ^ 64 }
    ensures { IsTrue result
        → AddsAll start.entry.at start.entry.bytes.now graph.old graph.new }
{
    let mut tokens = Vec::new(alloc);
    let mut rest = start;
    'statements: while !rest.bytes.is_empty() {
        match add_next(alloc, rest, &mut tokens, graph) {
            Some(left) => rest = left,
            None => return false,
        }
    }
    true
}

/// The graph that a text of at most `limit` bytes states, if it has no directives and all of it
/// fits. `None` says nothing of the text.
pub(crate) fn read_plainly(
    alloc: Global,
    bytes: &[u8],
    limit: u64,
    limits: Limits,
) -> Option<GraphBuilder>
    requires { AreWithinProgram limits }
    ensures { IfSome result (ReadsAll limit bytes.now limits) }
{
    let Ok(start) = text_rest(bytes, limit) else {
        return None;
    };
    let mut graph = GraphBuilder::new(alloc, limits);
    if add_all(alloc, start, &mut graph) {
        Some(graph)
    } else {
        None
    }
}
