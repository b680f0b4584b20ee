// What rows state of a graph.
ghost use Rattle.std.specs.Prelude.{◌≡◌, ◌⊎◌, ◌∷◌, [], Err, IfOk, IsErr};
ghost use Rattle.std.specs.Str.{is_utf8};
ghost use Rattle.sd_value.specs.declared.Value.TheVariants.{Data as a_datum};
ghost use Rattle.sd_value.specs.declared.Datum.TheVariants.{Text as a_text};
ghost use Rattle.sd_graph.specs.Statement.{a_node, a_member, an_edge, IsData};
ghost use Rattle.sd_graph.specs.Stating.{says, fails, Ends};
ghost use Rattle.sd_graph.specs.StatingLaws.{ending_at};
ghost use Rattle.sqlite_value.specs.Value.{owned};
ghost use Rattle.sqlite_source.specs.Rows.{db_ending, integer_value as value_of_integer, value_steps, field_value as value_of_field, fields_steps, named_statements, row_statements, row_steps, rows_steps};

use crate::names::{row_name, row_place};
use crate::refusal::DbRefusal;
use crate::sheet::Field;
use json_source::place_of_member;
use sd_graph::{GraphBuilder, GraphRefusal};
use sd_value::{Datum, NoMemory, Str, Value};
use sqlite_schema::code::lend_value;
use sqlite_sql::spelling::of_float;
use sqlite_value::row::Row;
use sqlite_value::value::ValueRef;
use std::alloc::Global;
use std::str;

// The answer to an addition at a place.
fn at_place(alloc: Global, answer: Result<(), GraphRefusal>, at: &Str) -> Result<(), DbRefusal>
    ensures { (db_ending result ≡ ending_at at.now answer)
        ⊎ ((result ≡ Err DbRefusal.NoMemory) × IsErr answer) }
{
    match answer {
        Ok(()) => Ok(()),
        Err(GraphRefusal::TooManyNodes) => Err(DbRefusal::TooManyNodes(at.copy(alloc)?)),
        Err(GraphRefusal::TooManyEdges) => Err(DbRefusal::TooManyEdges(at.copy(alloc)?)),
        Err(GraphRefusal::NoMemory) => Err(DbRefusal::NoMemory),
    }
}

#[tactic(auto, using(crate::proofs::Steps::stated))]
fn state_node(
    alloc: Global,
    graph: &mut GraphBuilder,
    at: &Str,
    node: &Str,
) -> Result<(), DbRefusal>
    ensures { Ends graph.old (says at.now (a_node node.now) ∷ []) graph.new (db_ending result) }
{
    at_place(alloc, graph.add_node(alloc, node), at)
}

#[tactic(auto, using(crate::proofs::Steps::stated))]
fn state_member(
    alloc: Global,
    graph: &mut GraphBuilder,
    at: &Str,
    collection: &Str,
    node: &Str,
) -> Result<(), DbRefusal>
    ensures { Ends graph.old (says at.now (a_member collection.now node.now) ∷ []) graph.new
        (db_ending result) }
{
    at_place(alloc, graph.add_member(alloc, collection, node), at)
}

#[tactic(auto, using(crate::proofs::Steps::stated))]
fn state_edge(
    alloc: Global,
    graph: &mut GraphBuilder,
    at: &Str,
    node: &Str,
    label: &Str,
    value: &Value,
) -> Result<(), DbRefusal>
    requires { IsData value.now }
    ensures { Ends graph.old (says at.now (an_edge node.now label.now value.now) ∷ []) graph.new
        (db_ending result) }
{
    at_place(alloc, graph.add_edge(alloc, node, label, value), at)
}

#[tactic(auto, using(crate::proofs::Steps::a_text, crate::proofs::Steps::no_text))]
fn is_text(text: &[u8]) -> bool
    ensures { result ≡ is_utf8 text.now }
{
    match str::from_utf8(text) {
        Ok(_) => true,
        Err(_) => false,
    }
}

// The value of an integer: the row that it refers to, where its column refers to one.
fn integer_value(
    alloc: Global,
    stem: &Str,
    target: &Option<Str>,
    number: i64,
) -> Result<Value, NoMemory>
    ensures value { IfOk result (λ v. v ≡ value_of_integer stem.now target.now number) }
    ensures data { IfOk result IsData }
{
    match target {
        None => Ok(Value::Data(Datum::Int(number))),
        Some(table) => Ok(Value::Data(Datum::Node(row_name(alloc, stem, table, number)?))),
    }
}

fn state_text(
    alloc: Global,
    graph: &mut GraphBuilder,
    at: &Str,
    node: &Str,
    label: &Str,
    text: &[u8],
) -> Result<(), DbRefusal>
    ensures { Ends graph.old
        (says at.now (an_edge node.now label.now (a_datum (a_text text.now))) ∷ []) graph.new
        (db_ending result) }
{
    let value = Value::Data(Datum::Text(Str::new(alloc, text)?));
    state_edge(alloc, graph, at, node, label, &value)
}

// A value of a column.
fn add_value(
    alloc: Global,
    graph: &mut GraphBuilder,
    stem: &Str,
    at: &Str,
    node: &Str,
    field: &Field,
    value: ValueRef<'_>,
) -> Result<(), DbRefusal>
    ensures { Ends graph.old (value_steps stem.now at.now node.now field.now (owned value.entry))
        graph.new (db_ending result) }
{
    match value {
        ValueRef::Null => Ok(()),
        ValueRef::Int(number) => {
            let value = integer_value(alloc, stem, &field.target, number)?;
            state_edge(alloc, graph, at, node, &field.label, &value)
        }
        ValueRef::Real(number) => {
            let spelled = of_float(number);
            state_text(alloc, graph, at, node, &field.label, spelled.as_slice())
        }
        ValueRef::Text(text) => {
            if !is_text(text) {
                return Err(DbRefusal::NotUtf8(place_of_member(alloc, at, &field.label)?));
            }
            state_text(alloc, graph, at, node, &field.label, text)
        }
        ValueRef::Blob(_) => Err(DbRefusal::IsBlob(place_of_member(alloc, at, &field.label)?)),
    }
}

// What a row has in a column.
fn field_value<'a>(field: &'a Field, row: &'a Row) -> ValueRef<'a>
    ensures { owned result ≡ value_of_field field.now row.now }
{
    if field.place < row.len() {
        row.get(field.place)
    } else {
        lend_value(&field.default)
    }
}

// The values of a row, each in its column.
fn add_fields(
    alloc: Global,
    graph: &mut GraphBuilder,
    stem: &Str,
    at: &Str,
    node: &Str,
    fields: &[Field],
    row: &Row,
) -> Result<(), DbRefusal>
    ensures { Ends graph.old (fields_steps stem.now at.now node.now fields.now row.now) graph.new
        (db_ending result) }
{
    let mut fields_left = fields;
    'fields: while let Some((field, more)) = fields_left.split_first() {
        add_value(alloc, graph, stem, at, node, field, field_value(field, row))?;
        fields_left = more;
    }
    Ok(())
}

// A row whose node and place are known.
fn state_row(
    alloc: Global,
    graph: &mut GraphBuilder,
    stem: &Str,
    table: &Str,
    fields: &[Field],
    row: &Row,
    at: &Str,
    node: &Str,
) -> Result<(), DbRefusal>
    ensures { Ends graph.old
        (named_statements stem.now table.now fields.now row.now at.now node.now) graph.new
        (db_ending result) }
{
    state_node(alloc, graph, at, node)?;
    state_member(alloc, graph, at, table, node)?;
    add_fields(alloc, graph, stem, at, node, fields, row)
}

fn add_numbered(
    alloc: Global,
    graph: &mut GraphBuilder,
    stem: &Str,
    table: &Str,
    fields: &[Field],
    row: &Row,
    id: i64,
) -> Result<(), DbRefusal>
    ensures { Ends graph.old (row_statements stem.now table.now fields.now row.now id) graph.new
        (db_ending result) }
{
    let at = row_place(alloc, table, id)?;
    let node = row_name(alloc, stem, table, id)?;
    state_row(alloc, graph, stem, table, fields, row, &at, &node)
}

fn add_row(
    alloc: Global,
    graph: &mut GraphBuilder,
    stem: &Str,
    table: &Str,
    fields: &[Field],
    row: &Row,
) -> Result<(), DbRefusal>
    ensures { Ends graph.old (row_steps stem.now table.now fields.now row.now) graph.new
        (db_ending result) }
{
    match row.get(0) {
        ValueRef::Int(id) => add_numbered(alloc, graph, stem, table, fields, row, id),
        _ => Ok(()),
    }
}

/// The rows of a table.
pub(crate) fn add_rows(
    alloc: Global,
    graph: &mut GraphBuilder,
    stem: &Str,
    table: &Str,
    fields: &[Field],
    rows: &[Row],
) -> Result<(), DbRefusal>
    ensures { Ends graph.old (rows_steps stem.now table.now fields.now rows.now) graph.new
        (db_ending result) }
{
    let mut rows_left = rows;
    'rows: while let Some((row, more)) = rows_left.split_first() {
        add_row(alloc, graph, stem, table, fields, row)?;
        rows_left = more;
    }
    Ok(())
}
