// What records state of a graph.
ghost use Rattle.std.specs.Prelude.{◌≡◌, ◌<◌, ◌-◌, ◌^◌, ◌∷◌, [], length};
ghost use Rattle.std.specs.List.{list_all};
ghost use Rattle.std.specs.Str.{is_utf8};
ghost use Rattle.sd_graph.specs.Statement.{Building, a_node, a_member, an_edge, IsData};
ghost use Rattle.sd_graph.specs.Stating.{says, Ends};
ghost use Rattle.sd_graph.specs.StatingLaws.{ending_at};
ghost use Rattle.csv_source.specs.Text.{csv_ending, rows_steps, row_steps, row_statements, field_step, field_steps, header_steps, fits as fits_header};
ghost use Rattle.csv_source.specs.Reader.{IsOpen, records_left, bytes_left};

use crate::reader::next_fields;
use crate::refusal::CsvRefusal;
use crate::rules::CsvRules;
use csv::Reader;
use sd_graph::{GraphBuilder, GraphRefusal};
use sd_value::{Str, Value};
use source_steps::{numbered_name, value_of};
use std::alloc::Global;
use std::str;

// The answer to an addition for record `row`.
fn at_row(answer: Result<(), GraphRefusal>, row: u64) -> Result<(), CsvRefusal>
    ensures { csv_ending result ≡ ending_at row answer }
{
    match answer {
        Ok(()) => Ok(()),
        Err(GraphRefusal::TooManyNodes) => Err(CsvRefusal::TooManyNodes(row)),
        Err(GraphRefusal::TooManyEdges) => Err(CsvRefusal::TooManyEdges(row)),
        Err(GraphRefusal::NoMemory) => Err(CsvRefusal::NoMemory),
    }
}

#[tactic(auto, using(crate::proofs::Steps::stated))]
fn state_node(
    alloc: Global,
    graph: &mut GraphBuilder,
    row: u64,
    name: &Str,
) -> Result<(), CsvRefusal>
    ensures { Ends graph.old (says row (a_node name.now) ∷ []) graph.new (csv_ending result) }
{
    at_row(graph.add_node(alloc, name), row)
}

#[tactic(auto, using(crate::proofs::Steps::stated))]
fn state_member(
    alloc: Global,
    graph: &mut GraphBuilder,
    row: u64,
    collection: &Str,
    name: &Str,
) -> Result<(), CsvRefusal>
    ensures { Ends graph.old (says row (a_member collection.now name.now) ∷ []) graph.new
        (csv_ending result) }
{
    at_row(graph.add_member(alloc, collection, name), row)
}

#[tactic(auto, using(crate::proofs::Steps::stated))]
fn state_edge(
    alloc: Global,
    graph: &mut GraphBuilder,
    row: u64,
    name: &Str,
    label: &Str,
    value: &Value,
) -> Result<(), CsvRefusal>
    requires { IsData value.now }
    ensures { Ends graph.old (says row (an_edge name.now label.now value.now) ∷ []) graph.new
        (csv_ending result) }
{
    at_row(graph.add_edge(alloc, name, label, value), row)
}

#[tactic(auto, using(crate::proofs::Steps::a_text, crate::proofs::Steps::no_text))]
fn is_text(field: &Str) -> bool
    ensures { result ≡ is_utf8 field.now }
{
    match str::from_utf8(field.bytes()) {
        Ok(_) => true,
        Err(_) => false,
    }
}

fn are_texts(fields: &[Str]) -> bool
    ensures { result ≡ list_all is_utf8 fields.now }
{
    fields.iter().all(|field| is_text(field))
}

// A field of a record: an edge, where it isn't empty.
fn add_field(
    alloc: Global,
    rules: CsvRules,
    graph: &mut GraphBuilder,
    row: u64,
    name: &Str,
    label: &Str,
    field: &Str,
) -> Result<(), CsvRefusal>
    ensures { Ends graph.old (field_step rules row name.now label.now field.now) graph.new
        (csv_ending result) }
{
    if field.bytes().is_empty() {
        return Ok(());
    }
    let value = value_of(alloc, rules.links, field)?;
    state_edge(alloc, graph, row, name, label, &value)
}

// The fields of a record, each under its column's label.
fn add_fields(
    alloc: Global,
    rules: CsvRules,
    graph: &mut GraphBuilder,
    row: u64,
    name: &Str,
    labels: &[Str],
    fields: &[Str],
) -> Result<(), CsvRefusal>
    ensures { Ends graph.old (field_steps rules row name.now labels.now fields.now) graph.new
        (csv_ending result) }
{
    let mut labels_left = labels;
    let mut fields_left = fields;
    'columns: while let Some((label, more_labels)) = labels_left.split_first() {
        let Some((field, more_fields)) = fields_left.split_first() else {
            return Ok(());
        };
        add_field(alloc, rules, graph, row, name, label, field)?;
        labels_left = more_labels;
        fields_left = more_fields;
    }
    Ok(())
}

// A record with at most a field for each label.
fn state_row(
    alloc: Global,
    rules: CsvRules,
    graph: &mut GraphBuilder,
    stem: &Str,
    name: &Str,
    labels: &[Str],
    row: u64,
    fields: &[Str],
) -> Result<(), CsvRefusal>
    ensures { Ends graph.old
        (row_statements rules stem.now name.now labels.now row fields.now) graph.new
        (csv_ending result) }
{
    state_node(alloc, graph, row, name)?;
    state_member(alloc, graph, row, stem, name)?;
    add_fields(alloc, rules, graph, row, name, labels, fields)
}

// Whether a record may stand under a header: it has as many fields, or by the rules fewer.
fn fits(rules: CsvRules, labels: &[Str], fields: &[Str]) -> bool
    ensures { result ≡ fits_header rules (length labels.now) (length fields.now) }
{
    fields.len() == labels.len() || (rules.short_records && fields.len() < labels.len())
}

// A record under a header.
fn add_row(
    alloc: Global,
    rules: CsvRules,
    graph: &mut GraphBuilder,
    stem: &Str,
    labels: &[Str],
    row: u64,
    fields: &[Str],
) -> Result<(), CsvRefusal>
    ensures { Ends graph.old (row_steps rules stem.now labels.now row fields.now) graph.new
        (csv_ending result) }
{
    if !fits(rules, labels, fields) {
        return Err(CsvRefusal::Ragged(row));
    }
    if !are_texts(fields) {
        return Err(CsvRefusal::NotUtf8(row));
    }
    let name = numbered_name(alloc, stem, row)?;
    state_row(alloc, rules, graph, stem, &name, labels, row, fields)
}

/// The first label that is empty.
pub(crate) fn check_labels(labels: &[Str]) -> Result<(), CsvRefusal>
    ensures { (b : Building) → Ends b (header_steps labels.now) b (csv_ending result) }
{
    if !are_texts(labels) {
        return Err(CsvRefusal::NotUtf8(0));
    }
    let mut labels_left = labels;
    let mut column = 0;
    'columns: while let Some((label, more_labels)) = labels_left.split_first() {
        if label.bytes().is_empty() {
            return Err(CsvRefusal::EmptyLabel(column));
        }
        column += 1;
        labels_left = more_labels;
    }
    Ok(())
}

/// The records after the header.
pub(crate) fn add_rows(
    alloc: Global,
    rules: CsvRules,
    graph: &mut GraphBuilder,
    stem: &Str,
    labels: &[Str],
    reader: &mut Reader<&[u8]>,
) -> Result<(), CsvRefusal>
    requires open { IsOpen reader.old }
    requires small { length (bytes_left reader.old) < 2 ^ 64 - 1 }
    ensures { Ends graph.old
        (rows_steps rules stem.now labels.now 1 (records_left reader.old)) graph.new
        (csv_ending result) }
{
    let mut row = 1;
    'rows: while let Some(fields) = next_fields(alloc, reader)? {
        add_row(alloc, rules, graph, stem, labels, row, fields.as_slice())?;
        row += 1;
    }
    Ok(())
}
