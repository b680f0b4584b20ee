// Records, and lists of records.
ghost use Rattle.sd_graph.specs.Stating.{Ends};
ghost use Rattle.serde_json.specs.View.{view, items_view, members_view};
ghost use Rattle.json_source.specs.Text.{json_ending, record_statements, record_steps, records_steps};
ghost use Rattle.json_source.specs.Text.{collection_steps, collections_steps, object_steps, top_steps};

use crate::names::{name_of_member, place_of_item, place_of_member};
use crate::refusal::JsonRefusal;
use crate::rules::JsonRules;
use crate::statements::{state_member, state_node};
use crate::tables::{holds_collections, is_collection};
use crate::values::add_members;
use sd_graph::GraphBuilder;
use sd_value::Str;
use serde_json::{Map, Value as Json};
use source_steps::numbered_name;
use std::alloc::Global;

// A record's node, its member and its fields.
fn state_record(
    members: &Map<String, Json>,
    alloc: Global,
    rules: JsonRules,
    graph: &mut GraphBuilder,
    at: &Str,
    collection: &Str,
    node: &Str,
) -> Result<(), JsonRefusal>
    ensures { Ends graph.old
        (record_statements rules at.now collection.now node.now (members_view members.now.entries))
        graph.new (json_ending result) }
{
    state_node(alloc, graph, at, node)?;
    state_member(alloc, graph, at, collection, node)?;
    add_members(members, alloc, rules, graph, at, node)
}

// A record.
fn add_record(
    value: &Json,
    alloc: Global,
    rules: JsonRules,
    graph: &mut GraphBuilder,
    at: &Str,
    collection: &Str,
    node: &Str,
) -> Result<(), JsonRefusal>
    ensures { Ends graph.old
        (record_steps rules at.now collection.now node.now (view value.now)) graph.new
        (json_ending result) }
{
    let Some(members) = value.as_object() else {
        return Err(JsonRefusal::NotRecords(at.copy(alloc)?));
    };
    state_record(members, alloc, rules, graph, at, collection, node)
}

// The records of a list.
fn add_records(
    items: &Vec<Json>,
    alloc: Global,
    rules: JsonRules,
    graph: &mut GraphBuilder,
    at: &Str,
    collection: &Str,
    name: &Str,
) -> Result<(), JsonRefusal>
    ensures { Ends graph.old
        (records_steps rules at.now collection.now name.now 0 (items_view items.now.items))
        graph.new (json_ending result) }
{
    let mut index: u64 = 0;
    for item in items {
        let place = place_of_item(alloc, at, index)?;
        index += 1;
        let node = numbered_name(alloc, name, index)?;
        add_record(item, alloc, rules, graph, &place, collection, &node)?;
    }
    Ok(())
}

// The list of a collection's records.
fn add_collection(
    value: &Json,
    alloc: Global,
    rules: JsonRules,
    graph: &mut GraphBuilder,
    at: &Str,
    collection: &Str,
    name: &Str,
) -> Result<(), JsonRefusal>
    ensures { Ends graph.old
        (collection_steps rules at.now collection.now name.now (view value.now)) graph.new
        (json_ending result) }
{
    let Some(items) = value.as_array() else {
        return Err(JsonRefusal::NotRecords(at.copy(alloc)?));
    };
    add_records(items, alloc, rules, graph, at, collection, name)
}

// The collections of an object, each under its key. By the rules, what is none is passed over.
fn add_collections(
    members: &Map<String, Json>,
    alloc: Global,
    rules: JsonRules,
    graph: &mut GraphBuilder,
    stem: &Str,
) -> Result<(), JsonRefusal>
    ensures { Ends graph.old
        (collections_steps rules stem.now (members_view members.now.entries)) graph.new
        (json_ending result) }
{
    let top = Str::new(alloc, b"")?;
    for (key, value) in members.iter() {
        if is_collection(rules, value) {
            let collection = Str::new(alloc, key.as_bytes())?;
            let place = place_of_member(alloc, &top, &collection)?;
            let name = name_of_member(alloc, stem, &collection)?;
            add_collection(value, alloc, rules, graph, &place, &collection, &name)?;
        }
    }
    Ok(())
}

// An object's collections, or the object as one record.
fn add_object(
    members: &Map<String, Json>,
    alloc: Global,
    rules: JsonRules,
    graph: &mut GraphBuilder,
    stem: &Str,
) -> Result<(), JsonRefusal>
    ensures { Ends graph.old
        (object_steps rules stem.now (members_view members.now.entries)) graph.new
        (json_ending result) }
{
    if holds_collections(rules, members) {
        return add_collections(members, alloc, rules, graph, stem);
    }
    let top = Str::new(alloc, b"")?;
    let node = numbered_name(alloc, stem, 1)?;
    state_record(members, alloc, rules, graph, &top, stem, &node)
}

/// What a text's value states.
pub(crate) fn add_top(
    value: &Json,
    alloc: Global,
    rules: JsonRules,
    graph: &mut GraphBuilder,
    stem: &Str,
) -> Result<(), JsonRefusal>
    ensures { Ends graph.old (top_steps rules stem.now (view value.now)) graph.new
        (json_ending result) }
{
    if let Some(members) = value.as_object() {
        return add_object(members, alloc, rules, graph, stem);
    }
    let top = Str::new(alloc, b"")?;
    add_collection(value, alloc, rules, graph, &top, stem, stem)
}
