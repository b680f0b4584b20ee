// What a value under a label states, and what is in it.
ghost use Rattle.sd_graph.specs.Stating.{Ends};
ghost use Rattle.serde_json.specs.View.{view, items_view, members_view};
ghost use Rattle.json_source.specs.Text.{json_ending, order_steps, value_steps, items_steps, members_steps};

use crate::names::{name_of_list, name_of_member, place_of_item, place_of_member};
use crate::orders::{has_order, order_text};
use crate::refusal::JsonRefusal;
use crate::rules::JsonRules;
use crate::statements::{state_child, state_number, state_text};
use sd_graph::GraphBuilder;
use sd_value::Str;
use serde_json::{Map, Value as Json};
use source_steps::numbered_name;
use std::alloc::Global;

// By the rules, the order of a list that is a key's own value.
fn add_order(
    value: &Json,
    alloc: Global,
    rules: JsonRules,
    graph: &mut GraphBuilder,
    at: &Str,
    node: &Str,
    key: &Str,
) -> Result<(), JsonRefusal>
    ensures { Ends graph.old (order_steps rules at.now node.now key.now (view value.now)) graph.new
        (json_ending result) }
{
    if !(rules.orders && has_order(value)) {
        return Ok(());
    }
    let text = order_text(alloc, value)?;
    let label = name_of_list(alloc, key)?;
    state_text(alloc, false, graph, at, node, &label, text.bytes())
}

// A value under a label. An object is the node `child`.
#[cycle(add_value)]
fn add_value(
    value: &Json,
    alloc: Global,
    rules: JsonRules,
    graph: &mut GraphBuilder,
    at: &Str,
    node: &Str,
    label: &Str,
    child: &Str,
) -> Result<(), JsonRefusal>
    ensures { Ends graph.old
        (value_steps rules at.now node.now label.now child.now (view value.now)) graph.new
        (json_ending result) }
{
    match value {
        Json::Null => Ok(()),
        Json::Bool(true) => state_text(alloc, false, graph, at, node, label, b"true"),
        Json::Bool(false) => state_text(alloc, false, graph, at, node, label, b"false"),
        Json::Number(number) => state_number(alloc, graph, at, node, label, number.as_i64()),
        Json::String(text) => state_text(
            alloc,
            rules.links,
            graph,
            at,
            node,
            label,
            text.as_bytes(),
        ),
        Json::Array(items) => add_items(items, alloc, rules, graph, at, node, label, child),
        Json::Object(members) => {
            state_child(alloc, graph, at, node, label, child)?;
            add_members(members, alloc, rules, graph, at, child)
        }
    }
}

// The items of a list, each under the label.
#[cycle(add_value)]
fn add_items(
    items: &Vec<Json>,
    alloc: Global,
    rules: JsonRules,
    graph: &mut GraphBuilder,
    at: &Str,
    node: &Str,
    label: &Str,
    child: &Str,
) -> Result<(), JsonRefusal>
    ensures { Ends graph.old
        (items_steps rules at.now node.now label.now child.now 0 (items_view items.now.items))
        graph.new (json_ending result) }
{
    let mut index: u64 = 0;
    for item in items {
        let place = place_of_item(alloc, at, index)?;
        index += 1;
        let name = numbered_name(alloc, child, index)?;
        add_value(item, alloc, rules, graph, &place, node, label, &name)?;
    }
    Ok(())
}

/// The members of a node's object, each under its key, and the order of those that are lists.
#[cycle(add_value)]
pub(crate) fn add_members(
    members: &Map<String, Json>,
    alloc: Global,
    rules: JsonRules,
    graph: &mut GraphBuilder,
    at: &Str,
    node: &Str,
) -> Result<(), JsonRefusal>
    ensures { Ends graph.old
        (members_steps rules at.now node.now (members_view members.now.entries)) graph.new
        (json_ending result) }
{
    for (key, member) in members.iter() {
        let label = Str::new(alloc, key.as_bytes())?;
        let place = place_of_member(alloc, at, &label)?;
        let name = name_of_member(alloc, node, &label)?;
        add_value(member, alloc, rules, graph, &place, node, &label, &name)?;
        add_order(member, alloc, rules, graph, &place, node, &label)?;
    }
    Ok(())
}
