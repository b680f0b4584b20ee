// Single statements at their places.
ghost use Rattle.std.specs.Prelude.{◌≡◌, ◌⊎◌, ◌∷◌, [], IsErr, Err};
ghost use Rattle.sd_graph.specs.Statement.{a_node, a_member, an_edge, IsData};
ghost use Rattle.sd_graph.specs.Stating.{says, Ends};
ghost use Rattle.sd_graph.specs.StatingLaws.{ending_at};
ghost use Rattle.sd_value.specs.declared.Value.TheVariants.{Data as a_datum};
ghost use Rattle.sd_value.specs.declared.Datum.TheVariants.{Node as a_node_value};
ghost use Rattle.source_steps.specs.Links.{text_value as value_of_text};
ghost use Rattle.json_source.specs.Text.{json_ending, number_steps};
ghost use Rattle.json_source.specs.declared.refusal.JsonRefusal.TheVariants.{NoMemory as OutOfMemory};

use crate::refusal::JsonRefusal;
use sd_graph::{GraphBuilder, GraphRefusal};
use sd_value::{Datum, Str, Value};
use source_steps::text_value;
use std::alloc::Global;

// The answer to an addition at a place.
fn at_place(alloc: Global, answer: Result<(), GraphRefusal>, at: &Str) -> Result<(), JsonRefusal>
    ensures { (json_ending result ≡ ending_at at.now answer)
        ⊎ ((result ≡ Err OutOfMemory) × IsErr answer) }
{
    match answer {
        Ok(()) => Ok(()),
        Err(GraphRefusal::TooManyNodes) => Err(JsonRefusal::TooManyNodes(at.copy(alloc)?)),
        Err(GraphRefusal::TooManyEdges) => Err(JsonRefusal::TooManyEdges(at.copy(alloc)?)),
        Err(GraphRefusal::NoMemory) => Err(JsonRefusal::NoMemory),
    }
}

// An edge.
#[tactic(auto, using(crate::proofs::Steps::stated))]
fn state_edge(
    alloc: Global,
    graph: &mut GraphBuilder,
    at: &Str,
    node: &Str,
    label: &Str,
    value: &Value,
) -> Result<(), JsonRefusal>
    requires { IsData value.now }
    ensures { Ends graph.old (says at.now (an_edge node.now label.now value.now) ∷ []) graph.new
        (json_ending result) }
{
    at_place(alloc, graph.add_edge(alloc, node, label, value), at)
}

/// An edge to a text, or to a URL if links are URLs and it is one.
pub(crate) fn state_text(
    alloc: Global,
    links: bool,
    graph: &mut GraphBuilder,
    at: &Str,
    node: &Str,
    label: &Str,
    text: &[u8],
) -> Result<(), JsonRefusal>
    ensures { Ends graph.old
        (says at.now (an_edge node.now label.now (value_of_text links text.now)) ∷ []) graph.new
        (json_ending result) }
{
    let value = text_value(links, Str::new(alloc, text)?);
    state_edge(alloc, graph, at, node, label, &value)
}

/// An edge to another node.
pub(crate) fn state_child(
    alloc: Global,
    graph: &mut GraphBuilder,
    at: &Str,
    node: &Str,
    label: &Str,
    child: &Str,
) -> Result<(), JsonRefusal>
    ensures { Ends graph.old
        (says at.now (an_edge node.now label.now (a_datum (a_node_value child.now))) ∷ [])
        graph.new (json_ending result) }
{
    let value = Value::Data(Datum::Node(child.copy(alloc)?));
    state_edge(alloc, graph, at, node, label, &value)
}

/// A node.
#[tactic(auto, using(crate::proofs::Steps::stated))]
pub(crate) fn state_node(
    alloc: Global,
    graph: &mut GraphBuilder,
    at: &Str,
    node: &Str,
) -> Result<(), JsonRefusal>
    ensures { Ends graph.old (says at.now (a_node node.now) ∷ []) graph.new (json_ending result) }
{
    at_place(alloc, graph.add_node(alloc, node), at)
}

/// A member of a collection.
#[tactic(auto, using(crate::proofs::Steps::stated))]
pub(crate) fn state_member(
    alloc: Global,
    graph: &mut GraphBuilder,
    at: &Str,
    collection: &Str,
    node: &Str,
) -> Result<(), JsonRefusal>
    ensures { Ends graph.old (says at.now (a_member collection.now node.now) ∷ []) graph.new
        (json_ending result) }
{
    at_place(alloc, graph.add_member(alloc, collection, node), at)
}

/// An edge to a number, where it is an integer of 64 bits.
pub(crate) fn state_number(
    alloc: Global,
    graph: &mut GraphBuilder,
    at: &Str,
    node: &Str,
    label: &Str,
    number: Option<i64>,
) -> Result<(), JsonRefusal>
    ensures { Ends graph.old (number_steps at.now node.now label.now number) graph.new
        (json_ending result) }
{
    match number {
        Some(number) => state_edge(
            alloc,
            graph,
            at,
            node,
            label,
            &Value::Data(Datum::Int(number)),
        ),
        None => Err(JsonRefusal::NotInteger(at.copy(alloc)?)),
    }
}
