// The edges and members of the data, in a site's graph.
ghost use Rattle.std.specs.Prelude.{◌≡◌};
ghost use Rattle.site_spec.specs.Site.{SomeOf};
ghost use Rattle.compose.specs.Adding.{AddsAll};
ghost use Rattle.compose.specs.Stated.{data_edge, data_member, link_from, IsDataStated};

use crate::names::{encoded, node_name};
use graph_spec::{Edge, Member};
use sd_graph::{Graph, GraphBuilder, GraphRefusal};
use sd_value::{Str, Value};
use std::alloc::Global;

/// Adds an edge from a node of the site's graph to what the value is there.
pub fn add_link(
    alloc: Global,
    builder: &mut GraphBuilder,
    from: &Str,
    label: &Str,
    to: &Value,
) -> Result<(), GraphRefusal>
    ensures { AddsAll (λ s. link_from from.now label.now to.now ≡ s)
        builder.old builder.new result }
{
    let end = encoded(alloc, to)?;
    let to = Value::Data(end);
    builder.add_edge(alloc, from, label, &to)
}

fn add_data_edge(alloc: Global, builder: &mut GraphBuilder, edge: &Edge) -> Result<(), GraphRefusal>
    ensures { AddsAll (λ s. data_edge edge.now ≡ s) builder.old builder.new result }
{
    let from = node_name(alloc, &edge.from)?;
    add_link(alloc, builder, &from, &edge.label, &edge.to)
}

fn add_data_edges(
    alloc: Global,
    builder: &mut GraphBuilder,
    edges: &[Edge],
) -> Result<(), GraphRefusal>
    ensures { AddsAll (λ s. SomeOf (λ e. data_edge e ≡ s) edges.now)
        builder.old builder.new result }
{
    for edge in edges {
        add_data_edge(alloc, builder, edge)?;
    }
    Ok(())
}

fn add_data_member(
    alloc: Global,
    builder: &mut GraphBuilder,
    member: &Member,
) -> Result<(), GraphRefusal>
    ensures { AddsAll (λ s. data_member member.now ≡ s) builder.old builder.new result }
{
    let node = node_name(alloc, &member.node)?;
    builder.add_member(alloc, &member.collection, &node)
}

fn add_data_members(
    alloc: Global,
    builder: &mut GraphBuilder,
    members: &[Member],
) -> Result<(), GraphRefusal>
    ensures { AddsAll (λ s. SomeOf (λ m. data_member m ≡ s) members.now)
        builder.old builder.new result }
{
    for member in members {
        add_data_member(alloc, builder, member)?;
    }
    Ok(())
}

/// Adds the edges and the members of the data.
pub fn add_data(
    alloc: Global,
    builder: &mut GraphBuilder,
    graph: &Graph,
) -> Result<(), GraphRefusal>
    ensures { AddsAll (IsDataStated graph.now) builder.old builder.new result }
{
    add_data_edges(alloc, builder, graph.edges())?;
    add_data_members(alloc, builder, graph.member_pairs())
}
