// Members by node, and what a node has at the front of a list that is by node.
ghost use Rattle.std.specs.Prelude.{◌≡◌, IfOk, map};
ghost use Rattle.std.specs.List.{prefix_len};
ghost use Rattle.sd_ddl.specs.Groups.{start_is, node_is, IsByNode};

use sd_graph::{Edge, Member};
use sd_value::{NoMemory, Str};
use std::alloc::Global;

/// The members by node, and each node's by collection.
pub(crate) fn by_node(alloc: Global, members: &[Member]) -> Result<Vec<&Member>, NoMemory>
    ensures { IfOk result (λ sorted. IsByNode members.now sorted.items) }
{
    let mut sorted = references(alloc, members)?;
    sorted.sort_by(|a: &&Member, b: &&Member| a.node.cmp(&b.node))?;
    Ok(sorted)
}

fn references(alloc: Global, members: &[Member]) -> Result<Vec<&Member>, NoMemory>
    ensures { IfOk result (λ all. map (λ m. m.now) all.items ≡ members.now) }
{
    let mut all = Vec::with_capacity(alloc, members.len())?;
    for member in members {
        all.push(member)?;
    }
    Ok(all)
}

/// How many edges at the front start at the node. (Short texts are put in order in half the time in which they are told
/// to be equal.)
pub(crate) fn edges_at(edges: &[Edge], node: &Str) -> usize
    ensures { result ≡ prefix_len (start_is node.now) edges.now }
{
    for (i, edge) in edges.iter().enumerate() {
        if edge.from.cmp(node).is_ne() {
            return i;
        }
    }
    edges.len()
}

/// How many members at the front are the node's.
pub(crate) fn members_at(members: &[&Member], node: &Str) -> usize
    ensures { result ≡ prefix_len (node_is node.now) members.now }
{
    for (i, member) in members.iter().enumerate() {
        if member.node.cmp(node).is_ne() {
            return i;
        }
    }
    members.len()
}
