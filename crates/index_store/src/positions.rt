// Queries over edges that are by their positions in the query's order.
ghost use Rattle.std.specs.Prelude.{◌≡◌, ◌<◌, IfOk, All, length, map, take};
ghost use Rattle.list_lookup.specs.Picked.{in_place, picked, IsPlaced};
ghost use Rattle.index_store.specs.Indexed.{edge_at, edges_at, place_at};

use list_lookup::{Query, first, part};
use sd_graph::Edge;
use sd_value::NoMemory;
use std::alloc::Global;
use std::cmp::Ordering;

// A query over edges, as one over positions. What lies past the edges is below its place.
#[derive(Drop)]
pub(crate) struct AtPositions<'a, Q> {
    pub edges: &'a [Edge],
    pub query: &'a Q,
}

impl<'a, Q: Query<Edge>> Query<u32> for AtPositions<'a, Q> {
    type Given = u32;

    ghost at = { λ q i. place_at (Q.at q.query.now) q.edges.now i };

    ghost gives = { λ i. i };

    fn place(&self, item: &u32) -> Ordering {
        let position = *item as usize;
        if position < self.edges.len() {
            self.query.place(&self.edges[position])
        } else {
            Ordering::Less
        }
    }

    fn give(&self, _alloc: Global, item: &u32) -> Result<u32, NoMemory> {
        Ok(*item)
    }
}

/// What the query gives of the edges at the positions.
pub(crate) fn give_at<Q: Query<Edge>>(
    alloc: Global,
    edges: &[Edge],
    positions: &[u32],
    query: &Q,
) -> Result<Vec<Q::Given>, NoMemory>
where
    Q::Given: Drop,
    requires { All (λ i. i < length edges.now) positions.now }
    ensures { IfOk result (λ given. given.items ≡ map Q.gives (edges_at edges.now positions.now)) }
{
    let mut given = Vec::new(alloc);
    for position in positions {
        given.push(query.give(alloc, &edges[*position as usize])?)?;
    }
    Ok(given)
}
