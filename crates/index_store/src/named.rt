// A node among the members of one collection, by its name alone.
ghost use Rattle.std.specs.Prelude.{◌↔◌, ◌<◌, ◌+◌, IsTrue, All, length};
ghost use Rattle.sd_value.specs.Order.{bytes_cmp};
ghost use Rattle.list_lookup.specs.Picked.{IsPlaced, HasOne};

use crate::slots::Slots;
use list_lookup::{Query, has};
use sd_graph::{Graph, Member};
use sd_value::{Datum, NoMemory, Str, Value};
use std::alloc::Global;
use std::cmp::Ordering;

/// The members whose node has the name.
#[derive(Drop)]
pub(crate) struct Named<'a> {
    pub name: &'a Str,
}

impl<'a> Query<Member> for Named<'a> {
    type Given = ();

    ghost at = { λ q m. bytes_cmp m.node q.name.now };

    ghost gives = { λ m. tt };

    fn place(&self, item: &Member) -> Ordering {
        item.node.cmp(self.name)
    }

    fn give(&self, _alloc: Global, _item: &Member) -> Result<(), NoMemory> {
        Ok(())
    }
}

/// Whether one of the members has the name. At the place is looked first, which spares most searches.
pub(crate) fn has_named(members: &[Member], place: Option<usize>, name: &Str) -> bool
    requires { IsPlaced (λ m. bytes_cmp m.node name.now) members.now }
    ensures { IsTrue result ↔ HasOne (λ m. bytes_cmp m.node name.now) members.now }
{
    if let Some(place) = place
        && place < members.len()
        && members[place].node == *name
    {
        return true;
    }
    has(members, &Named { name })
}

/// For each node a place that it has among the members of a collection, and 0 where it is in none.
pub(crate) fn member_places(
    alloc: Global,
    graph: &Graph,
    slots: &Slots,
    values: &[u32],
) -> Result<Vec<u32>, NoMemory>
    requires { All (λ i. i < length graph.now.nodes + length graph.now.edges) values.now }
{
    let members = graph.member_pairs();
    let mut places = Vec::from_elem(alloc, 0u32, graph.nodes().len())?;
    let mut place = 0u32;
    for number in 0..members.len() {
        let member = &members[number];
        if number > 0 && members[number - 1].collection != member.collection {
            place = 0;
        }
        let node = Value::Data(Datum::Node(member.node.copy(alloc)?));
        if let Some(found) = slots.find(graph, values, &node)
            && let Some(at) = places.get_mut(values[found] as usize)
        {
            *at = place;
        }
        place = place.saturating_add(1);
    }
    Ok(places)
}
