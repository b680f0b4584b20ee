// Values by hash: a guess where a value is among the distinct ones, which who asks compares with what is there.
ghost use Rattle.std.specs.Prelude.{◌≡◌, ◌<◌, ◌+◌, IfSome, IsTrue, All, length};
ghost use Rattle.index_store.specs.Indexed.{value_at, IsAt};

use crate::spans::value_in;
use sd_graph::{Edge, Graph};
use sd_value::{Datum, NoMemory, Value};
use std::alloc::Global;
use std::hash::{BuildHasher, BuildHasherDefault, FoldHasher, Hash, Hasher};

// A value has one of so many slots beside one another, or none where others have them.
const SLOTS_OF_ONE: usize = 16;

/// Slots, each with a number of a value and one, or with 0. Which slots may have a value is told by its hash.
#[derive(Debug, Drop)]
pub(crate) struct Slots {
    numbers: Vec<u32>,
}

fn hash_of(value: &Value) -> u64 {
    let mut hasher = BuildHasherDefault::<FoldHasher>::new().build_hasher();
    value.hash(&mut hasher);
    hasher.finish()
}

// The first slot that may have the value, where there are some.
fn first_slot(value: &Value, slots: usize) -> Option<usize>
    ensures { IfSome result (λ first. first + SLOTS_OF_ONE < slots) }
{
    if slots <= SLOTS_OF_ONE {
        return None;
    }
    Some((hash_of(value) % (slots - SLOTS_OF_ONE) as u64) as usize)
}

// Puts the number into the first slot of the value that has none.
fn put(numbers: &mut [u32], value: &Value, number: u32)
    ensures { length numbers.new ≡ length numbers.old }
{
    let Some(first) = first_slot(value, numbers.len()) else {
        return;
    };
    for slot in first..first + SLOTS_OF_ONE {
        if numbers[slot] == 0 {
            numbers[slot] = number;
            return;
        }
    }
}

impl Slots {
    /// Slots for values at places among nodes and then edges' ends, by their number in this list.
    pub(crate) fn of(
        alloc: Global,
        nodes: &[Value],
        edges: &[Edge],
        places: &[u32],
    ) -> Result<Slots, NoMemory>
        requires { All (λ i. i < length nodes.now + length edges.now) places.now }
    {
        let slots = places.len().saturating_mul(2).saturating_add(SLOTS_OF_ONE);
        let mut numbers = Vec::from_elem(alloc, 0u32, slots)?;
        for number in 0..places.len().min(u32::MAX as usize) {
            let value = value_in(nodes, edges, places[number] as usize);
            put(numbers.as_mut_slice(), value, number as u32 + 1);
        }
        Ok(Slots { numbers })
    }

    /// The number of the value among those at the places, if a slot has it.
    pub(crate) fn find(&self, graph: &Graph, places: &[u32], value: &Value) -> Option<usize>
        requires { All (λ i. i < length graph.now.nodes + length graph.now.edges) places.now }
        ensures { IfSome result (IsAt graph.now places.now value.now) }
    {
        let first = first_slot(value, self.numbers.len())?;
        for slot in first..first + SLOTS_OF_ONE {
            let number = self.numbers[slot] as usize;
            if number == 0 {
                return None;
            }
            if is_at(graph, places, number - 1, value) {
                return Some(number - 1);
            }
        }
        None
    }
}

// Whether the value is the one at a place among nodes and then edges' ends.
fn is_value_at(graph: &Graph, place: usize, value: &Value) -> bool
    requires { place < length graph.now.nodes + length graph.now.edges }
    ensures { IsTrue result → value_at graph.now place ≡ value.now }
{
    let nodes = graph.nodes();
    if place < nodes.len() {
        match value {
            Value::Data(Datum::Node(name)) => nodes[place] == *name,
            _ => false,
        }
    } else {
        graph.edges()[place - nodes.len()].to == *value
    }
}

// Whether it is the one of that number.
fn is_at(graph: &Graph, places: &[u32], number: usize, value: &Value) -> bool
    requires { All (λ i. i < length graph.now.nodes + length graph.now.edges) places.now }
    ensures { IsTrue result → IsAt graph.now places.now value.now number }
{
    number < places.len() && is_value_at(graph, places[number] as usize, value)
}
