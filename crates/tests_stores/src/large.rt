// A store of 100,000 edges.
use index_store::IndexStore;
use sd_graph::{GraphBuilder, PROGRAM_LIMITS, Sizes, Store};
use sd_value::{Datum, Str, Value};
use std::alloc::Global;
use std::test::Fail;

// How many nodes there are, and how many edges start at each.
const NODES: i64 = 100;

const EACH: i64 = 1_000;

// Edges from the node to the numbers below `EACH`.
fn add_edges(
    alloc: Global,
    builder: &mut GraphBuilder,
    node: &Str,
    label: &Str,
) -> Result<(), Fail> {
    for number in 0..EACH {
        builder.add_edge(alloc, node, label, &Value::Data(Datum::Int(number)))?;
    }
    Ok(())
}

fn large_store(alloc: Global, label: &Str) -> Result<IndexStore, Fail> {
    let mut builder = GraphBuilder::new(alloc, PROGRAM_LIMITS);
    for number in 0..NODES {
        let name = format!(in alloc; "n{number}")?;
        let node = Str::new(alloc, name.as_bytes())?;
        add_edges(alloc, &mut builder, &node, label)?;
    }
    Ok(IndexStore::of(alloc, builder.finish(alloc)?)?)
}

#[test]
fn a_store_has_all_of_many_edges(rt: HostRuntime) -> Result<(), Fail> {
    let alloc = rt.alloc();
    let label = Str::new(alloc, b"has")?;
    let store = large_store(alloc, &label)?;
    let sizes = Sizes {
        nodes: 100,
        edges: 100_000,
        values: 1_100,
        labels: 1,
    };
    assert_eq!(rt; store.sizes(), sizes);
    assert_eq!(rt; store.edges_of(&label), 100_000);
    let node = Value::Data(Datum::Node(Str::new(alloc, b"n42")?));
    assert_eq!(rt; store.degree_out(&node), 1_000);
    assert_eq!(rt; store.degree_incoming(&Value::Data(Datum::Int(999))), 100);
    Ok(())
}
