// Edits by a fixed generator: after each, the store that takes edits answers each question as an index of the edited
// graph from scratch does.
ghost use Rattle.std.specs.Prelude.{IsTrue};
ghost use Rattle.edit_spec.specs.Edited.{IsOfData};

use crate::checks::check;
use crate::mirrored::Mirror;
use crate::numbers::{Numbers, one_of};
use crate::same_answers::{Asked, check_same};
use edit_reader::read_edit;
use edit_spec::Edit;
use graph_spec::{Edge, Member};
use live_store::LiveStore;
use sd_graph::{GraphBuilder, GraphRefusal, MAX_NODES, PROGRAM_LIMITS, Store};
use sd_value::{Datum, NoMemory, Str, Value};
use std::alloc::Global;
use std::test::Fail;

const NODES: &[&str] = &["a", "b", "c", "d"];

const LABELS: &[&str] = &["p", "q"];

const COLLECTIONS: &[&str] = &["A", "B"];

fn one_name(
    alloc: Global,
    numbers: &mut Numbers,
    names: &'static [&'static str],
) -> Result<Str, NoMemory> {
    Str::new(alloc, one_of(numbers, names).as_bytes())
}

fn random_edge(alloc: Global, numbers: &mut Numbers) -> Result<Edge, NoMemory> {
    let from = one_name(alloc, numbers, NODES)?;
    let label = one_name(alloc, numbers, LABELS)?;
    let to = match numbers.below(2) {
        0 => Datum::Node(one_name(alloc, numbers, NODES)?),
        _ => Datum::Int(numbers.below(3) as i64),
    };
    Ok(Edge {
        from,
        label,
        to: Value::Data(to),
    })
}

fn random_member(alloc: Global, numbers: &mut Numbers) -> Result<Member, NoMemory> {
    Ok(Member {
        collection: one_name(alloc, numbers, COLLECTIONS)?,
        node: one_name(alloc, numbers, NODES)?,
    })
}

fn random_edit(alloc: Global, numbers: &mut Numbers) -> Result<Edit, NoMemory> {
    match numbers.below(8) {
        0 | 1 | 2 => Ok(Edit::Add(random_edge(alloc, numbers)?)),
        3 | 4 | 5 => Ok(Edit::Remove(random_edge(alloc, numbers)?)),
        6 => Ok(Edit::Enter(random_member(alloc, numbers)?)),
        _ => Ok(Edit::Leave(random_member(alloc, numbers)?)),
    }
}

fn names(alloc: Global, texts: &[&str]) -> Result<Vec<Str>, NoMemory> {
    let mut names = Vec::new(alloc);
    for text in texts {
        names.push(Str::new(alloc, text.as_bytes())?)?;
    }
    Ok(names)
}

fn asked(alloc: Global) -> Result<Asked, NoMemory> {
    let mut values = vec![in alloc;
        Value::Data(Datum::Int(0)),
        Value::Data(Datum::Int(1)),
        Value::Data(Datum::Int(2)),
    ]?;
    for name in names(alloc, NODES)? {
        values.push(Value::Data(Datum::Node(name)))?;
    }
    Ok(Asked {
        values,
        labels: names(alloc, LABELS)?,
        collections: names(alloc, COLLECTIONS)?,
    })
}

// The graph that forty edits made.
fn begun(alloc: Global, seed: u64) -> Result<Mirror, NoMemory> {
    let mut numbers = Numbers { state: seed };
    let mut mirror = Mirror::new(alloc);
    for _ in 0..40 {
        mirror.edit(alloc, random_edit(alloc, &mut numbers)?)?;
    }
    Ok(mirror)
}

// Whether no page is at the end of the edit's edge.
fn is_of_data(edit: &Edit) -> bool
    ensures { IsTrue result → IsOfData edit.now }
{
    match edit {
        Edit::Add(edge) => match &edge.to {
            Value::Data(_) => true,
            Value::Page(_) => false,
        },
        Edit::Remove(_) | Edit::Enter(_) | Edit::Leave(_) => true,
    }
}

fn apply(
    alloc: Global,
    store: &mut LiveStore,
    edit: &Edit,
) -> Result<Result<(), GraphRefusal>, Fail> {
    if is_of_data(edit) {
        return Ok(store.apply(alloc, edit));
    }
    Err(Fail::new("a page in the data"))
}

// A hundred edits of the graph.
fn check_edits(alloc: Global, mirror: &mut Mirror, seed: u64) -> Result<(), Fail> {
    let graph = mirror.builder(alloc)?.finish(alloc)?;
    let mut store = LiveStore::of(alloc, graph)?;
    let asked = asked(alloc)?;
    let mut numbers = Numbers { state: seed };
    for _ in 0..100 {
        let edit = random_edit(alloc, &mut numbers)?;
        check(
            apply(alloc, &mut store, &edit)?.is_ok(),
            "an edit is refused",
        )?;
        mirror.edit(alloc, edit)?;
        check_same(alloc, &store, &mirror.index(alloc)?, &asked)?;
    }
    Ok(())
}

// A hundred edits of the graph that the edits of the first seed make. One test of all seeds would take longer than a test may.
fn check_seeds(alloc: Global, first: u64, later: u64) -> Result<(), Fail> {
    let mut mirror = begun(alloc, first)?;
    check_edits(alloc, &mut mirror, later)
}

#[test]
fn the_first_hundred_edits_give_the_edited_graph(rt: HostRuntime) -> Result<(), Fail> {
    check_seeds(rt.alloc(), 1, 2)
}

#[test]
fn the_second_hundred_edits_give_the_edited_graph(rt: HostRuntime) -> Result<(), Fail> {
    check_seeds(rt.alloc(), 3, 4)
}

#[test]
fn the_third_hundred_edits_give_the_edited_graph(rt: HostRuntime) -> Result<(), Fail> {
    check_seeds(rt.alloc(), 5, 6)
}

#[test]
fn the_fourth_hundred_edits_give_the_edited_graph(rt: HostRuntime) -> Result<(), Fail> {
    check_seeds(rt.alloc(), 7, 8)
}

#[test]
fn the_fifth_hundred_edits_give_the_edited_graph(rt: HostRuntime) -> Result<(), Fail> {
    check_seeds(rt.alloc(), 9, 10)
}

#[test]
fn the_sixth_hundred_edits_give_the_edited_graph(rt: HostRuntime) -> Result<(), Fail> {
    check_seeds(rt.alloc(), 11, 12)
}

// An edit of a store of as many nodes as there may be, and its answer.
struct LimitRow {
    edit: &'static str,
    answer: Result<(), GraphRefusal>,
}

const LIMITED: &[LimitRow] = &[
    LimitRow {
        edit: "edit add n0 p &n1",
        answer: Ok(()),
    },
    LimitRow {
        edit: "edit add n0 p &more",
        answer: Err(GraphRefusal::TooManyNodes),
    },
    LimitRow {
        edit: "edit enter more A",
        answer: Err(GraphRefusal::TooManyNodes),
    },
    LimitRow {
        edit: "edit enter n1 A",
        answer: Ok(()),
    },
    LimitRow {
        edit: "edit remove n0 p &n1",
        answer: Ok(()),
    },
];

// A store of this many nodes.
fn store_of_nodes(alloc: Global, count: u64) -> Result<LiveStore, Fail> {
    let mut builder = GraphBuilder::new(alloc, PROGRAM_LIMITS);
    for number in 0..count {
        let name = format!(in alloc; "n{number}")?;
        builder.add_node(alloc, &Str::new(alloc, name.as_bytes())?)?;
    }
    Ok(LiveStore::of(alloc, builder.finish(alloc)?)?)
}

#[test]
fn edits_beyond_the_limits_are_refused(rt: HostRuntime) -> Result<(), Fail> {
    let alloc = rt.alloc();
    let mut store = store_of_nodes(alloc, MAX_NODES)?;
    for row in LIMITED {
        let edit = read_edit(alloc, row.edit.as_bytes(), 65_536)?;
        let answer = apply(alloc, &mut store, &edit)?;
        assert_eq!(rt; answer, row.answer, "{}", row.edit);
    }
    assert_eq!(rt; store.sizes().nodes, MAX_NODES);
    assert_eq!(rt; store.sizes().edges, 0);
    Ok(())
}
