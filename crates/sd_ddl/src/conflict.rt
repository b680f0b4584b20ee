// The first conflict of kinds, and adding what is before it.
ghost use Rattle.std.specs.Prelude.{◌≡◌, IfOk, IfSome, Some};
ghost use Rattle.sd_ddl.specs.Tables.{Knows, told_of};
ghost use Rattle.sd_ddl.specs.Stops.{IsFirst, Takes, all_said, stop_ending};
ghost use Rattle.sd_ddl.specs.Steps.{said, edge_steps, kinded, value_of};
ghost use Rattle.sd_graph.specs.Stating.{Ends};
ghost use Rattle.sd_graph.specs.StatingLaws.{ending_at};
ghost use Rattle.sd_graph.specs.Statement.{IsData};

use crate::kinds::{Givings, Kinds, StatedKinds};
use crate::part::Part;
use ddl_text::{Content, Kind};
use sd_graph::{GraphBuilder, GraphRefusal};
use sd_value::{Datum, NoMemory, Str, Value};
use std::alloc::Global;

/// Why adding what a text states ended early, and where.
#[derive(Clone, Copy)]
pub enum Stop {
    KindConflict(u64),
    TooManyEdges(u64),
    TooManyNodes(u64),
    NoMemory,
}

impl From<NoMemory> for Stop {
    ghost use Rattle.std.specs.Prelude.{◌≡◌};
    ghost use Rattle.sd_ddl.specs.declared.conflict.Stop.TheVariants.{NoMemory as OutOfMemory};

    ghost from_gives = { λ _ e. e ≡ OutOfMemory };

    fn from(_e: NoMemory) -> Stop {
        Stop::NoMemory
    }
}

/// A conflict of kinds: how many parts are before it, and its place.
#[derive(Clone, Copy)]
pub(crate) struct Conflict {
    count: usize,
    place: u64,
}

/// The first conflict of kinds.
pub(crate) fn first_conflict(
    alloc: Global,
    parts: &[Part],
    kinds: &Kinds,
) -> Result<Option<Conflict>, NoMemory>
    requires { Knows parts.now kinds.now }
    ensures { IfOk result (IsFirst parts.now) }
{
    let mut seen = Givings::new(alloc);
    let mut count = 0;
    for part in parts {
        if kinds.conflicts(alloc, &seen, part)? {
            let place = part.place();
            return Ok(Some(Conflict { count, place }));
        }
        seen.add_part(alloc, part)?;
        count += 1;
    }
    Ok(None)
}

/// What adding something answers at a place.
pub(crate) fn stop_at(answer: Result<(), GraphRefusal>, place: u64) -> Result<(), Stop>
    ensures { stop_ending result ≡ ending_at place answer }
{
    match answer {
        Ok(()) => Ok(()),
        Err(GraphRefusal::TooManyEdges) => Err(Stop::TooManyEdges(place)),
        Err(GraphRefusal::TooManyNodes) => Err(Stop::TooManyNodes(place)),
        Err(GraphRefusal::NoMemory) => Err(Stop::NoMemory),
    }
}

fn kinded(kind: Kind, text: Str) -> Value
    ensures { result ≡ kinded kind text }
{
    match kind {
        Kind::Text => Value::Data(Datum::Text(text)),
        Kind::Url => Value::Data(Datum::Url(text)),
        Kind::File => Value::Data(Datum::File(text)),
    }
}

/// The value of an attribute, unless it has two kinds.
pub(crate) fn value_of(
    alloc: Global,
    told: StatedKinds,
    content: &Content,
) -> Result<Option<Value>, NoMemory>
    ensures value { IfOk result (λ v. v ≡ value_of told content.now) }
    ensures data { IfOk result (λ v. IfSome v IsData) }
{
    match content {
        Content::Number(n) => Ok(Some(Value::Data(Datum::Int(*n)))),
        Content::Node(name) => Ok(Some(Value::Data(Datum::Node(name.copy(alloc)?)))),
        Content::Kinded(kind, text) => Ok(Some(kinded(*kind, text.copy(alloc)?))),
        Content::Plain(text) => match told {
            StatedKinds::Nothing => Ok(Some(Value::Data(Datum::Text(text.copy(alloc)?)))),
            StatedKinds::One(kind) => Ok(Some(kinded(kind, text.copy(alloc)?))),
            StatedKinds::Several => Ok(None),
        },
    }
}

/// Adds an attribute of an object.
pub(crate) fn add_edge(
    alloc: Global,
    object: &Str,
    label: &Str,
    value: Option<Value>,
    place: u64,
    graph: &mut GraphBuilder,
) -> Result<(), Stop>
    requires { IfSome value IsData }
    ensures { Ends graph.old (edge_steps place object.now label.now value) graph.new
        (stop_ending result) }
{
    match value {
        Some(value) => stop_at(graph.add_edge(alloc, object, label, &value), place),
        None => Err(Stop::KindConflict(place)),
    }
}

// Adds what a part states.
fn add_part(alloc: Global, part: &Part, kinds: &Kinds, graph: &mut GraphBuilder) -> Result<(), Stop>
    ensures { Ends graph.old (said (told_of kinds.now) part.now) graph.new (stop_ending result) }
{
    match part {
        Part::Gives(_) => Ok(()),
        Part::Node(name) => stop_at(graph.add_node(alloc, &name.text), name.place),
        Part::Member(collection, object) => stop_at(
            graph.add_member(alloc, &collection.text, object),
            collection.place,
        ),
        Part::Edge(object, label, given) => {
            let told = kinds.told(alloc, object, label)?;
            let value = value_of(alloc, told, &given.content)?;
            add_edge(alloc, object, label, value, given.place, graph)
        }
    }
}

/// Adds what these parts state, in their order.
pub(crate) fn add_parts(
    alloc: Global,
    parts: &[Part],
    kinds: &Kinds,
    graph: &mut GraphBuilder,
) -> Result<(), Stop>
    ensures { Ends graph.old (all_said (told_of kinds.now) parts.now) graph.new
        (stop_ending result) }
{
    for part in parts {
        add_part(alloc, part, kinds, graph)?;
    }
    Ok(())
}

// Adds what is before the first conflict, to a copy, since the graph stays as it was where all of it fits.
fn add_front(
    alloc: Global,
    parts: &[Part],
    kinds: &Kinds,
    conflict: Conflict,
    graph: &mut GraphBuilder,
) -> Result<(), Stop>
    requires known { Knows parts.now kinds.now }
    requires first { IsFirst parts.now (Some conflict) }
    ensures { Takes parts.now graph.old graph.new result }
{
    let (front, _) = parts.split_at(conflict.count);
    let mut trial = graph.copy(alloc)?;
    match add_parts(alloc, front, kinds, &mut trial) {
        Ok(()) => Err(Stop::KindConflict(conflict.place)),
        Err(stop) => {
            *graph = trial;
            Err(stop)
        }
    }
}

/// Adds what these parts state, up to the first conflict of kinds. After a conflict nothing is added.
pub(crate) fn add_text(alloc: Global, parts: &[Part], graph: &mut GraphBuilder) -> Result<(), Stop>
    ensures { Takes parts.now graph.old graph.new result }
{
    let kinds = Kinds::of(alloc, parts)?;
    match first_conflict(alloc, parts, &kinds)? {
        None => add_parts(alloc, parts, &kinds, graph),
        Some(conflict) => add_front(alloc, parts, &kinds, conflict, graph),
    }
}
