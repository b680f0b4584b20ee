// ORDERs of rows, with `'` for each quote of a text.
ghost use Rattle.std.specs.Prelude.{IsTrue};
ghost use Rattle.graph_order.specs.Answers.{Fits};

use graph_order::{Order, OrderFault, Place, order_graph};
use sd_ddl::{read_ddl, write_ddl};
use sd_graph::{Graph, GraphBuilder, Limits, MAX_EDGES, MAX_NODES, PROGRAM_LIMITS};
use sd_value::{NoMemory, Str};
use std::alloc::Global;
use std::test::Fail;

// The most bytes of a text here.
const LIMIT: u64 = 4096;

/// An edge that each member is given.
pub enum PlaceRow {
    Position(&'static str),
    Next(&'static str),
    Previous(&'static str),
    Page(&'static str, u64),
}

/// An ORDER.
pub struct OrderRow {
    pub collection: &'static str,
    pub word: &'static [&'static str],
    pub fold: bool,
    pub descend: bool,
    pub places: &'static [PlaceRow],
}

fn name(alloc: Global, text: &str) -> Result<Str, NoMemory> {
    Str::new(alloc, text.as_bytes())
}

fn place_of(alloc: Global, row: &PlaceRow) -> Result<Place, NoMemory> {
    Ok(match row {
        PlaceRow::Position(label) => Place::Position(name(alloc, label)?),
        PlaceRow::Next(label) => Place::Next(name(alloc, label)?),
        PlaceRow::Previous(label) => Place::Previous(name(alloc, label)?),
        PlaceRow::Page(label, most) => Place::Page(name(alloc, label)?, *most),
    })
}

fn places_of(alloc: Global, rows: &[PlaceRow]) -> Result<Vec<Place>, NoMemory> {
    let mut places = Vec::new(alloc);
    for row in rows {
        places.push(place_of(alloc, row)?)?;
    }
    Ok(places)
}

fn word_of(alloc: Global, labels: &[&str]) -> Result<Vec<Str>, NoMemory> {
    let mut word = Vec::new(alloc);
    for label in labels {
        word.push(name(alloc, label)?)?;
    }
    Ok(word)
}

/// The ORDERs of a row.
pub fn orders_of(alloc: Global, rows: &[OrderRow]) -> Result<Vec<Order>, NoMemory> {
    let mut orders = Vec::new(alloc);
    for row in rows {
        orders.push(Order {
            collection: name(alloc, row.collection)?,
            word: word_of(alloc, row.word)?,
            fold: row.fold,
            descend: row.descend,
            places: places_of(alloc, row.places)?,
        })?;
    }
    Ok(orders)
}

/// The text with a quote for each `'`.
pub fn quoted(alloc: Global, text: &str) -> Result<Vec<u8>, NoMemory> {
    let mut quoted = Vec::new(alloc);
    for byte in text.bytes() {
        quoted.push(if byte == b'\'' { b'"' } else { byte })?;
    }
    Ok(quoted)
}

fn graph_of(alloc: Global, text: &str) -> Result<Graph, Fail> {
    let text = quoted(alloc, text)?;
    let mut builder = GraphBuilder::new(alloc, PROGRAM_LIMITS);
    read_ddl(alloc, text.as_slice(), LIMIT, &mut builder)?;
    Ok(builder.finish(alloc)?)
}

fn has_room(limits: Limits, graph: &Graph) -> bool
    ensures { IsTrue result → Fits limits graph.now }
{
    let members = graph.member_pairs().len() as u64;
    let edges = graph.edges().len() as u64;
    graph.nodes().len() as u64 <= limits.nodes && edges + members <= limits.edges
}

/// What the ORDERs make of the graph of a data text, where at most these edges and members are allowed, and no more than
/// in the program.
pub fn ordered(
    alloc: Global,
    edges: u64,
    text: &str,
    rows: &[OrderRow],
) -> Result<Result<Graph, OrderFault>, Fail> {
    let limits = Limits {
        nodes: MAX_NODES,
        edges: edges.min(MAX_EDGES),
    };
    let graph = graph_of(alloc, text)?;
    let orders = orders_of(alloc, rows)?;
    if !has_room(limits, &graph) {
        return Err(Fail::new("the data has no room"));
    }
    Ok(order_graph(alloc, limits, graph, orders.as_slice()))
}

/// Fails with both texts where the graph's data text is another.
pub fn check_graph(alloc: Global, graph: &Graph, wanted: &str) -> Result<(), Fail> {
    let mut found = Vec::new(alloc);
    write_ddl(alloc, graph, &mut found)?;
    if found.as_slice() == quoted(alloc, wanted)?.as_slice() {
        return Ok(());
    }
    let found = String::from_utf8_lossy(alloc, found.as_slice())?;
    Err(Fail::new(format_args!("{found} in place of {wanted}")))
}
