// Files that are refused, with their places worked out by hand.
use crate::checks::check;
use crate::databases::{BLOB, Database, LATIN, LIBRARY, UTF16, WITHOUT_ROWID};
use crate::graphs::{check_graph, graph_for};
use sd_value::{NoMemory, Str};
use sqlite_source::{DbRefusal, read_sqlite};
use std::alloc::Global;
use std::test::Fail;

// A file, a byte of it that is changed, how much of it there is, the most nodes and edges that are added, and the refusal.
struct Row {
    database: &'static Database,
    at: usize,
    byte: u8,
    length: usize,
    nodes: u64,
    edges: u64,
    name: &'static [u8],
    place: &'static [u8],
}

// What most rows have.
const ROW: Row = Row {
    database: &LIBRARY,
    at: 2048,
    byte: 0,
    length: 2048,
    nodes: 9,
    edges: 99,
    name: b"NotDatabase",
    place: b"",
};

const ROWS: &[Row] = &[
    Row { length: 0, ..ROW },
    Row { length: 511, ..ROW },
    Row {
        at: 5,
        byte: b'!',
        ..ROW
    },
    // the kind of the schema's page
    Row {
        at: 100,
        byte: 7,
        ..ROW
    },
    Row {
        database: &UTF16,
        ..ROW
    },
    // the kind of the page of author
    Row {
        at: 512,
        byte: 7,
        name: b"Damaged",
        place: b"/author",
        ..ROW
    },
    // the page of book is not there
    Row {
        length: 1024,
        name: b"Damaged",
        place: b"/book",
        ..ROW
    },
    Row {
        database: &WITHOUT_ROWID,
        name: b"NotRead",
        place: b"/t",
        ..ROW
    },
    Row {
        database: &BLOB,
        name: b"IsBlob",
        place: b"/a~1b/2/d",
        ..ROW
    },
    Row {
        database: &LATIN,
        name: b"NotUtf8",
        place: b"/t/1/c",
        ..ROW
    },
    Row {
        nodes: 0,
        name: b"TooManyNodes",
        place: b"/author/1",
        ..ROW
    },
    Row {
        edges: 3,
        name: b"TooManyEdges",
        place: b"/author/1",
        ..ROW
    },
];

fn reported(end: &Result<(), DbRefusal>) -> (&'static [u8], &[u8]) {
    match end {
        Ok(()) => (b"read", b""),
        Err(DbRefusal::NotDatabase) => (b"NotDatabase", b""),
        Err(DbRefusal::Damaged(place)) => (b"Damaged", place.bytes()),
        Err(DbRefusal::NotRead(place)) => (b"NotRead", place.bytes()),
        Err(DbRefusal::IsBlob(place)) => (b"IsBlob", place.bytes()),
        Err(DbRefusal::NotUtf8(place)) => (b"NotUtf8", place.bytes()),
        Err(DbRefusal::TooManyEdges(place)) => (b"TooManyEdges", place.bytes()),
        Err(DbRefusal::TooManyNodes(place)) => (b"TooManyNodes", place.bytes()),
        Err(DbRefusal::NoMemory) => (b"NoMemory", b""),
    }
}

// The bytes of a row's file.
fn file_of(alloc: Global, row: &Row) -> Result<Vec<u8>, NoMemory> {
    let mut bytes = row.database.bytes(alloc)?;
    if let Some(byte) = bytes.get_mut(row.at) {
        *byte = row.byte;
    }
    bytes.truncate(row.length);
    Ok(bytes)
}

fn check_row(alloc: Global, row: &Row) -> Result<(), Fail> {
    let stem = Str::new(alloc, b"d")?;
    let bytes = file_of(alloc, row)?;
    let mut graph = graph_for(alloc, row.nodes, row.edges);
    let end = read_sqlite(alloc, &stem, &bytes, &mut graph);
    let (name, place) = reported(&end);
    check(name == row.name && place == row.place, "another answer")
}

#[test]
fn files_are_refused_at_their_places(rt: HostRuntime) -> Result<(), Fail> {
    for row in ROWS {
        check_row(rt.alloc(), row)?;
    }
    Ok(())
}

#[test]
fn rows_before_a_fault_are_kept(rt: HostRuntime) -> Result<(), Fail> {
    let alloc = rt.alloc();
    let stem = Str::new(alloc, b"d")?;
    let bytes = BLOB.bytes(alloc)?;
    let mut graph = graph_for(alloc, 9, 99);
    check(
        read_sqlite(alloc, &stem, &bytes, &mut graph).is_err(),
        "not refused",
    )?;
    check_graph(
        alloc,
        graph,
        b"object \"d_a/b_1\" in \"a/b\" {\n  \"c\" 1\n  \"d\" \"x\"\n}\nobject \"d_a/b_2\" in \"a/b\" {\n  \"c\" 2\n}\n",
    )
}
