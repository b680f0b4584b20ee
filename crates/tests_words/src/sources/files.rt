// Files of each format, and the format that a path gives, with answers worked out by hand.
use super::graphs::check_graph;
use crate::checks::{check, check_text};
use data_source::{Format, SourceRefusal, SourceRules, format_of, read_source};
use run_report::Place;
use sd_graph::{GraphBuilder, PROGRAM_LIMITS};
use sd_value::{NoMemory, Str};
use std::alloc::Global;
use std::test::Fail;

// A file, how it is read, the number of its refusal, the byte, the record or the column where it is, or the length of its
// pointer, and the data text of what is stated, if it is compared. Number 0 is no refusal.
struct Row {
    path: &'static str,
    text: &'static str,
    rules: SourceRules,
    number: u32,
    count: u64,
    graph: Option<&'static str>,
}

// What most rows have.
const ROW: Row = Row {
    path: "",
    text: "",
    rules: SourceRules::STRICT,
    number: 0,
    count: 0,
    graph: None,
};

const FILES: &[Row] = &[
    Row {
        path: "a.ddl",
        text: "object a {",
        number: 31,
        count: 10,
        ..ROW
    },
    Row {
        path: "a.ddl",
        text: "object a { }",
        ..ROW
    },
    Row {
        path: "c.csv",
        text: "a,,b\n",
        number: 42,
        count: 1,
        ..ROW
    },
    Row {
        path: "c.csv",
        text: "a,b\n1,2\n3\n",
        number: 43,
        count: 2,
        ..ROW
    },
    Row {
        path: "c.csv",
        text: "a,b\n1,2\n",
        ..ROW
    },
    Row {
        path: "x.json",
        text: "{",
        number: 44,
        ..ROW
    },
    Row {
        path: "x.json",
        text: "[{\"price\": 3.5}]",
        number: 45,
        count: 8,
        ..ROW
    },
    Row {
        path: "x.json",
        text: "[]",
        ..ROW
    },
    Row {
        path: "b.bib",
        text: "@misc{k",
        number: 121,
        count: 7,
        ..ROW
    },
    Row {
        path: "b.bib",
        text: "@misc{k, note = x}",
        number: 122,
        count: 16,
        ..ROW
    },
    Row {
        path: "b.bib",
        text: "@misc{k}",
        ..ROW
    },
    Row {
        path: "p.CSV",
        text: "a;b\n1\n",
        rules: SourceRules::LENIENT,
        graph: Some("object \"p_1\" in \"p\" {\n  \"a\" 1\n}\n"),
        ..ROW
    },
];

fn count_of(place: &Place) -> u64 {
    match place {
        Place::At(count) | Place::Row(count) | Place::Column(count) => *count,
        Place::Path(path) => path.bytes().len() as u64,
    }
}

// The number of a refusal, and its place as a count.
fn reported(end: &Result<(), SourceRefusal>) -> (u32, u64) {
    match end {
        Ok(()) => (0, 0),
        Err(SourceRefusal::Refused { number, place }) => (*number, count_of(place)),
        Err(SourceRefusal::NoMemory) => (u32::MAX, 0),
    }
}

fn check_file(alloc: Global, row: &Row) -> Result<(), Fail> {
    let text = row.text.as_bytes();
    let path = Str::new(alloc, row.path.as_bytes())?;
    let mut graph = GraphBuilder::new(alloc, PROGRAM_LIMITS);
    let end = read_source(alloc, row.rules, &path, text, 80, &mut graph);
    check(reported(&end) == (row.number, row.count), text)?;
    check_graph(alloc, text, graph, row.graph)
}

#[test]
fn each_file_is_read_in_its_format(rt: HostRuntime) -> Result<(), Fail> {
    for row in FILES {
        check_file(rt.alloc(), row)?;
    }
    Ok(())
}

// A path, and the formats that it gives its file where the file is read strictly and, if that is compared, leniently,
// each with the stem of its names.
struct FormatRow {
    path: &'static str,
    strict: &'static str,
    lenient: Option<&'static str>,
}

const FORMATS: &[FormatRow] = &[
    FormatRow {
        path: "/data.d/my.bib.csv",
        strict: "CSV my.bib",
        lenient: None,
    },
    FormatRow {
        path: "p.json",
        strict: "JSON p",
        lenient: None,
    },
    FormatRow {
        path: "d/p.bib",
        strict: "BibTeX p",
        lenient: None,
    },
    FormatRow {
        path: "d/P.CSV",
        strict: "data text",
        lenient: Some("CSV P"),
    },
    FormatRow {
        path: "p.csv",
        strict: "CSV p",
        lenient: Some("CSV p"),
    },
    FormatRow {
        path: "p.JSON",
        strict: "data text",
        lenient: Some("JSON p"),
    },
    FormatRow {
        path: "p.BIB",
        strict: "data text",
        lenient: Some("BibTeX p"),
    },
    FormatRow {
        path: "d/library.db",
        strict: "database library",
        lenient: Some("database library"),
    },
    FormatRow {
        path: "p.sqlite",
        strict: "database p",
        lenient: None,
    },
    FormatRow {
        path: "p.SQLITE3",
        strict: "data text",
        lenient: Some("database p"),
    },
    FormatRow {
        path: "p.Csv",
        strict: "data text",
        lenient: Some("data text"),
    },
];

const TEXT_FORMATS: &[FormatRow] = &[
    FormatRow {
        path: "a/b.c/x.y.html",
        strict: "text x.y in b.c",
        lenient: Some("text x.y in b.c"),
    },
    FormatRow {
        path: "./p.md",
        strict: "text p",
        lenient: None,
    },
    FormatRow {
        path: "a/../p.md",
        strict: "text p",
        lenient: None,
    },
    FormatRow {
        path: "/p.md",
        strict: "text p",
        lenient: None,
    },
    FormatRow {
        path: "posts/p.MD",
        strict: "data text",
        lenient: Some("text p in posts"),
    },
    FormatRow {
        path: "p.HTML",
        strict: "data text",
        lenient: Some("text p"),
    },
    FormatRow {
        path: "posts/p.txt",
        strict: "data text",
        lenient: Some("data text"),
    },
];

fn push_folder(folder: &Option<Str>, text: &mut Vec<u8>) -> Result<(), NoMemory> {
    if let Some(name) = folder {
        text.extend_from_slice(b" in ")?;
        text.extend_from_slice(name.bytes())?;
    }
    Ok(())
}

// The name of the format, and its stem.
fn name_of(alloc: Global, format: &Format) -> Result<Vec<u8>, NoMemory> {
    let (name, stem) = match format {
        Format::DataText => (b"data text".as_slice(), b"".as_slice()),
        Format::Csv(stem) => (b"CSV ".as_slice(), stem.bytes()),
        Format::Json(stem) => (b"JSON ".as_slice(), stem.bytes()),
        Format::BibTex(stem) => (b"BibTeX ".as_slice(), stem.bytes()),
        Format::Database(stem) => (b"database ".as_slice(), stem.bytes()),
        Format::Text(stem, _) => (b"text ".as_slice(), stem.bytes()),
    };
    let mut text = Vec::from_slice(alloc, name)?;
    text.extend_from_slice(stem)?;
    if let Format::Text(_, folder) = format {
        push_folder(folder, &mut text)?;
    }
    Ok(text)
}

fn check_format(alloc: Global, row: &FormatRow) -> Result<(), Fail> {
    let path = Str::new(alloc, row.path.as_bytes())?;
    let strict = name_of(alloc, &format_of(alloc, SourceRules::STRICT, &path)?)?;
    check_text(path.bytes(), &strict, row.strict.as_bytes())?;
    let Some(wanted) = row.lenient else {
        return Ok(());
    };
    let lenient = name_of(alloc, &format_of(alloc, SourceRules::LENIENT, &path)?)?;
    check_text(path.bytes(), &lenient, wanted.as_bytes())
}

#[test]
fn each_path_gives_the_format_of_its_row(rt: HostRuntime) -> Result<(), Fail> {
    for row in FORMATS {
        check_format(rt.alloc(), row)?;
    }
    Ok(())
}

#[test]
fn each_path_of_a_text_gives_its_folder(rt: HostRuntime) -> Result<(), Fail> {
    for row in TEXT_FORMATS {
        check_format(rt.alloc(), row)?;
    }
    Ok(())
}
