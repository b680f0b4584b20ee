// Whole texts in CSV, read strictly or leniently, with answers worked out by hand.
use super::graphs::{check_graph, graph_for};
use crate::checks::check;
use csv_source::{CsvRefusal, CsvRules, read_csv};
use sd_value::Str;
use std::alloc::Global;
use std::test::Fail;

// A text, the stem of its names, the most nodes and edges that are added, how it is read, why it is refused, or none, and
// the data text of what is stated, if it is compared.
struct Row {
    text: &'static [u8],
    stem: &'static str,
    nodes: u64,
    edges: u64,
    rules: CsvRules,
    refusal: Option<CsvRefusal>,
    graph: Option<&'static str>,
}

// What most rows have.
const ROW: Row = Row {
    text: b"",
    stem: "p",
    nodes: 9,
    edges: 99,
    rules: CsvRules::STRICT,
    refusal: None,
    graph: None,
};

const ROWS: &[Row] = &[
    Row {
        text: b"a,,b\n",
        stem: "c",
        edges: 9,
        refusal: Some(CsvRefusal::EmptyLabel(1)),
        ..ROW
    },
    Row {
        text: b"a,b\n1,2\n\n3\n",
        stem: "c",
        edges: 9,
        refusal: Some(CsvRefusal::Ragged(2)),
        ..ROW
    },
    Row {
        text: b"a,b\n1,\xff\n",
        stem: "c",
        edges: 9,
        refusal: Some(CsvRefusal::NotUtf8(1)),
        ..ROW
    },
    Row {
        text: b"a,\xff,\n",
        stem: "c",
        edges: 9,
        refusal: Some(CsvRefusal::NotUtf8(0)),
        ..ROW
    },
    Row {
        text: b"a,b\n\xff\n",
        stem: "c",
        edges: 9,
        refusal: Some(CsvRefusal::Ragged(1)),
        ..ROW
    },
    Row {
        text: b"a,b\n1,2\n3,4\n",
        stem: "c",
        nodes: 2,
        edges: 6,
        ..ROW
    },
    Row {
        text: b"a,b\n1,2\n3,4\n",
        stem: "c",
        nodes: 2,
        edges: 5,
        refusal: Some(CsvRefusal::TooManyEdges(2)),
        ..ROW
    },
    Row {
        text: b"a,b\n1,2\n3,4\n",
        stem: "c",
        nodes: 1,
        edges: 9,
        refusal: Some(CsvRefusal::TooManyNodes(2)),
        ..ROW
    },
    Row {
        text: b"",
        stem: "c",
        nodes: 0,
        edges: 0,
        ..ROW
    },
    Row {
        text: b"\xef\xbb\xbftitle,year,note\r\n\"Two\nlines\",1999,\r\n",
        stem: "bib",
        graph: Some(
            "object \"bib_1\" in \"bib\" {\n  \"title\" \"Two\\nlines\"\n  \"year\" 1999\n}\n",
        ),
        ..ROW
    },
    Row {
        text: b"n,n,n,n,n,n\n-9223372036854775808,0,-0,07,9223372036854775808, 1\n",
        stem: "bib",
        graph: Some(
            "object \"bib_1\" in \"bib\" {\n  \"n\" -9223372036854775808\n  \"n\" 0\n  \"n\" \" \
            1\"\n  \"n\" \"-0\"\n  \"n\" \"07\"\n  \"n\" \"9223372036854775808\"\n}\n",
        ),
        ..ROW
    },
    Row {
        text: b"a,b\n1\n",
        refusal: Some(CsvRefusal::Ragged(1)),
        ..ROW
    },
    Row {
        text: b"a,b\n1\n",
        rules: CsvRules::LENIENT,
        graph: Some("object \"p_1\" in \"p\" {\n  \"a\" 1\n}\n"),
        ..ROW
    },
    Row {
        text: b"a,b\n1,2,3\n",
        refusal: Some(CsvRefusal::Ragged(1)),
        ..ROW
    },
    Row {
        text: b"a,b\n1,2,3\n",
        rules: CsvRules::LENIENT,
        refusal: Some(CsvRefusal::Ragged(1)),
        graph: Some(""),
        ..ROW
    },
    Row {
        text: b"a;b\n1;2\n",
        ..ROW
    },
    Row {
        text: b"a;b\n1;2\n",
        rules: CsvRules::LENIENT,
        graph: Some("object \"p_1\" in \"p\" {\n  \"a\" 1\n  \"b\" 2\n}\n"),
        ..ROW
    },
    Row {
        text: b"a\tb;c\n1\t2,5\n",
        refusal: Some(CsvRefusal::Ragged(1)),
        ..ROW
    },
    Row {
        text: b"a\tb;c\n1\t2,5\n",
        rules: CsvRules::LENIENT,
        graph: Some("object \"p_1\" in \"p\" {\n  \"a\" 1\n  \"b;c\" \"2,5\"\n}\n"),
        ..ROW
    },
    Row {
        text: b"\"a,b;c\"\n1;2\n",
        ..ROW
    },
    Row {
        text: b"\"a,b;c\"\n1;2\n",
        rules: CsvRules::LENIENT,
        graph: Some("object \"p_1\" in \"p\" {\n  \"a,b;c\" \"1;2\"\n}\n"),
        ..ROW
    },
    Row {
        text: b"u,v\nhttp://x.org/,ftp://y\n",
        ..ROW
    },
    Row {
        text: b"u,v\nhttp://x.org/,ftp://y\n",
        rules: CsvRules::LENIENT,
        graph: Some(
            "object \"p_1\" in \"p\" {\n  \"u\" url \"http://x.org/\"\n  \"v\" \"ftp://y\"\n}\n",
        ),
        ..ROW
    },
];

fn check_row(alloc: Global, row: &Row) -> Result<(), Fail> {
    let stem = Str::new(alloc, row.stem.as_bytes())?;
    let mut graph = graph_for(alloc, row.nodes, row.edges);
    let end = read_csv(alloc, row.rules, &stem, row.text, &mut graph);
    check(end.err() == row.refusal, row.text)?;
    check_graph(alloc, row.text, graph, row.graph)
}

#[test]
fn each_csv_text_is_read_as_its_row_says(rt: HostRuntime) -> Result<(), Fail> {
    for row in ROWS {
        check_row(rt.alloc(), row)?;
    }
    Ok(())
}
