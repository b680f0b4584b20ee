// Whole data texts, with answers worked out by hand.
use super::graphs::{check_graph, graph_for};
use crate::checks::check;
use sd_ddl::{DdlRefusal, read_ddl};
use std::alloc::Global;
use std::test::Fail;
use token_reader::TextRefusal;

const KINDS: &[u8] = b"collection A { u url } collection B { u file } object o in A, B { u \"x\" }";

const EDGE: &[u8] = b"object a in C { v &b }";

// A text, the most nodes and edges that are added, why it is refused, or none, and its canonical text, if it is compared.
struct Row {
    text: &'static [u8],
    nodes: u64,
    edges: u64,
    refusal: Option<DdlRefusal>,
    graph: Option<&'static str>,
}

// What most rows have.
const ROW: Row = Row {
    text: b"",
    nodes: 9,
    edges: 9,
    refusal: None,
    graph: None,
};

const ROWS: &[Row] = &[
    Row {
        text: b"object a {",
        refusal: Some(DdlRefusal::Text(TextRefusal::Expected(10))),
        ..ROW
    },
    Row {
        text: b"object a { v \"x",
        refusal: Some(DdlRefusal::Text(TextRefusal::OpenString(13))),
        ..ROW
    },
    Row {
        text: KINDS,
        refusal: Some(DdlRefusal::KindConflict(68)),
        ..ROW
    },
    Row {
        text: KINDS,
        nodes: 0,
        refusal: Some(DdlRefusal::TooManyNodes(54)),
        ..ROW
    },
    Row {
        text: EDGE,
        nodes: 2,
        edges: 2,
        ..ROW
    },
    Row {
        text: EDGE,
        nodes: 1,
        edges: 2,
        refusal: Some(DdlRefusal::TooManyNodes(18)),
        ..ROW
    },
    Row {
        text: EDGE,
        nodes: 2,
        edges: 1,
        refusal: Some(DdlRefusal::TooManyEdges(18)),
        ..ROW
    },
    Row {
        text: EDGE,
        nodes: 2,
        edges: 0,
        refusal: Some(DdlRefusal::TooManyEdges(12)),
        ..ROW
    },
    Row {
        text: b"object a { } object b {",
        refusal: Some(DdlRefusal::Text(TextRefusal::Expected(23))),
        ..ROW
    },
    Row {
        text: b"object a { } }",
        refusal: Some(DdlRefusal::Text(TextRefusal::Expected(13))),
        ..ROW
    },
    Row {
        text: b"object a { } object b { v \"x",
        refusal: Some(DdlRefusal::Text(TextRefusal::OpenString(26))),
        ..ROW
    },
    Row {
        text: b"object a { } object b { v &c }",
        nodes: 2,
        refusal: Some(DdlRefusal::TooManyNodes(26)),
        ..ROW
    },
    Row {
        text: b"// no object",
        ..ROW
    },
    Row {
        text: b"\xef\xbb\xbfobject a { } // }",
        ..ROW
    },
    Row {
        text: b"object b { u url \"http://a/\" v &c } object a in \"x y\" { n -07 }",
        graph: Some(
            "object \"a\" in \"x y\" {\n  \"n\" -7\n}\nobject \"b\" {\n  \"u\" url \
            \"http://a/\"\n  \"v\" &\"c\"\n}\nobject \"c\" {\n}\n",
        ),
        ..ROW
    },
];

fn check_row(alloc: Global, row: &Row) -> Result<(), Fail> {
    let mut graph = graph_for(alloc, row.nodes, row.edges);
    let end = read_ddl(alloc, row.text, 80, &mut graph);
    check(end.err() == row.refusal, row.text)?;
    check_graph(alloc, row.text, graph, row.graph)
}

#[test]
fn each_data_text_is_read_as_its_row_says(rt: HostRuntime) -> Result<(), Fail> {
    for row in ROWS {
        check_row(rt.alloc(), row)?;
    }
    Ok(())
}
