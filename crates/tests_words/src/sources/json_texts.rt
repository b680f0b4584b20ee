// Whole texts in JSON, read strictly or leniently, with answers worked out by hand.
use super::graphs::{check_graph, graph_for};
use crate::checks::{check, check_text};
use json_source::{JsonRefusal, JsonRules, read_json};
use sd_value::Str;
use std::alloc::Global;
use std::test::Fail;

// A text, the most nodes and edges that are added, how it is read, the number and the place of its refusal, and the data
// text of what is stated; the last two where they are compared. Number 0 is no refusal.
struct Row {
    text: &'static [u8],
    nodes: u64,
    edges: u64,
    rules: JsonRules,
    number: u32,
    place: Option<&'static str>,
    graph: Option<&'static str>,
}

// What most rows have.
const ROW: Row = Row {
    text: b"",
    nodes: 9,
    edges: 99,
    rules: JsonRules::STRICT,
    number: 0,
    place: Some(""),
    graph: None,
};

const RECORD: &[u8] = b"{\"P\": [{\"a\": [1, null, {\"b\": true}]}]}";

const ROWS: &[Row] = &[
    Row {
        text: b"{",
        edges: 9,
        number: 44,
        ..ROW
    },
    Row {
        text: b"\xef\xbb\xbf\xef\xbb\xbf[]",
        edges: 9,
        number: 44,
        ..ROW
    },
    Row {
        text: b"\xef\xbb\xbf[]",
        nodes: 0,
        edges: 0,
        ..ROW
    },
    Row {
        text: b"3",
        edges: 9,
        number: 46,
        ..ROW
    },
    Row {
        text: b"[1]",
        edges: 9,
        number: 46,
        place: Some("/0"),
        ..ROW
    },
    Row {
        text: b"{\"a\": [], \"b\": {}}",
        edges: 9,
        number: 46,
        place: Some("/b"),
        ..ROW
    },
    Row {
        text: b"[{\"price\": 3.5}]",
        edges: 9,
        number: 45,
        place: Some("/0/price"),
        ..ROW
    },
    Row {
        text: b"[{\"a/b~\": [1.5]}]",
        edges: 9,
        number: 45,
        place: Some("/0/a~1b~0/0"),
        ..ROW
    },
    Row {
        text: RECORD,
        nodes: 2,
        edges: 4,
        ..ROW
    },
    Row {
        text: RECORD,
        nodes: 2,
        edges: 3,
        number: 11,
        place: Some("/P/0/a/2/b"),
        ..ROW
    },
    Row {
        text: RECORD,
        nodes: 1,
        edges: 4,
        number: 12,
        place: Some("/P/0/a/2"),
        ..ROW
    },
    Row {
        text: RECORD,
        nodes: 0,
        edges: 4,
        number: 12,
        place: Some("/P/0"),
        ..ROW
    },
    Row {
        text: b"{\"P\": [{\"a\": [1, null, {\"b\": true}], \"x y\": [[{}]]}]}",
        graph: Some(
            "object \"p_P_1\" in \"P\" {\n  \"a\" 1\n  \"a\" &\"p_P_1_a_3\"\n  \"x y\" \
            &\"p_P_1_x~20y_1_1\"\n}\nobject \"p_P_1_a_3\" {\n  \"b\" \"true\"\n}\nobject \
            \"p_P_1_x~20y_1_1\" {\n}\n",
        ),
        ..ROW
    },
    Row {
        text: b"[{\"p\": 1.50, \"q\": -0, \"r\": 9223372036854775808, \"s\": -7}]",
        number: 45,
        place: None,
        ..ROW
    },
    Row {
        text: b"[{\"p\": 1.50, \"q\": -0, \"r\": 9223372036854775808, \"s\": -7}]",
        rules: JsonRules::LENIENT,
        graph: Some(
            "object \"p_1\" in \"p\" {\n  \"p\" \"1.50\"\n  \"q\" \"-0\"\n  \"r\" \
            \"9223372036854775808\"\n  \"s\" -7\n}\n",
        ),
        ..ROW
    },
    Row {
        text: b"{\"meta\": \"x\", \"rows\": [{\"a\": 1}], \"none\": []}",
        number: 46,
        place: None,
        ..ROW
    },
    Row {
        text: b"{\"meta\": \"x\", \"rows\": [{\"a\": 1}], \"none\": []}",
        rules: JsonRules::LENIENT,
        graph: Some("object \"p_rows_1\" in \"rows\" {\n  \"a\" 1\n}\n"),
        ..ROW
    },
    Row {
        text: b"{\"name\": \"x\", \"tags\": [1, 2]}",
        number: 46,
        place: None,
        ..ROW
    },
    Row {
        text: b"{\"name\": \"x\", \"tags\": [1, 2]}",
        rules: JsonRules::LENIENT,
        graph: Some(
            "object \"p_1\" in \"p\" {\n  \"name\" \"x\"\n  \"tags\" 1\n  \"tags\" 2\n  \
            \"tags_list\" \"1, 2\"\n}\n",
        ),
        ..ROW
    },
    Row {
        text: b"{\"rows\": [{\"a\": 1}, 2]}",
        number: 46,
        place: None,
        ..ROW
    },
    Row {
        text: b"{\"rows\": [{\"a\": 1}, 2]}",
        rules: JsonRules::LENIENT,
        graph: Some(
            "object \"p_1\" in \"p\" {\n  \"rows\" 2\n  \"rows\" &\"p_1_rows_1\"\n}\nobject \
            \"p_1_rows_1\" {\n  \"a\" 1\n}\n",
        ),
        ..ROW
    },
    Row { text: b"{}", ..ROW },
    Row {
        text: b"{}",
        rules: JsonRules::LENIENT,
        graph: Some("object \"p_1\" in \"p\" {\n}\n"),
        ..ROW
    },
    Row {
        text: b"[1]",
        number: 46,
        place: None,
        ..ROW
    },
    Row {
        text: b"[1]",
        rules: JsonRules::LENIENT,
        number: 46,
        place: None,
        graph: Some(""),
        ..ROW
    },
    Row {
        text: b"[{\"a\": 01}]",
        number: 44,
        ..ROW
    },
    Row {
        text: b"[{\"a\": 01}]",
        rules: JsonRules::LENIENT,
        number: 44,
        graph: Some(""),
        ..ROW
    },
    Row {
        text: b"[{\"u\": \"https://x\", \"v\": \"see http://x\"}]",
        ..ROW
    },
    Row {
        text: b"[{\"u\": \"https://x\", \"v\": \"see http://x\"}]",
        rules: JsonRules::LENIENT,
        graph: Some(
            "object \"p_1\" in \"p\" {\n  \"u\" url \"https://x\"\n  \"v\" \"see http://x\"\n}\n",
        ),
        ..ROW
    },
];

// Lists that keep their order, and lists without items.
const ORDERS: &[Row] = &[
    Row {
        text: b"[{\"au\": [\"Bo\", \"Abel\", 3], \"one\": [\"x\"], \"b\": [\"x\", true]}]",
        rules: JsonRules::LENIENT,
        graph: Some(
            "object \"p_1\" in \"p\" {\n  \"au\" 3\n  \"au\" \"Abel\"\n  \"au\" \"Bo\"\n  \"au_list\" \"Bo, \
            Abel, 3\"\n  \"b\" \"true\"\n  \"b\" \"x\"\n  \"one\" \"x\"\n}\n",
        ),
        ..ROW
    },
    Row {
        text: b"[{\"a\": [[\"x\", \"y\"], \"z\"], \"b\": [1, 2], \"c\": [1.50, \"u\"]}]",
        rules: JsonRules::LENIENT,
        graph: Some(
            "object \"p_1\" in \"p\" {\n  \"a\" \"x\"\n  \"a\" \"y\"\n  \"a\" \"z\"\n  \"b\" 1\n  \"b\" 2\n  \
            \"b_list\" \"1, 2\"\n  \"c\" \"1.50\"\n  \"c\" \"u\"\n  \"c_list\" \"1.50, u\"\n}\n",
        ),
        ..ROW
    },
    // Both items are URLs, and the list is a text. Strictly there is no list.
    Row {
        text: b"[{\"u\": [\"http://b\", \"http://a\"]}]",
        rules: JsonRules::LENIENT,
        graph: Some(
            "object \"p_1\" in \"p\" {\n  \"u\" url \"http://a\"\n  \"u\" url \"http://b\"\n  \"u_list\" \
            \"http://b, http://a\"\n}\n",
        ),
        ..ROW
    },
    Row {
        text: b"[{\"b\": [-2, 1]}]",
        graph: Some("object \"p_1\" in \"p\" {\n  \"b\" -2\n  \"b\" 1\n}\n"),
        ..ROW
    },
    // There is room for two edges and the record's member, and none for the list.
    Row {
        text: b"[{\"b\": [-2, 1]}]",
        edges: 3,
        rules: JsonRules::LENIENT,
        number: 11,
        place: Some("/0/b"),
        graph: Some("object \"p_1\" in \"p\" {\n  \"b\" -2\n  \"b\" 1\n}\n"),
        ..ROW
    },
    Row {
        text: b"{\"a\": [], \"b\": []}",
        rules: JsonRules::LENIENT,
        graph: Some(""),
        ..ROW
    },
    Row {
        text: b"{\"count\": 0, \"rows\": []}",
        rules: JsonRules::LENIENT,
        graph: Some("object \"p_1\" in \"p\" {\n  \"count\" 0\n}\n"),
        ..ROW
    },
];

// The number and the place of a refusal.
fn reported(end: &Result<(), JsonRefusal>) -> (u32, &[u8]) {
    match end {
        Ok(()) => (0, b""),
        Err(JsonRefusal::TooManyEdges(at)) => (11, at.bytes()),
        Err(JsonRefusal::TooManyNodes(at)) => (12, at.bytes()),
        Err(JsonRefusal::NotJson) => (44, b""),
        Err(JsonRefusal::NotInteger(at)) => (45, at.bytes()),
        Err(JsonRefusal::NotRecords(at)) => (46, at.bytes()),
        Err(JsonRefusal::NoMemory) => (u32::MAX, b"no memory"),
    }
}

fn check_row(alloc: Global, row: &Row) -> Result<(), Fail> {
    let stem = Str::new(alloc, b"p")?;
    let mut graph = graph_for(alloc, row.nodes, row.edges);
    let end = read_json(alloc, row.rules, &stem, row.text, &mut graph);
    let (number, place) = reported(&end);
    check(number == row.number, row.text)?;
    if let Some(wanted) = row.place {
        check_text(row.text, place, wanted.as_bytes())?;
    }
    check_graph(alloc, row.text, graph, row.graph)
}

#[test]
fn each_json_text_is_read_as_its_row_says(rt: HostRuntime) -> Result<(), Fail> {
    for row in ROWS {
        check_row(rt.alloc(), row)?;
    }
    Ok(())
}

#[test]
fn each_list_keeps_its_order_as_its_row_says(rt: HostRuntime) -> Result<(), Fail> {
    for row in ORDERS {
        check_row(rt.alloc(), row)?;
    }
    Ok(())
}
