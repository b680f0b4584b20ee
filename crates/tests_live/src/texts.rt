// Edits as texts, and texts that are none, each with its place, worked out by hand from the grammar.
use edit_reader::read_edit;
use edit_spec::Edit;
use graph_spec::{Edge, Member};
use sd_value::{Datum, Value};
use std::test::Fail;
use token_reader::TextRefusal;

// A value as it is written in a row.
enum End {
    Int(i64),
    Text(&'static [u8]),
    Url(&'static [u8]),
    File(&'static [u8]),
    Node(&'static [u8]),
}

// An edit as it is written in a row.
enum Said {
    Add {
        from: &'static [u8],
        label: &'static [u8],
        to: End,
    },
    Remove {
        from: &'static [u8],
        label: &'static [u8],
        to: End,
    },
    Enter {
        node: &'static [u8],
        collection: &'static [u8],
    },
    Leave {
        node: &'static [u8],
        collection: &'static [u8],
    },
}

// A text, the most bytes that it may have, and the edit that it is, or why it is refused.
struct EditRow {
    text: &'static str,
    limit: u64,
    ends: Result<Said, TextRefusal>,
}

const EDITS: &[EditRow] = &[
    EditRow {
        text: "edit add o t \"U\"",
        limit: 100,
        ends: Ok(Said::Add {
            from: b"o",
            label: b"t",
            to: End::Text(b"U"),
        }),
    },
    EditRow {
        text: "edit remove \"o x\" \"a b\" -5 // a comment",
        limit: 100,
        ends: Ok(Said::Remove {
            from: b"o x",
            label: b"a b",
            to: End::Int(-5),
        }),
    },
    EditRow {
        text: "edit add add remove url \"http://a/\"",
        limit: 100,
        ends: Ok(Said::Add {
            from: b"add",
            label: b"remove",
            to: End::Url(b"http://a/"),
        }),
    },
    EditRow {
        text: "edit add o f file \"a.png\"",
        limit: 100,
        ends: Ok(Said::Add {
            from: b"o",
            label: b"f",
            to: End::File(b"a.png"),
        }),
    },
    EditRow {
        text: "edit remove o text text \"x\"",
        limit: 100,
        ends: Ok(Said::Remove {
            from: b"o",
            label: b"text",
            to: End::Text(b"x"),
        }),
    },
    EditRow {
        text: "edit add o e &p",
        limit: 100,
        ends: Ok(Said::Add {
            from: b"o",
            label: b"e",
            to: End::Node(b"p"),
        }),
    },
    EditRow {
        text: "edit enter o A",
        limit: 100,
        ends: Ok(Said::Enter {
            node: b"o",
            collection: b"A",
        }),
    },
    EditRow {
        text: "edit leave o \"A B\"",
        limit: 100,
        ends: Ok(Said::Leave {
            node: b"o",
            collection: b"A B",
        }),
    },
    EditRow {
        text: "edit add o",
        limit: 99,
        ends: Err(TextRefusal::Expected(10)),
    },
    EditRow {
        text: "edit enter o A",
        limit: 13,
        ends: Err(TextRefusal::TooLong(13)),
    },
    EditRow {
        text: "",
        limit: 99,
        ends: Err(TextRefusal::Expected(0)),
    },
    EditRow {
        text: "add o u 5",
        limit: 99,
        ends: Err(TextRefusal::Expected(0)),
    },
    EditRow {
        text: "edit put o u 5",
        limit: 99,
        ends: Err(TextRefusal::Expected(5)),
    },
    EditRow {
        text: "edit \"add\" o u 5",
        limit: 99,
        ends: Err(TextRefusal::Expected(5)),
    },
    EditRow {
        text: "edit add o u 5 6",
        limit: 99,
        ends: Err(TextRefusal::Expected(15)),
    },
    EditRow {
        text: "edit add o u url 5",
        limit: 99,
        ends: Err(TextRefusal::Expected(17)),
    },
    EditRow {
        text: "edit enter o 5",
        limit: 99,
        ends: Err(TextRefusal::Expected(13)),
    },
    EditRow {
        text: "edit add o u \"a",
        limit: 99,
        ends: Err(TextRefusal::OpenString(13)),
    },
    EditRow {
        text: "edit add o u ?",
        limit: 99,
        ends: Err(TextRefusal::BadByte(13)),
    },
    EditRow {
        text: "edit add o u 9999999999999999999",
        limit: 99,
        ends: Err(TextRefusal::IntOutOfRange(13)),
    },
];

fn is_end(value: &Value, end: &End) -> bool {
    match (value, end) {
        (Value::Data(Datum::Int(found)), End::Int(wanted)) => *found == *wanted,
        (Value::Data(Datum::Text(found)), End::Text(wanted)) => found.bytes() == *wanted,
        (Value::Data(Datum::Url(found)), End::Url(wanted)) => found.bytes() == *wanted,
        (Value::Data(Datum::File(found)), End::File(wanted)) => found.bytes() == *wanted,
        (Value::Data(Datum::Node(found)), End::Node(wanted)) => found.bytes() == *wanted,
        _ => false,
    }
}

fn is_edge(edge: &Edge, from: &[u8], label: &[u8], to: &End) -> bool {
    edge.from.bytes() == from && edge.label.bytes() == label && is_end(&edge.to, to)
}

fn is_member(member: &Member, node: &[u8], collection: &[u8]) -> bool {
    member.node.bytes() == node && member.collection.bytes() == collection
}

fn is_said(edit: &Edit, said: &Said) -> bool {
    match (edit, said) {
        (Edit::Add(edge), Said::Add { from, label, to }) => is_edge(edge, from, label, to),
        (Edit::Remove(edge), Said::Remove { from, label, to }) => is_edge(edge, from, label, to),
        (Edit::Enter(member), Said::Enter { node, collection }) => {
            is_member(member, node, collection)
        }
        (Edit::Leave(member), Said::Leave { node, collection }) => {
            is_member(member, node, collection)
        }
        _ => false,
    }
}

#[test]
fn edits_are_read_or_refused(rt: HostRuntime) -> Result<(), Fail> {
    for row in EDITS {
        let is_so = match (
            read_edit(rt.alloc(), row.text.as_bytes(), row.limit),
            &row.ends,
        ) {
            (Ok(edit), Ok(said)) => is_said(&edit, said),
            (Err(refusal), Err(wanted)) => refusal == *wanted,
            _ => false,
        };
        assert!(rt; is_so, "{}", row.text);
    }
    Ok(())
}
