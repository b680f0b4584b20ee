// What values of sites are in their graphs, beside names worked by hand.
use compose::encoded;
use sd_value::{Args, Datum, NoMemory, Str, Term, Value};
use std::alloc::Global;
use std::test::Fail;

/// A node, or the page of the function F at that node, and the node that it is in a site's graph.
struct EncodedRow {
    node: &'static str,
    is_page: bool,
    encoded: &'static str,
}

const ENCODED: &[EncodedRow] = &[
    EncodedRow {
        node: "o",
        is_page: false,
        encoded: "o",
    },
    EncodedRow {
        node: "",
        is_page: false,
        encoded: "",
    },
    EncodedRow {
        node: "/a",
        is_page: false,
        encoded: "//a",
    },
    EncodedRow {
        node: "//a",
        is_page: false,
        encoded: "///a",
    },
    EncodedRow {
        node: "o",
        is_page: true,
        encoded: "/F/no.html",
    },
    EncodedRow {
        node: "/a",
        is_page: true,
        encoded: "/F/n~2Fa.html",
    },
    // The node of a page's address keeps out of that page's way.
    EncodedRow {
        node: "/F/no.html",
        is_page: false,
        encoded: "//F/no.html",
    },
];

fn given(alloc: Global, row: &EncodedRow) -> Result<Value, NoMemory> {
    let node = Datum::Node(Str::new(alloc, row.node.as_bytes())?);
    if !row.is_page {
        return Ok(Value::Data(node));
    }
    let args = Args::new(alloc, vec![in alloc; node]?)?;
    let function = Str::new(alloc, b"F")?;
    Ok(Value::Page(Term { function, args }))
}

#[test]
fn values_are_encoded(rt: HostRuntime) -> Result<(), Fail> {
    for row in ENCODED {
        let value = given(rt.alloc(), row)?;
        let found = encoded(rt.alloc(), &value)?;
        let Datum::Node(name) = &found else {
            return Err(Fail::new(row.encoded));
        };
        assert_eq!(rt; name.bytes(), row.encoded.as_bytes(), "{}", row.encoded);
    }
    Ok(())
}
