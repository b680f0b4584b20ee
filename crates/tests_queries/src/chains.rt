// Chains with every kind of condition, over small graphs and under both versions of the language.
use crate::inputs::{check_text, graph_of, query_with, scopes_of};
use crate::looked::looked_text;
use crate::rows::check_rows;
use std::process::Abort;
use std::test::Fail;

// Two publications that cite each other, and one that is in no collection. A year is a number or a text.
const PUBLICATIONS: &str =
    "object a in P { title 'A' year 1998 by 'Dan' by 'Mary' cites &b } object b in P, Q { year '1998' by \
        'Dan' cites &a next &c } object c { year 7 }";

// An object that refers to itself, and one of which nothing is said.
const LOOP: &str = "object a in P { e &a } object b { }";

const CHAINS: &[&str] = &[
    "P(x)",
    "x -> l -> y",
    "x -> * -> y",
    "x -> 'cites'.'next'* -> y, P(x)",
    "x -> ('by'|'next')* -> y, isNode(x)",
    "P(x), not(Q(x))",
    "P(x), not(x -> 'by' -> 'Mary')",
    "x -> 'year' -> y, y >= 8",
    "x -> 'year' -> y, y < '8'",
    "x -> 'year' -> y, z -> 'year' -> w, y = w",
    "x -> 'by' -> y, z -> 'by' -> y, x != z",
    "x -> l -> y, l in {'year', 'e'}, isInt(y)",
    "x -> 'year' -> y, y in {1998}",
    "1998 -> * -> y",
];

const VERSION_1: &str = "STRUQL 1 INPUT D WHERE ";

const VERSION_2: &str = "STRUQL 2 INPUT D WHERE ";

// Data, the head of queries, and their chains; and the rows of these, where they were worked by hand, so that the others
// are seen not to be empty.
struct ChainRow {
    data: &'static str,
    head: &'static str,
    chains: &'static [&'static str],
    rows: Option<&'static str>,
}

const ROWS: &[ChainRow] = &[
    ChainRow {
        data: PUBLICATIONS,
        head: VERSION_1,
        chains: CHAINS,
        rows: None,
    },
    ChainRow {
        data: PUBLICATIONS,
        head: VERSION_2,
        chains: CHAINS,
        rows: None,
    },
    ChainRow {
        data: LOOP,
        head: "INPUT D WHERE ",
        chains: CHAINS,
        rows: None,
    },
    ChainRow {
        data: PUBLICATIONS,
        head: VERSION_1,
        chains: &["x -> 'year' -> y, y in {1998}"],
        rows: Some("| &a 1998;"),
    },
    ChainRow {
        data: PUBLICATIONS,
        head: VERSION_2,
        chains: &["x -> 'year' -> y, y in {1998}"],
        rows: Some("| &a 1998; &b '1998';"),
    },
];

fn check_chains<R: AllocGlobal + Abort>(rt: &R, row: &ChainRow) -> Result<(), Fail> {
    let alloc = rt.alloc();
    let graph = graph_of(alloc, row.data)?;
    for chain in row.chains {
        let scopes = scopes_of(alloc, &query_with(alloc, row.head, chain)?)?;
        let looked = looked_text(alloc, &graph, &scopes)?;
        check_rows(rt, row.data, &scopes, looked.as_slice(), chain)?;
        if let Some(wanted) = row.rows {
            check_text(rt, looked.as_slice(), wanted, chain)?;
        }
    }
    Ok(())
}

#[test]
fn chains_over_small_graphs(rt: HostRuntime) -> Result<(), Fail> {
    for row in ROWS {
        check_chains(&rt, row)?;
    }
    Ok(())
}
