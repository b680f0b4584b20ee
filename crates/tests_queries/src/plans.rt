// Plans and rows of queries, worked by hand; the rows of each block are behind a bar.
use crate::inputs::{BIBLIOGRAPHY, check_text, graph_of, query_of, quoted, scopes_of};
use crate::rows::check_rows;
use command_explain::plans_text;
use index_store::IndexStore;
use list_store::ListStore;
use sd_graph::Store;
use std::process::Abort;
use std::test::Fail;

// A data text, a query, the text of its plans, and the rows of its blocks, with `'` for each quote.
struct Example {
    data_text: &'static str,
    query: &'static str,
    plans: &'static str,
    rows: &'static str,
}

const SEVENS: &str = "object o { v 7 v '7' v '07' }";

const EXAMPLES: &[Example] = &[
    // Seven edges and two nodes: an arc from a known node costs 7 div 2 + 1.
    Example {
        data_text: BIBLIOGRAPHY,
        query: "INPUT Bib { CREATE RootPage() } { WHERE Publications(x), x -> l -> v CREATE PaperPage(x) \
            LINK PaperPage(x) -> l -> v, RootPage() -> 'Paper' -> PaperPage(x) { WHERE l = 'year' CREATE \
            YearPage(v) LINK YearPage(v) -> 'Year' -> v, YearPage(v) -> 'Paper' -> PaperPage(x), RootPage() \
            -> 'Year' -> YearPage(v) } } OUTPUT Home",
        plans: "block 1\nblock 2\n  use Publications(x) cost 2\n  use x -> l -> v cost 4\nblock 2.1\n  use \
            l = 'year' cost 1\n  use Publications(x) cost 2\n  use x -> l -> v cost 4\n",
        rows: "|;| &pub1 'author' 'Dan'; &pub1 'author' 'Mary'; &pub1 'title' 'Strudel'; &pub1 'year' 1998; \
            &pub2 'author' 'Dan'; &pub2 'title' 'Lorel <1>'; &pub2 'year' 1997;| &pub1 'year' 1998; &pub2 \
            'year' 1997;",
    },
    // A negation can't be used before its variables are bound, so they take their domains.
    Example {
        data_text: "object a { e &b }",
        query: "INPUT D WHERE not(p -> l -> q) CREATE F(p, l, q) OUTPUT S",
        plans: "block 1\n  domain p cost 2\n  domain l cost 1\n  domain q cost 2\n  use not(p -> l -> q) cost 0\n",
        rows: "| &a 'e' &a; &b 'e' &a; &b 'e' &b;",
    },
    // Walks with no end known: an edge more than there are, for each value.
    Example {
        data_text: "object a { e &a }",
        query: "INPUT D WHERE x -> * -> y CREATE F(x, y) OUTPUT S",
        plans: "block 1\n  use x -> true* -> y cost 2\n",
        rows: "| &a &a;",
    },
    Example {
        data_text: "object p { a &q } object q { b &r } object r { b &q }",
        query: "INPUT D WHERE x -> 'a'.'b'* -> y CREATE F(x, y) OUTPUT S",
        plans: "block 1\n  use x -> 'a'.'b'* -> y cost 12\n",
        rows: "| &p &q; &p &r;",
    },
    Example {
        data_text: "object o { v 1 v 2 }",
        query: "INPUT D WHERE y -> 'v' -> x CREATE F(x, x) OUTPUT S",
        plans: "block 1\n  use y -> 'v' -> x cost 2\n",
        rows: "| &o 1; &o 2;",
    },
    // A walk from a constant, which is no value of an empty graph.
    Example {
        data_text: BIBLIOGRAPHY,
        query: "INPUT D WHERE 1997 -> * -> y CREATE F(y) OUTPUT S",
        plans: "block 1\n  use 1997 -> true* -> y cost 8\n",
        rows: "| 1997;",
    },
    Example {
        data_text: "",
        query: "INPUT D WHERE 1997 -> * -> y CREATE F(y) OUTPUT S",
        plans: "block 1\n  use 1997 -> true* -> y cost 1\n",
        rows: "|",
    },
    // The cheaper condition comes first: one member, and then 3 edges div 3 nodes, and one.
    Example {
        data_text: "object a in C { b 1 } object c { b 2 } object d { b 3 }",
        query: "INPUT D WHERE x -> 'b' -> y, C(x) CREATE F(x, y) OUTPUT S",
        plans: "block 1\n  use C(x) cost 1\n  use x -> 'b' -> y cost 2\n",
        rows: "| &a 1;",
    },
    // Collections with quoted names; one has the name of a test, and beside it is the test.
    Example {
        data_text: "object a in '3166-1', 'isInt' { b 1 } object c in '3166-1' { b 2 }",
        query: "INPUT D WHERE '3166-1'(x), 'isInt'(x), isNode(x) CREATE F(x) OUTPUT S",
        plans: "block 1\n  use 'isInt'(x) cost 1\n  use '3166-1'(x) cost 0\n  use isNode(x) cost 0\n",
        rows: "| &a;",
    },
    // An equation costs 1, and from version 2 on, where a value has a twin, 2.
    Example {
        data_text: SEVENS,
        query: "STRUQL 2 INPUT D WHERE x -> 'v' -> y, y = 7 CREATE F(y) OUTPUT S",
        plans: "block 1\n  use y = 7 cost 2\n  use x -> 'v' -> y cost 4\n",
        rows: "| &o 7; &o '7';",
    },
    Example {
        data_text: SEVENS,
        query: "INPUT D WHERE x -> 'v' -> y, y = 7 CREATE F(y) OUTPUT S",
        plans: "block 1\n  use y = 7 cost 1\n  use x -> 'v' -> y cost 4\n",
        rows: "| &o 7;",
    },
    // A test of texts binds nothing, and costs nothing if its sides are known.
    Example {
        data_text: SEVENS,
        query: "STRUQL 3 INPUT D WHERE starts(y, '0'), x -> 'v' -> y CREATE F(y) OUTPUT S",
        plans: "block 1\n  use x -> 'v' -> y cost 3\n  use starts(y, '0') cost 0\n",
        rows: "| '07' &o;",
    },
    // A list costs its constants, and from version 2 on twice as many, which is more than 3 edges.
    Example {
        data_text: SEVENS,
        query: "INPUT D WHERE x -> 'v' -> y, y in {7, '07'} CREATE F(y) OUTPUT S",
        plans: "block 1\n  use y in {7, '07'} cost 2\n  use x -> 'v' -> y cost 4\n",
        rows: "| &o 7; &o '07';",
    },
    Example {
        data_text: SEVENS,
        query: "STRUQL 2 INPUT D WHERE x -> 'v' -> y, y in {7, '07'} CREATE F(y) OUTPUT S",
        plans: "block 1\n  use x -> 'v' -> y cost 3\n  use y in {7, '07'} cost 0\n",
        rows: "| &o 7; &o '07'; &o '7';",
    },
    // Of two conditions of one cost the first in the chain is used.
    Example {
        data_text: "object a in C, E { } object b in C, E { } object c in E { } object d in C { }",
        query: "INPUT D WHERE C(x), E(y), E(x) CREATE F(x, y) OUTPUT S",
        plans: "block 1\n  use C(x) cost 3\n  use E(x) cost 0\n  use E(y) cost 3\n",
        rows: "| &a &a; &a &b; &a &c; &b &a; &b &b; &b &c;",
    },
    // An order can't list values: both variables take the domain, of two numbers and a node.
    Example {
        data_text: "object a { e 1 f 2 }",
        query: "INPUT D WHERE x < y CREATE F(x, y) OUTPUT S",
        plans: "block 1\n  domain x cost 3\n  domain y cost 3\n  use x < y cost 0\n",
        rows: "| 1 2;",
    },
    // Nor can an equation with no side known, or a test.
    Example {
        data_text: "object a { e 1 f &b }",
        query: "INPUT D WHERE x = y, isNode(z), x = z CREATE F(x, y, z) OUTPUT S",
        plans: "block 1\n  domain x cost 3\n  use x = y cost 1\n  use x = z cost 1\n  use isNode(z) cost 0\n",
        rows: "| &a &a &a; &b &b &b;",
    },
    // An arc with no end known costs all edges, and a walk from a known value an edge more.
    Example {
        data_text: "object a { e &b } object b { f &c }",
        query: "INPUT D WHERE x -> l -> y, y -> true.true|'f' -> z CREATE F(x, z) OUTPUT S",
        plans: "block 1\n  use x -> l -> y cost 2\n  use y -> true.true|'f' -> z cost 3\n",
        rows: "| &a 'e' &b &c;",
    },
];

fn check_plan<R: AllocGlobal + Abort, S: Store + Drop>(
    rt: &R,
    store: S,
    example: &Example,
) -> Result<(), Fail> {
    let checked = query_of(rt.alloc(), example.query)?;
    let text = plans_text(rt.alloc(), &checked, &store)?;
    check_text(rt, text.as_slice(), example.plans, example.query)
}

fn check_example<R: AllocGlobal + Abort>(rt: &R, example: &Example) -> Result<(), Fail> {
    let alloc = rt.alloc();
    let store = ListStore::of(alloc, graph_of(alloc, example.data_text)?)?;
    check_plan(rt, store, example)?;
    let store = IndexStore::of(alloc, graph_of(alloc, example.data_text)?)?;
    check_plan(rt, store, example)?;
    let scopes = scopes_of(alloc, example.query)?;
    let rows = quoted(alloc, example.rows)?;
    check_rows(
        rt,
        example.data_text,
        &scopes,
        rows.as_bytes(),
        example.query,
    )
}

#[test]
fn plans_are_the_cheapest_steps_and_give_the_rows(rt: HostRuntime) -> Result<(), Fail> {
    for example in EXAMPLES {
        check_example(&rt, example)?;
    }
    Ok(())
}
