// The site of a first query as data: its text, the limits that it passes, and a page of a second query over it, each worked
// by hand.
use crate::inputs::{builder_of, check_text, push_terms, query_of};
use crate::sites::check_clicks;
use bindings::StoreAsker;
use composed_data::composed_data;
use index_store::IndexStore;
use sd_ddl::write_ddl;
use sd_graph::{Graph, GraphRefusal, Limits, MAX_EDGES, MAX_NODES, PROGRAM_LIMITS};
use std::alloc::Global;
use std::process::Abort;
use std::test::Fail;

/// A page for each member of C, which is collected, with a link to it.
const FIRST: &str =
    "INPUT D WHERE C(x) CREATE F(x) LINK F(x) -> 'at' -> x COLLECT Made(F(x)) OUTPUT S";

/// Data, limits, and the text of the first query's site over the data, with `'` for each quote, or why it is refused.
struct ComposedRow {
    data: &'static str,
    limits: Limits,
    ends: Result<&'static str, GraphRefusal>,
}

const COMPOSED: &[ComposedRow] = &[
    ComposedRow {
        data: "object o in C { v 1 }",
        limits: PROGRAM_LIMITS,
        ends: Ok(
            "object '/F/no.html' in 'Made' {\n  'at' &'o'\n}\nobject 'o' in 'C' {\n  'v' 1\n}\n",
        ),
    },
    // A node whose name begins with a slash keeps out of the pages' way.
    ComposedRow {
        data: "object '/a' in C { }",
        limits: PROGRAM_LIMITS,
        ends: Ok(
            "object '//a' in 'C' {\n}\nobject '/F/n~2Fa.html' in 'Made' {\n  'at' &'//a'\n}\n",
        ),
    },
    // So does the node of a page's own address.
    ComposedRow {
        data: "object '/F/no.html' in E { v 1 } object o in C { }",
        limits: PROGRAM_LIMITS,
        ends: Ok(
            "object '//F/no.html' in 'E' {\n  'v' 1\n}\nobject '/F/no.html' in 'Made' {\n  'at' &'o'\n}\nobject 'o' in 'C' {\n}\n",
        ),
    },
    // Without members of C the site is the data.
    ComposedRow {
        data: "object o in E { v &o }",
        limits: PROGRAM_LIMITS,
        ends: Ok("object 'o' in 'E' {\n  'v' &'o'\n}\n"),
    },
    // The site of one object has two nodes, two edges and two members.
    ComposedRow {
        data: "object o in C { v 1 }",
        limits: Limits { nodes: 1, edges: 9 },
        ends: Err(GraphRefusal::TooManyNodes),
    },
    ComposedRow {
        data: "object o in C { v 1 }",
        limits: Limits {
            nodes: 10,
            edges: 3,
        },
        ends: Err(GraphRefusal::TooManyEdges),
    },
    ComposedRow {
        data: "object o in C { v 1 }",
        limits: Limits { nodes: 2, edges: 4 },
        ends: Ok(
            "object '/F/no.html' in 'Made' {\n  'at' &'o'\n}\nobject 'o' in 'C' {\n  'v' 1\n}\n",
        ),
    },
];

fn composed(
    alloc: Global,
    data: &str,
    limits: Limits,
) -> Result<Result<Graph, GraphRefusal>, Fail> {
    let gathered = builder_of(alloc, data)?;
    let query = query_of(alloc, FIRST)?;
    let limits = Limits {
        nodes: limits.nodes.min(MAX_NODES),
        edges: limits.edges.min(MAX_EDGES),
    };
    Ok(composed_data(alloc, gathered, &query, limits))
}

fn check_composed<R: AllocGlobal + Abort>(rt: &R, row: &ComposedRow) -> Result<(), Fail> {
    let alloc = rt.alloc();
    let ends = match composed(alloc, row.data, row.limits)? {
        Ok(graph) => {
            let mut text = Vec::new(alloc);
            write_ddl(alloc, &graph, &mut text)?;
            Ok(text)
        }
        Err(refusal) => Err(refusal),
    };
    match row.ends {
        Ok(wanted) => check_text(rt, ends?.as_slice(), wanted, row.data),
        Err(wanted) => {
            let Limits { nodes, edges } = row.limits;
            let refusal = ends.err();
            assert!(rt;
                refusal == Some(wanted),
                "{} within {nodes} and {edges}",
                row.data
            );
            Ok(())
        }
    }
}

#[test]
fn sites_are_data_within_limits(rt: HostRuntime) -> Result<(), Fail> {
    for row in COMPOSED {
        check_composed(&rt, row)?;
    }
    Ok(())
}

#[test]
fn a_second_query_has_pages(rt: HostRuntime) -> Result<(), Fail> {
    let alloc = rt.alloc();
    let graph = composed(alloc, "object o in C { v 1 }", PROGRAM_LIMITS)??;
    let asker = StoreAsker::of(IndexStore::of(alloc, graph)?);
    let second =
        "INPUT S WHERE Made(y), y -> 'at'.'v' -> z CREATE G(z) LINK G(z) -> 'v' -> z OUTPUT T";
    let mut terms = Vec::new(alloc);
    push_terms(alloc, &["/G/i1.html"], &mut terms)?;
    let templates = "<TEMPLATE G><SFMT @v></TEMPLATE>";
    check_clicks(&rt, asker, second, templates, &terms, "/G/i1.html 1;")?;
    Ok(())
}
