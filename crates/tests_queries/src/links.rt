// The links of a query, by the functions at which they start, beside what is written in the query.
use crate::inputs::scopes_of;
use link_index::{LinkIndex, NameSet};
use sd_value::{NoMemory, Str};
use std::alloc::Global;
use std::process::Abort;
use std::test::Fail;

const QUERY: &str =
    "INPUT D { CREATE Home() LINK Home() -> 'b' -> 1, Home() -> 'a' -> 2, Home() -> 'b' -> 3 } \
    { WHERE C(x), x -> l -> v, x -> m -> w CREATE Page(x), Note(x) LINK Page(x) -> l -> v, Note(x) -> 'c' -> v, \
    Page(x) -> 'c' -> v, Page(x) -> m -> x { LINK Note(x) -> l -> v } } OUTPUT S";

// A function and a label: whether a link of the function has it quoted, and how many of its links are by variables.
struct LinkRow {
    function: &'static str,
    label: &'static str,
    quoted: bool,
    arcs: usize,
}

const ROWS: &[LinkRow] = &[
    LinkRow {
        function: "Home",
        label: "a",
        quoted: true,
        arcs: 0,
    },
    LinkRow {
        function: "Home",
        label: "b",
        quoted: true,
        arcs: 0,
    },
    LinkRow {
        function: "Home",
        label: "c",
        quoted: false,
        arcs: 0,
    },
    LinkRow {
        function: "Page",
        label: "c",
        quoted: true,
        arcs: 2,
    },
    // The variable's name is no label.
    LinkRow {
        function: "Page",
        label: "l",
        quoted: false,
        arcs: 2,
    },
    LinkRow {
        function: "Note",
        label: "c",
        quoted: true,
        arcs: 1,
    },
    LinkRow {
        function: "Note",
        label: "b",
        quoted: false,
        arcs: 1,
    },
    LinkRow {
        function: "Other",
        label: "a",
        quoted: false,
        arcs: 0,
    },
];

// Names, with blanks between them, and the ones that the index gives for them.
struct SetRow {
    names: &'static str,
    given: &'static str,
}

const LABELS: &[SetRow] = &[
    SetRow {
        names: "Home",
        given: "a b",
    },
    SetRow {
        names: "Page Note",
        given: "c",
    },
    SetRow {
        names: "Note Home",
        given: "a b c",
    },
    SetRow {
        names: "Other",
        given: "",
    },
];

const FUNCTIONS: &[SetRow] = &[
    SetRow {
        names: "c",
        given: "Note Page",
    },
    SetRow {
        names: "b",
        given: "Home",
    },
    SetRow {
        names: "l c a",
        given: "Home Note Page",
    },
    SetRow {
        names: "",
        given: "",
    },
];

fn set_of(alloc: Global, names: &str) -> Result<NameSet, NoMemory> {
    let mut items = Vec::new(alloc);
    for name in names.split_whitespace() {
        items.push(Str::new(alloc, name.as_bytes())?)?;
    }
    Ok(NameSet::of(items))
}

fn check_set<R: AllocGlobal + Abort>(rt: &R, set: &NameSet, row: &SetRow) -> Result<(), Fail> {
    let wanted = set_of(rt.alloc(), row.given)?;
    assert_eq!(rt; set.items().len(), wanted.items().len(), "{}", row.names);
    for name in wanted.items() {
        assert!(rt; set.has(name), "{}", row.names);
    }
    Ok(())
}

fn check_link<R: AllocGlobal + Abort>(
    rt: &R,
    index: &LinkIndex,
    row: &LinkRow,
) -> Result<(), Fail> {
    let alloc = rt.alloc();
    let function = Str::new(alloc, row.function.as_bytes())?;
    let label = Str::new(alloc, row.label.as_bytes())?;
    assert_eq!(rt;
        index.has_quoted(&function, &label),
        row.quoted,
        "{} {}",
        row.function,
        row.label
    );
    assert_eq!(rt;
        index.arcs_of(&function).len(),
        row.arcs,
        "{}",
        row.function
    );
    Ok(())
}

#[test]
fn a_function_has_the_links_that_are_written(rt: HostRuntime) -> Result<(), Fail> {
    let blocks = scopes_of(rt.alloc(), QUERY)?;
    let index = LinkIndex::of(rt.alloc(), &blocks)?;
    for row in ROWS {
        check_link(&rt, &index, row)?;
    }
    assert_eq!(rt; index.arcs().len(), 3);
    Ok(())
}

#[test]
fn functions_have_the_labels_that_are_written(rt: HostRuntime) -> Result<(), Fail> {
    let alloc = rt.alloc();
    let blocks = scopes_of(alloc, QUERY)?;
    let index = LinkIndex::of(alloc, &blocks)?;
    for row in LABELS {
        let labels = index.labels_of(alloc, &set_of(alloc, row.names)?)?;
        check_set(&rt, &labels, row)?;
    }
    Ok(())
}

#[test]
fn labels_are_of_the_functions_that_are_written(rt: HostRuntime) -> Result<(), Fail> {
    let alloc = rt.alloc();
    let blocks = scopes_of(alloc, QUERY)?;
    let index = LinkIndex::of(alloc, &blocks)?;
    for row in FUNCTIONS {
        let functions = index.functions_by(alloc, &set_of(alloc, row.names)?)?;
        check_set(&rt, &functions, row)?;
    }
    Ok(())
}
