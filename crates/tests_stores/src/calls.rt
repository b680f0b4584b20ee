// Each call of a store, over the bibliography.
use crate::inputs::{Answer, BIBLIOGRAPHY, INDEXED, PLAIN, check, index_of, list_of};
use crate::printed::{Named, is_printed, value_of};
use sd_graph::{Sizes, Store};
use sd_value::{Datum, NoMemory, Str, Value};
use std::alloc::Global;
use std::test::Fail;

// A call of a store with a row's value and name; the first so many, and the node where an edge starts.
enum Call {
    Out,
    OutAll,
    Incoming,
    IncomingBy,
    EdgesBy,
    Members,
    Values,
    Labels,
    FirstOut(usize),
    FirstIncoming(usize),
    FirstEdges(usize),
    FirstMembers(usize),
    FirstValues(usize),
    HasEdge(&'static str),
    IsMember,
    IsValue,
    IsLabel,
    EdgesOf,
    MembersOf,
    CountOut,
    CountIncoming,
    DegreeOut,
    DegreeIncoming,
    Sizes,
}

// A call, the value and the label or collection that it is of, and what it answers.
struct CallRow {
    call: Call,
    value: Named,
    name: &'static str,
    answer: Answer,
}

// The value of a call that is of none.
const ANY: Named = Named::Number(0);

const ROWS: &[CallRow] = &[
    // What is reported of the edges of one value.
    CallRow {
        call: Call::Out,
        value: Named::Node("pub1"),
        name: "author",
        answer: Answer::List("'Dan';'Mary';"),
    },
    CallRow {
        call: Call::Out,
        value: Named::Node("pub2"),
        name: "note",
        answer: Answer::List(""),
    },
    CallRow {
        call: Call::OutAll,
        value: Named::Node("pub1"),
        name: "",
        answer: Answer::List("author 'Dan';author 'Mary';title 'Strudel';year 1998;"),
    },
    CallRow {
        call: Call::Incoming,
        value: Named::Text("Dan"),
        name: "",
        answer: Answer::List("author &pub1;author &pub2;"),
    },
    CallRow {
        call: Call::IncomingBy,
        value: Named::Text("Dan"),
        name: "author",
        answer: Answer::List("&pub1;&pub2;"),
    },
    CallRow {
        call: Call::IncomingBy,
        value: Named::Text("Dan"),
        name: "title",
        answer: Answer::List(""),
    },
    // What is reported of the whole graph.
    CallRow {
        call: Call::EdgesBy,
        value: ANY,
        name: "year",
        answer: Answer::List("pub1 1998;pub2 1997;"),
    },
    CallRow {
        call: Call::Members,
        value: ANY,
        name: "Publications",
        answer: Answer::List("&pub1;&pub2;"),
    },
    CallRow {
        call: Call::Values,
        value: ANY,
        name: "",
        answer: Answer::List("1997;1998;'Dan';'Lorel <1>';'Mary';'Strudel';&pub1;&pub2;"),
    },
    CallRow {
        call: Call::Labels,
        value: ANY,
        name: "",
        answer: Answer::List("author;title;year;"),
    },
    // Tests of single edges, members, values and labels.
    CallRow {
        call: Call::HasEdge("pub1"),
        value: Named::Text("Mary"),
        name: "author",
        answer: Answer::Test(true),
    },
    CallRow {
        call: Call::HasEdge("pub2"),
        value: Named::Text("Mary"),
        name: "author",
        answer: Answer::Test(false),
    },
    CallRow {
        call: Call::IsMember,
        value: Named::Node("pub2"),
        name: "Publications",
        answer: Answer::Test(true),
    },
    CallRow {
        call: Call::IsMember,
        value: Named::Node("pub2"),
        name: "author",
        answer: Answer::Test(false),
    },
    CallRow {
        call: Call::IsValue,
        value: Named::Text("Mary"),
        name: "",
        answer: Answer::Test(true),
    },
    CallRow {
        call: Call::IsValue,
        value: Named::Text("pub1"),
        name: "",
        answer: Answer::Test(false),
    },
    CallRow {
        call: Call::IsLabel,
        value: ANY,
        name: "author",
        answer: Answer::Test(true),
    },
    CallRow {
        call: Call::IsLabel,
        value: ANY,
        name: "Publications",
        answer: Answer::Test(false),
    },
    // Counts of the whole graph, of labels and of collections.
    CallRow {
        call: Call::Sizes,
        value: ANY,
        name: "",
        answer: Answer::Sizes(Sizes {
            nodes: 2,
            edges: 7,
            values: 8,
            labels: 3,
        }),
    },
    CallRow {
        call: Call::EdgesOf,
        value: ANY,
        name: "author",
        answer: Answer::Count(3),
    },
    CallRow {
        call: Call::EdgesOf,
        value: ANY,
        name: "Publications",
        answer: Answer::Count(0),
    },
    CallRow {
        call: Call::MembersOf,
        value: ANY,
        name: "Publications",
        answer: Answer::Count(2),
    },
    CallRow {
        call: Call::MembersOf,
        value: ANY,
        name: "author",
        answer: Answer::Count(0),
    },
    // How many edges there are from a value and to one, of a label and of all.
    CallRow {
        call: Call::CountOut,
        value: Named::Node("pub1"),
        name: "author",
        answer: Answer::Count(2),
    },
    CallRow {
        call: Call::CountOut,
        value: Named::Node("pub1"),
        name: "note",
        answer: Answer::Count(0),
    },
    CallRow {
        call: Call::CountIncoming,
        value: Named::Text("Dan"),
        name: "author",
        answer: Answer::Count(2),
    },
    CallRow {
        call: Call::CountIncoming,
        value: Named::Text("Dan"),
        name: "note",
        answer: Answer::Count(0),
    },
    CallRow {
        call: Call::DegreeOut,
        value: Named::Node("pub1"),
        name: "",
        answer: Answer::Count(4),
    },
    CallRow {
        call: Call::DegreeOut,
        value: Named::Text("Dan"),
        name: "",
        answer: Answer::Count(0),
    },
    CallRow {
        call: Call::DegreeIncoming,
        value: Named::Text("Dan"),
        name: "",
        answer: Answer::Count(2),
    },
    CallRow {
        call: Call::DegreeIncoming,
        value: Named::Node("pub1"),
        name: "",
        answer: Answer::Count(0),
    },
    // None, some and more than all of each list.
    CallRow {
        call: Call::FirstOut(0),
        value: Named::Node("pub1"),
        name: "author",
        answer: Answer::List(""),
    },
    CallRow {
        call: Call::FirstOut(1),
        value: Named::Node("pub1"),
        name: "author",
        answer: Answer::List("'Dan';"),
    },
    CallRow {
        call: Call::FirstOut(3),
        value: Named::Node("pub1"),
        name: "author",
        answer: Answer::List("'Dan';'Mary';"),
    },
    CallRow {
        call: Call::FirstIncoming(1),
        value: Named::Text("Dan"),
        name: "author",
        answer: Answer::List("&pub1;"),
    },
    CallRow {
        call: Call::FirstIncoming(2),
        value: Named::Text("Dan"),
        name: "author",
        answer: Answer::List("&pub1;&pub2;"),
    },
    CallRow {
        call: Call::FirstEdges(2),
        value: ANY,
        name: "author",
        answer: Answer::List("pub1 'Dan';pub1 'Mary';"),
    },
    CallRow {
        call: Call::FirstMembers(1),
        value: ANY,
        name: "Publications",
        answer: Answer::List("&pub1;"),
    },
    CallRow {
        call: Call::FirstValues(3),
        value: ANY,
        name: "",
        answer: Answer::List("1997;1998;'Dan';"),
    },
];

// Whether the call gives this list.
fn lists<S: Store>(
    alloc: Global,
    store: &S,
    call: &Call,
    value: &Value,
    name: &Str,
    list: &str,
) -> Result<bool, NoMemory> {
    match call {
        Call::Out => is_printed(alloc, store.out(alloc, value, name), list),
        Call::OutAll => is_printed(alloc, store.out_all(alloc, value), list),
        Call::Incoming => is_printed(alloc, store.incoming(alloc, value), list),
        Call::IncomingBy => is_printed(alloc, store.incoming_by(alloc, value, name), list),
        Call::EdgesBy => is_printed(alloc, store.edges_by(alloc, name), list),
        Call::Members => is_printed(alloc, store.members(alloc, name), list),
        Call::Values => is_printed(alloc, store.values(alloc), list),
        Call::Labels => is_printed(alloc, store.labels(alloc), list),
        Call::FirstOut(most) => {
            is_printed(alloc, store.first_out(alloc, value, name, *most), list)
        }
        Call::FirstIncoming(most) => {
            is_printed(alloc, store.first_incoming(alloc, value, name, *most), list)
        }
        Call::FirstEdges(most) => is_printed(alloc, store.first_edges(alloc, name, *most), list),
        Call::FirstMembers(most) => {
            is_printed(alloc, store.first_members(alloc, name, *most), list)
        }
        Call::FirstValues(most) => is_printed(alloc, store.first_values(alloc, *most), list),
        _ => Ok(false),
    }
}

// What the call's test says, where it is one.
fn test_of<S: Store>(
    alloc: Global,
    store: &S,
    call: &Call,
    value: &Value,
    name: &Str,
) -> Result<Option<bool>, NoMemory> {
    Ok(match call {
        Call::HasEdge(from) => {
            let from = Value::Data(Datum::Node(Str::new(alloc, from.as_bytes())?));
            Some(store.has_edge(&from, name, value))
        }
        Call::IsMember => Some(store.is_member(name, value)),
        Call::IsValue => Some(store.is_value(value)),
        Call::IsLabel => Some(store.is_label(name)),
        _ => None,
    })
}

// What the call counts, where it counts something.
fn count_of<S: Store>(store: &S, call: &Call, value: &Value, name: &Str) -> Option<u64> {
    match call {
        Call::EdgesOf => Some(store.edges_of(name)),
        Call::MembersOf => Some(store.members_of(name)),
        Call::CountOut => Some(store.count_out(value, name)),
        Call::CountIncoming => Some(store.count_incoming(value, name)),
        Call::DegreeOut => Some(store.degree_out(value)),
        Call::DegreeIncoming => Some(store.degree_incoming(value)),
        _ => None,
    }
}

// Whether the row's call answers what the row says.
fn is_answered<S: Store>(alloc: Global, store: &S, row: &CallRow) -> Result<bool, NoMemory> {
    let value = value_of(alloc, &row.value)?;
    let name = Str::new(alloc, row.name.as_bytes())?;
    match &row.answer {
        Answer::List(list) => lists(alloc, store, &row.call, &value, &name, list),
        Answer::Test(wanted) => {
            Ok(test_of(alloc, store, &row.call, &value, &name)? == Some(*wanted))
        }
        Answer::Count(wanted) => Ok(count_of(store, &row.call, &value, &name) == Some(*wanted)),
        Answer::Sizes(wanted) => Ok(store.sizes() == *wanted),
    }
}

fn check_rows<S: Store + Drop>(alloc: Global, called: &str, store: S) -> Result<(), Fail> {
    for (place, row) in ROWS.iter().enumerate() {
        check(is_answered(alloc, &store, row)?, called, place)?;
    }
    Ok(())
}

#[test]
fn both_stores_answer_each_call(rt: HostRuntime) -> Result<(), Fail> {
    let alloc = rt.alloc();
    check_rows(alloc, PLAIN, list_of(alloc, BIBLIOGRAPHY)?)?;
    check_rows(alloc, INDEXED, index_of(alloc, BIBLIOGRAPHY)?)
}
