// Walks of path expressions.
use crate::inputs::{Answer, BIBLIOGRAPHY, INDEXED, PLAIN, check, index_of, list_of};
use crate::printed::{Named, is_printed, value_of};
use automaton::Automaton;
use rpe::Rpe;
use sd_graph::Store;
use sd_value::{NoMemory, Str, Value};
use std::alloc::Global;
use std::test::Fail;
use walks::{Direction, Winner, joins, race, reach, within};

enum Words {
    // Any word: `true*`.
    Any,
    // One label and any number of another: `"a"."b"*`.
    Repeated,
}

enum Walk {
    Ends,
    Starts,
    Joins,
    // The ends, if looking at so many edges is enough; else the empty list.
    EndsWithin(usize),
    // Whether the search that won a race gave all ends of the start, or all starts of the end.
    Wins,
}

// A walk in a graph from a start, or to an end, and what it answers.
struct WalkRow {
    graph: &'static str,
    words: Words,
    walk: Walk,
    start: Named,
    end: Named,
    answer: Answer,
}

const LOOP: &str = "object a { e &a }";

const REPETITION: &str = "object p { a &q } object q { b &r } object r { b &q }";

const ROWS: &[WalkRow] = &[
    // An object that refers to itself.
    WalkRow {
        graph: LOOP,
        words: Words::Any,
        walk: Walk::Ends,
        start: Named::Node("a"),
        end: Named::Node("a"),
        answer: Answer::List("&a;"),
    },
    WalkRow {
        graph: LOOP,
        words: Words::Any,
        walk: Walk::Starts,
        start: Named::Node("a"),
        end: Named::Node("a"),
        answer: Answer::List("&a;"),
    },
    // A word of one label and any number of another, both ways.
    WalkRow {
        graph: REPETITION,
        words: Words::Repeated,
        walk: Walk::Ends,
        start: Named::Node("p"),
        end: Named::Node("p"),
        answer: Answer::List("&q;&r;"),
    },
    WalkRow {
        graph: REPETITION,
        words: Words::Repeated,
        walk: Walk::Starts,
        start: Named::Node("r"),
        end: Named::Node("r"),
        answer: Answer::List("&p;"),
    },
    WalkRow {
        graph: REPETITION,
        words: Words::Repeated,
        walk: Walk::Joins,
        start: Named::Node("p"),
        end: Named::Node("r"),
        answer: Answer::Test(true),
    },
    WalkRow {
        graph: REPETITION,
        words: Words::Repeated,
        walk: Walk::Joins,
        start: Named::Node("r"),
        end: Named::Node("p"),
        answer: Answer::Test(false),
    },
    WalkRow {
        graph: REPETITION,
        words: Words::Repeated,
        walk: Walk::Joins,
        start: Named::Node("p"),
        end: Named::Node("p"),
        answer: Answer::Test(false),
    },
    // A search that stops at a limit, and one that wins a race.
    WalkRow {
        graph: REPETITION,
        words: Words::Repeated,
        walk: Walk::EndsWithin(100),
        start: Named::Node("p"),
        end: Named::Node("p"),
        answer: Answer::List("&q;&r;"),
    },
    WalkRow {
        graph: REPETITION,
        words: Words::Repeated,
        walk: Walk::EndsWithin(1),
        start: Named::Node("p"),
        end: Named::Node("p"),
        answer: Answer::List(""),
    },
    WalkRow {
        graph: REPETITION,
        words: Words::Repeated,
        walk: Walk::Wins,
        start: Named::Node("p"),
        end: Named::Node("r"),
        answer: Answer::Test(true),
    },
    WalkRow {
        graph: REPETITION,
        words: Words::Repeated,
        walk: Walk::Wins,
        start: Named::Node("r"),
        end: Named::Node("p"),
        answer: Answer::Test(true),
    },
    // The empty word joins a number with itself, also where it is not in the graph.
    WalkRow {
        graph: BIBLIOGRAPHY,
        words: Words::Any,
        walk: Walk::Ends,
        start: Named::Number(1997),
        end: Named::Number(1997),
        answer: Answer::List("1997;"),
    },
    WalkRow {
        graph: BIBLIOGRAPHY,
        words: Words::Any,
        walk: Walk::Starts,
        start: Named::Number(1997),
        end: Named::Number(1997),
        answer: Answer::List("1997;&pub2;"),
    },
    WalkRow {
        graph: BIBLIOGRAPHY,
        words: Words::Any,
        walk: Walk::Joins,
        start: Named::Number(1997),
        end: Named::Number(1997),
        answer: Answer::Test(true),
    },
    WalkRow {
        graph: "",
        words: Words::Any,
        walk: Walk::Ends,
        start: Named::Number(1997),
        end: Named::Number(1997),
        answer: Answer::List("1997;"),
    },
    WalkRow {
        graph: "",
        words: Words::Any,
        walk: Walk::Starts,
        start: Named::Number(1997),
        end: Named::Number(1997),
        answer: Answer::List("1997;"),
    },
    WalkRow {
        graph: "",
        words: Words::Any,
        walk: Walk::Joins,
        start: Named::Number(1997),
        end: Named::Number(1997),
        answer: Answer::Test(true),
    },
];

fn star(alloc: Global, body: Rpe) -> Result<Rpe, NoMemory> {
    Ok(Rpe::Star(Box::new(alloc, body)?))
}

fn label(alloc: Global, name: &[u8]) -> Result<Rpe, NoMemory> {
    Ok(Rpe::Label(Str::new(alloc, name)?))
}

fn expression(alloc: Global, words: &Words) -> Result<Rpe, NoMemory> {
    match words {
        Words::Any => star(alloc, Rpe::Any),
        Words::Repeated => {
            let first = Box::new(alloc, label(alloc, b"a")?)?;
            let repeated = star(alloc, label(alloc, b"b")?)?;
            Ok(Rpe::Seq(first, Box::new(alloc, repeated)?))
        }
    }
}

// Whether the search that won a race gave all ends of the start, or all starts of the end.
fn wins<S: Store>(
    alloc: Global,
    store: &S,
    words: &Automaton,
    start: &Value,
    end: &Value,
) -> Result<bool, NoMemory> {
    let Winner { direction, values } = race(alloc, store, words, start, end)?;
    let wanted = match direction {
        Direction::Onward => reach(alloc, store, words, Direction::Onward, start)?,
        Direction::Backward => reach(alloc, store, words, Direction::Backward, end)?,
    };
    Ok(values == wanted)
}

// Whether the walk gives this list.
fn lists<S: Store>(
    alloc: Global,
    store: &S,
    words: &Automaton,
    walk: &Walk,
    start: &Value,
    end: &Value,
    list: &str,
) -> Result<bool, NoMemory> {
    let found = match walk {
        Walk::Ends => reach(alloc, store, words, Direction::Onward, start),
        Walk::Starts => reach(alloc, store, words, Direction::Backward, end),
        Walk::EndsWithin(limit) => {
            let ends = within(alloc, store, words, Direction::Onward, start, *limit)?;
            Ok(ends.unwrap_or(Vec::new(alloc)))
        }
        _ => return Ok(false),
    };
    is_printed(alloc, found, list)
}

// What the walk's test says, where it is one.
fn test_of<S: Store>(
    alloc: Global,
    store: &S,
    words: &Automaton,
    walk: &Walk,
    start: &Value,
    end: &Value,
) -> Result<Option<bool>, NoMemory> {
    Ok(match walk {
        Walk::Joins => Some(joins(alloc, store, words, start, end)?),
        Walk::Wins => Some(wins(alloc, store, words, start, end)?),
        _ => None,
    })
}

// Whether the row's walk answers what the row says.
fn is_answered<S: Store>(
    alloc: Global,
    store: &S,
    words: &Automaton,
    row: &WalkRow,
) -> Result<bool, NoMemory> {
    let start = value_of(alloc, &row.start)?;
    let end = value_of(alloc, &row.end)?;
    match &row.answer {
        Answer::List(list) => lists(alloc, store, words, &row.walk, &start, &end, list),
        Answer::Test(wanted) => {
            Ok(test_of(alloc, store, words, &row.walk, &start, &end)? == Some(*wanted))
        }
        _ => Ok(false),
    }
}

fn check_walk<S: Store + Drop>(
    alloc: Global,
    called: &str,
    store: S,
    words: &Automaton,
    place: usize,
    row: &WalkRow,
) -> Result<(), Fail> {
    check(is_answered(alloc, &store, words, row)?, called, place)
}

fn check_row(alloc: Global, place: usize, row: &WalkRow) -> Result<(), Fail> {
    let words = Automaton::of(alloc, &expression(alloc, &row.words)?)?;
    check_walk(alloc, PLAIN, list_of(alloc, row.graph)?, &words, place, row)?;
    check_walk(
        alloc,
        INDEXED,
        index_of(alloc, row.graph)?,
        &words,
        place,
        row,
    )
}

#[test]
fn walks_over_both_stores_have_their_ends(rt: HostRuntime) -> Result<(), Fail> {
    for (place, row) in ROWS.iter().enumerate() {
        check_row(rt.alloc(), place, row)?;
    }
    Ok(())
}
