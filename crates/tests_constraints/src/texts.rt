// Texts of constraints, and texts that are refused, over a query with a root and a function of one argument.
use crate::checks::scoped_query;
use constraint_spec::Constraint;
use constraints::{ConstraintRefusal, parse_constraints};
use query_scoping::ScopedQuery;
use sd_value::NoMemory;
use std::alloc::Global;
use std::test::Fail;
use token_reader::TextRefusal;

const QUERY: &[u8] = b"INPUT D { CREATE R() } { WHERE C(x) CREATE F(x) } OUTPUT S";

const LIMIT: u64 = 1_048_576;

// A text with this many blanks behind it, the most bytes that it may have, and the words of its constraints, each with a
// blank behind it, or why it is refused.
struct TextRow {
    text: &'static str,
    blanks: usize,
    limit: u64,
    ends: Result<&'static [u8], ConstraintRefusal>,
}

const TEXTS: &[TextRow] = &[
    TextRow {
        text: "// five\nREACHABLE F FROM R EACH F LINKS \"a\" TO R\nONLY R LINKS \"b c\" TO F NONE F LINKS \"\" ONE R LINKS \"\\\"\"",
        blanks: 0,
        limit: LIMIT,
        ends: Ok(b"REACHABLE F R EACH F a R ONLY R b c F NONE F  ONE R \" "),
    },
    TextRow {
        text: "",
        blanks: 0,
        limit: 0,
        ends: Ok(b""),
    },
    TextRow {
        text: "",
        blanks: 1_048_576,
        limit: LIMIT,
        ends: Ok(b""),
    },
    TextRow {
        text: "",
        blanks: 1_048_577,
        limit: LIMIT,
        ends: Err(ConstraintRefusal::Text(TextRefusal::TooLong(LIMIT))),
    },
    TextRow {
        text: "NONE Zed LINKS \"a\"",
        blanks: 0,
        limit: LIMIT,
        ends: Err(ConstraintRefusal::UnknownFunction(5)),
    },
    TextRow {
        text: "REACHABLE R FROM F",
        blanks: 0,
        limit: LIMIT,
        ends: Err(ConstraintRefusal::RootHasArguments(17)),
    },
    TextRow {
        text: "REACHABLE R FROM Zed",
        blanks: 0,
        limit: LIMIT,
        ends: Err(ConstraintRefusal::UnknownFunction(17)),
    },
    TextRow {
        text: "REACHABLE R FROM F NONE Zed LINKS \"a\"",
        blanks: 0,
        limit: LIMIT,
        ends: Err(ConstraintRefusal::RootHasArguments(17)),
    },
    TextRow {
        text: "EACH F LINKS \"a\" TO Zed",
        blanks: 0,
        limit: LIMIT,
        ends: Err(ConstraintRefusal::UnknownFunction(20)),
    },
    TextRow {
        text: "ONE LINKS LINKS \"a\"",
        blanks: 0,
        limit: LIMIT,
        ends: Err(ConstraintRefusal::UnknownFunction(4)),
    },
    TextRow {
        text: "none F LINKS \"a\"",
        blanks: 0,
        limit: LIMIT,
        ends: Err(ConstraintRefusal::Text(TextRefusal::Expected(0))),
    },
    TextRow {
        text: "NONE F links \"a\"",
        blanks: 0,
        limit: LIMIT,
        ends: Err(ConstraintRefusal::Text(TextRefusal::Expected(7))),
    },
    TextRow {
        text: "NONE \"F\" LINKS \"a\"",
        blanks: 0,
        limit: LIMIT,
        ends: Err(ConstraintRefusal::Text(TextRefusal::Expected(5))),
    },
    TextRow {
        text: "NONE F LINKS a",
        blanks: 0,
        limit: LIMIT,
        ends: Err(ConstraintRefusal::Text(TextRefusal::Expected(13))),
    },
    TextRow {
        text: "ONE F LINKS \"a\" TO R",
        blanks: 0,
        limit: LIMIT,
        ends: Err(ConstraintRefusal::Text(TextRefusal::Expected(16))),
    },
    TextRow {
        text: "EACH F LINKS \"a\"",
        blanks: 0,
        limit: LIMIT,
        ends: Err(ConstraintRefusal::Text(TextRefusal::Expected(16))),
    },
    // A name is looked at only where the whole text is spelled well.
    TextRow {
        text: "NONE Zed LINKS \"a\" ONE",
        blanks: 0,
        limit: LIMIT,
        ends: Err(ConstraintRefusal::Text(TextRefusal::Expected(22))),
    },
    TextRow {
        text: "NONE F LINKS \"a",
        blanks: 0,
        limit: LIMIT,
        ends: Err(ConstraintRefusal::Text(TextRefusal::OpenString(13))),
    },
    TextRow {
        text: "NONE ?",
        blanks: 0,
        limit: LIMIT,
        ends: Err(ConstraintRefusal::Text(TextRefusal::BadByte(5))),
    },
];

fn put_words(words: &[&[u8]], out: &mut Vec<u8>) -> Result<(), NoMemory> {
    for word in words {
        out.extend_from_slice(word)?;
        out.push(b' ')?;
    }
    Ok(())
}

// Adds a constraint as the words of its text.
fn put_constraint(constraint: &Constraint, out: &mut Vec<u8>) -> Result<(), NoMemory> {
    match constraint {
        Constraint::Reachable { function, root } => {
            put_words(&[b"REACHABLE", function.bytes(), root.bytes()], out)
        }
        Constraint::Each {
            function,
            label,
            target,
        } => put_words(
            &[b"EACH", function.bytes(), label.bytes(), target.bytes()],
            out,
        ),
        Constraint::Only {
            function,
            label,
            target,
        } => put_words(
            &[b"ONLY", function.bytes(), label.bytes(), target.bytes()],
            out,
        ),
        Constraint::Never { function, label } => {
            put_words(&[b"NONE", function.bytes(), label.bytes()], out)
        }
        Constraint::One { function, label } => {
            put_words(&[b"ONE", function.bytes(), label.bytes()], out)
        }
    }
}

fn words_of(alloc: Global, constraints: &[Constraint]) -> Result<Vec<u8>, NoMemory> {
    let mut words = Vec::new(alloc);
    for constraint in constraints {
        put_constraint(constraint, &mut words)?;
    }
    Ok(words)
}

fn ends_so(alloc: Global, query: &ScopedQuery, row: &TextRow) -> Result<bool, NoMemory> {
    let blanks = b" ".repeat(alloc, row.blanks)?;
    let text = [row.text.as_bytes(), blanks.as_slice()].concat(alloc)?;
    match (parse_constraints(alloc, &text, row.limit, query), row.ends) {
        (Ok(constraints), Ok(words)) => Ok(words_of(alloc, &constraints)?.as_slice() == words),
        (Err(refusal), Err(wanted)) => Ok(refusal == wanted),
        _ => Ok(false),
    }
}

#[test]
fn texts_are_read_or_refused(rt: HostRuntime) -> Result<(), Fail> {
    let query = scoped_query(rt.alloc(), QUERY)?;
    for row in TEXTS {
        let is_so = ends_so(rt.alloc(), &query, row)?;
        assert!(rt; is_so, "{} and {} blanks", row.text, row.blanks);
    }
    Ok(())
}
