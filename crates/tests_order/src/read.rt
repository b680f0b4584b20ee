// ORDERs that are read from their texts, worked by hand from the grammar.
use crate::asked::{OrderRow, PlaceRow, orders_of, quoted};
use sd_lex::tokens;
use std::alloc::Global;
use std::process::Abort;
use std::test::Fail;
use struql_orders::orders_at;
use token_reader::Halt;

struct ReadRow {
    version: u8,
    text: &'static str,
    orders: &'static [OrderRow],
    /// How many tokens are left.
    left: usize,
}

const READ: &[ReadRow] = &[
    ReadRow {
        version: 3,
        text: "ORDER A BY name { } OUTPUT S",
        orders: &[OrderRow {
            collection: "A",
            word: &["name"],
            fold: false,
            descend: false,
            places: &[],
        }],
        left: 2,
    },
    // In lower case, with names that are quoted, and each place; `page` is a name where no place is read.
    ReadRow {
        version: 3,
        text: "order 'by' by to.'of'.page fold descend { previous 'v' page 'g' of 50 next 'x' position '' } \
            ORDER page BY 'order' DESCEND { page 'p' OF 1 page 'q' OF 9223372036854775807 }",
        orders: &[
            OrderRow {
                collection: "by",
                word: &["to", "of", "page"],
                fold: true,
                descend: true,
                places: &[
                    PlaceRow::Previous("v"),
                    PlaceRow::Page("g", 50),
                    PlaceRow::Next("x"),
                    PlaceRow::Position(""),
                ],
            },
            OrderRow {
                collection: "page",
                word: &["order"],
                fold: false,
                descend: true,
                places: &[
                    PlaceRow::Page("p", 1),
                    PlaceRow::Page("q", 9223372036854775807),
                ],
            },
        ],
        left: 0,
    },
    ReadRow {
        version: 2,
        text: "ORDER A BY name { }",
        orders: &[],
        left: 6,
    },
];

fn check_read<R: AllocGlobal + Abort>(rt: &R, row: &ReadRow) -> Result<(), Fail> {
    let alloc = rt.alloc();
    let text = quoted(alloc, row.text)?;
    let all = tokens(alloc, text.as_slice(), 4096)?;
    let (found, rest) = match orders_at(alloc, row.version, all.as_slice()) {
        Ok(read) => read,
        Err(_) => return Err(Fail::new(row.text)),
    };
    let wanted = orders_of(alloc, row.orders)?;
    let found = format!(in alloc; "{found:?}")?;
    let wanted = format!(in alloc; "{wanted:?}")?;
    assert_eq!(rt; found, wanted, "{}", row.text);
    assert_eq!(rt; rest.len(), row.left, "{}", row.text);
    Ok(())
}

#[test]
fn orders_are_read(rt: HostRuntime) -> Result<(), Fail> {
    for row in READ {
        check_read(&rt, row)?;
    }
    Ok(())
}

// Texts that are no ORDERs, with how many tokens are left from the first that doesn't fit.
const REFUSED: &[(&str, usize)] = &[
    ("ORDER BY name { }", 4),
    ("ORDER A name { }", 3),
    ("ORDER A BY { }", 2),
    ("ORDER A BY none { }", 3),
    ("ORDER A BY name. { }", 2),
    ("ORDER A BY name DESCEND FOLD { }", 3),
    ("ORDER A BY name { position p }", 2),
    ("ORDER A BY name { Position 'p' }", 3),
    ("ORDER A BY name { page 'p' }", 1),
    ("ORDER A BY name { page 'p' OF 0 }", 2),
    ("ORDER A BY name { page 'p' OF -1 }", 2),
    ("ORDER A BY name { position 'p'", 0),
];

fn left_of(alloc: Global, text: &str) -> Result<Option<usize>, Fail> {
    let text = quoted(alloc, text)?;
    let all = tokens(alloc, text.as_slice(), 4096)?;
    match orders_at(alloc, 3, all.as_slice()) {
        Err(Halt::Expected(rest)) => Ok(Some(rest.len())),
        _ => Ok(None),
    }
}

#[test]
fn what_is_no_order_is_refused(rt: HostRuntime) -> Result<(), Fail> {
    for (text, left) in REFUSED {
        assert_eq!(rt; left_of(rt.alloc(), text)?, Some(*left), "{text}");
    }
    Ok(())
}
