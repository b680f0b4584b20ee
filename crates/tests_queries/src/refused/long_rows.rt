// Refusals of long texts, which are made here.
use crate::refused::{Reported, check_reported};
use std::test::Fail;

const HEAD: &[u8] = b"INPUT D WHERE x -> \"a\"";

const END: &[u8] = b" -> y OUTPUT S";

// A text: a piece this many times, between a head and an end; and what is reported of it, or none for a query.
struct LongRow {
    head: &'static [u8],
    piece: &'static [u8],
    count: usize,
    end: &'static [u8],
    reported: Option<Reported>,
}

const LONG: &[LongRow] = &[
    // The label once, and then this many times more after a sign.
    LongRow {
        head: HEAD,
        piece: b".\"a\"",
        count: 255,
        end: END,
        reported: None,
    },
    LongRow {
        head: HEAD,
        piece: b".\"a\"",
        count: 256,
        end: END,
        reported: Some(Reported {
            number: 51,
            place: 19,
        }),
    },
    LongRow {
        head: HEAD,
        piece: b".\"a\"",
        count: 1023,
        end: END,
        reported: Some(Reported {
            number: 51,
            place: 19,
        }),
    },
    LongRow {
        head: HEAD,
        piece: b".\"a\"",
        count: 1024,
        end: END,
        reported: Some(Reported {
            number: 72,
            place: 22 + 4 * 1023,
        }),
    },
    LongRow {
        head: HEAD,
        piece: b"|\"a\"",
        count: 255,
        end: END,
        reported: None,
    },
    LongRow {
        head: HEAD,
        piece: b"|\"a\"",
        count: 256,
        end: END,
        reported: Some(Reported {
            number: 51,
            place: 19,
        }),
    },
    LongRow {
        head: HEAD,
        piece: b"|\"a\"",
        count: 1023,
        end: END,
        reported: Some(Reported {
            number: 51,
            place: 19,
        }),
    },
    LongRow {
        head: HEAD,
        piece: b"|\"a\"",
        count: 1024,
        end: END,
        reported: Some(Reported {
            number: 72,
            place: 22 + 4 * 1023,
        }),
    },
    // A text past the limit, and one at it.
    LongRow {
        head: b"",
        piece: b"$",
        count: 65_537,
        end: b"",
        reported: Some(Reported {
            number: 24,
            place: 65_536,
        }),
    },
    LongRow {
        head: b"",
        piece: b"$",
        count: 65_536,
        end: b"",
        reported: Some(Reported {
            number: 21,
            place: 0,
        }),
    },
];

#[test]
fn long_texts_are_refused_past_the_limits(rt: HostRuntime) -> Result<(), Fail> {
    let alloc = rt.alloc();
    for row in LONG {
        let pieces = row.piece.repeat(alloc, row.count)?;
        let text = [row.head, pieces.as_slice(), row.end].concat(alloc)?;
        let name = format!(in alloc; "{} pieces", row.count)?;
        check_reported(&rt, text.as_slice(), row.reported, &name);
    }
    Ok(())
}
