// Refusals with their places, and queries that are near to them.
use crate::refused::{Reported, check_reported};
use std::process::Abort;
use std::test::Fail;

/// Texts that are refused with the same number, each with `^` before the refused place and `'` for each quote, or queries.
pub struct Refused {
    pub number: Option<u32>,
    pub texts: &'static [&'static str],
}

const REFUSED: &[Refused] = &[
    // Texts that don't split into tokens, which comes before all else.
    Refused {
        number: Some(21),
        texts: &[
            "INPUT D ^; OUTPUT S",
            "INPUT D WHERE x -> ^$ -> y OUTPUT S",
            "INPUT D WHERE x = 'a^\\q' OUTPUT S",
            "INPUT OUTPUT ^$",
        ],
    },
    Refused {
        number: Some(22),
        texts: &[
            "INPUT D WHERE x = ^'abc OUTPUT S",
            "INPUT D WHERE x = ^'abc\\' OUTPUT S",
        ],
    },
    Refused {
        number: Some(23),
        texts: &[
            "INPUT D WHERE x = ^9223372036854775808 OUTPUT S",
            "INPUT D WHERE x = ^-9223372036854775809 OUTPUT S",
        ],
    },
    // The head and the end, and the version.
    Refused {
        number: Some(71),
        texts: &[
            "^",
            "^WHERE C(x) OUTPUT S",
            "INPUT ^",
            "INPUT ^'D' OUTPUT S",
            "INPUT ^input OUTPUT S",
            "INPUT D ^C(x) OUTPUT S",
            "INPUT D ^Where C(x) OUTPUT S",
            "INPUT D ^} OUTPUT S",
            "INPUT D OUTPUT ^",
            "INPUT D OUTPUT ^1",
            "INPUT D OUTPUT S ^x",
            "STRUQL ^x INPUT D OUTPUT S",
            "STRUQL 2 ^D OUTPUT S",
            "^S 3 INPUT D OUTPUT S",
        ],
    },
    Refused {
        number: Some(73),
        texts: &[
            "STRUQL ^4 INPUT D OUTPUT S",
            "STRUQL ^0 D",
            "STRUQL ^-1 INPUT D OUTPUT S",
        ],
    },
    Refused {
        number: Some(71),
        texts: &[
            // Conditions.
            "INPUT D WHERE ^OUTPUT S",
            "INPUT D WHERE C(x^",
            "INPUT D WHERE C(x^, y) OUTPUT S",
            "INPUT D WHERE C(^1) OUTPUT S",
            "INPUT D WHERE x ^, C(x) OUTPUT S",
            "INPUT D WHERE 1 ^(x) OUTPUT S",
            "INPUT D WHERE x = ^-> OUTPUT S",
            "INPUT D WHERE x in ^(1) OUTPUT S",
            "INPUT D WHERE x in {^} OUTPUT S",
            "INPUT D WHERE x in {1 ^2} OUTPUT S",
            "INPUT D WHERE x in {^y} OUTPUT S",
            "INPUT D WHERE not(^not(C(x))) OUTPUT S",
            "INPUT D WHERE not ^C(x) OUTPUT S",
            "INPUT D WHERE not ^'C'(x) OUTPUT S",
            "INPUT D WHERE 'isInt' (^1) OUTPUT S",
            "INPUT D WHERE x -> 'a' -> 'C' ^(x) OUTPUT S",
            "INPUT D WHERE C(x), ^CREATE F(x) OUTPUT S",
            // Path expressions.
            "INPUT D WHERE x -> ^-> y OUTPUT S",
            "INPUT D WHERE x -> 'a' ^OUTPUT S",
            "INPUT D WHERE x -> 'a'.^-> y OUTPUT S",
            "INPUT D WHERE x -> 'a'|^) -> y OUTPUT S",
            "INPUT D WHERE x -> l^* -> y OUTPUT S",
            "INPUT D WHERE x -> 'a'.^l -> y OUTPUT S",
            "INPUT D WHERE x -> ('a' ^-> y OUTPUT S",
            "INPUT D WHERE x -> 'a'^) -> y OUTPUT S",
            "INPUT D WHERE x -> 'a' -> ^true OUTPUT S",
            // Terms, links, collected values and blocks.
            "INPUT D CREATE F ^OUTPUT S",
            "INPUT D CREATE F(F^()) OUTPUT S",
            "INPUT D CREATE F(1,^) OUTPUT S",
            "INPUT D CREATE F() LINK ^1 -> 'a' -> F() OUTPUT S",
            "INPUT D CREATE F() LINK F() -> ^1 -> F() OUTPUT S",
            "INPUT D CREATE F() LINK F() -> 'a'^.'b' -> F() OUTPUT S",
            "INPUT D CREATE F() LINK F() -> 'a' ^OUTPUT S",
            "INPUT D CREATE F() COLLECT C(^1) OUTPUT S",
            "INPUT D CREATE F() COLLECT C(F()^, F()) OUTPUT S",
            "INPUT D { CREATE F() ^OUTPUT S",
            "INPUT D { CREATE F() ^",
            "INPUT D { CREATE F() ^WHERE C(x) } OUTPUT S",
        ],
    },
    // Limits of depth: blocks, parentheses, and stars one within another.
    Refused {
        number: Some(72),
        texts: &[
            "INPUT D {{{{{{{{{{{{{{{{^{",
            "INPUT D CREATE F() {{{{{{{{{{{{{{{^{",
            "INPUT D WHERE x -> ((((((((((((((((((((((((((((((((((((((((((((((((((((((((((((((((^('a'",
            "INPUT D WHERE x -> 'a'****************************************************************^* -> y",
            "INPUT D WHERE x -> ****************************************************************^* -> y",
            "INPUT D WHERE x -> ('a'********************************)********************************^* -> y",
        ],
    },
    // Queries that are spelled and have a fault.
    Refused {
        number: Some(61),
        texts: &[
            "INPUT D CREATE F(^x) OUTPUT S",
            "INPUT D WHERE C(x) CREATE F(x) LINK F(x) -> ^l -> x OUTPUT S",
            "INPUT D WHERE C(x) CREATE F(x) LINK F(x) -> 'a' -> ^y OUTPUT S",
            "INPUT D WHERE C(x) CREATE F(x) COLLECT C(^y) OUTPUT S",
            "INPUT D WHERE 'C'(x) CREATE F(x) COLLECT 'C'(^y) OUTPUT S",
            "INPUT D CREATE F(^x) { WHERE C(x) } OUTPUT S",
            "INPUT D { WHERE C(x) CREATE F(x) } { CREATE G(^x) } OUTPUT S",
            "INPUT D CREATE F() LINK ^y -> 'l' -> F() OUTPUT S",
        ],
    },
    Refused {
        number: Some(62),
        texts: &[
            "INPUT D WHERE C(x) CREATE F(x) LINK F(x) -> 'a' -> ^G(x) OUTPUT S",
            "INPUT D WHERE C(x) COLLECT C(^G(x)) OUTPUT S",
            "INPUT D LINK ^G(y) -> 'a' -> 1 OUTPUT S",
            "INPUT D CREATE F() LINK F() -> 'a' -> ^index() OUTPUT S",
        ],
    },
    Refused {
        number: Some(63),
        texts: &[
            "INPUT D WHERE C(x) CREATE F(x), ^F(x, x) OUTPUT S",
            "INPUT D WHERE C(x) CREATE F(x) LINK F(x) -> 'a' -> ^F() OUTPUT S",
            "INPUT D WHERE C(x) LINK F() -> 'a' -> x { CREATE ^F(x) } OUTPUT S",
        ],
    },
    Refused {
        number: Some(64),
        texts: &[
            "INPUT D WHERE C(x) LINK ^x -> 'l' -> F(x) OUTPUT S",
            "INPUT D WHERE C(x) CREATE F(x) LINK ^x -> 'l' -> y OUTPUT S",
        ],
    },
    Refused {
        number: Some(65),
        texts: &[
            "INPUT D WHERE x -> l -> y, ^l -> 'a' -> z OUTPUT S",
            "INPUT D WHERE x -> l -> y, C(^l) OUTPUT S",
            "INPUT D WHERE x -> l -> y, 'isInt'(^l) OUTPUT S",
            "INPUT D WHERE ^l -> l -> x OUTPUT S",
            "INPUT D WHERE not(x -> l -> y), C(^l) OUTPUT S",
        ],
    },
    Refused {
        number: Some(66),
        texts: &[
            "INPUT D WHERE C(l), C(x) CREATE F(x) LINK F(x) -> ^l -> x OUTPUT S",
            "INPUT D WHERE C(l) CREATE F(l) { WHERE l -> ^l -> x } OUTPUT S",
        ],
    },
    Refused {
        number: Some(67),
        texts: &[
            "INPUT D CREATE ^index() OUTPUT S",
            "INPUT D CREATE ^isInt() OUTPUT S",
            "INPUT D CREATE F() COLLECT ^isNode(F()) OUTPUT S",
            "INPUT D CREATE F() COLLECT ^'isNode'(F()) OUTPUT S",
        ],
    },
    Refused {
        number: Some(68),
        texts: &[
            "INPUT D WHERE C(a1), C(a2), C(a3), C(a4), C(a5), C(a6), C(a7), C(a8), C(a9), C(a10), C(a11), \
                C(a12), C(a13), C(a14), C(a15), C(a16), C(a17), C(a18), C(a19), C(a20), C(a21), C(a22), \
                C(a23), C(a24), C(a25), C(a26), C(a27), C(a28), C(a29), C(a30), C(a31), C(a32), C(^b) \
                OUTPUT S",
            "INPUT D WHERE C(a1), C(a2), C(a3), C(a4), C(a5), C(a6), C(a7), C(a8), C(a9), C(a10), C(a11), \
                C(a12), C(a13), C(a14), C(a15), C(a16), C(a17), C(a18), C(a19), C(a20), C(a21), C(a22), \
                C(a23), C(a24), C(a25), C(a26), C(a27), C(a28), C(a29), C(a30), C(a31), C(a32) { WHERE a1 \
                -> 'a' -> ^b } OUTPUT S",
        ],
    },
    // Queries that are near to those.
    Refused {
        number: None,
        texts: &[
            "INPUT D OUTPUT S",
            "STRUQL 2 INPUT D OUTPUT S",
            "INPUT Where OUTPUT Output",
            "INPUT D WHERE C(x) CREATE F(x) WHERE C(y) CREATE G(y) OUTPUT S",
            "INPUT D {} OUTPUT S",
            "INPUT D {{{{{{{{{{{{{{{{}}}}}}}}}}}}}}}} OUTPUT S",
            "INPUT D WHERE x -> (((((((((((((((((((((((((((((((((((((((((((((((((((((((((((((((('a')))))))))))))))))\
                ))))))))))))))))))))))))))))))))))))))))))))))) -> y OUTPUT S",
            "INPUT D WHERE x -> 'a'**************************************************************** -> y OUTPUT S",
            "INPUT D WHERE C(a1), C(a2), C(a3), C(a4), C(a5), C(a6), C(a7), C(a8), C(a9), C(a10), C(a11), C(a12), \
                C(a13), C(a14), C(a15), C(a16), C(a17), C(a18), C(a19), C(a20), C(a21), C(a22), C(a23), C(a24), \
                C(a25), C(a26), C(a27), C(a28), C(a29), C(a30), C(a31), C(a32) OUTPUT S",
            "INPUT D CREATE F() COLLECT index(F()) OUTPUT S",
            "INPUT D WHERE x = 9223372036854775807, y = -9223372036854775808 OUTPUT S",
        ],
    },
];

/// Compares what is reported of each text with its row.
pub fn check_texts<R: AllocGlobal + Abort>(rt: &R, row: &Refused) -> Result<(), Fail> {
    for text in row.texts {
        let wanted = match (row.number, text.find('^')) {
            (Some(number), Some(place)) => Some(Reported {
                number,
                place: place as u64,
            }),
            _ => None,
        };
        let unmarked = text.replace(rt.alloc(), '^', "")?;
        let query = unmarked.replace(rt.alloc(), '\'', "\"")?;
        check_reported(rt, query.as_bytes(), wanted, text);
    }
    Ok(())
}

#[test]
fn queries_are_refused_at_their_places(rt: HostRuntime) -> Result<(), Fail> {
    for row in REFUSED {
        check_texts(&rt, row)?;
    }
    Ok(())
}
