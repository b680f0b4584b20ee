// What version 3 reads and keeps, and the versions before it don't.
use crate::refused::rows::{Refused, check_texts};
use crate::refused::{Reported, check_reported};
use std::test::Fail;

const TEXTS: &[Refused] = &[
    // Before version 3 two operands in parentheses are no condition.
    Refused {
        number: Some(71),
        texts: &[
            "INPUT D WHERE starts(x^, y) OUTPUT S",
            "STRUQL 1 INPUT D WHERE ends(x^, 'a') OUTPUT S",
            "STRUQL 2 INPUT D WHERE not(has(^'a', x)) OUTPUT S",
        ],
    },
    // In version 3 they are two, after one of three names that isn't quoted.
    Refused {
        number: Some(71),
        texts: &[
            "STRUQL 3 INPUT D WHERE starts(^) OUTPUT S",
            "STRUQL 3 INPUT D WHERE ends('a'^) OUTPUT S",
            "STRUQL 3 INPUT D WHERE has(x, ^) OUTPUT S",
            "STRUQL 3 INPUT D WHERE starts(x, y^, z) OUTPUT S",
            "STRUQL 3 INPUT D WHERE Starts(x^, y) OUTPUT S",
            "STRUQL 3 INPUT D WHERE 'starts'(x^, y) OUTPUT S",
            "STRUQL 3 INPUT D WHERE isInt(x^, y) OUTPUT S",
            "STRUQL 3 INPUT D WHERE lower(x^, y) OUTPUT S",
            "STRUQL 3 INPUT D WHERE not(^not(starts(x, y))) OUTPUT S",
        ],
    },
    Refused {
        number: Some(67),
        texts: &[
            "STRUQL 3 INPUT D WHERE C(x) CREATE F() COLLECT ^starts(x) OUTPUT S",
            "STRUQL 3 INPUT D WHERE C(x) CREATE F() COLLECT ^'sum'(x) OUTPUT S",
        ],
    },
    // Six words more are keywords there, wherever a name may stand.
    Refused {
        number: Some(71),
        texts: &[
            "STRUQL 3 INPUT D WHERE A(^order) CREATE F(order) OUTPUT S",
            "STRUQL 3 INPUT D WHERE A(x), x -> ^BY -> y OUTPUT S",
            "STRUQL 3 INPUT D WHERE ^OF(x) OUTPUT S",
            "STRUQL 3 INPUT D CREATE ^descend() OUTPUT S",
            "STRUQL 3 INPUT D CREATE ^fold() OUTPUT S",
            "STRUQL 3 INPUT D WHERE A(x) CREATE F(x) LINK F(x) -> ^FOLD -> x OUTPUT S",
            "STRUQL 3 INPUT D WHERE A(x) CREATE F(x) COLLECT ^none(x) OUTPUT S",
            "STRUQL 3 INPUT ^none OUTPUT S",
            "STRUQL 3 INPUT D OUTPUT ^ORDER",
        ],
    },
    // What a link ends at.
    Refused {
        number: Some(61),
        texts: &[
            "STRUQL 3 INPUT D WHERE A(x) CREATE F(x) LINK F(x) -> 'n' -> count(^y) OUTPUT S",
            "STRUQL 3 INPUT D WHERE A(x), x -> 'p' -> p CREATE F(x) LINK F(x) -> 'n' -> sum(p OF ^y) OUTPUT S",
        ],
    },
    Refused {
        number: Some(62),
        texts: &[
            "STRUQL 3 INPUT D WHERE A(x) CREATE F(x) LINK F(x) -> 'n' -> ^count(1) OUTPUT S",
            "STRUQL 3 INPUT D WHERE A(x), x -> 'p' -> p CREATE F(x) LINK F(x) -> 'n' -> ^sum(p) OUTPUT S",
            "STRUQL 3 INPUT D WHERE A(x) CREATE F(x) LINK F(x) -> 'n' -> ^sum(x, x) OUTPUT S",
            "STRUQL 3 INPUT D WHERE A(x) CREATE F(x) LINK F(x) -> 'n' -> ^sum() OUTPUT S",
            "STRUQL 2 INPUT D WHERE A(x) CREATE F(x) LINK F(x) -> 'n' -> ^count(x) OUTPUT S",
        ],
    },
    Refused {
        number: Some(71),
        texts: &[
            "STRUQL 3 INPUT D WHERE A(x), x -> 'p' -> p CREATE F(x) LINK F(x) -> 'n' -> count(p ^OF x) OUTPUT S",
            "STRUQL 3 INPUT D WHERE A(x) CREATE F(x) LINK F(x) -> 'n' -> sum(1 ^OF x) OUTPUT S",
            "STRUQL 3 INPUT D WHERE A(x) CREATE F(x) LINK F(x) -> 'n' -> sum(x OF ^1) OUTPUT S",
            "STRUQL 2 INPUT D WHERE A(x) CREATE F(x) LINK F(x) -> 'n' -> sum(x ^OF x) OUTPUT S",
        ],
    },
    Refused {
        number: None,
        texts: &[
            // In versions 1 and 2 they are names, and in version 3 in other cases, and quoted.
            "INPUT order WHERE none(by), by -> of -> fold CREATE DESCEND(by) OUTPUT fold",
            "STRUQL 2 INPUT D WHERE A(order) CREATE F(order) OUTPUT S",
            "STRUQL 3 INPUT D WHERE 'order'(x), Order(x), x -> 'by' -> nonE CREATE Fold(x) OUTPUT S",
            "STRUQL 3 INPUT D OUTPUT S",
            "struql 003 INPUT D WHERE starts(x, 'a'), ends('a', x), has(1, 'a') OUTPUT S",
            "STRUQL 3 INPUT D WHERE not(has(x, y)) CREATE F(x, y) OUTPUT S",
            // An arc variable is compared, and so it is tested.
            "STRUQL 3 INPUT D WHERE x -> l -> y, starts(l, y) OUTPUT S",
            // With one variable, and as names of variables and of the data's collections, all are as before.
            "INPUT D WHERE starts(x), not(ends(x)), 'has'(x) OUTPUT S",
            "STRUQL 3 INPUT D WHERE starts(x), not(ends(x)), 'has'(x), lower(x) OUTPUT S",
            "STRUQL 3 INPUT D WHERE starts = 'a', has -> 'a' -> ends OUTPUT S",
        ],
    },
];

#[test]
fn texts_of_two_operands_are_read_in_version_3(rt: HostRuntime) -> Result<(), Fail> {
    for row in TEXTS {
        check_texts(&rt, row)?;
    }
    Ok(())
}

const KEPT: &[&str] = &[
    "starts", "ends", "has", "matches", "lower", "upper", "slug", "trim", "first", "last", "rest",
    "before", "after", "replace", "join", "split", "length", "number", "decimal", "plus", "minus",
    "times", "div", "mod", "date", "dated", "count", "min", "max", "sum",
];

#[test]
fn version_3_keeps_names(rt: HostRuntime) -> Result<(), Fail> {
    for name in KEPT {
        let third = format!(in rt.alloc(); "STRUQL 3 INPUT D CREATE {name}() OUTPUT S")?;
        let reserved = Some(Reported {
            number: 67,
            place: 24,
        });
        check_reported(&rt, third.as_bytes(), reserved, name);
        let second = format!(in rt.alloc(); "STRUQL 2 INPUT D CREATE {name}() OUTPUT S")?;
        check_reported(&rt, second.as_bytes(), None, name);
    }
    Ok(())
}
