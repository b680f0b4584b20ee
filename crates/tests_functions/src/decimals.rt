// Decimals with their mark some places on, worked out by hand.
use crate::calls::{CallRow, Given, check_rows};
use function_spec::Function;
use std::test::Fail;

const DECIMALS: &[CallRow] = &[
    CallRow {
        call: Function::Decimal,
        given: &[Given::Text(b"71,1"), Given::Text(b","), Given::Int(2)],
        want: &[Given::Int(7110)],
    },
    CallRow {
        call: Function::Decimal,
        given: &[Given::Text(b"-0.5"), Given::Text(b"."), Given::Int(1)],
        want: &[Given::Int(-5)],
    },
    CallRow {
        call: Function::Decimal,
        given: &[Given::Text(b"71"), Given::Text(b","), Given::Int(2)],
        want: &[Given::Int(7100)],
    },
    CallRow {
        call: Function::Decimal,
        given: &[Given::Text(b"1.250"), Given::Text(b"."), Given::Int(2)],
        want: &[Given::Int(125)],
    },
    CallRow {
        call: Function::Decimal,
        given: &[Given::Text(b"1.255"), Given::Text(b"."), Given::Int(2)],
        want: &[],
    },
    CallRow {
        call: Function::Decimal,
        given: &[Given::Text(b"1,003"), Given::Text(b","), Given::Int(2)],
        want: &[],
    },
    CallRow {
        call: Function::Decimal,
        given: &[Given::Text(b"1,000"), Given::Text(b","), Given::Int(2)],
        want: &[Given::Int(100)],
    },
    CallRow {
        call: Function::Decimal,
        given: &[Given::Text(b"+7"), Given::Text(b"x"), Given::Int(0)],
        want: &[Given::Int(7)],
    },
    CallRow {
        call: Function::Decimal,
        given: &[Given::Text(b"7"), Given::Text(b""), Given::Int(0)],
        want: &[],
    },
    CallRow {
        call: Function::Decimal,
        given: &[Given::Text(b"7"), Given::Text(b"1"), Given::Int(0)],
        want: &[],
    },
    CallRow {
        call: Function::Decimal,
        given: &[Given::Text(b"7"), Given::Text(b"-"), Given::Int(0)],
        want: &[],
    },
    CallRow {
        call: Function::Decimal,
        given: &[Given::Text(b".5"), Given::Text(b"."), Given::Int(1)],
        want: &[],
    },
    CallRow {
        call: Function::Decimal,
        given: &[Given::Text(b"5."), Given::Text(b"."), Given::Int(1)],
        want: &[],
    },
    CallRow {
        call: Function::Decimal,
        given: &[Given::Text(b" 5"), Given::Text(b"."), Given::Int(1)],
        want: &[],
    },
    CallRow {
        call: Function::Decimal,
        given: &[Given::Int(12), Given::Text(b"."), Given::Int(1)],
        want: &[Given::Int(120)],
    },
    CallRow {
        call: Function::Decimal,
        given: &[Given::Text(b"1"), Given::Text(b"."), Given::Int(18)],
        want: &[Given::Int(1000000000000000000)],
    },
    CallRow {
        call: Function::Decimal,
        given: &[Given::Text(b"1"), Given::Text(b"."), Given::Int(19)],
        want: &[],
    },
    CallRow {
        call: Function::Decimal,
        given: &[Given::Text(b"10"), Given::Text(b"."), Given::Int(18)],
        want: &[],
    },
];

#[test]
fn decimals_with_a_moved_mark(rt: HostRuntime) -> Result<(), Fail> {
    check_rows(rt.alloc(), DECIMALS)
}

const LIMITS: &[CallRow] = &[
    CallRow {
        call: Function::Decimal,
        given: &[Given::Text(b""), Given::Text(b"."), Given::Int(1)],
        want: &[],
    },
    CallRow {
        call: Function::Decimal,
        given: &[Given::Text(b"-"), Given::Text(b"."), Given::Int(1)],
        want: &[],
    },
    CallRow {
        call: Function::Decimal,
        given: &[Given::Text(b"--1"), Given::Text(b"."), Given::Int(1)],
        want: &[],
    },
    CallRow {
        call: Function::Decimal,
        given: &[Given::Text(b"-1"), Given::Text(b"."), Given::Int(-1)],
        want: &[],
    },
    CallRow {
        call: Function::Decimal,
        given: &[Given::Text(b"1.2.3"), Given::Text(b"."), Given::Int(2)],
        want: &[],
    },
    CallRow {
        call: Function::Decimal,
        given: &[Given::Text(b"1.-2"), Given::Text(b"."), Given::Int(1)],
        want: &[],
    },
    CallRow {
        call: Function::Decimal,
        given: &[
            Given::Text(b"-9223372036854775808"),
            Given::Text(b"."),
            Given::Int(0),
        ],
        want: &[Given::Int(i64::MIN)],
    },
    CallRow {
        call: Function::Decimal,
        given: &[
            Given::Text(b"9223372036854775808"),
            Given::Text(b"."),
            Given::Int(0),
        ],
        want: &[],
    },
    CallRow {
        call: Function::Decimal,
        given: &[
            Given::Text(b"-9.223372036854775808"),
            Given::Text(b"."),
            Given::Int(18),
        ],
        want: &[Given::Int(i64::MIN)],
    },
    CallRow {
        call: Function::Decimal,
        given: &[
            Given::Text(b"000000000000000000000012.50"),
            Given::Text(b"."),
            Given::Int(1),
        ],
        want: &[Given::Int(125)],
    },
    CallRow {
        call: Function::Decimal,
        given: &[Given::Text(b"-0,0"), Given::Text(b","), Given::Int(1)],
        want: &[Given::Int(0)],
    },
    CallRow {
        call: Function::Decimal,
        given: &[
            Given::Text(b"1 \xc2\xb7 5"),
            Given::Text(b" \xc2\xb7 "),
            Given::Int(1),
        ],
        want: &[Given::Int(15)],
    },
    CallRow {
        call: Function::Decimal,
        given: &[Given::Text(b"1'000"), Given::Text(b"'"), Given::Int(3)],
        want: &[Given::Int(1000)],
    },
    CallRow {
        call: Function::Decimal,
        given: &[Given::Text(b"5.0"), Given::Text(b"0"), Given::Int(1)],
        want: &[],
    },
    CallRow {
        call: Function::Decimal,
        given: &[Given::Text(b"1.5"), Given::Text(b"+."), Given::Int(1)],
        want: &[],
    },
    CallRow {
        call: Function::Decimal,
        given: &[
            Given::Text(b"0.0000000000000000000000"),
            Given::Text(b"."),
            Given::Int(18),
        ],
        want: &[Given::Int(0)],
    },
    CallRow {
        call: Function::Decimal,
        given: &[Given::Text(b"7"), Given::Text(b"aa"), Given::Int(2)],
        want: &[Given::Int(700)],
    },
    CallRow {
        call: Function::Decimal,
        given: &[Given::Text(b"1.5"), Given::Text(b".")],
        want: &[],
    },
    CallRow {
        call: Function::Decimal,
        given: &[Given::Text(b"1.5"), Given::Text(b"."), Given::Text(b"1")],
        want: &[],
    },
    CallRow {
        call: Function::Decimal,
        given: &[Given::Url(b"1.5"), Given::Text(b"."), Given::Int(1)],
        want: &[Given::Int(15)],
    },
    CallRow {
        call: Function::Decimal,
        given: &[Given::Node(b"1.5"), Given::Text(b"."), Given::Int(1)],
        want: &[],
    },
];

#[test]
fn limits_of_decimals(rt: HostRuntime) -> Result<(), Fail> {
    check_rows(rt.alloc(), LIMITS)
}
