// Numbers that texts spell, and arithmetic, worked out by hand.
use crate::calls::{CallRow, Given, check_rows};
use function_spec::Function;
use std::test::Fail;

const NUMBERS: &[CallRow] = &[
    CallRow {
        call: Function::Number,
        given: &[Given::Text(b" +007 ")],
        want: &[Given::Int(7)],
    },
    CallRow {
        call: Function::Number,
        given: &[Given::Text(b"7a")],
        want: &[],
    },
    CallRow {
        call: Function::Number,
        given: &[Given::Text(b"-12")],
        want: &[Given::Int(-12)],
    },
    CallRow {
        call: Function::Number,
        given: &[Given::Text(b"9223372036854775808")],
        want: &[],
    },
    CallRow {
        call: Function::Number,
        given: &[Given::Text(b"9223372036854775807")],
        want: &[Given::Int(9223372036854775807)],
    },
    CallRow {
        call: Function::Number,
        given: &[Given::Text(b"-9223372036854775808")],
        want: &[Given::Int(i64::MIN)],
    },
    CallRow {
        call: Function::Number,
        given: &[Given::Text(b"-0")],
        want: &[Given::Int(0)],
    },
    CallRow {
        call: Function::Number,
        given: &[Given::Text(b"+ 1")],
        want: &[],
    },
    CallRow {
        call: Function::Number,
        given: &[Given::Text(b"")],
        want: &[],
    },
    CallRow {
        call: Function::Number,
        given: &[Given::Text(b"-")],
        want: &[],
    },
    CallRow {
        call: Function::Number,
        given: &[Given::Text(b"+")],
        want: &[],
    },
    CallRow {
        call: Function::Number,
        given: &[Given::Text(b"1 2")],
        want: &[],
    },
    CallRow {
        call: Function::Number,
        given: &[Given::Text(b"--1")],
        want: &[],
    },
    CallRow {
        call: Function::Number,
        given: &[Given::Text(b"\t5\r\n")],
        want: &[Given::Int(5)],
    },
    CallRow {
        call: Function::Number,
        given: &[Given::Int(42)],
        want: &[Given::Int(42)],
    },
    CallRow {
        call: Function::Number,
        given: &[Given::Text(b"\xd9\xa3")],
        want: &[],
    },
    CallRow {
        call: Function::Number,
        given: &[Given::Node(b"1")],
        want: &[],
    },
];

#[test]
fn numbers_of_texts(rt: HostRuntime) -> Result<(), Fail> {
    check_rows(rt.alloc(), NUMBERS)
}

const SUMS: &[CallRow] = &[
    CallRow {
        call: Function::Plus,
        given: &[Given::Int(9223372036854775807), Given::Int(1)],
        want: &[],
    },
    CallRow {
        call: Function::Plus,
        given: &[Given::Int(9223372036854775807), Given::Int(-1)],
        want: &[Given::Int(9223372036854775806)],
    },
    CallRow {
        call: Function::Minus,
        given: &[Given::Int(2), Given::Int(5)],
        want: &[Given::Int(-3)],
    },
    CallRow {
        call: Function::Times,
        given: &[Given::Int(-3), Given::Int(4)],
        want: &[Given::Int(-12)],
    },
    CallRow {
        call: Function::Plus,
        given: &[Given::Text(b"1"), Given::Int(2)],
        want: &[],
    },
    CallRow {
        call: Function::Plus,
        given: &[Given::Text(b"1"), Given::Int(1)],
        want: &[],
    },
    CallRow {
        call: Function::Minus,
        given: &[Given::Int(i64::MIN), Given::Int(1)],
        want: &[],
    },
    CallRow {
        call: Function::Times,
        given: &[Given::Int(i64::MIN), Given::Int(-1)],
        want: &[],
    },
    CallRow {
        call: Function::Times,
        given: &[Given::Int(0), Given::Int(i64::MIN)],
        want: &[Given::Int(0)],
    },
    CallRow {
        call: Function::Plus,
        given: &[Given::Int(1)],
        want: &[],
    },
    CallRow {
        call: Function::Plus,
        given: &[Given::Int(1), Given::Int(2), Given::Int(3)],
        want: &[],
    },
    CallRow {
        call: Function::Minus,
        given: &[Given::Int(0), Given::Int(i64::MIN)],
        want: &[],
    },
];

#[test]
fn sums_and_products(rt: HostRuntime) -> Result<(), Fail> {
    check_rows(rt.alloc(), SUMS)
}

const QUOTIENTS: &[CallRow] = &[
    CallRow {
        call: Function::Div,
        given: &[Given::Int(-7), Given::Int(2)],
        want: &[Given::Int(-4)],
    },
    CallRow {
        call: Function::Mod,
        given: &[Given::Int(-7), Given::Int(2)],
        want: &[Given::Int(1)],
    },
    CallRow {
        call: Function::Mod,
        given: &[Given::Int(7), Given::Int(-2)],
        want: &[Given::Int(-1)],
    },
    CallRow {
        call: Function::Div,
        given: &[Given::Int(7), Given::Int(0)],
        want: &[],
    },
    CallRow {
        call: Function::Mod,
        given: &[Given::Int(7), Given::Int(0)],
        want: &[],
    },
    CallRow {
        call: Function::Div,
        given: &[Given::Int(7), Given::Int(-2)],
        want: &[Given::Int(-4)],
    },
    CallRow {
        call: Function::Div,
        given: &[Given::Int(-7), Given::Int(-2)],
        want: &[Given::Int(3)],
    },
    CallRow {
        call: Function::Mod,
        given: &[Given::Int(-7), Given::Int(-2)],
        want: &[Given::Int(-1)],
    },
    CallRow {
        call: Function::Div,
        given: &[Given::Int(7), Given::Int(2)],
        want: &[Given::Int(3)],
    },
    CallRow {
        call: Function::Mod,
        given: &[Given::Int(7), Given::Int(2)],
        want: &[Given::Int(1)],
    },
    CallRow {
        call: Function::Div,
        given: &[Given::Int(i64::MIN), Given::Int(-1)],
        want: &[],
    },
    CallRow {
        call: Function::Mod,
        given: &[Given::Int(i64::MIN), Given::Int(-1)],
        want: &[Given::Int(0)],
    },
    CallRow {
        call: Function::Div,
        given: &[Given::Int(i64::MIN), Given::Int(1)],
        want: &[Given::Int(i64::MIN)],
    },
    CallRow {
        call: Function::Div,
        given: &[Given::Int(-6), Given::Int(3)],
        want: &[Given::Int(-2)],
    },
    CallRow {
        call: Function::Mod,
        given: &[Given::Int(-6), Given::Int(3)],
        want: &[Given::Int(0)],
    },
    CallRow {
        call: Function::Mod,
        given: &[Given::Int(6), Given::Int(-3)],
        want: &[Given::Int(0)],
    },
    CallRow {
        call: Function::Div,
        given: &[Given::Int(0), Given::Int(-5)],
        want: &[Given::Int(0)],
    },
    CallRow {
        call: Function::Div,
        given: &[Given::Int(9223372036854775807), Given::Int(i64::MIN)],
        want: &[Given::Int(-1)],
    },
    CallRow {
        call: Function::Mod,
        given: &[Given::Int(9223372036854775807), Given::Int(i64::MIN)],
        want: &[Given::Int(-1)],
    },
    CallRow {
        call: Function::Div,
        given: &[Given::Text(b"7"), Given::Int(2)],
        want: &[],
    },
    CallRow {
        call: Function::Div,
        given: &[Given::Int(i64::MIN), Given::Int(i64::MIN)],
        want: &[Given::Int(1)],
    },
    CallRow {
        call: Function::Mod,
        given: &[Given::Int(i64::MIN), Given::Int(9223372036854775807)],
        want: &[Given::Int(9223372036854775806)],
    },
];

#[test]
fn quotients_rounded_down(rt: HostRuntime) -> Result<(), Fail> {
    check_rows(rt.alloc(), QUOTIENTS)
}
