// Parts of texts by how many characters, and around another text, worked out by hand.
use crate::calls::{CallRow, Given, check_rows};
use function_spec::Function;
use std::test::Fail;

const COUNTS: &[CallRow] = &[
    CallRow {
        call: Function::First,
        given: &[Given::Text(b"Z\xc3\xbcrich"), Given::Int(2)],
        want: &[Given::Text(b"Z\xc3\xbc")],
    },
    CallRow {
        call: Function::Last,
        given: &[Given::Text(b"Z\xc3\xbcrich"), Given::Int(3)],
        want: &[Given::Text(b"ich")],
    },
    CallRow {
        call: Function::Rest,
        given: &[Given::Text(b"Z\xc3\xbcrich"), Given::Int(4)],
        want: &[Given::Text(b"ch")],
    },
    CallRow {
        call: Function::First,
        given: &[Given::Text(b"ab"), Given::Int(9)],
        want: &[Given::Text(b"ab")],
    },
    CallRow {
        call: Function::Rest,
        given: &[Given::Text(b"ab"), Given::Int(9)],
        want: &[Given::Text(b"")],
    },
    CallRow {
        call: Function::First,
        given: &[Given::Text(b"ab"), Given::Int(-1)],
        want: &[],
    },
    CallRow {
        call: Function::First,
        given: &[Given::Text(b"ab"), Given::Text(b"1")],
        want: &[],
    },
    CallRow {
        call: Function::First,
        given: &[Given::Int(1999), Given::Int(2)],
        want: &[Given::Text(b"19")],
    },
    CallRow {
        call: Function::First,
        given: &[Given::Text(b"ab"), Given::Int(0)],
        want: &[Given::Text(b"")],
    },
    CallRow {
        call: Function::Last,
        given: &[Given::Text(b"ab"), Given::Int(0)],
        want: &[Given::Text(b"")],
    },
    CallRow {
        call: Function::Last,
        given: &[Given::Text(b"ab"), Given::Int(9)],
        want: &[Given::Text(b"ab")],
    },
    CallRow {
        call: Function::Rest,
        given: &[Given::Text(b"ab"), Given::Int(0)],
        want: &[Given::Text(b"ab")],
    },
    CallRow {
        call: Function::Last,
        given: &[Given::Text(b"ab"), Given::Int(-1)],
        want: &[],
    },
    CallRow {
        call: Function::Rest,
        given: &[Given::Text(b"ab"), Given::Int(-1)],
        want: &[],
    },
    CallRow {
        call: Function::First,
        given: &[Given::Text(b""), Given::Int(3)],
        want: &[Given::Text(b"")],
    },
    CallRow {
        call: Function::First,
        given: &[Given::Text(b"ab"), Given::Int(9223372036854775807)],
        want: &[Given::Text(b"ab")],
    },
    CallRow {
        call: Function::First,
        given: &[Given::Text(b"a\xf0\x9f\x98\x80b"), Given::Int(2)],
        want: &[Given::Text(b"a\xf0\x9f\x98\x80")],
    },
    CallRow {
        call: Function::First,
        given: &[Given::Node(b"ab"), Given::Int(1)],
        want: &[],
    },
    CallRow {
        call: Function::First,
        given: &[Given::Text(b"ab")],
        want: &[],
    },
];

#[test]
fn parts_by_characters(rt: HostRuntime) -> Result<(), Fail> {
    check_rows(rt.alloc(), COUNTS)
}

const LENGTHS: &[CallRow] = &[
    CallRow {
        call: Function::Length,
        given: &[Given::Text(b"Z\xc3\xbcrich")],
        want: &[Given::Int(6)],
    },
    CallRow {
        call: Function::Length,
        given: &[Given::Text(b"")],
        want: &[Given::Int(0)],
    },
    CallRow {
        call: Function::Length,
        given: &[Given::Int(-12)],
        want: &[Given::Int(3)],
    },
    CallRow {
        call: Function::Length,
        given: &[Given::Text(b"\xf0\x9f\x98\x80")],
        want: &[Given::Int(1)],
    },
    CallRow {
        call: Function::Length,
        given: &[Given::Node(b"a")],
        want: &[],
    },
    CallRow {
        call: Function::Length,
        given: &[Given::Text(b"\xff")],
        want: &[],
    },
    CallRow {
        call: Function::Length,
        given: &[Given::Text(b"a"), Given::Text(b"b")],
        want: &[],
    },
];

#[test]
fn lengths_of_texts(rt: HostRuntime) -> Result<(), Fail> {
    check_rows(rt.alloc(), LENGTHS)
}

const CUTS: &[CallRow] = &[
    CallRow {
        call: Function::Before,
        given: &[Given::Text(b"a: b: c"), Given::Text(b": ")],
        want: &[Given::Text(b"a")],
    },
    CallRow {
        call: Function::After,
        given: &[Given::Text(b"a: b: c"), Given::Text(b": ")],
        want: &[Given::Text(b"b: c")],
    },
    CallRow {
        call: Function::Before,
        given: &[Given::Text(b"abc"), Given::Text(b"x")],
        want: &[],
    },
    CallRow {
        call: Function::After,
        given: &[Given::Text(b"abc"), Given::Text(b"x")],
        want: &[],
    },
    CallRow {
        call: Function::Before,
        given: &[Given::Text(b"abc"), Given::Text(b"")],
        want: &[],
    },
    CallRow {
        call: Function::After,
        given: &[Given::Text(b"abc"), Given::Text(b"")],
        want: &[],
    },
    CallRow {
        call: Function::Before,
        given: &[Given::Text(b"abc"), Given::Text(b"abc")],
        want: &[Given::Text(b"")],
    },
    CallRow {
        call: Function::After,
        given: &[Given::Text(b"abc"), Given::Text(b"abc")],
        want: &[Given::Text(b"")],
    },
    CallRow {
        call: Function::Before,
        given: &[Given::Text(b""), Given::Text(b"a")],
        want: &[],
    },
    CallRow {
        call: Function::Before,
        given: &[Given::Text(b"aaa"), Given::Text(b"aa")],
        want: &[Given::Text(b"")],
    },
    CallRow {
        call: Function::After,
        given: &[Given::Text(b"aaa"), Given::Text(b"aa")],
        want: &[Given::Text(b"a")],
    },
    CallRow {
        call: Function::After,
        given: &[Given::Int(1234), Given::Int(2)],
        want: &[Given::Text(b"34")],
    },
    CallRow {
        call: Function::Before,
        given: &[Given::Text(b"Z\xc3\xbcrich"), Given::Text(b"\xc3\xbc")],
        want: &[Given::Text(b"Z")],
    },
    CallRow {
        call: Function::After,
        given: &[Given::Text(b"Z\xc3\xbcrich"), Given::Text(b"\xc3\xbc")],
        want: &[Given::Text(b"rich")],
    },
    CallRow {
        call: Function::Before,
        given: &[Given::Text(b"ab"), Given::Node(b"b")],
        want: &[],
    },
    CallRow {
        call: Function::After,
        given: &[Given::Text(b"ab")],
        want: &[],
    },
];

#[test]
fn parts_around_another_text(rt: HostRuntime) -> Result<(), Fail> {
    check_rows(rt.alloc(), CUTS)
}
