// Parts of texts, worked out by hand.
use crate::calls::{CallRow, Given, check_rows};
use function_spec::Function;
use std::test::Fail;

const SPLITS: &[CallRow] = &[
    CallRow {
        call: Function::Split,
        given: &[Given::Text(b"Abel; Bo ;;C"), Given::Text(b";")],
        want: &[Given::Text(b"Abel"), Given::Text(b"Bo"), Given::Text(b"C")],
    },
    CallRow {
        call: Function::Split,
        given: &[Given::Text(b"b;a;b"), Given::Text(b";")],
        want: &[Given::Text(b"a"), Given::Text(b"b")],
    },
    CallRow {
        call: Function::Split,
        given: &[Given::Text(b"7; 8;x"), Given::Text(b";")],
        want: &[Given::Text(b"7"), Given::Text(b"8"), Given::Text(b"x")],
    },
    CallRow {
        call: Function::Split,
        given: &[Given::Text(b"aaa"), Given::Text(b"aa")],
        want: &[Given::Text(b"a")],
    },
    CallRow {
        call: Function::Split,
        given: &[Given::Text(b" ;; "), Given::Text(b";")],
        want: &[],
    },
    CallRow {
        call: Function::Split,
        given: &[Given::Text(b"abc"), Given::Text(b"x")],
        want: &[Given::Text(b"abc")],
    },
    CallRow {
        call: Function::Split,
        given: &[Given::Text(b"abc"), Given::Text(b"")],
        want: &[],
    },
    CallRow {
        call: Function::Split,
        given: &[Given::Int(1203), Given::Int(0)],
        want: &[Given::Text(b"12"), Given::Text(b"3")],
    },
    CallRow {
        call: Function::Split,
        given: &[Given::Node(b"a;b"), Given::Text(b";")],
        want: &[],
    },
    CallRow {
        call: Function::Split,
        given: &[Given::Text(b"a;b")],
        want: &[],
    },
    CallRow {
        call: Function::Split,
        given: &[Given::Text(b""), Given::Text(b";")],
        want: &[],
    },
];

#[test]
fn texts_are_parted(rt: HostRuntime) -> Result<(), Fail> {
    check_rows(rt.alloc(), SPLITS)
}
