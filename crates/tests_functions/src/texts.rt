// Texts in another case, without marks, as slugs and trimmed, worked out by hand.
use crate::calls::{CallRow, Given, check_rows};
use function_spec::Function;
use std::test::Fail;

const CASES: &[CallRow] = &[
    CallRow {
        call: Function::Lower,
        given: &[Given::Text(b"\xc3\x80B \xc3\x9f")],
        want: &[Given::Text(b"\xc3\xa0b \xc3\x9f")],
    },
    CallRow {
        call: Function::Lower,
        given: &[Given::Int(7)],
        want: &[Given::Text(b"7")],
    },
    CallRow {
        call: Function::Lower,
        given: &[Given::Text(b"")],
        want: &[Given::Text(b"")],
    },
    CallRow {
        call: Function::Lower,
        given: &[Given::Text(b"\xce\x91\xce\xa3")],
        want: &[Given::Text(b"\xce\xb1\xcf\x82")],
    },
    CallRow {
        call: Function::Lower,
        given: &[Given::Url(b"HTTP://A")],
        want: &[Given::Text(b"http://a")],
    },
    CallRow {
        call: Function::Lower,
        given: &[Given::Node(b"A")],
        want: &[],
    },
    CallRow {
        call: Function::Lower,
        given: &[Given::Text(b"\xff")],
        want: &[],
    },
    CallRow {
        call: Function::Lower,
        given: &[Given::Text(b"a"), Given::Text(b"b")],
        want: &[],
    },
    CallRow {
        call: Function::Lower,
        given: &[],
        want: &[],
    },
    CallRow {
        call: Function::Upper,
        given: &[Given::Text(b"stra\xc3\x9fe")],
        want: &[Given::Text(b"STRASSE")],
    },
    CallRow {
        call: Function::Upper,
        given: &[Given::Text(b"\xc5\x89")],
        want: &[Given::Text(b"\xca\xbcN")],
    },
    CallRow {
        call: Function::Upper,
        given: &[Given::Text(b"")],
        want: &[Given::Text(b"")],
    },
    CallRow {
        call: Function::Upper,
        given: &[Given::Int(-5)],
        want: &[Given::Text(b"-5")],
    },
    CallRow {
        call: Function::Upper,
        given: &[Given::Node(b"a")],
        want: &[],
    },
];

#[test]
fn texts_in_another_case(rt: HostRuntime) -> Result<(), Fail> {
    check_rows(rt.alloc(), CASES)
}

const FOLDS: &[CallRow] = &[
    CallRow {
        call: Function::Fold,
        given: &[Given::Text(b"Cr\xc3\xa8me Br\xc3\xbbl\xc3\xa9e \xc3\x9f \xef\xac\x81")],
        want: &[Given::Text(b"creme brulee ss fi")],
    },
    CallRow {
        call: Function::Fold,
        given: &[Given::Text(b"\xc5\x81\xc3\xb3d\xc5\xba")],
        want: &[Given::Text(b"lodz")],
    },
    CallRow {
        call: Function::Fold,
        given: &[Given::Text(b"\xc3\x98RSTED")],
        want: &[Given::Text(b"orsted")],
    },
    CallRow {
        call: Function::Fold,
        given: &[Given::Text(
            b"\xc4\x90\xc4\x91 \xc3\x90\xc3\xb0 \xc3\x9e\xc3\xbe \xc3\x86\xc3\xa6 \xc5\x92\xc5\x93 \xc4\xb1",
        )],
        want: &[Given::Text(b"dd dd thth aeae oeoe i")],
    },
    CallRow {
        call: Function::Fold,
        given: &[Given::Text(b"\xe1\xba\x9e\xc3\x9f")],
        want: &[Given::Text(b"ssss")],
    },
    CallRow {
        call: Function::Fold,
        given: &[Given::Text(b"\xc2\xbd")],
        want: &[Given::Text(b"1\xe2\x81\x842")],
    },
    CallRow {
        call: Function::Fold,
        given: &[Given::Text(b"\xc7\xbe")],
        want: &[Given::Text(b"o")],
    },
    CallRow {
        call: Function::Fold,
        given: &[Given::Text(b"")],
        want: &[Given::Text(b"")],
    },
    CallRow {
        call: Function::Fold,
        given: &[Given::Node(b"a")],
        want: &[],
    },
    CallRow {
        call: Function::Fold,
        given: &[Given::Int(17)],
        want: &[Given::Text(b"17")],
    },
];

#[test]
fn texts_without_marks(rt: HostRuntime) -> Result<(), Fail> {
    check_rows(rt.alloc(), FOLDS)
}

const SLUGS: &[CallRow] = &[
    CallRow {
        call: Function::Slug,
        given: &[Given::Text(b"\xc3\x96lgem\xc3\xa4lde & Co.")],
        want: &[Given::Text(b"olgemalde-co")],
    },
    CallRow {
        call: Function::Slug,
        given: &[Given::Text(b"  --a--b  ")],
        want: &[Given::Text(b"a-b")],
    },
    CallRow {
        call: Function::Slug,
        given: &[Given::Text(b"C++ 11")],
        want: &[Given::Text(b"c-11")],
    },
    CallRow {
        call: Function::Slug,
        given: &[Given::Text(b"...")],
        want: &[],
    },
    CallRow {
        call: Function::Slug,
        given: &[Given::Text(b"\xc5\x81\xc3\xb3d\xc5\xba & \xc3\x98rsted")],
        want: &[Given::Text(b"lodz-orsted")],
    },
    CallRow {
        call: Function::Slug,
        given: &[Given::Text(b"\xd0\x9c\xd0\xbe\xd1\x81\xd0\xba\xd0\xb2\xd0\xb0")],
        want: &[],
    },
    CallRow {
        call: Function::Slug,
        given: &[Given::Text(b"")],
        want: &[],
    },
    CallRow {
        call: Function::Slug,
        given: &[Given::Text(b"a_b")],
        want: &[Given::Text(b"a-b")],
    },
    CallRow {
        call: Function::Slug,
        given: &[Given::Int(-7)],
        want: &[Given::Text(b"7")],
    },
    CallRow {
        call: Function::Slug,
        given: &[Given::Text(b"X Y")],
        want: &[Given::Text(b"x-y")],
    },
    CallRow {
        call: Function::Slug,
        given: &[Given::Text(b"e\xcc\x81te\xcc\x81")],
        want: &[Given::Text(b"ete")],
    },
];

#[test]
fn texts_as_slugs(rt: HostRuntime) -> Result<(), Fail> {
    check_rows(rt.alloc(), SLUGS)
}

const TRIMS: &[CallRow] = &[
    CallRow {
        call: Function::Trim,
        given: &[Given::Text(b"  a \n b ")],
        want: &[Given::Text(b"a b")],
    },
    CallRow {
        call: Function::Trim,
        given: &[Given::Text(b"")],
        want: &[Given::Text(b"")],
    },
    CallRow {
        call: Function::Trim,
        given: &[Given::Text(b" \r\n\t")],
        want: &[Given::Text(b"")],
    },
    CallRow {
        call: Function::Trim,
        given: &[Given::Text(b"a")],
        want: &[Given::Text(b"a")],
    },
    CallRow {
        call: Function::Trim,
        given: &[Given::Text(b"a\xc2\xa0 b")],
        want: &[Given::Text(b"a\xc2\xa0 b")],
    },
    CallRow {
        call: Function::Trim,
        given: &[Given::Text(b"a\x0cb")],
        want: &[Given::Text(b"a\x0cb")],
    },
    CallRow {
        call: Function::Trim,
        given: &[Given::Text(b"a\t\tb\rc")],
        want: &[Given::Text(b"a b c")],
    },
    CallRow {
        call: Function::Trim,
        given: &[Given::Int(7)],
        want: &[Given::Text(b"7")],
    },
    CallRow {
        call: Function::Trim,
        given: &[Given::Node(b"a")],
        want: &[],
    },
];

#[test]
fn texts_trimmed(rt: HostRuntime) -> Result<(), Fail> {
    check_rows(rt.alloc(), TRIMS)
}

const JOINS: &[CallRow] = &[
    CallRow {
        call: Function::Join,
        given: &[Given::Text(b"a"), Given::Int(7), Given::Text(b"b")],
        want: &[Given::Text(b"a7b")],
    },
    CallRow {
        call: Function::Join,
        given: &[Given::Int(1), Given::Int(2)],
        want: &[Given::Text(b"12")],
    },
    CallRow {
        call: Function::Join,
        given: &[Given::Text(b"x")],
        want: &[],
    },
    CallRow {
        call: Function::Join,
        given: &[Given::Text(b""), Given::Text(b"")],
        want: &[Given::Text(b"")],
    },
    CallRow {
        call: Function::Join,
        given: &[Given::Text(b"a"), Given::Node(b"b")],
        want: &[],
    },
    CallRow {
        call: Function::Join,
        given: &[Given::Text(b"a"), Given::Text(b"\xc3")],
        want: &[],
    },
    CallRow {
        call: Function::Join,
        given: &[
            Given::Text(b"x"),
            Given::Text(b"x"),
            Given::Text(b"x"),
            Given::Text(b"x"),
            Given::Text(b"x"),
            Given::Text(b"x"),
            Given::Text(b"x"),
            Given::Text(b"x"),
            Given::Text(b"x"),
            Given::Text(b"x"),
            Given::Text(b"x"),
            Given::Text(b"x"),
            Given::Text(b"x"),
            Given::Text(b"x"),
            Given::Text(b"x"),
            Given::Text(b"x"),
        ],
        want: &[Given::Text(b"xxxxxxxxxxxxxxxx")],
    },
    CallRow {
        call: Function::Join,
        given: &[
            Given::Text(b"x"),
            Given::Text(b"x"),
            Given::Text(b"x"),
            Given::Text(b"x"),
            Given::Text(b"x"),
            Given::Text(b"x"),
            Given::Text(b"x"),
            Given::Text(b"x"),
            Given::Text(b"x"),
            Given::Text(b"x"),
            Given::Text(b"x"),
            Given::Text(b"x"),
            Given::Text(b"x"),
            Given::Text(b"x"),
            Given::Text(b"x"),
            Given::Text(b"x"),
            Given::Text(b"x"),
        ],
        want: &[],
    },
];

#[test]
fn texts_joined(rt: HostRuntime) -> Result<(), Fail> {
    check_rows(rt.alloc(), JOINS)
}

const REPLACES: &[CallRow] = &[
    CallRow {
        call: Function::Replace,
        given: &[Given::Text(b"aaa"), Given::Text(b"aa"), Given::Text(b"b")],
        want: &[Given::Text(b"ba")],
    },
    CallRow {
        call: Function::Replace,
        given: &[Given::Text(b"abc"), Given::Text(b""), Given::Text(b"x")],
        want: &[],
    },
    CallRow {
        call: Function::Replace,
        given: &[Given::Text(b"abc"), Given::Text(b"b"), Given::Text(b"")],
        want: &[Given::Text(b"ac")],
    },
    CallRow {
        call: Function::Replace,
        given: &[Given::Text(b"abc"), Given::Text(b"x"), Given::Text(b"y")],
        want: &[Given::Text(b"abc")],
    },
    CallRow {
        call: Function::Replace,
        given: &[Given::Text(b""), Given::Text(b"a"), Given::Text(b"b")],
        want: &[Given::Text(b"")],
    },
    CallRow {
        call: Function::Replace,
        given: &[Given::Text(b"a.b.c"), Given::Text(b"."), Given::Text(b"..")],
        want: &[Given::Text(b"a..b..c")],
    },
    CallRow {
        call: Function::Replace,
        given: &[Given::Int(1211), Given::Int(1), Given::Text(b"x")],
        want: &[Given::Text(b"x2xx")],
    },
    CallRow {
        call: Function::Replace,
        given: &[Given::Text(b"abc"), Given::Node(b"b"), Given::Text(b"x")],
        want: &[],
    },
    CallRow {
        call: Function::Replace,
        given: &[Given::Text(b"abc"), Given::Text(b"b")],
        want: &[],
    },
    CallRow {
        call: Function::Replace,
        given: &[Given::Text(b"aa"), Given::Text(b"a"), Given::Text(b"aa")],
        want: &[Given::Text(b"aaaa")],
    },
    CallRow {
        call: Function::Replace,
        given: &[
            Given::Text(b"Z\xc3\xbcrich"),
            Given::Text(b"\xc3\xbc"),
            Given::Text(b"ue"),
        ],
        want: &[Given::Text(b"Zuerich")],
    },
];

#[test]
fn texts_replaced(rt: HostRuntime) -> Result<(), Fail> {
    check_rows(rt.alloc(), REPLACES)
}
