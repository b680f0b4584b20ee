// Tokens of texts, worked out by hand: as they are split, read one after another, and written back.
use crate::checks::{check, check_text};
use sd_lex::{LexRefusal, Sign, Token, TokenKind, token_at, tokens};
use std::alloc::Global;
use std::test::Fail;
use token_reader::{
    has_name, has_sign, has_word, int_at, name_at, place_of, quoted_at, sign_at, word_at,
};
use token_writer::{put, put_int, put_quoted};

// A text, the most bytes that it may have, and its first fault, or none.
struct Row {
    text: &'static [u8],
    limit: u64,
    fault: Option<LexRefusal>,
}

const ROWS: &[Row] = &[
    Row {
        text: b"a ? b",
        limit: 100,
        fault: Some(LexRefusal::BadByte(2)),
    },
    Row {
        text: b"a \"x\\q",
        limit: 100,
        fault: Some(LexRefusal::OpenString(2)),
    },
    Row {
        text: b"a \"x\\q\"",
        limit: 100,
        fault: Some(LexRefusal::BadByte(4)),
    },
    Row {
        text: b"-9223372036854775809",
        limit: 100,
        fault: Some(LexRefusal::IntOutOfRange(0)),
    },
    Row {
        text: b"-9223372036854775808 9223372036854775807",
        limit: 100,
        fault: None,
    },
    Row {
        text: b"? abc",
        limit: 4,
        fault: Some(LexRefusal::TooLong(4)),
    },
    Row {
        text: b"\xef\xbb\xbf?",
        limit: 4,
        fault: Some(LexRefusal::BadByte(3)),
    },
    Row {
        text: b"// a comment ?",
        limit: 100,
        fault: None,
    },
];

#[test]
fn the_first_fault_is_reported(rt: HostRuntime) -> Result<(), Fail> {
    for row in ROWS {
        let found = tokens(rt.alloc(), row.text, row.limit).err();
        check(found == row.fault, row.text)?;
    }
    Ok(())
}

fn are_longest(found: &[Token]) -> bool {
    match found {
        [_, _, less, seven, _, text] => {
            matches!(less.kind, TokenKind::Sign(Sign::Le))
                && matches!(seven.kind, TokenKind::Int(-7))
                && text.span.start == 10
                && text.span.end == 17
        }
        _ => false,
    }
}

#[test]
fn the_longest_token_is_taken(rt: HostRuntime) -> Result<(), Fail> {
    let text = b"12ab<=-7->\"a\\n\\\"\"";
    let found = tokens(rt.alloc(), text, 100)?;
    check(are_longest(&found), text)
}

#[test]
fn one_token_ends_before_the_text_or_with_it(rt: HostRuntime) -> Result<(), Fail> {
    let before = token_at(rt.alloc(), b"ab cd", 2).err();
    check(before == Some(LexRefusal::BadByte(2)), b"ab cd")?;
    let with = token_at(rt.alloc(), b"ab>=", 2);
    check(with.is_ok(), b"ab>=")
}

// The tokens behind the first n.
fn behind(all: &[Token], count: usize) -> &[Token] {
    all.get(count..).unwrap_or(&[])
}

fn is_a_name(all: &[Token]) -> bool {
    has_name(all) && !has_sign(all, Sign::Comma) && has_word(all, b"a")
}

fn reads_texts(alloc: Global, all: &[Token]) -> bool {
    matches!(name_at(alloc, all), Ok((name, _)) if name.place == 0)
        && quoted_at(alloc, all).is_err()
        && matches!(quoted_at(alloc, behind(all, 1)), Ok((text, _)) if text.place == 2)
}

fn reads_signs(all: &[Token]) -> bool {
    matches!(int_at(behind(all, 2)), Ok((7, _)))
        && matches!(sign_at(behind(all, 3), Sign::OpenBrace), Ok((8, _)))
}

fn reads_words(all: &[Token]) -> bool {
    matches!(word_at(behind(all, 4), b"in"), Ok((10, _)))
        && word_at(behind(all, 4), b"out").is_err()
        && place_of(behind(all, 5), 12) == 12
}

// Each reader of one token, on `a "b" 7 { in`.
#[test]
fn each_reader_takes_its_token(rt: HostRuntime) -> Result<(), Fail> {
    let all = tokens(rt.alloc(), b"a \"b\" 7 { in", 100)?;
    check(is_a_name(&all), b"a name")?;
    check(reads_texts(rt.alloc(), &all), b"a text")?;
    check(reads_signs(&all) && reads_words(&all), b"a sign or a word")
}

#[test]
fn tokens_are_written(rt: HostRuntime) -> Result<(), Fail> {
    let mut out = Vec::new(rt.alloc());
    put(b"x ", &mut out)?;
    put_int(-9223372036854775808, &mut out)?;
    put_quoted(b"a\"\\\n\r\t\xff", &mut out)?;
    let wanted = b"x -9223372036854775808\"a\\\"\\\\\\n\\r\\t\xff\"";
    check_text(b"tokens", &out, wanted)
}
