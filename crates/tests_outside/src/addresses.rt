// Addresses by example.
use crate::inputs::{check, check_row, check_text, term};
use address::{FileRefusal, address, file_of, push_shown, show, term_of};
use sd_value::{Datum, NoMemory, Str, Term, Value};
use std::alloc::Global;
use std::test::Fail;

// What a target names.
enum Named {
    // The term of this address.
    Address(&'static [u8]),
    Nothing,
    // The term of `F` and this text.
    Text(&'static [u8]),
    // The term of `F` and this number.
    Number(i64),
}

// The target of a request, the function of the term for `/`, and what the target names.
struct TargetRow {
    target: &'static [u8],
    root: Option<&'static [u8]>,
    named: Named,
}

const TARGETS: &[TargetRow] = &[
    TargetRow {
        target: b"/%59earPage/i1998.html?x=1",
        root: None,
        named: Named::Address(b"/YearPage/i1998.html"),
    },
    TargetRow {
        target: b"HTTP://a?x/YearPage/i1998.html",
        root: None,
        named: Named::Address(b"/YearPage/i1998.html"),
    },
    TargetRow {
        target: b"/F/t%252F.html",
        root: None,
        named: Named::Nothing,
    },
    TargetRow {
        target: b"/",
        root: None,
        named: Named::Nothing,
    },
    // A text with a blank, and numbers in other forms.
    TargetRow {
        target: b"/F/ta%20b.html",
        root: None,
        named: Named::Nothing,
    },
    TargetRow {
        target: b"/F/i01.html",
        root: None,
        named: Named::Nothing,
    },
    TargetRow {
        target: b"/F/i9223372036854775808.html",
        root: None,
        named: Named::Nothing,
    },
    TargetRow {
        target: b"http://a",
        root: Some(b"RootPage"),
        named: Named::Address(b"/RootPage.html"),
    },
    TargetRow {
        target: b"/index%2Ehtml",
        root: Some(b"RootPage"),
        named: Named::Address(b"/RootPage.html"),
    },
    // The blank as it is escaped, and its escape escaped once more.
    TargetRow {
        target: b"/F/ta~20b.html",
        root: None,
        named: Named::Text(b"a b"),
    },
    TargetRow {
        target: b"/F/ta%7E20b.html",
        root: None,
        named: Named::Text(b"a b"),
    },
    TargetRow {
        target: b"/F/i-9223372036854775808.html",
        root: None,
        named: Named::Number(-9223372036854775808),
    },
];

// The term of a function with one argument.
fn one(alloc: Global, function: &[u8], arg: Datum) -> Result<Term, NoMemory> {
    let mut args = Vec::new(alloc);
    args.push(arg)?;
    term(alloc, function, args)
}

// Whether this is the term of the address, where there is one.
fn has_address(alloc: Global, term: Option<Term>, wanted: &[u8]) -> Result<bool, NoMemory> {
    let Some(term) = term else {
        return Ok(false);
    };
    let mut out = Vec::new(alloc);
    address(alloc, &term, &mut out)?;
    Ok(out.as_slice() == wanted)
}

// Whether this is the term that is to be named.
fn is_named(alloc: Global, term: Option<Term>, named: &Named) -> Result<bool, NoMemory> {
    let arg = match named {
        Named::Address(wanted) => return has_address(alloc, term, wanted),
        Named::Nothing => return Ok(term.is_none()),
        Named::Text(text) => Datum::Text(Str::new(alloc, text)?),
        Named::Number(number) => Datum::Int(*number),
    };
    Ok(term == Some(one(alloc, b"F", arg)?))
}

// Whether the target names what its row says.
fn names_it(alloc: Global, row: &TargetRow) -> Result<bool, NoMemory> {
    let root = match row.root {
        Some(root) => Some(Str::new(alloc, root)?),
        None => None,
    };
    let term = term_of(alloc, row.target, root.as_ref())?;
    is_named(alloc, term, &row.named)
}

#[test]
fn a_target_names_its_term(rt: HostRuntime) -> Result<(), Fail> {
    for row in TARGETS {
        check_row(names_it(rt.alloc(), row)?, row.target)?;
    }
    Ok(())
}

// How many letters a text has, how its file is named, and the bytes of the name.
struct FileRow {
    name: &'static str,
    letters: usize,
    end: Result<(), FileRefusal>,
    length: usize,
}

const FILES: &[FileRow] = &[
    FileRow {
        name: "the longest file name",
        letters: 249,
        end: Ok(()),
        length: 257,
    },
    FileRow {
        name: "a file name that is too long",
        letters: 250,
        end: Err(FileRefusal::LongName),
        length: 0,
    },
];

// Whether the file of a page of a text is named as its row says.
fn has_file(alloc: Global, row: &FileRow) -> Result<bool, NoMemory> {
    let text = Datum::Text(Str::of(alloc, b"a".repeat(alloc, row.letters)?)?);
    let term = one(alloc, b"F", text)?;
    let mut out = Vec::new(alloc);
    let found = file_of(alloc, &term, &mut out);
    Ok(found == row.end && out.len() == row.length)
}

#[test]
fn a_file_is_named_unless_its_name_is_too_long(rt: HostRuntime) -> Result<(), Fail> {
    for row in FILES {
        check(has_file(rt.alloc(), row)?, row.name)?;
    }
    Ok(())
}

// A number, and a page in both ways, one after the other.
fn shown(alloc: Global) -> Result<Vec<u8>, NoMemory> {
    let node = Datum::Node(Str::new(alloc, b"x/.")?);
    let page = Value::Page(one(alloc, b"P", node)?);
    let mut out = Vec::new(alloc);
    show(alloc, &Value::Data(Datum::Int(-5)), &mut out)?;
    show(alloc, &page, &mut out)?;
    push_shown(alloc, &page, &mut out)?;
    Ok(out)
}

#[test]
fn values_are_shown(rt: HostRuntime) -> Result<(), Fail> {
    check_text(&shown(rt.alloc())?, b"-5/P/nx~2F~2E.html/P/nx~2F~2E.html")
}
