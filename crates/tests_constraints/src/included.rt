// Pairs of expressions beside answers worked by hand. An expression is written with its operators last: `ab.` is a and
// then b, `ab|` a or b, `a*` any number of a, `_` any label and `0` the empty word.
use inclusion::{included, is_searched, missing_word};
use rpe::Rpe;
use sd_value::Str;
use std::alloc::Global;
use std::test::Fail;

fn taken(alloc: Global, stack: &mut Vec<Rpe>) -> Result<Box<Rpe>, Fail> {
    let Some(top) = stack.pop() else {
        return Err(Fail::new("an operator has too few parts"));
    };
    Ok(Box::new(alloc, top)?)
}

fn part(alloc: Global, stack: &mut Vec<Rpe>, letter: u8) -> Result<Rpe, Fail> {
    match letter {
        b'_' => Ok(Rpe::Any),
        b'0' => Ok(Rpe::Empty),
        b'*' => Ok(Rpe::Star(taken(alloc, stack)?)),
        b'.' => {
            let other = taken(alloc, stack)?;
            Ok(Rpe::Seq(taken(alloc, stack)?, other))
        }
        b'|' => {
            let other = taken(alloc, stack)?;
            Ok(Rpe::Alt(taken(alloc, stack)?, other))
        }
        name => Ok(Rpe::Label(Str::new(alloc, &[name])?)),
    }
}

fn expression(alloc: Global, text: &str) -> Result<Rpe, Fail> {
    let mut stack = Vec::new(alloc);
    for letter in text.as_bytes() {
        let next = part(alloc, &mut stack, *letter)?;
        stack.push(next)?;
    }
    let Some(whole) = stack.pop() else {
        return Err(Fail::new("no expression"));
    };
    Ok(whole)
}

// Two expressions, and whether the first is included in the second.
struct IncludedRow {
    one: &'static str,
    other: &'static str,
    included: bool,
}

const INCLUDED: &[IncludedRow] = &[
    IncludedRow {
        one: "a",
        other: "a",
        included: true,
    },
    IncludedRow {
        one: "a",
        other: "b",
        included: false,
    },
    IncludedRow {
        one: "ab.",
        other: "_*",
        included: true,
    },
    IncludedRow {
        one: "_*",
        other: "ab.",
        included: false,
    },
    IncludedRow {
        one: "a*",
        other: "ab|*",
        included: true,
    },
    IncludedRow {
        one: "ab|*",
        other: "a*",
        included: false,
    },
    // The empty word.
    IncludedRow {
        one: "0",
        other: "a*",
        included: true,
    },
    IncludedRow {
        one: "a*",
        other: "0",
        included: false,
    },
    IncludedRow {
        one: "0*",
        other: "0",
        included: true,
    },
    IncludedRow {
        one: "0",
        other: "0*",
        included: true,
    },
    IncludedRow {
        one: "0",
        other: "a",
        included: false,
    },
    IncludedRow {
        one: "a0.",
        other: "0a.",
        included: true,
    },
    // Labels that no expression names.
    IncludedRow {
        one: "_",
        other: "ab|",
        included: false,
    },
    IncludedRow {
        one: "ab|",
        other: "_",
        included: true,
    },
    IncludedRow {
        one: "_*",
        other: "ab|*",
        included: false,
    },
    IncludedRow {
        one: "_a|",
        other: "a_|",
        included: true,
    },
    IncludedRow {
        one: "_",
        other: "_a|",
        included: true,
    },
    IncludedRow {
        one: "_a.",
        other: "_",
        included: false,
    },
    IncludedRow {
        one: "_a._b.|",
        other: "_ab|.",
        included: true,
    },
    IncludedRow {
        one: "_ab|.",
        other: "_a._b.|",
        included: true,
    },
    IncludedRow {
        one: "a_.",
        other: "ab.",
        included: false,
    },
    IncludedRow {
        one: "__.",
        other: "_*",
        included: true,
    },
    IncludedRow {
        one: "_*a._*.",
        other: "_*_._*.",
        included: true,
    },
    IncludedRow {
        one: "_*_._*.",
        other: "_*a._*.",
        included: false,
    },
    // The same words in other ways.
    IncludedRow {
        one: "aa.*",
        other: "a*",
        included: true,
    },
    IncludedRow {
        one: "a*",
        other: "aa.*",
        included: false,
    },
    IncludedRow {
        one: "a**",
        other: "a*",
        included: true,
    },
    IncludedRow {
        one: "a*",
        other: "a**",
        included: true,
    },
    IncludedRow {
        one: "ab|*",
        other: "a*b.*a*.",
        included: true,
    },
    IncludedRow {
        one: "a*b.*a*.",
        other: "ab|*",
        included: true,
    },
    IncludedRow {
        one: "ab|c.",
        other: "ac.bc.|",
        included: true,
    },
    IncludedRow {
        one: "ac.bc.|",
        other: "ab|c.",
        included: true,
    },
    IncludedRow {
        one: "ab.",
        other: "ba.",
        included: false,
    },
    IncludedRow {
        one: "aa.*aaa..*|",
        other: "a*",
        included: true,
    },
    IncludedRow {
        one: "aaa..*",
        other: "aa.*",
        included: false,
    },
    IncludedRow {
        one: "aa.aa..*",
        other: "aa.*",
        included: true,
    },
    // Sixteen positions, which are searched.
    IncludedRow {
        one: "aaaaaaaaaaaaaaaa...............",
        other: "_*",
        included: true,
    },
    IncludedRow {
        one: "a",
        other: "aaaaaaaaaaaaaaa||||||||||||||b|",
        included: true,
    },
    IncludedRow {
        one: "b",
        other: "aaaaaaaaaaaaaaa||||||||||||||",
        included: false,
    },
    // Seventeen, where only the same expression is included.
    IncludedRow {
        one: "aaaaaaaaaaaaaaaaa................",
        other: "_*",
        included: false,
    },
    IncludedRow {
        one: "aaaaaaaaaaaaaaaaa................",
        other: "aaaaaaaaaaaaaaaaa................",
        included: true,
    },
    IncludedRow {
        one: "a",
        other: "aaaaaaaaaaaaaaaaa||||||||||||||||",
        included: false,
    },
    // Sixteen positions each, with two to the fourteenth sets of the second.
    IncludedRow {
        one: "a_|a|_|a|_|a|_|a|_|a|_|a|_|a|_|*",
        other: "_*a._._._._._._._._._._._._._._*|",
        included: true,
    },
];

#[test]
fn rows_worked_by_hand(rt: HostRuntime) -> Result<(), Fail> {
    let alloc = rt.alloc();
    for row in INCLUDED {
        let one = expression(alloc, row.one)?;
        let other = expression(alloc, row.other)?;
        if included(alloc, &one, &other)? != row.included {
            return Err(Fail::new(format_args!("{} in {}", row.one, row.other)));
        }
    }
    Ok(())
}

// Two expressions, and the shortest word of the first that isn't one of the second, by its labels. `xx` is a label that
// the second doesn't name, longer than each that it does.
struct MissingRow {
    one: &'static str,
    other: &'static str,
    word: &'static [&'static str],
}

const MISSING: &[MissingRow] = &[
    MissingRow {
        one: "a*",
        other: "ab.",
        word: &[],
    },
    MissingRow {
        one: "a",
        other: "b",
        word: &["a"],
    },
    MissingRow {
        one: "_",
        other: "ab|",
        word: &["xx"],
    },
    MissingRow {
        one: "_",
        other: "0",
        word: &["x"],
    },
    MissingRow {
        one: "ab.*",
        other: "ab.0|",
        word: &["a", "b", "a", "b"],
    },
    MissingRow {
        one: "ab|*",
        other: "a*b.*",
        word: &["a"],
    },
    MissingRow {
        one: "_*",
        other: "_*a._*.0|",
        word: &["xx"],
    },
    MissingRow {
        one: "_*b.",
        other: "_*a._*.b|",
        word: &["xx", "b"],
    },
];

fn is_word(word: &[Str], wanted: &[&str]) -> bool {
    for (label, name) in word.iter().zip(wanted) {
        if label.bytes() != name.as_bytes() {
            return false;
        }
    }
    word.len() == wanted.len()
}

#[test]
fn missing_words(rt: HostRuntime) -> Result<(), Fail> {
    let alloc = rt.alloc();
    for row in MISSING {
        let one = expression(alloc, row.one)?;
        let other = expression(alloc, row.other)?;
        if is_searched(&one) && is_searched(&other) {
            if let Some(word) = missing_word(alloc, &one, &other)? {
                if is_word(&word, row.word) {
                    continue;
                }
            }
        }
        return Err(Fail::new(format_args!("{} in {}", row.one, row.other)));
    }
    Ok(())
}
