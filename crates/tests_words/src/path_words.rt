// Words of path expressions: each public call of an automaton once, over `"a"."b"*`, and an expression at the limit of
// positions and one past it.
use crate::checks::check;
use automaton::{Automaton, RpeRefusal};
use rpe::Rpe;
use sd_value::{NoMemory, Str};
use std::alloc::Global;
use std::test::Fail;

fn label(alloc: Global, name: &str) -> Result<Box<Rpe>, NoMemory> {
    Ok(Box::new(alloc, Rpe::Label(Str::new(alloc, name.as_bytes())?))?)
}

// One label and any number of another: `"a"."b"*`.
fn one_and_repeated(alloc: Global) -> Result<Rpe, NoMemory> {
    let repeated = Box::new(alloc, Rpe::Star(label(alloc, "b")?))?;
    Ok(Rpe::Seq(label(alloc, "a")?, repeated))
}

// The wildcard, doubled this many times.
fn doubled(alloc: Global, times: u32) -> Result<Rpe, NoMemory> {
    if times == 0 {
        return Ok(Rpe::Any);
    }
    let one = Box::new(alloc, doubled(alloc, times - 1)?)?;
    let other = Box::new(alloc, doubled(alloc, times - 1)?)?;
    Ok(Rpe::Seq(one, other))
}

// A word of `a` and `b`, by its letters, and whether the expression has it.
struct WordRow {
    letters: &'static str,
    is_accepted: bool,
}

const WORDS: &[WordRow] = &[
    WordRow {
        letters: "",
        is_accepted: false,
    },
    WordRow {
        letters: "a",
        is_accepted: true,
    },
    WordRow {
        letters: "abb",
        is_accepted: true,
    },
    WordRow {
        letters: "abba",
        is_accepted: false,
    },
    WordRow {
        letters: "b",
        is_accepted: false,
    },
];

fn is_accepted(alloc: Global, automaton: &Automaton, letters: &str) -> Result<bool, NoMemory> {
    let mut word = Vec::new(alloc);
    for letter in letters.as_bytes() {
        word.push(Str::new(alloc, &[*letter])?)?;
    }
    Ok(automaton.accepts(word.as_slice()))
}

#[test]
fn a_sequence_has_its_words(rt: HostRuntime) -> Result<(), Fail> {
    let alloc = rt.alloc();
    let automaton = Automaton::of(alloc, &one_and_repeated(alloc)?)?;
    for row in WORDS {
        let found = is_accepted(alloc, &automaton, row.letters)?;
        check(found == row.is_accepted, row.letters.as_bytes())?;
    }
    Ok(())
}

fn has_its_positions(automaton: &Automaton) -> bool {
    automaton.positions() == 2
        && !automaton.has_empty()
        && automaton.first(0)
        && !automaton.first(1)
        && automaton.letter(1).is_some()
        && automaton.last(0)
        && automaton.last(1)
        && automaton.follows(0, 1)
        && automaton.follows(1, 1)
        && !automaton.follows(1, 0)
}

fn steps_to_its_end(automaton: &Automaton, label: &Str) -> bool {
    let second = automaton.reading(&automaton.after(&automaton.begins()), label);
    automaton.ends(&second)
        && !automaton.starts(&second)
        && automaton.starts(&automaton.before(&automaton.endings()))
}

#[test]
fn a_sequence_has_two_positions(rt: HostRuntime) -> Result<(), Fail> {
    let alloc = rt.alloc();
    let automaton = Automaton::of(alloc, &one_and_repeated(alloc)?)?;
    check(has_its_positions(&automaton), b"positions")?;
    let label = Str::new(alloc, b"b")?;
    check(steps_to_its_end(&automaton, &label), b"steps")
}

#[test]
fn one_position_past_the_limit_is_refused(rt: HostRuntime) -> Result<(), Fail> {
    let alloc = rt.alloc();
    let most = doubled(alloc, 8)?;
    check(Automaton::of(alloc, &most).is_ok(), b"the most positions")?;
    let more = Rpe::Seq(Box::new(alloc, most)?, label(alloc, "a")?);
    let found = Automaton::of(alloc, &more).err();
    check(
        found == Some(RpeRefusal::TooManyPositions),
        b"one position more",
    )
}
