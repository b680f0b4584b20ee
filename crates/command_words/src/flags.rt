//! Flags: the options without a value.

ghost use Rattle.std.specs.Prelude.{◌≡◌, ◌++◌, ◌+◌, ◌<◌, IfOk, IfSome, length, take, drop, option_copied};
ghost use Rattle.clap.specs.Walk.{texts};
ghost use Rattle.command_spec.specs.Words as specs;
ghost use Rattle.command_words.specs.Parsed.{IsTaken};

use sd_value::NoMemory;
use std::alloc::Global;

/// Where the flag stands first before a `--`, if it stands there at all.
fn flag_place(flag: &str, words: &[&str]) -> Option<usize>
    ensures place { result ≡ specs.flag_place flag.now (texts words.now) }
    ensures within { IfSome result (λ at. at < length words.now) }
{
    for (i, word) in words.iter().enumerate() {
        if *word == "--" {
            return None;
        }
        if *word == flag {
            return Some(i);
        }
    }
    None
}

/// The words but the one at this place.
fn without<'a>(alloc: Global, words: &[&'a str], at: usize) -> Result<Vec<&'a str>, NoMemory>
    requires { at < length words.now }
    ensures { IfOk result (λ rest. texts rest.items
        ≡ take at (texts words.now) ++ drop (at + 1) (texts words.now)) }
{
    let mut rest = Vec::from_slice(alloc, &words[..at])?;
    rest.extend_from_slice(&words[at + 1..])?;
    Ok(rest)
}

/// Whether a flag was among words, and the other words.
#[derive(Drop)]
pub struct Taken<'a> {
    pub set: bool,
    pub rest: Vec<&'a str>,
}

/// The words without the flag, if there is such a flag.
pub fn take_flag<'a>(
    alloc: Global,
    flag: Option<&str>,
    words: &[&'a str],
) -> Result<Taken<'a>, NoMemory>
    ensures { IfOk result (λ taken. IsTaken taken.set taken.rest.items
        (specs.take_flag (option_copied flag.entry) (texts words.now))) }
{
    let place = match flag {
        Some(flag) => flag_place(flag, words),
        None => None,
    };
    match place {
        Some(at) => Ok(Taken {
            set: true,
            rest: without(alloc, words, at)?,
        }),
        None => Ok(Taken {
            set: false,
            rest: Vec::from_slice(alloc, words)?,
        }),
    }
}
