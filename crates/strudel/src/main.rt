//! The program: `main` makes the system's files, outputs and sockets, an empty list of what happens,
//! and the log of replies if there is one, and calls `command_run::run_main` with them and its words.
#![tactic(auto)]

use command_run::{GivenWords, NoWords, end_without_log, log_of, run_main, waits_of};
use edge_io::{LockFile, RealFiles, RealOut};
use happenings::{Log, Stream};
use logged_wire::{FileLog, LoggedWire, open_log};
use sd_value::Str;
use std::net::Net;
use std::process::ExitCode;
use std::random::RandomSource;
use std::rt::{Env, Files};
use std::time::Clock;
use std::{env, process};
use tcp_wire::{TcpWire, Waits};

// The words after the program's name. A word that isn't text fails them all.
fn given_words<R: Env + AllocGlobal>(rt: &R) -> Result<GivenWords, NoWords> {
    let alloc = rt.alloc();
    let mut words = Vec::new(alloc);
    for word in env::args(rt)?.skip(1) {
        words.push(Str::new(alloc, word.as_bytes())?)?;
    }
    let given = GivenWords::read(alloc, words)?;
    Ok(given)
}

// A number that mostly no other run has: a random one, or that of the process if the system has none.
fn number_of_run(rt: &HostRuntime) -> u64 {
    let mut bytes = [0u8; 8];
    match rt.fill_bytes(&mut bytes) {
        Ok(()) => u64::from_le_bytes(bytes),
        Err(_) => u64::from(process::id(rt.process())),
    }
}

// A wire over the system's sockets that waits, and for as many connections at once, as the words say.
fn given_wire<'r, R: Net + Clock + Files + AllocGlobal>(
    rt: &'r R,
    run: u64,
    words: &Result<GivenWords, NoWords>,
) -> TcpWire<'r, R, RealFiles<'r, R>>
where
    R::File: LockFile,
{
    let waits = waits_of(words);
    TcpWire::new(
        rt.alloc(),
        rt,
        RealFiles::new(rt, run),
        Waits {
            idle: waits.idle,
            stall: waits.stall,
        },
        waits.at_once as usize,
    )
}

// The file that a line of each reply is added to, if the words name one; or its path, if it can't be opened.
fn given_log<'w, R: Files>(
    rt: &R,
    words: &'w Result<GivenWords, NoWords>,
) -> Result<Option<FileLog<R::File>>, &'w Str> {
    match log_of(words) {
        None => Ok(None),
        Some(path) => match open_log(rt, path) {
            Ok(replies) => Ok(Some(replies)),
            Err(_) => Err(path),
        },
    }
}

fn main(rt: HostRuntime) -> ExitCode {
    let words = given_words(&rt);
    let run = number_of_run(&rt);
    let mut log = Log::new();
    let mut files = RealFiles::new(&rt, run);
    let mut out = RealOut::new(rt.stdout(), Stream::Output);
    let mut err = RealOut::new(rt.stderr(), Stream::Errors);
    let replies = match given_log(&rt, &words) {
        Ok(replies) => replies,
        Err(path) => {
            let code = end_without_log(rt.alloc(), path, &mut log, &mut err);
            return ExitCode::from(code);
        }
    };
    let mut wire = LoggedWire::new(rt.alloc(), given_wire(&rt, run, &words), replies);
    let code = run_main(
        rt.alloc(),
        &words,
        &mut log,
        &mut files,
        &mut out,
        &mut err,
        &mut wire,
    );
    ExitCode::from(code)
}
