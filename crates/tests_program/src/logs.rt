// The log of replies that words name, and the end of a run whose log can't be opened.
use crate::runs::words_of;
use command_run::{end_without_log, log_of};
use edge_io::MemSink;
use happenings::{Log, Stream};
use sd_value::Str;
use std::test::Fail;

// Words, and the log that they name.
struct LogRow {
    words: &'static [&'static str],
    log: Option<&'static str>,
}

const LOGS: &[LogRow] = &[
    LogRow {
        words: &["serve", "--log", "a.log", "q", "t", "d"],
        log: Some("a.log"),
    },
    LogRow {
        words: &["serve", "q", "t", "d"],
        log: None,
    },
    LogRow {
        words: &["replay", "--log", "a.log", "q", "t", "s", "d"],
        log: None,
    },
    LogRow {
        words: &["page", "q", "t", "/", "d"],
        log: None,
    },
];

#[test]
fn the_log_is_the_one_that_serve_names(rt: HostRuntime) -> Result<(), Fail> {
    for row in LOGS {
        let words = words_of(rt.alloc(), row.words);
        let found = log_of(&words).map(|path| path.bytes());
        assert_eq!(rt;
            found,
            row.log.map(|path| path.as_bytes()),
            "{:?}",
            row.words
        );
    }
    Ok(())
}

// Which puts fail, and what was put then. The line of a file is put in three parts.
struct EndRow {
    failing: &'static [u64],
    err: &'static str,
}

const ENDS: &[EndRow] = &[
    EndRow {
        failing: &[],
        err: "strudel: cannot write logs/a.log\n",
    },
    EndRow {
        failing: &[2],
        err: "strudel: cannot write ",
    },
];

#[test]
fn a_log_that_is_not_opened_has_its_line(rt: HostRuntime) -> Result<(), Fail> {
    let alloc = rt.alloc();
    let path = Str::new(alloc, b"logs/a.log")?;
    for row in ENDS {
        let mut log = Log::new();
        let mut err = MemSink::new(alloc, row.failing.to_vec(alloc)?, Stream::Errors);
        let code = end_without_log(alloc, &path, &mut log, &mut err);
        assert_eq!(rt; code, 5);
        assert_eq!(rt; err.bytes(), row.err.as_bytes());
    }
    Ok(())
}
