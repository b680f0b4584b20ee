// Files for which the program is out of memory.
use crate::runs::{PLAIN, Run, check_over};
use edge_io::{Failed, Files, ReadEnd, Removal, Stored};
use happenings::Log;
use sd_value::Str;
use std::alloc::Global;
use std::mem::swap;
use std::test::Fail;

/// Files of which each read is refused its memory, and each write and removal is taken and forgotten.
#[derive(Drop)]
struct Refusing {
    log: Log,
}

impl Files for Refusing {
    ghost use Rattle.std.specs.Prelude.{None};

    type Log = Log;

    ghost trace = { λ f. f.log.events };

    ghost contents = { λ f. None };

    ghost failed_reads = { λ f path. 0 };

    ghost failed_writes = { λ f path. 0 };

    fn lend(&mut self, log: &mut Log) {
        swap(&mut self.log, log);
    }

    fn read(&mut self, _alloc: Global, path: &Str, _at_most: u64) -> Result<Vec<u8>, ReadEnd> {
        self.log.read_failed(path.bytes());
        Err(ReadEnd::NoMemory)
    }

    fn is_there(&self, _path: &Str) -> bool {
        false
    }

    fn write(&mut self, path: &Str, bytes: &[u8]) -> Result<Stored, Failed> {
        self.log.wrote(path.bytes(), bytes);
        Ok(Stored::Written)
    }

    fn remove(&mut self, _folder: &Str, path: &Str) -> Result<Removal, Failed> {
        self.log.removed(path.bytes());
        Ok(Removal::Removed)
    }

    fn read_faults(&self, _path: &Str) -> u64 {
        0
    }

    fn write_faults(&self, _path: &Str) -> u64 {
        0
    }
}

const OUT_OF_MEMORY: &str = "strudel: out of memory\n";

// Each command that reads files.
const RUNS: &[Run] = &[
    Run {
        words: &["page", "q", "t", "/", "d"],
        code: 8,
        out: "",
        err: OUT_OF_MEMORY,
        ..PLAIN
    },
    Run {
        words: &["build", "q", "t", "DIR", "d"],
        code: 8,
        out: "",
        err: OUT_OF_MEMORY,
        ..PLAIN
    },
    Run {
        words: &["serve", "q", "t", "d"],
        code: 8,
        out: "",
        err: OUT_OF_MEMORY,
        ..PLAIN
    },
    Run {
        words: &["replay", "q", "t", "s", "d"],
        code: 8,
        out: "",
        err: OUT_OF_MEMORY,
        ..PLAIN
    },
    Run {
        words: &["data", "d"],
        code: 8,
        out: "",
        err: OUT_OF_MEMORY,
        ..PLAIN
    },
    Run {
        words: &["explain", "q", "d"],
        code: 8,
        out: "",
        err: OUT_OF_MEMORY,
        ..PLAIN
    },
    Run {
        words: &["schema", "q"],
        code: 8,
        out: "",
        err: OUT_OF_MEMORY,
        ..PLAIN
    },
    Run {
        words: &["check", "q", "c"],
        code: 8,
        out: "",
        err: OUT_OF_MEMORY,
        ..PLAIN
    },
    Run {
        words: &["check", "--here", "q", "c", "d"],
        code: 8,
        out: "",
        err: OUT_OF_MEMORY,
        ..PLAIN
    },
    Run {
        words: &["lint", "q", "t", "d"],
        code: 8,
        out: "",
        err: OUT_OF_MEMORY,
        ..PLAIN
    },
];

#[test]
fn refused_memory_is_reported(rt: HostRuntime) -> Result<(), Fail> {
    for run in RUNS {
        check_over(&rt, run, &mut Refusing { log: Log::new() })?;
    }
    Ok(())
}
