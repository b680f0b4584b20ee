// A log in memory.
ghost use Rattle.std.specs.Prelude.{◌≡◌, ◌++◌, ◌∷◌, [], OnOk, OnErr};

use crate::log::AccessLog;
use edge_io::Failed;
use sd_value::Str;
use std::alloc::Global;

/// A log in memory, for tests. A put fails only where memory is refused.
#[derive(Drop)]
pub struct MemLog {
    alloc: Global,
    lines: Vec<Str>,
}

impl MemLog {
    /// A log without a line.
    pub fn new(alloc: Global) -> MemLog
        ensures { result.lines.items ≡ [] }
    {
        MemLog {
            alloc,
            lines: Vec::new(alloc),
        }
    }

    /// The lines that were put.
    pub fn lines(&self) -> &[Str]
        ensures { result.now ≡ self.now.lines.items }
    {
        self.lines.as_slice()
    }
}

impl AccessLog for MemLog {
    ghost lines = { λ log. log.lines.items };

    fn put(&mut self, line: &[u8]) -> Result<(), Failed> {
        let Ok(line) = Str::new(self.alloc, line) else {
            return Err(Failed);
        };
        match self.lines.push(line) {
            Ok(()) => Ok(()),
            Err(_) => Err(Failed),
        }
    }
}
