// Where a watched file is read, only where it may have changed.
ghost use Rattle.std.specs.Prelude.{◌≡◌, ◌≤◌, length, IfSome};
ghost use Rattle.tcp_wire.specs.Watching.{most_read};

use edge_io::{Files, Stamp};
use sd_value::Str;
use std::alloc::Global;
use std::time::Clock;

/// The most bytes of the file that are read: one more than a data text may have, so that a longer one is told.
const MOST_READ: u64 = 67_108_865;

/// How long a file is fresh after a change, in nanoseconds: its stamp may stay the same over another change, and it may be
/// half-written.
const FRESH: u64 = 1_000_000_000;

/// What was read of a file.
#[derive(Drop)]
pub struct Reading {
    pub text: Str,
    /// The file was changed a moment before it was read.
    pub is_fresh: bool,
}

/// Files in which one is watched.
#[derive(Drop)]
pub struct Source<F> {
    files: F,
    /// What was told of the file before it was last read, where it holds the same as long as this is told.
    stamp: Option<Stamp>,
}

/// The time in nanoseconds since 1970, or 0 where the clock fails.
pub fn time_of<C: Clock>(clock: &C) -> u64 {
    match clock.since_1970() {
        Ok(time) => u64::try_from(time.as_nanos()).unwrap_or(0),
        Err(_) => 0,
    }
}

// Whether a file of this stamp was changed a moment ago. Not where its time is still to come, as that of a file of another
// machine may be.
fn is_fresh(stamp: Option<Stamp>, now: u64) -> bool {
    match stamp {
        Some(stamp) => stamp.changed <= now && now - stamp.changed < FRESH,
        None => false,
    }
}

impl<F: Files> Source<F> {
    /// Files in which none was read yet.
    pub fn new(files: F) -> Self {
        Source { files, stamp: None }
    }

    /// What is at the path, always the same one. None where it is as it was when it was last read, where the read fails, and
    /// where memory is refused.
    pub fn read(&mut self, alloc: Global, path: &Str, now: u64) -> Option<Reading>
        ensures { IfSome result (λ reading. length reading.text ≤ most_read) }
    {
        let stamp = self.files.stamp(path);
        if stamp.is_some() && stamp == self.stamp {
            return None;
        }
        let Ok(bytes) = self.files.read(alloc, path, MOST_READ) else {
            return None;
        };
        let text = Str::of(alloc, bytes).ok()?;
        let is_fresh = is_fresh(stamp, now);
        self.stamp = if is_fresh { None } else { stamp };
        Some(Reading { text, is_fresh })
    }

    /// The file is read again at the next look, whatever is told of it.
    pub fn forget(&mut self) {
        self.stamp = None;
    }
}
