// A file that is watched: when it is looked at, and whether it is as it was.
ghost use Rattle.std.specs.Prelude.{◌≡◌, ◌≤◌, length, IfSome, None, Bool};
ghost use Rattle.tcp_wire.specs.Watching.{is_due, is_last, noted, passed, IsChanged, most_read};

use crate::source::{Reading, Source};
use edge_io::Files;
use sd_value::Str;
use std::alloc::Global;

/// A file that is watched.
#[derive(Debug, Drop)]
pub struct Watch {
    pub path: Str,
    /// After how many connections that ended the file is looked at.
    pub every: u64,
    /// How many had ended when it was last looked at.
    pub read_at: u64,
    /// What was read of it last, if anything was.
    pub last: Option<Str>,
}

impl Watch {
    // Whether the file is to be looked at, where so many connections have ended.
    fn is_due(&self, ended: u64) -> bool
        ensures { result ≡ is_due ended self.now }
    {
        self.every <= ended.saturating_sub(self.read_at)
    }

    // Whether this is what was read last.
    fn is_last(&self, text: &Str) -> bool
        ensures { result ≡ is_last text.now self.now }
    {
        match &self.last {
            Some(last) => last.bytes() == text.bytes(),
            None => false,
        }
    }

    // Whether this is a beginning of what was read last, as of a file that was cut to be written anew.
    fn is_cut(&self, text: &Str) -> bool {
        match &self.last {
            Some(last) => last.bytes().starts_with(text.bytes()),
            None => text.bytes().is_empty(),
        }
    }

    /// What the file holds, where it is to be looked at and holds another text than before. `ended` is how many connections
    /// have ended, and `now` the time in nanoseconds since 1970. None where it is not to be looked at, where it is as it was,
    /// where it may be half-written, where the read fails, and where memory is refused.
    pub fn look<F: Files>(
        &mut self,
        alloc: Global,
        source: &mut Source<F>,
        now: u64,
        ended: u64,
    ) -> Option<Str>
        ensures none { result ≡ None → self.new ≡ self.old }
        ensures some { IfSome result (λ text. IsChanged ended self.old text self.new) }
    {
        if !self.is_due(ended) {
            return None;
        }
        let Reading { text, is_fresh } = source.read(alloc, &self.path, now)?;
        if self.is_last(&text) {
            return None;
        }
        if is_fresh && self.is_cut(&text) {
            return None;
        }
        let Ok(copy) = text.copy(alloc) else {
            source.forget();
            return None;
        };
        self.read_at = ended;
        self.last = Some(copy);
        Some(text)
    }

    /// The next connection is opened without a change: the file was looked at, if that was due.
    pub fn pass(&mut self, ended: u64)
        ensures { self.new ≡ passed ended self.old }
    {
        if self.is_due(ended) {
            self.read_at = ended;
        }
    }
}
