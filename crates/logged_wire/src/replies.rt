// A log, with what came of the connections that are open.
ghost use Rattle.std.specs.Prelude.{◌≡◌, ◌≢◌, ◌⊎◌, ◌≤◌, ◌++◌, ◌∷◌, [], ℕ, Some, None, option_map, OnOk, IfOk};
ghost use Rattle.edge_io.specs.Counts.{Rose};
ghost use Rattle.happenings.specs.Happening.{Given, Sent, SendFailed, Closed};
ghost use Rattle.happenings.specs.declared.event.WireEvent.TheVariants.{Opened, Bytes};
ghost use Rattle.logged_wire.specs.Logged.{Notes, starting, came_in, first_line, line_at, is_line_end, reply_line};

use crate::log::AccessLog;
use access_line::line_of;
use sd_value::NoMemory;
use std::alloc::Global;
use std::collections::BTreeMap;
use std::marker::Model;
use wire::WireEvent;

/// What came of a connection since its last reply.
#[derive(Drop)]
struct Came {
    bytes: Vec<u8>,
}

impl Model for Came {
    ghost use Rattle.std.specs.Prelude.{List, ℕ};

    ghost Value = { List ℕ };

    ghost view = { λ came. came.bytes.items };
}

impl Came {
    /// Nothing came.
    fn new(alloc: Global) -> Came
        ensures { result ≡ [] }
    {
        Came {
            bytes: Vec::new(alloc),
        }
    }

    /// A piece came.
    fn add(&mut self, piece: &[u8]) -> Result<(), NoMemory>
        ensures { OnOk result (self.new ≡ self.old ++ piece.now) }
    {
        self.bytes.extend_from_slice(piece)?;
        Ok(())
    }

    /// The first line.
    fn request(&self) -> &[u8]
        ensures { result.now ≡ first_line self.now }
    {
        first_line(self.bytes.as_slice())
    }
}

/// A log, with what came of each connection that is open since its last reply.
#[derive(Drop)]
pub struct ReplyLog<L: AccessLog> {
    alloc: Global,
    log: L,
    came: BTreeMap<u64, Came>,
    misses: u64,
}

impl<L: AccessLog> Model for ReplyLog<L> {
    ghost use Rattle.logged_wire.specs.Logged.{Kept};

    ghost Value = { Kept };

    ghost view = { λ r. record {
      lines = L.lines r.log;
      came = r.came.entries;
      misses = r.misses;
    } };
}

fn is_line_end(byte: u8) -> bool
    ensures { result ≡ is_line_end byte }
{
    byte == b'\r' || byte == b'\n'
}

/// The bytes up to the first line end.
#[tactic(auto, using(crate::proofs::FirstLine::goes_on, crate::proofs::FirstLine::ends, crate::proofs::FirstLine::is_all))]
fn line_at(bytes: &[u8]) -> &[u8]
    ensures { result.now ≡ line_at bytes.now }
{
    for at in 0..bytes.len() {
        if is_line_end(bytes[at]) {
            return &bytes[..at];
        }
    }
    bytes
}

/// The first line that is not empty, or nothing.
#[tactic(auto, using(crate::proofs::FirstLine::skips, crate::proofs::FirstLine::begins, crate::proofs::FirstLine::is_none))]
fn first_line(bytes: &[u8]) -> &[u8]
    ensures { result.now ≡ first_line bytes.now }
{
    for at in 0..bytes.len() {
        if !is_line_end(bytes[at]) {
            return line_at(&bytes[at..]);
        }
    }
    &[]
}

impl<L: AccessLog> ReplyLog<L> {
    /// A log, where nothing happened yet.
    pub(crate) fn new(alloc: Global, log: L) -> ReplyLog<L>
        ensures { result ≡ starting (L.lines log) }
    {
        ReplyLog {
            alloc,
            log,
            came: BTreeMap::new(alloc),
            misses: 0,
        }
    }

    /// The log itself.
    pub(crate) fn log(&self) -> &L
        ensures { L.lines result.now ≡ self.now.lines }
    {
        &self.log
    }

    fn miss(&mut self)
        ensures rose { Rose self.old.misses self.new.misses }
        ensures later { self.old.misses ≤ self.new.misses }
        ensures stays { (self.new.lines ≡ self.old.lines) × (self.new.came ≡ self.old.came) }
    {
        self.misses = self.misses.saturating_add(1);
    }

    /// What came of a connection is forgotten.
    fn forget(&mut self, connection: u64)
        ensures here { came_in self.new connection ≡ None }
        ensures others { (other : ℕ) → other ≢ connection
            → came_in self.new other ≡ came_in self.old other }
        ensures stays { (self.new.lines ≡ self.old.lines) × (self.new.misses ≡ self.old.misses) }
    {
        let _ = self.came.remove(&connection);
    }

    /// What came of a connection is forgotten, where memory for more is refused.
    fn lose(&mut self, connection: u64)
        ensures here { came_in self.new connection ≡ None }
        ensures others { (other : ℕ) → other ≢ connection
            → came_in self.new other ≡ came_in self.old other }
        ensures lines { self.new.lines ≡ self.old.lines }
        ensures rose { Rose self.old.misses self.new.misses }
        ensures later { self.old.misses ≤ self.new.misses }
    {
        self.forget(connection);
        self.miss();
    }

    /// A connection was opened.
    fn open(&mut self, connection: u64) -> Result<(), NoMemory>
        ensures here { OnOk result (came_in self.new connection ≡ Some []) }
        ensures others { (other : ℕ) → other ≢ connection
            → came_in self.new other ≡ came_in self.old other }
        ensures stays { (self.new.lines ≡ self.old.lines) × (self.new.misses ≡ self.old.misses) }
    {
        self.came.insert(connection, Came::new(self.alloc))?;
        Ok(())
    }

    /// A piece came of a connection.
    fn add(&mut self, connection: u64, piece: &[u8]) -> Result<(), NoMemory>
        ensures here { OnOk result (came_in self.new connection
            ≡ option_map (λ bytes. bytes ++ piece.now) (came_in self.old connection)) }
        ensures others { (other : ℕ) → other ≢ connection
            → came_in self.new other ≡ came_in self.old other }
        ensures stays { (self.new.lines ≡ self.old.lines) × (self.new.misses ≡ self.old.misses) }
    {
        match self.came.get_mut(&connection) {
            Some(came) => came.add(piece),
            None => Ok(()),
        }
    }

    /// What came of a connection is answered.
    fn answer(&mut self, connection: u64)
        ensures here { came_in self.new connection ≡ option_map (λ bytes. []) (came_in self.old connection) }
        ensures others { (other : ℕ) → other ≢ connection
            → came_in self.new other ≡ came_in self.old other }
        ensures stays { (self.new.lines ≡ self.old.lines) × (self.new.misses ≡ self.old.misses) }
    {
        if let Some(came) = self.came.get_mut(&connection) {
            *came = Came::new(self.alloc);
        }
    }

    /// The line of a reply to a connection.
    #[tactic(auto, unfolding(crate::specs::Logged::reply_line))]
    fn line(&self, connection: u64, reply: &[u8]) -> Result<Vec<u8>, NoMemory>
        ensures { IfOk result
            (λ line. line.items ≡ reply_line (came_in self.now connection) reply.now) }
    {
        let request = match self.came.get(&connection) {
            Some(came) => came.request(),
            None => &[],
        };
        let line = line_of(self.alloc, request, reply)?;
        Ok(line)
    }

    /// Puts the line of a reply. It is left out where memory for it is refused, and where the put fails.
    fn put(&mut self, connection: u64, reply: &[u8])
        ensures lines { (self.new.lines
            ≡ self.old.lines ++ reply_line (came_in self.old connection) reply.now ∷ [])
            ⊎ ((self.new.lines ≡ self.old.lines) × Rose self.old.misses self.new.misses) }
        ensures came { self.new.came ≡ self.old.came }
        ensures misses { self.old.misses ≤ self.new.misses }
    {
        let Ok(line) = self.line(connection, reply) else {
            self.miss();
            return;
        };
        if self.log.put(line.as_slice()).is_err() {
            self.miss();
        }
    }

    fn opened(&mut self, connection: u64)
        ensures { Notes (Given (Opened connection)) self.old self.new }
    {
        if self.open(connection).is_err() {
            self.lose(connection);
        }
    }

    fn added(&mut self, connection: u64, piece: &[u8])
        ensures { Notes (Given (Bytes connection piece.now)) self.old self.new }
    {
        if self.add(connection, piece).is_err() {
            self.lose(connection);
        }
    }

    /// The wire gave an event.
    pub(crate) fn given(&mut self, event: &WireEvent)
        ensures { Notes (Given event.now) self.old self.new }
    {
        match event {
            WireEvent::Opened(connection) => self.opened(*connection),
            WireEvent::Bytes(connection, piece) => self.added(*connection, piece.bytes()),
            WireEvent::Lost(connection) => self.forget(*connection),
            WireEvent::Ended(_) => {}
            WireEvent::Change(_) => {}
            WireEvent::Done => {}
        }
    }

    /// A reply was taken whole.
    pub(crate) fn sent(&mut self, connection: u64, reply: &[u8])
        ensures { Notes (Sent connection reply.now) self.old self.new }
    {
        self.put(connection, reply);
        self.answer(connection);
    }

    /// A reply was not taken whole.
    pub(crate) fn send_failed(&mut self, connection: u64, reply: &[u8])
        ensures { (taken : ℕ) → Notes (SendFailed connection reply.now taken) self.old self.new }
    {
        self.put(connection, reply);
        self.forget(connection);
    }

    /// A connection was closed.
    pub(crate) fn closed(&mut self, connection: u64)
        ensures { Notes (Closed connection) self.old self.new }
    {
        self.forget(connection);
    }
}
