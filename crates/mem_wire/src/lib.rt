//! Wires in memory, for `replay`, `trial` and tests.
#![tactic(auto)]

ghost use Rattle.std.specs.Prelude.{◌≡◌, ◌≢◌, ◌≤◌, ◌⊎◌, All, take, ℕ, Bool, true, false, Some, None, List, [], IfOk};
ghost use Rattle.std.specs.Prelude.{IfSome, IsSome, OnOk, OnErr, Err, is_err, IsErrOf, if◌then◌else◌};
ghost use Rattle.std.specs.Prelude.{MatchResult, ◌++◌, ◌∷◌, length};
ghost use Rattle.happenings.specs.Happening.{Watched, WatchFailed, Listened, ListenFailed, Given, NextFailed};
ghost use Rattle.happenings.specs.Happening.{Sent, SendFailed, Closed, Finished};
ghost use Rattle.std.specs.Ordering.{nat_cmp};
ghost use Rattle.std.specs.BTreeMap.{get};
ghost use Rattle.edge_io.specs.Counts.{Rose};
ghost use Rattle.wire.specs.Accounts.{up, send_to, close_to};
ghost use Rattle.wire.specs.Events.{add_event, add_listen, IsWatched, IsNextOf};
ghost use Rattle.wire.specs.Told.{EventsStay, OtherAccountsStay, OtherFaultsStay};
ghost use Rattle.mem_wire.specs.WireInMemory.{is_named, cut_of, told_of, faults_in, fails_next, next_cut, taken_of};
ghost use Rattle.mem_wire.specs.WireInMemory.{is_closed, entry_of, HasEntry, IsNew, ListsStay};

mod entry;
mod steady;

use edge_io::Failed;
use entry::{Entry, Went};
use happenings::Log;
use sd_value::{NoMemory, Str};
use std::alloc::Global;
use std::collections::BTreeMap;
use std::marker::Model;
use std::mem::swap;
pub use steady::SteadyWire;
use wire::{Wire, WireEnd, WireEvent};

/// A send that fails: which send to which connection, counted from 1, and how many bytes it takes.
#[derive(Clone, Copy, Debug, PartialEq, Eq)]
pub struct FailingSend {
    pub connection: u64,
    pub number: u64,
    pub taken: u64,
}

/// A wire in memory: its events are a list, and its calls fail as its lists say. A send to a connection that its
/// events do not open is taken and forgotten.
pub struct MemWire {
    events: Vec<WireEvent>,
    /// How many events were given. Done is counted once.
    count: usize,
    failing: Vec<u64>,
    sends: Vec<FailingSend>,
    /// How often `listen`, `watch` and `next` were called.
    calls: u64,
    next_faults: u64,
    listens: u64,
    port: u16,
    connections: u64,
    watches: u64,
    path: Str,
    every: u64,
    entries: BTreeMap<u64, Entry>,
    short: bool,
    log: Log,
}

// Written out, so that it is proved here once, and not again in each crate that drops one.
impl Drop for MemWire {
    fn drop(self) {
        let MemWire {
            events: _events,
            count: _count,
            failing: _failing,
            sends: _sends,
            calls: _calls,
            next_faults: _next_faults,
            listens: _listens,
            port: _port,
            connections: _connections,
            watches: _watches,
            path: _path,
            every: _every,
            entries: _entries,
            short: _short,
            log: _log,
        } = self;
    }
}

impl Model for MemWire {
    ghost use Rattle.mem_wire.specs.WireInMemory.{WireInMemory};

    ghost Value = { WireInMemory };

    ghost view = { λ w. record {
      events = w.events.items;
      count = w.count;
      failing = w.failing.items;
      sends = w.sends.items;
      calls = w.calls;
      next_faults = w.next_faults;
      listens = w.listens;
      port = w.port;
      connections = w.connections;
      watches = w.watches;
      path = w.path;
      every = w.every;
      entries = w.entries.entries;
      is_short = w.short;
      trace = w.log.events;
    } };
}

impl MemWire {
    /// A wire that gives these events and then Done. `failing` has the numbers of the calls of `listen`, `watch` and
    /// `next` that fail, counted together from 1.
    pub fn new(
        alloc: Global,
        events: Vec<WireEvent>,
        failing: Vec<u64>,
        sends: Vec<FailingSend>,
    ) -> Result<MemWire, NoMemory>
        ensures told { IfOk result (λ w. w ≡ record {
          events = events.items;
          count = 0;
          failing = failing.items;
          sends = sends.items;
          calls = 0;
          next_faults = 0;
          listens = 0;
          port = 0;
          connections = 0;
          watches = 0;
          path = [];
          every = 0;
          entries = w.entries;
          is_short = false;
          trace = [];
        }) }
        ensures entries { IfOk result (λ w. (number : ℕ) → IfSome (entry_of w number) IsNew) }
        ensures opened { IfOk result (λ w. All (HasEntry (entry_of w)) events.items) }
    {
        let entries = entries_of(alloc, &events)?;
        let path = Str::new(alloc, &[])?;
        Ok(MemWire {
            events,
            count: 0,
            failing,
            sends,
            calls: 0,
            next_faults: 0,
            listens: 0,
            port: 0,
            connections: 0,
            watches: 0,
            path,
            every: 0,
            entries,
            short: false,
            log: Log::new(),
        })
    }

    /// Counts a call of `listen`, `watch` or `next`, and says whether it fails.
    fn call(&mut self) -> bool
        ensures fails { result ≡ is_named self.old.failing (up self.old.calls) }
        ensures after { self.new ≡ record self.old {
          calls = up self.old.calls;
          next_faults = (if result then up self.old.next_faults else self.old.next_faults);
        } }
    {
        self.calls = self.calls.saturating_add(1);
        let fails = is_named(self.failing.as_slice(), self.calls);
        if fails {
            self.next_faults = self.next_faults.saturating_add(1);
        }
        fails
    }

    /// The bytes that a connection took.
    pub fn taken(&self, connection: u64) -> &[u8]
        ensures { result.now ≡ taken_of (entry_of self.now connection) }
    {
        match self.entries.get(&connection) {
            Some(entry) => entry.taken(),
            None => &[],
        }
    }

    /// Whether a connection was closed.
    pub fn closed(&self, connection: u64) -> bool
        ensures { result ≡ is_closed (entry_of self.now connection) }
    {
        match self.entries.get(&connection) {
            Some(entry) => entry.is_closed(),
            None => false,
        }
    }

    /// How many sends to a connection failed.
    pub fn send_faults(&self, connection: u64) -> u64
        ensures { result ≡ faults_in self.now connection }
    {
        match self.entries.get(&connection) {
            Some(entry) => entry.faults(),
            None => 0,
        }
    }

    /// How often `watch` was called.
    pub fn watches(&self) -> u64
        ensures { result ≡ self.now.watches }
    {
        self.watches
    }

    /// The path of the last call of `watch`, empty where there was none, and after how many connections its file was to be
    /// read.
    pub fn watched(&self) -> (&[u8], u64)
        ensures { (result.0.now ≡ self.now.path) × (result.1 ≡ self.now.every) }
    {
        (self.path.bytes(), self.every)
    }

    /// Whether memory was refused in a send.
    pub fn short(&self) -> bool
        ensures { result ≡ self.now.is_short }
    {
        self.short
    }
}

/// An entry for each connection that the events open.
fn entries_of(alloc: Global, events: &[WireEvent]) -> Result<BTreeMap<u64, Entry>, NoMemory>
    ensures new { IfOk result (λ entries. (number : ℕ)
        → IfSome (get nat_cmp entries number) IsNew) }
    ensures opened { IfOk result (λ entries. All (HasEntry (get nat_cmp entries)) events.now) }
{
    let mut entries = BTreeMap::new(alloc);
    for event in events {
        open(alloc, &mut entries, event)?;
    }
    Ok(entries)
}

/// Makes the entry of the connection that the event opens, if it opens one.
fn open(
    alloc: Global,
    entries: &mut BTreeMap<u64, Entry>,
    event: &WireEvent,
) -> Result<(), NoMemory>
    ensures new { OnOk result (((number : ℕ) → IfSome (get nat_cmp entries.old number) IsNew)
        → (number : ℕ) → IfSome (get nat_cmp entries.new number) IsNew) }
    ensures stay { OnOk result ((number : ℕ) → IsSome (get nat_cmp entries.old number)
        → IsSome (get nat_cmp entries.new number)) }
    ensures opened { OnOk result (HasEntry (get nat_cmp entries.new) event.now) }
{
    if let WireEvent::Opened(number) = event {
        entries.insert(*number, Entry::new(alloc))?;
    }
    Ok(())
}

/// Whether a list names the call of this number.
fn is_named(numbers: &[u64], number: u64) -> bool
    ensures { result ≡ is_named numbers.now number }
{
    numbers.iter().any(|n| *n == number)
}

/// How many bytes this send takes, where it fails.
fn cut_of(sends: &[FailingSend], connection: u64, number: u64) -> Option<u64>
    ensures { result ≡ cut_of sends.now connection number }
{
    for send in sends {
        if send.connection == connection && send.number == number {
            return Some(send.taken);
        }
    }
    None
}

/// An equal event.
fn copy(alloc: Global, event: &WireEvent) -> Result<WireEvent, NoMemory>
    ensures { IfOk result (λ copy. copy ≡ event.now) }
{
    Ok(match event {
        WireEvent::Opened(number) => WireEvent::Opened(*number),
        WireEvent::Bytes(number, piece) => WireEvent::Bytes(*number, piece.copy(alloc)?),
        WireEvent::Ended(number) => WireEvent::Ended(*number),
        WireEvent::Lost(number) => WireEvent::Lost(*number),
        WireEvent::Change(text) => WireEvent::Change(text.copy(alloc)?),
        WireEvent::Done => WireEvent::Done,
    })
}

impl Wire for MemWire {
    type Log = Log;

    ghost told = { told_of };

    ghost trace = { λ w. w.trace };

    fn lend(&mut self, log: &mut Log)
        ensures given { self.new.trace ≡ log.old.events }
        ensures taken { log.new.events ≡ self.old.trace }
        ensures same { told_of self.new ≡ told_of self.old }
        ensures only { self.new ≡ record self.old { trace = log.old.events } }
    {
        swap(&mut self.log, log);
    }

    /// Fails exactly where `failing` names the call.
    fn listen(&mut self, port: u16, connections: u64) -> Result<(), Failed>
        ensures traced { MatchResult result
            (λ _. self.new.trace ≡ self.old.trace ++ Listened port connections ∷ [])
            (λ _. self.new.trace ≡ self.old.trace ++ ListenFailed port connections ∷ []) }
        ensures listens { (told_of self.new).listens
            ≡ add_listen (told_of self.old).listens port connections }
        ensures fine { OnOk result ((told_of self.new).next_faults
            ≡ (told_of self.old).next_faults) }
        ensures failed { OnErr result (Rose (told_of self.old).next_faults
            (told_of self.new).next_faults) }
        ensures stays { ((told_of self.new).account ≡ (told_of self.old).account)
            × ((told_of self.new).faults ≡ (told_of self.old).faults)
            × ((told_of self.new).given ≡ (told_of self.old).given)
            × ((told_of self.new).left ≡ (told_of self.old).left)
            × ((told_of self.new).watches ≡ (told_of self.old).watches) }
        ensures fails { is_err result ≡ fails_next self.old }
        ensures lists { ListsStay self.old self.new }
        ensures same_short { self.new.is_short ≡ self.old.is_short }
    {
        self.listens = self.listens.saturating_add(1);
        self.port = port;
        self.connections = connections;
        if self.call() {
            self.log.listen_failed(port, connections);
            Err(Failed)
        } else {
            self.log.listened(port, connections);
            Ok(())
        }
    }

    /// Reads no file, and fails exactly where `failing` names the call, unless memory for the path runs out.
    fn watch(&mut self, alloc: Global, path: &Str, every: u64) -> Result<(), WireEnd>
        ensures traced { MatchResult result
            (λ _. self.new.trace ≡ self.old.trace ++ Watched path.now every ∷ [])
            (λ _. self.new.trace ≡ self.old.trace ++ WatchFailed path.now every ∷ []) }
        ensures watches { IsWatched path.now every (told_of self.old).watches
            (told_of self.new).watches result }
        ensures fine { OnOk result ((told_of self.new).next_faults
            ≡ (told_of self.old).next_faults) }
        ensures failed { IsErrOf result WireEnd.Failed
            → Rose (told_of self.old).next_faults (told_of self.new).next_faults }
        ensures short { IsErrOf result WireEnd.NoMemory → told_of self.new ≡ told_of self.old }
        ensures stays { ((told_of self.new).account ≡ (told_of self.old).account)
            × ((told_of self.new).faults ≡ (told_of self.old).faults)
            × ((told_of self.new).given ≡ (told_of self.old).given)
            × ((told_of self.new).left ≡ (told_of self.old).left)
            × ((told_of self.new).listens ≡ (told_of self.old).listens) }
        ensures fails { result ≡ Err WireEnd.Failed → fails_next self.old ≡ true }
        ensures fine_call { OnOk result (fails_next self.old ≡ false) }
        ensures lists { ListsStay self.old self.new }
        ensures same_short { self.new.is_short ≡ self.old.is_short }
    {
        let Ok(path) = path.copy(alloc) else {
            self.log.watch_failed(path.bytes(), every);
            return Err(WireEnd::NoMemory);
        };
        self.watches = self.watches.saturating_add(1);
        self.path = path;
        self.every = every;
        if self.call() {
            self.log.watch_failed(self.path.bytes(), every);
            Err(WireEnd::Failed)
        } else {
            self.log.watched(self.path.bytes(), every);
            Ok(())
        }
    }

    /// `Failed` exactly where `failing` names the call, which then takes no event.
    fn next(&mut self, alloc: Global) -> Result<WireEvent, WireEnd>
        ensures traced { MatchResult result
            (λ event. self.new.trace ≡ self.old.trace ++ Given event ∷ [])
            (λ _. self.new.trace ≡ self.old.trace ++ NextFailed ∷ []) }
        ensures given { IfOk result (λ event. (told_of self.new).given
            ≡ add_event (told_of self.old).given event) }
        ensures left { IfOk result (λ event. IsNextOf (told_of self.old).left event
            (told_of self.new).left) }
        ensures err { OnErr result (((told_of self.new).given ≡ (told_of self.old).given)
            × ((told_of self.new).left ≡ (told_of self.old).left)) }
        ensures fine { OnOk result ((told_of self.new).next_faults
            ≡ (told_of self.old).next_faults) }
        ensures failed { IsErrOf result WireEnd.Failed
            → Rose (told_of self.old).next_faults (told_of self.new).next_faults }
        ensures short { IsErrOf result WireEnd.NoMemory
            → (told_of self.new).next_faults ≡ (told_of self.old).next_faults }
        ensures stays { ((told_of self.new).account ≡ (told_of self.old).account)
            × ((told_of self.new).faults ≡ (told_of self.old).faults)
            × ((told_of self.new).listens ≡ (told_of self.old).listens)
            × ((told_of self.new).watches ≡ (told_of self.old).watches) }
        ensures fails { fails_next self.old ≡ true → result ≡ Err WireEnd.Failed }
        ensures named { result ≡ Err WireEnd.Failed → fails_next self.old ≡ true }
        ensures lists { ListsStay self.old self.new }
        ensures same_short { self.new.is_short ≡ self.old.is_short }
    {
        if self.call() {
            self.log.next_failed();
            return Err(WireEnd::Failed);
        }
        if self.count < self.events.len() {
            let Ok(event) = copy(alloc, &self.events[self.count]) else {
                self.log.next_failed();
                return Err(WireEnd::NoMemory);
            };
            self.count += 1;
            self.log.given(&event);
            return Ok(event);
        }
        if self.count == self.events.len() {
            self.count += 1;
        }
        self.log.given(&WireEvent::Done);
        Ok(WireEvent::Done)
    }

    /// Fails exactly where the list of sends names this one, which then takes the bytes that it says, or where memory was
    /// refused.
    fn send(&mut self, connection: u64, bytes: &[u8]) -> Result<(), Failed>
        ensures traced { MatchResult result
            (λ _. self.new.trace ≡ self.old.trace ++ Sent connection bytes.now ∷ [])
            (λ _. (taken : ℕ)
            × (self.new.trace ≡ self.old.trace ++ SendFailed connection bytes.now taken ∷ [])
            × ((told_of self.new).account connection
            ≡ send_to ((told_of self.old).account connection) (take taken bytes.now))) }
        ensures ok { OnOk result ((told_of self.new).account connection
            ≡ send_to ((told_of self.old).account connection) bytes.now) }
        ensures fine { OnOk result ((told_of self.new).faults connection
            ≡ (told_of self.old).faults connection) }
        ensures failed { OnErr result (Rose ((told_of self.old).faults connection)
            ((told_of self.new).faults connection)) }
        ensures others { OtherAccountsStay connection (told_of self.old) (told_of self.new) }
        ensures others_fine { OtherFaultsStay connection (told_of self.old) (told_of self.new) }
        ensures stays { EventsStay (told_of self.old) (told_of self.new) }
        ensures whole { OnOk result (next_cut self.old connection ≡ None) }
        ensures cut { OnErr result ((self.new.is_short ≡ true)
            ⊎ IsSome (next_cut self.old connection)) }
        ensures taken { IfSome (next_cut self.old connection) (λ some.
            self.new.is_short ≡ self.old.is_short → self.old.is_short ≡ false
            → (told_of self.new).account connection
            ≡ send_to ((told_of self.old).account connection) (take some bytes.now)) }
        ensures lists { ListsStay self.old self.new }
        ensures stays_short { self.old.is_short ≡ true → self.new.is_short ≡ true }
    {
        let Some(entry) = self.entries.get_mut(&connection) else {
            self.log.sent(connection, bytes);
            return Ok(());
        };
        let cut = cut_of(self.sends.as_slice(), connection, entry.next());
        match entry.send(bytes, cut) {
            Went::Whole => {
                self.log.sent(connection, bytes);
                Ok(())
            }
            Went::Cut => {
                self.log.send_failed(connection, bytes, cut.unwrap_or(0));
                Err(Failed)
            }
            Went::Short => {
                self.log.send_failed(connection, bytes, 0);
                self.short = true;
                Err(Failed)
            }
        }
    }

    fn close(&mut self, connection: u64)
        ensures traced { self.new.trace ≡ self.old.trace ++ Closed connection ∷ [] }
        ensures closed { (told_of self.new).account connection
            ≡ close_to ((told_of self.old).account connection) }
        ensures others { OtherAccountsStay connection (told_of self.old) (told_of self.new) }
        ensures faults_stay { (other : ℕ)
            → (told_of self.new).faults other ≡ (told_of self.old).faults other }
        ensures stays { EventsStay (told_of self.old) (told_of self.new) }
        ensures lists { ListsStay self.old self.new }
        ensures same_short { self.new.is_short ≡ self.old.is_short }
    {
        if let Some(entry) = self.entries.get_mut(&connection) {
            entry.close();
        }
        self.log.closed(connection);
    }

    /// Nothing is queued, so nothing is left to send.
    fn finish(&mut self)
        ensures traced { self.new.trace ≡ self.old.trace ++ Finished ∷ [] }
        ensures stays { told_of self.new ≡ told_of self.old }
        ensures only { self.new ≡ record self.old { trace = self.new.trace } }
    {
        self.log.finished();
    }
}
