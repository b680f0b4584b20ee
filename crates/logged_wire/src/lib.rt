//! A wire that adds a line of each reply to a log.
#![tactic(auto)]

ghost use Rattle.std.specs.Prelude.{◌≡◌, ℕ, List, [], ◌∷◌, ◌++◌, take, IfOk, OnOk, OnErr, IsErrOf, MatchResult, option_map};
ghost use Rattle.happenings.specs.Happening.{Happening, Watched, WatchFailed, Listened, ListenFailed, Given};
ghost use Rattle.happenings.specs.Happening.{NextFailed, Sent, SendFailed, Closed, Finished};
ghost use Rattle.edge_io.specs.Counts.{Rose};
ghost use Rattle.wire.specs.Accounts.{send_to, close_to};
ghost use Rattle.wire.specs.Events.{add_event, IsNextOf, add_listen, IsWatched};
ghost use Rattle.wire.specs.Told.{EventsStay, OtherAccountsStay, OtherFaultsStay};
ghost use Rattle.logged_wire.specs.Logged.{Kept, Logs, NotesAll, logged, starting};

mod file;
mod log;
mod memory;
mod replies;

use edge_io::Failed;
pub use file::{FileLog, open_log};
pub use log::AccessLog;
pub use memory::MemLog;
use replies::ReplyLog;
use sd_value::Str;
use std::alloc::Global;
use wire::{Wire, WireEnd, WireEvent};

/// A wire that adds a line of each reply to a log, if it has one. All else is done by the wire within.
#[derive(Drop)]
pub struct LoggedWire<W, L: AccessLog> {
    wire: W,
    log: Option<ReplyLog<L>>,
}

impl<W: Wire, L: AccessLog> LoggedWire<W, L> {
    /// This wire, with a log or without one.
    pub fn new(alloc: Global, wire: W, log: Option<L>) -> LoggedWire<W, L>
        ensures wire { result.wire ≡ wire }
        ensures log { result.log ≡ option_map (λ log. starting (L.lines log)) log }
    {
        let log = match log {
            Some(log) => Some(ReplyLog::new(alloc, log)),
            None => None,
        };
        LoggedWire { wire, log }
    }

    /// The wire within.
    pub fn wire(&self) -> &W
        ensures { result.now ≡ self.now.wire }
    {
        &self.wire
    }

    /// The log, if there is one.
    pub fn log(&self) -> Option<&L>
        ensures { option_map (λ log. L.lines log.now) result
            ≡ option_map (λ log. log.lines) self.now.log }
    {
        match &self.log {
            Some(log) => Some(log.log()),
            None => None,
        }
    }
}

impl<W: Wire, L: AccessLog> Wire for LoggedWire<W, L> {
    type Log = W::Log;

    ghost told = { λ w. W.told w.wire };

    ghost trace = { λ w. W.trace w.wire };

    fn lend(&mut self, log: &mut W::Log)
        ensures given { W.trace self.new.wire ≡ W.Log.events log.old }
        ensures taken { W.Log.events log.new ≡ W.trace self.old.wire }
        ensures same { W.told self.new.wire ≡ W.told self.old.wire }
        ensures log { self.new.log ≡ self.old.log }
    {
        self.wire.lend(log);
    }

    fn listen(&mut self, port: u16, connections: u64) -> Result<(), Failed>
        ensures traced { MatchResult result
            (λ _. W.trace self.new.wire ≡ W.trace self.old.wire ++ Listened port connections ∷ [])
            (λ _. W.trace self.new.wire ≡ W.trace self.old.wire
            ++ ListenFailed port connections ∷ []) }
        ensures listens { (W.told self.new.wire).listens
            ≡ add_listen (W.told self.old.wire).listens port connections }
        ensures fine { OnOk result ((W.told self.new.wire).next_faults
            ≡ (W.told self.old.wire).next_faults) }
        ensures failed { OnErr result (Rose (W.told self.old.wire).next_faults
            (W.told self.new.wire).next_faults) }
        ensures stays { ((W.told self.new.wire).account ≡ (W.told self.old.wire).account)
            × ((W.told self.new.wire).faults ≡ (W.told self.old.wire).faults)
            × ((W.told self.new.wire).given ≡ (W.told self.old.wire).given)
            × ((W.told self.new.wire).left ≡ (W.told self.old.wire).left)
            × ((W.told self.new.wire).watches ≡ (W.told self.old.wire).watches) }
        ensures noted { (h : Happening) × (W.trace self.new.wire ≡ W.trace self.old.wire ++ h ∷ [])
            × Logs h self.old.log self.new.log }
    {
        let result = self.wire.listen(port, connections);
        result
    }

    fn watch(&mut self, alloc: Global, path: &Str, every: u64) -> Result<(), WireEnd>
        ensures traced { MatchResult result
            (λ _. W.trace self.new.wire ≡ W.trace self.old.wire ++ Watched path.now every ∷ [])
            (λ _. W.trace self.new.wire ≡ W.trace self.old.wire
            ++ WatchFailed path.now every ∷ []) }
        ensures watches { IsWatched path.now every (W.told self.old.wire).watches
            (W.told self.new.wire).watches result }
        ensures fine { OnOk result ((W.told self.new.wire).next_faults
            ≡ (W.told self.old.wire).next_faults) }
        ensures failed { IsErrOf result WireEnd.Failed
            → Rose (W.told self.old.wire).next_faults (W.told self.new.wire).next_faults }
        ensures short { IsErrOf result WireEnd.NoMemory
            → W.told self.new.wire ≡ W.told self.old.wire }
        ensures stays { ((W.told self.new.wire).account ≡ (W.told self.old.wire).account)
            × ((W.told self.new.wire).faults ≡ (W.told self.old.wire).faults)
            × ((W.told self.new.wire).given ≡ (W.told self.old.wire).given)
            × ((W.told self.new.wire).left ≡ (W.told self.old.wire).left)
            × ((W.told self.new.wire).listens ≡ (W.told self.old.wire).listens) }
        ensures noted { (h : Happening) × (W.trace self.new.wire ≡ W.trace self.old.wire ++ h ∷ [])
            × Logs h self.old.log self.new.log }
    {
        let result = self.wire.watch(alloc, path, every);
        result
    }

    fn next(&mut self, alloc: Global) -> Result<WireEvent, WireEnd>
        ensures traced { MatchResult result
            (λ event. W.trace self.new.wire ≡ W.trace self.old.wire ++ Given event ∷ [])
            (λ _. W.trace self.new.wire ≡ W.trace self.old.wire ++ NextFailed ∷ []) }
        ensures given { IfOk result (λ event. (W.told self.new.wire).given
            ≡ add_event (W.told self.old.wire).given event) }
        ensures left { IfOk result (λ event. IsNextOf (W.told self.old.wire).left event
            (W.told self.new.wire).left) }
        ensures err { OnErr result (((W.told self.new.wire).given ≡ (W.told self.old.wire).given)
            × ((W.told self.new.wire).left ≡ (W.told self.old.wire).left)) }
        ensures fine { OnOk result ((W.told self.new.wire).next_faults
            ≡ (W.told self.old.wire).next_faults) }
        ensures failed { IsErrOf result WireEnd.Failed
            → Rose (W.told self.old.wire).next_faults (W.told self.new.wire).next_faults }
        ensures short { IsErrOf result WireEnd.NoMemory
            → (W.told self.new.wire).next_faults ≡ (W.told self.old.wire).next_faults }
        ensures stays { ((W.told self.new.wire).account ≡ (W.told self.old.wire).account)
            × ((W.told self.new.wire).faults ≡ (W.told self.old.wire).faults)
            × ((W.told self.new.wire).listens ≡ (W.told self.old.wire).listens)
            × ((W.told self.new.wire).watches ≡ (W.told self.old.wire).watches) }
        ensures noted { (h : Happening) × (W.trace self.new.wire ≡ W.trace self.old.wire ++ h ∷ [])
            × Logs h self.old.log self.new.log }
    {
        let result = self.wire.next(alloc);
        if let Some(log) = &mut self.log {
            if let Ok(event) = &result {
                log.given(event);
            }
        }
        result
    }

    fn send(&mut self, connection: u64, bytes: &[u8]) -> Result<(), Failed>
        ensures traced { MatchResult result
            (λ _. W.trace self.new.wire ≡ W.trace self.old.wire ++ Sent connection bytes.now ∷ [])
            (λ _. (taken : ℕ)
            × (W.trace self.new.wire ≡ W.trace self.old.wire
            ++ SendFailed connection bytes.now taken ∷ [])
            × ((W.told self.new.wire).account connection
            ≡ send_to ((W.told self.old.wire).account connection) (take taken bytes.now))) }
        ensures ok { OnOk result ((W.told self.new.wire).account connection
            ≡ send_to ((W.told self.old.wire).account connection) bytes.now) }
        ensures fine { OnOk result ((W.told self.new.wire).faults connection
            ≡ (W.told self.old.wire).faults connection) }
        ensures failed { OnErr result (Rose ((W.told self.old.wire).faults connection)
            ((W.told self.new.wire).faults connection)) }
        ensures others { OtherAccountsStay connection (W.told self.old.wire)
            (W.told self.new.wire) }
        ensures others_fine { OtherFaultsStay connection (W.told self.old.wire)
            (W.told self.new.wire) }
        ensures stays { EventsStay (W.told self.old.wire) (W.told self.new.wire) }
        ensures noted { (h : Happening) × (W.trace self.new.wire ≡ W.trace self.old.wire ++ h ∷ [])
            × Logs h self.old.log self.new.log }
    {
        let result = self.wire.send(connection, bytes);
        if let Some(log) = &mut self.log {
            match &result {
                Ok(()) => log.sent(connection, bytes),
                Err(_) => log.send_failed(connection, bytes),
            }
        }
        result
    }

    fn close(&mut self, connection: u64)
        ensures traced { W.trace self.new.wire ≡ W.trace self.old.wire ++ Closed connection ∷ [] }
        ensures closed { (W.told self.new.wire).account connection
            ≡ close_to ((W.told self.old.wire).account connection) }
        ensures others { OtherAccountsStay connection (W.told self.old.wire)
            (W.told self.new.wire) }
        ensures faults_stay { (other : ℕ)
            → (W.told self.new.wire).faults other ≡ (W.told self.old.wire).faults other }
        ensures stays { EventsStay (W.told self.old.wire) (W.told self.new.wire) }
        ensures noted { (h : Happening) × (W.trace self.new.wire ≡ W.trace self.old.wire ++ h ∷ [])
            × Logs h self.old.log self.new.log }
    {
        self.wire.close(connection);
        if let Some(log) = &mut self.log {
            log.closed(connection);
        }
    }

    fn finish(&mut self)
        ensures traced { W.trace self.new.wire ≡ W.trace self.old.wire ++ Finished ∷ [] }
        ensures stays { W.told self.new.wire ≡ W.told self.old.wire }
        ensures noted { (h : Happening) × (W.trace self.new.wire ≡ W.trace self.old.wire ++ h ∷ [])
            × Logs h self.old.log self.new.log }
    {
        self.wire.finish();
    }
}

/// As long as no miss is counted, the lines are those of all that happened.
pub fn the_log_has_the_lines_of_what_happened()
    ensures { (first : List (List ℕ)) (trace : List Happening) (after : Kept)
        → NotesAll trace (starting first) after → after.misses ≡ 0
        → after.lines ≡ first ++ logged trace }
{}
