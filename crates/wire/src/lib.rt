//! Where events come from and replies go to: the trait `Wire`.
#![tactic(auto)]

ghost use Rattle.std.specs.Prelude.{◌≡◌, ◌+◌, ℕ, List, [], ◌∷◌, ◌++◌, take, length, Option, Some, IfOk, OnOk, OnErr, IsErrOf, map};
ghost use Rattle.std.specs.Prelude.{MatchResult};
ghost use Rattle.happenings.specs.Happening.{Happening, Watched, WatchFailed, Listened, ListenFailed, Given};
ghost use Rattle.happenings.specs.Happening.{NextFailed, Sent, SendFailed, Closed, Finished};
ghost use Rattle.edge_io.specs.Counts.{Rose};
ghost use Rattle.wire.specs.Accounts.{Account, Took, send_to, gain, close_to};
ghost use Rattle.wire.specs.Noted.{Noted};
ghost use Rattle.wire.specs.Events.{add_event, IsNextOf, add_listen, IsWatched};
ghost use Rattle.wire.specs.Told.{WireReport, EventsStay, OtherAccountsStay, OtherFaultsStay};
ghost use Rattle.happenings.specs.declared.event.WireEvent.{WireEvent};

use edge_io::Failed;
use happenings::Trace;
pub use happenings::WireEvent;
use sd_value::Str;
use std::alloc::Global;

/// Why there is no event.
#[derive(Clone, Copy, Debug, PartialEq, Eq)]
pub enum WireEnd {
    Failed,
    NoMemory,
}

/// Where events come from and replies go to. What it reports is optional but for the counts of failed calls: `WireReport` says
/// which part. A failing answer comes only where its count rose.
pub trait Wire {
    /// The list of what happened that is lent to the wire.
    type Log: Trace;

    ghost told: { Self → WireReport };

    /// What was done to the wire since the log was lent to it.
    ghost trace: { Self → List Happening };

    /// Exchanges the log with the one in hand.
    fn lend(&mut self, log: &mut Self::Log)
        ensures given { trace self.new ≡ Self.Log.events log.old }
        ensures taken { Self.Log.events log.new ≡ trace self.old }
        ensures same { told self.new ≡ told self.old };

    /// Listens at the port for at most this many connections.
    fn listen(&mut self, port: u16, connections: u64) -> Result<(), Failed>
        ensures traced { MatchResult result
            (λ _. trace self.new ≡ trace self.old ++ Listened port connections ∷ [])
            (λ _. trace self.new ≡ trace self.old ++ ListenFailed port connections ∷ []) }
        ensures listens { (told self.new).listens
            ≡ add_listen (told self.old).listens port connections }
        ensures fine { OnOk result ((told self.new).next_faults ≡ (told self.old).next_faults) }
        ensures failed { OnErr result (Rose (told self.old).next_faults
            (told self.new).next_faults) }
        ensures stays { ((told self.new).account ≡ (told self.old).account)
            × ((told self.new).faults ≡ (told self.old).faults)
            × ((told self.new).given ≡ (told self.old).given)
            × ((told self.new).left ≡ (told self.old).left)
            × ((told self.new).watches ≡ (told self.old).watches) };

    /// Watches the file at the path: after each `every` connections that ended, what is there may come as a `Change`. Out of
    /// memory nothing is reported of the call.
    fn watch(&mut self, alloc: Global, path: &Str, every: u64) -> Result<(), WireEnd>
        ensures traced { MatchResult result
            (λ _. trace self.new ≡ trace self.old ++ Watched path.now every ∷ [])
            (λ _. trace self.new ≡ trace self.old ++ WatchFailed path.now every ∷ []) }
        ensures watches { IsWatched path.now every (told self.old).watches (told self.new).watches
            result }
        ensures fine { OnOk result ((told self.new).next_faults ≡ (told self.old).next_faults) }
        ensures failed { IsErrOf result WireEnd.Failed
            → Rose (told self.old).next_faults (told self.new).next_faults }
        ensures short { IsErrOf result WireEnd.NoMemory → told self.new ≡ told self.old }
        ensures stays { ((told self.new).account ≡ (told self.old).account)
            × ((told self.new).faults ≡ (told self.old).faults)
            × ((told self.new).given ≡ (told self.old).given)
            × ((told self.new).left ≡ (told self.old).left)
            × ((told self.new).listens ≡ (told self.old).listens) };

    /// The next event. Where the events left are reported it is the first of them, or `Done` where none is left. Out of
    /// memory no call has failed.
    fn next(&mut self, alloc: Global) -> Result<WireEvent, WireEnd>
        ensures traced { MatchResult result
            (λ event. trace self.new ≡ trace self.old ++ Given event ∷ [])
            (λ _. trace self.new ≡ trace self.old ++ NextFailed ∷ []) }
        ensures given { IfOk result (λ event. (told self.new).given
            ≡ add_event (told self.old).given event) }
        ensures left { IfOk result (λ event. IsNextOf (told self.old).left event
            (told self.new).left) }
        ensures err { OnErr result (((told self.new).given ≡ (told self.old).given)
            × ((told self.new).left ≡ (told self.old).left)) }
        ensures fine { OnOk result ((told self.new).next_faults ≡ (told self.old).next_faults) }
        ensures failed { IsErrOf result WireEnd.Failed
            → Rose (told self.old).next_faults (told self.new).next_faults }
        ensures short { IsErrOf result WireEnd.NoMemory
            → (told self.new).next_faults ≡ (told self.old).next_faults }
        ensures stays { ((told self.new).account ≡ (told self.old).account)
            × ((told self.new).faults ≡ (told self.old).faults)
            × ((told self.new).listens ≡ (told self.old).listens)
            × ((told self.new).watches ≡ (told self.old).watches) };

    /// Sends bytes to a connection. They are taken whole, and go out as the client takes them, in this order, also after it
    /// is closed. Where that fails, some first bytes were taken.
    fn send(&mut self, connection: u64, bytes: &[u8]) -> Result<(), Failed>
        ensures traced { MatchResult result
            (λ _. trace self.new ≡ trace self.old ++ Sent connection bytes.now ∷ [])
            (λ _. (taken : ℕ)
            × (trace self.new ≡ trace self.old ++ SendFailed connection bytes.now taken ∷ [])
            × ((told self.new).account connection
            ≡ send_to ((told self.old).account connection) (take taken bytes.now))) }
        ensures ok { OnOk result ((told self.new).account connection
            ≡ send_to ((told self.old).account connection) bytes.now) }
        ensures fine { OnOk result ((told self.new).faults connection
            ≡ (told self.old).faults connection) }
        ensures failed { OnErr result (Rose ((told self.old).faults connection)
            ((told self.new).faults connection)) }
        ensures others { OtherAccountsStay connection (told self.old) (told self.new) }
        ensures others_fine { OtherFaultsStay connection (told self.old) (told self.new) }
        ensures stays { EventsStay (told self.old) (told self.new) };

    /// Closes a connection: no event comes of it any more. It takes no memory.
    fn close(&mut self, connection: u64)
        ensures traced { trace self.new ≡ trace self.old ++ Closed connection ∷ [] }
        ensures closed { (told self.new).account connection
            ≡ close_to ((told self.old).account connection) }
        ensures others { OtherAccountsStay connection (told self.old) (told self.new) }
        ensures faults_stay { (other : ℕ)
            → (told self.new).faults other ≡ (told self.old).faults other }
        ensures stays { EventsStay (told self.old) (told self.new) };

    /// Lets out what connections have still to take, as long as they are waited for, and lets all of them go.
    fn finish(&mut self)
        ensures traced { trace self.new ≡ trace self.old ++ Finished ∷ [] }
        ensures stays { told self.new ≡ told self.old };
}

/// What replies add to the account of a connection: one send each, in their order.
pub fn one_delivery()
    ensures { (a : Account) (replies : List (List ℕ))
        → gain (Some a) replies ≡ Some (a ++ map Took replies) }
{}

/// What is noted of one part and of the next is noted of both.
pub fn parts_are_noted()
    ensures { (before between after : List Happening) (old now new : ℕ → Option Account)
        → Noted before between old now → Noted between after now new
        → Noted before after old new }
{}
