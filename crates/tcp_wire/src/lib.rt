//! A wire over the system's sockets at 127.0.0.1: many connections at once, by the system's reports of which are ready.
#![tactic(auto)]

ghost use Rattle.std.specs.Prelude.{◌≡◌, ◌≤◌, ◌<◌, ℕ, take, length, Some, None, Err, IfOk, IfErr, OnOk, OnErr, IsErrOf, IfSome};
ghost use Rattle.std.specs.Prelude.{IsSome, MatchResult, option_map};
ghost use Rattle.std.specs.declared.net.socket_addr.SocketAddr.TheVariants.{V4};
ghost use Rattle.edge_io.specs.Counts.{Rose};
ghost use Rattle.wire.specs.Accounts.{send_to, close_to, up};
ghost use Rattle.wire.specs.Events.{add_event, IsNextOf, add_listen, IsWatched};
ghost use Rattle.wire.specs.Told.{EventsStay, OtherAccountsStay, OtherFaultsStay};
ghost use Rattle.std.specs.Prelude.{◌++◌, ◌∷◌, []};
ghost use Rattle.tcp_wire.specs.Book.{line_of, new_book};
ghost use Rattle.tcp_wire.specs.TcpState.{GivesChange, IsNextIn, IsSent, MissesNext, goes, all_gone};
ghost use Rattle.tcp_wire.specs.TcpState.{local_address, parting_of, noted_told, told_of, without_change};

mod book;
mod parting;
mod source;
mod watch;

use book::Book;
use byte_queue::CutOff;
use edge_io::{Failed, Files};
use happenings::Log;
use parting::{Parting, refuses};
use sd_value::Str;
pub use socket_loop::Waits;
use socket_loop::{EventLoop, News, Piece, Signal, listen_at};
use source::{Source, time_of};
use std::alloc::Global;
use std::marker::Model;
use std::mem::swap;
use std::net::{Ipv4Addr, Net, SocketAddr, SocketAddrV4};
use std::time::Clock;
use watch::Watch;
use wire::{Wire, WireEnd, WireEvent};

/// Connections to 127.0.0.1, many at once. A connection is opened only once it has sent something, or its input has
/// ended; one that sends nothing for long enough (`Waits`) is let go and never opened. Each has its turns: in one it
/// takes what it has room for of what it was sent, and gives what it has sent up to the end of a request's head. It is
/// open until it is closed, a send to it fails or it is lost. It is lost where it gives or takes nothing for long
/// enough, or too slowly, where too many pieces come without a reply, where memory is refused for what it sent, and
/// where the replies that are queued for all take too much memory and it has taken nothing for longest. A file that is
/// watched is looked at after each so many connections that ended, when the next one has come and before it is opened.
/// It is read where it may have changed, and gives a change where it holds another text than at the last read; where
/// the read fails it gives none, and where it holds a beginning of that text, not while it was changed less than a
/// second ago. The wire reports nothing of what its connections send, and the count of failed sends of each is at its
/// last value, where every failure counts as a rise.
#[derive(Drop)]
struct Sockets<'r, R: Net + Clock, F> {
    alloc: Global,
    system: &'r R,
    /// Where the watched file is read.
    source: Source<F>,
    watch: Option<Watch>,
    waits: Waits,
    /// How many connections are open at once.
    open: usize,
    /// The loop over the connections, and the address, where the wire listens.
    running: Option<EventLoop<R::Listener, R::Stream>>,
    address: Option<SocketAddr>,
    /// What came of a connection that is not opened yet, where another event was given before it.
    held: Option<Signal>,
    /// The connections that are open.
    book: Book,
    next_faults: u64,
}

impl<'r, R: Net + Clock, F> Model for Sockets<'r, R, F> {
    ghost use Rattle.tcp_wire.specs.TcpState.{TcpState};

    ghost Value = { TcpState };

    ghost view = { λ w. record {
      book = w.book;
      next_faults = w.next_faults;
      address = w.address;
      watch = w.watch;
    } };
}

impl<'r, R: Net + Clock, F: Files> Sockets<'r, R, F> {
    /// A wire that does not listen yet: until then it has no connection to give. A file is watched in `files`.
    pub(crate) fn new(alloc: Global, system: &'r R, files: F, waits: Waits, open: usize) -> Self
        ensures { result
            ≡ record { book = new_book; next_faults = 0; address = None; watch = None } }
    {
        Sockets {
            alloc,
            system,
            source: Source::new(files),
            watch: None,
            waits,
            open,
            running: None,
            address: None,
            held: None,
            book: Book::new(alloc),
            next_faults: 0,
        }
    }

    /// The port that the wire listens at, where it listens.
    pub(crate) fn port(&self) -> Option<u16>
        ensures { IsSome result → IsSome self.now.address }
    {
        let _listens = self.address?;
        self.running.as_ref()?.port()
    }

    // Lets a connection of the loop go at once.
    fn cut(&mut self, token: u64)
        ensures { self.new ≡ self.old }
    {
        if let Some(running) = &mut self.running {
            running.cut(token);
        }
    }

    // What comes next of any connection: what was held, or else what the loop gives.
    fn next_signal(&mut self) -> Option<Signal>
        ensures { self.new ≡ self.old }
    {
        let held = self.held.take();
        if held.is_some() {
            return held;
        }
        let accepts = self.book.expects_more();
        match &mut self.running {
            Some(running) => running.next(self.system, accepts),
            None => None,
        }
    }

    // What the watched file holds, where it is to be looked at and holds another text than before.
    fn look(&mut self, alloc: Global) -> Option<Str>
        ensures none { result ≡ None → self.new ≡ self.old }
        ensures some { IfSome result (λ text. GivesChange self.old text self.new) }
    {
        let mut watch = self.watch.take()?;
        let now = time_of(self.system);
        let text = watch.look(alloc, &mut self.source, now, self.book.ended());
        self.watch = Some(watch);
        text
    }

    // The next connection is opened without a change.
    fn pass(&mut self)
        ensures { self.new ≡ without_change self.old }
    {
        if let Some(mut watch) = self.watch.take() {
            watch.pass(self.book.ended());
            self.watch = Some(watch);
        }
    }

    // The change that comes before the next connection is opened, if one does.
    fn change(&mut self, alloc: Global) -> Option<Str>
        ensures none { result ≡ None → self.new ≡ self.old }
        ensures some { IfSome result (λ text. (0 < self.old.book.left)
            × GivesChange self.old text self.new) }
    {
        if !self.book.expects_more() {
            return None;
        }
        let text = self.look(alloc)?;
        Some(text)
    }

    // Opens the connection of which this came, which is held until then, or gives a change before. Where memory for it is
    // refused, and where no more are opened, it is let go.
    fn open(&mut self, alloc: Global, token: u64, news: News) -> Option<WireEvent>
        ensures none { result ≡ None → self.new ≡ self.old }
        ensures some { IfSome result (λ event. IsNextIn self.old event self.new) }
    {
        if let Some(text) = self.change(alloc) {
            self.hold(token, 0, news);
            return Some(WireEvent::Change(text));
        }
        let Some(number) = self.book.open(token) else {
            self.cut(token);
            return None;
        };
        self.pass();
        self.name(token, number);
        self.hold(token, number, news);
        Some(WireEvent::Opened(number))
    }

    // Holds what came of a connection.
    fn hold(&mut self, token: u64, number: u64, news: News)
        ensures { self.new ≡ self.old }
    {
        self.held = Some(Signal {
            token,
            number,
            news,
        });
    }

    // Tells the loop the number of a connection.
    fn name(&mut self, token: u64, number: u64)
        ensures { self.new ≡ self.old }
    {
        if let Some(running) = &mut self.running {
            running.name(token, number);
        }
    }

    // A piece of a connection. Where too many came without a reply it is lost.
    fn take_piece(&mut self, token: u64, number: u64, piece: Piece) -> Option<WireEvent>
        ensures none { result ≡ None → self.new ≡ self.old }
        ensures some { IfSome result (λ event. IsNextIn self.old event self.new) }
    {
        if self.book.take_piece(number) {
            return Some(WireEvent::Bytes(number, piece.into_text()));
        }
        self.cut(token);
        self.lose(number)
    }

    // The end of a connection's input.
    fn take_end(&mut self, number: u64) -> Option<WireEvent>
        ensures none { result ≡ None → self.new ≡ self.old }
        ensures some { IfSome result (λ event. IsNextIn self.old event self.new) }
    {
        if self.book.take_end(number) {
            Some(WireEvent::Ended(number))
        } else {
            None
        }
    }

    // The loss of a connection, if it is open.
    fn lose(&mut self, number: u64) -> Option<WireEvent>
        ensures none { result ≡ None → self.new ≡ self.old }
        ensures some { IfSome result (λ event. IsNextIn self.old event self.new) }
    {
        match self.book.let_go(number) {
            Some(_) => Some(WireEvent::Lost(number)),
            None => None,
        }
    }

    // The event of a signal, if it makes one.
    fn take(&mut self, alloc: Global, signal: Signal) -> Option<WireEvent>
        ensures none { result ≡ None → self.new ≡ self.old }
        ensures some { IfSome result (λ event. IsNextIn self.old event self.new) }
    {
        let Signal {
            token,
            number,
            news,
        } = signal;
        if number == 0 {
            return self.open(alloc, token, news);
        }
        match news {
            News::Bytes(piece) => self.take_piece(token, number, piece),
            News::Ended => self.take_end(number),
            News::Lost => self.lose(number),
        }
    }

    // The next event.
    #[tactic(auto, using(crate::proofs::Next::faults_stay))]
    fn draw(&mut self, alloc: Global) -> Result<WireEvent, WireEnd>
        ensures event { IfOk result (λ event. IsNextIn self.old event self.new) }
        ensures fine { OnOk result (self.new.next_faults ≡ self.old.next_faults) }
        ensures err { MatchResult result (λ event. Unit {0}) (MissesNext self.old self.new) }
    {
        for _ in 0..u64::MAX {
            let Some(signal) = self.next_signal() else {
                break;
            };
            if let Some(event) = self.take(alloc, signal) {
                return Ok(event);
            }
        }
        self.end()
    }

    // Nothing comes any more: connections that are open still are lost, and then the wire is done, or has failed.
    fn end(&mut self) -> Result<WireEvent, WireEnd>
        ensures event { IfOk result (λ event. IsNextIn self.old event self.new) }
        ensures fine { OnOk result (self.new.next_faults ≡ self.old.next_faults) }
        ensures err { MatchResult result (λ event. Unit {0}) (MissesNext self.old self.new) }
    {
        if let Some(number) = self.book.first() {
            self.book.let_go(number);
            return Ok(WireEvent::Lost(number));
        }
        if !self.book.expects_more() {
            return Ok(WireEvent::Done);
        }
        self.next_faults = self.next_faults.saturating_add(1);
        Err(WireEnd::Failed)
    }

    // Listens at this address.
    fn start(&mut self, address: SocketAddr) -> Result<(), Failed>
        ensures ok { OnOk result (self.new ≡ record self.old { address = Some address }) }
        ensures err { OnErr result (self.new ≡ self.old) }
    {
        let Some(listener) = listen_at(self.system, address) else {
            return Err(Failed);
        };
        let running = EventLoop::new(self.alloc, self.system, listener, self.waits, self.open);
        if running.is_none() {
            return Err(Failed);
        }
        self.running = running;
        self.address = Some(address);
        Ok(())
    }

    // Listens at 127.0.0.1.
    fn bind(&mut self, port: u16, connections: u64) -> Result<(), Failed>
        ensures ok { OnOk result (self.new ≡ record self.old {
          book = record self.old.book { left = connections };
          address = Some (local_address port);
        }) }
        ensures err { OnErr result (self.new
            ≡ record self.old { next_faults = up self.old.next_faults }) }
    {
        let address = SocketAddr::from(SocketAddrV4::new(Ipv4Addr::LOCALHOST, port));
        match self.start(address) {
            Ok(()) => {
                self.book.expect(connections);
                Ok(())
            }
            Err(_) => {
                self.next_faults = self.next_faults.saturating_add(1);
                Err(Failed)
            }
        }
    }

    // The loop's part of a send.
    fn pass_on(&mut self, token: u64, bytes: &[u8]) -> Result<(), CutOff>
        ensures same { self.new ≡ self.old }
        ensures err { IfErr result (λ cut. cut.taken ≤ length bytes.now) }
    {
        match &mut self.running {
            Some(running) => running.send(self.system, token, bytes),
            None => Err(CutOff { taken: 0 }),
        }
    }

    // Sends to a connection that is open, which is let go where that fails. No other takes anything.
    fn give(&mut self, connection: u64, bytes: &[u8]) -> Result<(), CutOff>
        ensures ok { OnOk result (IsSent connection bytes.now self.old self.new) }
        ensures err { OnErr result (self.new ≡ goes connection self.old) }
        ensures taken { IfErr result (λ cut. cut.taken ≤ length bytes.now) }
    {
        let Some(line) = self.book.line(connection) else {
            return Err(CutOff { taken: 0 });
        };
        if let Err(cut) = self.pass_on(line.token, bytes) {
            self.book.let_go(connection);
            return Err(cut);
        }
        self.book.reply(connection, refuses(bytes));
        Ok(())
    }

    // Lets a connection go, if it is open.
    fn let_go(&mut self, connection: u64) -> Option<Parting>
        ensures parted { result ≡ parting_of connection self.old }
        ensures gone { self.new ≡ goes connection self.old }
    {
        let line = self.book.let_go(connection)?;
        let refused = line.progress.refused;
        if let Some(running) = &mut self.running {
            running.part(line.token, refused);
        }
        Some(Parting::of(refused))
    }
}

impl<R: Net + Clock, F: Files> Sockets<'_, R, F> {
    /// Listens at 127.0.0.1.
    pub(crate) fn listen(&mut self, port: u16, connections: u64) -> Result<(), Failed>
        ensures listens { (told_of self.new).listens
            ≡ add_listen (told_of self.old).listens port connections }
        ensures fine { OnOk result ((told_of self.new).next_faults
            ≡ (told_of self.old).next_faults) }
        ensures failed { OnErr result (Rose (told_of self.old).next_faults
            (told_of self.new).next_faults) }
        ensures stays { ((told_of self.new).account ≡ (told_of self.old).account)
            × ((told_of self.new).faults ≡ (told_of self.old).faults)
            × ((told_of self.new).given ≡ (told_of self.old).given)
            × ((told_of self.new).left ≡ (told_of self.old).left)
            × ((told_of self.new).watches ≡ (told_of self.old).watches) }
        ensures at { OnOk result (self.new ≡ record self.old {
          book = record self.old.book { left = connections };
          address = Some (local_address port);
        }) }
        ensures nowhere { OnErr result (self.new
            ≡ record self.old { next_faults = up self.old.next_faults }) }
    {
        self.bind(port, connections)
    }

    /// Never `Failed`: the file is read later.
    pub(crate) fn watch(&mut self, alloc: Global, path: &Str, every: u64) -> Result<(), WireEnd>
        ensures watches { IsWatched path.now every (told_of self.old).watches
            (told_of self.new).watches result }
        ensures fine { OnOk result ((told_of self.new).next_faults
            ≡ (told_of self.old).next_faults) }
        ensures failed { IsErrOf result WireEnd.Failed
            → Rose (told_of self.old).next_faults (told_of self.new).next_faults }
        ensures short { IsErrOf result WireEnd.NoMemory → told_of self.new ≡ told_of self.old }
        ensures stays { ((told_of self.new).account ≡ (told_of self.old).account)
            × ((told_of self.new).faults ≡ (told_of self.old).faults)
            × ((told_of self.new).given ≡ (told_of self.old).given)
            × ((told_of self.new).left ≡ (told_of self.old).left)
            × ((told_of self.new).listens ≡ (told_of self.old).listens) }
        ensures watching { OnOk result (self.new ≡ record self.old {
          watch = Some (record {
            path = path.now;
            every = every;
            read_at = self.old.book.ended;
            last = None;
          });
        }) }
        ensures short_only { OnErr result
            ((result ≡ Err WireEnd.NoMemory) × (self.new ≡ self.old)) }
    {
        let Ok(path) = path.copy(alloc) else {
            return Err(WireEnd::NoMemory);
        };
        self.watch = Some(Watch {
            path,
            every,
            read_at: self.book.ended(),
            last: None,
        });
        Ok(())
    }

    /// `Failed` where no connection could be taken, or the system doesn't wait. It never runs out of memory: that costs a
    /// connection.
    pub(crate) fn next(&mut self, alloc: Global) -> Result<WireEvent, WireEnd>
        ensures given { IfOk result (λ event. (told_of self.new).given
            ≡ add_event (told_of self.old).given event) }
        ensures left { IfOk result (λ event. IsNextOf (told_of self.old).left event
            (told_of self.new).left) }
        ensures err { OnErr result (((told_of self.new).given ≡ (told_of self.old).given)
            × ((told_of self.new).left ≡ (told_of self.old).left)) }
        ensures fine { OnOk result ((told_of self.new).next_faults
            ≡ (told_of self.old).next_faults) }
        ensures failed { IsErrOf result WireEnd.Failed
            → Rose (told_of self.old).next_faults (told_of self.new).next_faults }
        ensures short { IsErrOf result WireEnd.NoMemory
            → (told_of self.new).next_faults ≡ (told_of self.old).next_faults }
        ensures stays { ((told_of self.new).account ≡ (told_of self.old).account)
            × ((told_of self.new).faults ≡ (told_of self.old).faults)
            × ((told_of self.new).listens ≡ (told_of self.old).listens)
            × ((told_of self.new).watches ≡ (told_of self.old).watches) }
        ensures event { IfOk result (λ event. IsNextIn self.old event self.new) }
        ensures misses { IfErr result (MissesNext self.old self.new) }
    {
        self.draw(alloc)
    }

    /// What the connection has no room for is queued. Fails where it is not open, and where it is gone or memory for the
    /// queue is refused, which lets it go.
    pub(crate) fn send(&mut self, connection: u64, bytes: &[u8]) -> Result<(), CutOff>
        ensures stays { EventsStay (told_of self.old) (told_of self.new) }
        ensures sent { OnOk result (IsSent connection bytes.now self.old self.new) }
        ensures gone { OnErr result (self.new ≡ goes connection self.old) }
        ensures taken { IfErr result (λ cut. cut.taken ≤ length bytes.now) }
    {
        self.give(connection, bytes)
    }

    /// Lets the connection go, if it is open: at once, or as soon as it has taken what is queued.
    pub(crate) fn close(&mut self, connection: u64)
        ensures stays { EventsStay (told_of self.old) (told_of self.new) }
        ensures gone { self.new ≡ goes connection self.old }
    {
        self.let_go(connection);
    }

    /// Lets all connections go as soon as they have taken what is queued, or their time is over.
    pub(crate) fn finish(&mut self)
        ensures { self.new ≡ all_gone self.old }
    {
        self.held = None;
        self.book.clear();
        if let Some(running) = &mut self.running {
            running.finish(self.system);
        }
    }
}

/// These connections, with a log of what is done to them.
#[derive(Drop)]
pub struct TcpWire<'r, R: Net + Clock, F> {
    sockets: Sockets<'r, R, F>,
    log: Log,
    /// What was done to its connections from the start.
    history: Log,
}

impl<'r, R: Net + Clock, F> Model for TcpWire<'r, R, F> {
    ghost use Rattle.tcp_wire.specs.TcpState.{TcpNoted};

    ghost Value = { TcpNoted };

    ghost view = { λ w. record {
      state = w.sockets;
      trace = w.log.events;
      history = w.history.events;
    } };
}

impl<'r, R: Net + Clock, F: Files> TcpWire<'r, R, F> {
    /// A wire that does not listen yet: until then it has no connection to give. A file is watched in `files`.
    /// At most `open` connections are open at once, and no more than the system has descriptors for; beyond them new ones
    /// wait in the system's queue.
    pub fn new(alloc: Global, system: &'r R, files: F, waits: Waits, open: usize) -> Self
        ensures { (result.trace ≡ []) × (result.history ≡ []) }
    {
        TcpWire {
            sockets: Sockets::new(alloc, system, files, waits, open),
            log: Log::new(),
            history: Log::new(),
        }
    }

    /// The port that the wire listens at, where it listens.
    pub fn port(&self) -> Option<u16>
        ensures { IsSome result → IsSome self.now.state.address }
    {
        self.sockets.port()
    }
}

impl<R: Net + Clock, F: Files> Wire for TcpWire<'_, R, F> {
    type Log = Log;

    ghost told = { noted_told };

    ghost trace = { λ w. w.trace };

    fn lend(&mut self, log: &mut Log) {
        swap(&mut self.log, log);
    }

    fn listen(&mut self, port: u16, connections: u64) -> Result<(), Failed> {
        let result = self.sockets.listen(port, connections);
        match &result {
            Ok(()) => self.log.listened(port, connections),
            Err(_) => self.log.listen_failed(port, connections),
        }
        result
    }

    fn watch(&mut self, alloc: Global, path: &Str, every: u64) -> Result<(), WireEnd> {
        let result = self.sockets.watch(alloc, path, every);
        match &result {
            Ok(()) => self.log.watched(path.bytes(), every),
            Err(_) => self.log.watch_failed(path.bytes(), every),
        }
        result
    }

    fn next(&mut self, alloc: Global) -> Result<WireEvent, WireEnd> {
        let result = self.sockets.next(alloc);
        match &result {
            Ok(event) => self.log.given(event),
            Err(_) => self.log.next_failed(),
        }
        result
    }

    fn send(&mut self, connection: u64, bytes: &[u8]) -> Result<(), Failed> {
        match self.sockets.send(connection, bytes) {
            Ok(()) => {
                self.log.sent(connection, bytes);
                self.history.sent(connection, bytes);
                Ok(())
            }
            Err(CutOff { taken }) => {
                let taken = taken as u64;
                self.log.send_failed(connection, bytes, taken);
                self.history.send_failed(connection, bytes, taken);
                Err(Failed)
            }
        }
    }

    fn close(&mut self, connection: u64) {
        self.sockets.close(connection);
        self.log.closed(connection);
        self.history.closed(connection);
    }

    fn finish(&mut self) {
        self.sockets.finish();
        self.log.finished();
    }
}
