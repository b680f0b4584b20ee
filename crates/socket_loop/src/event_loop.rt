// The loop: it waits until the system reports a connection, and lets those that are reported have their turns.
ghost use Rattle.std.specs.Prelude.{⊤, ◌≡◌, ◌≤◌, length, IfErr};

use crate::accepting::{Arrival, take_waiting};
use crate::connections::{Connections, Signal};
use crate::waits::Waits;
use byte_queue::CutOff;
use mio::unix::SourceFd;
use mio::{Events, Interest, Poll, Token};
use std::alloc::Global;
use std::io::{Read, Write};
use std::marker::Model;
use std::net::{Net, OpenListener, OpenStream};
use std::os::fd::AsRawFd;
use std::time::{Clock, Duration};

/// How many reports one wait gives at most.
const REPORTS: usize = 1024;

/// The token of the listener. Those of connections begin at 1.
const LISTENER: usize = 0;

/// How often all connections are looked at for those whose time is over, in milliseconds.
const SWEEP: u64 = 50;

/// How often a connection is tried to be taken, while none is open, before that counts as a failure.
const TRIES: u32 = 100;

/// How long a failing try is followed by none, in milliseconds.
const PAUSE: u64 = 10;

/// A listener and the connections that were taken from it.
#[derive(Drop)]
pub struct EventLoop<L, S> {
    listener: L,
    poll: Poll,
    reports: Events,
    connections: Connections<S>,
    waits: Waits,
    /// How many connections are open at once.
    open: usize,
    /// Connections may wait to be taken.
    is_awaited: bool,
    /// The last try to take one failed.
    is_stuck: bool,
    /// How many tries failed, one after another, while none was open.
    failed: u32,
    /// When all connections were looked at, in milliseconds.
    swept: u64,
}

// Clauses see nothing of the loop, as they don't of its connections.
impl<L, S> Model for EventLoop<L, S> {
    ghost Value = { ⊤ };

    ghost view = { λ _. tt };
}

impl<
    S: Read + Write + OpenStream + AsRawFd + Drop,
    L: OpenListener<Stream = S> + AsRawFd + Drop,
> EventLoop<L, S> {
    /// A loop over the connections of this listener, of which at most so many are open at once. Nothing where the system
    /// or memory refuses it.
    pub fn new<R: Net>(
        alloc: Global,
        net: &R,
        listener: L,
        waits: Waits,
        open: usize,
    ) -> Option<Self> {
        let poll = Poll::new(net).ok()?;
        let reports = Events::with_capacity(alloc, REPORTS).ok()?;
        let descriptor = listener.as_raw_fd();
        let source = &mut SourceFd(&descriptor);
        let registry = poll.registry();
        registry
            .register(source, Token(LISTENER), Interest::READABLE)
            .ok()?;
        Some(EventLoop {
            listener,
            poll,
            reports,
            connections: Connections::new(alloc, waits),
            waits,
            open: open.max(1),
            is_awaited: true,
            is_stuck: false,
            failed: 0,
            swept: 0,
        })
    }

    /// The port that the listener listens at.
    pub fn port(&self) -> Option<u16> {
        match self.listener.local_addr() {
            Ok(address) => Some(address.port()),
            Err(_) => None,
        }
    }

    /// What comes next of any connection, for which this waits. Nothing where no more connections are taken and none is left,
    /// and where the wait fails or no connection can be taken.
    pub fn next<C: Clock>(&mut self, clock: &C, accepts: bool) -> Option<Signal> {
        self.connections.tick(clock);
        for _ in 0..u64::MAX {
            if let Some(token) = self.connections.next_listed() {
                let signal = self.connections.visit(token, &self.poll);
                if signal.is_some() {
                    return signal;
                }
                continue;
            }
            let is_left = accepts || self.connections.len() > 0;
            if !is_left || self.failed >= TRIES || !self.wait(clock, accepts) {
                break;
            }
        }
        self.failed = 0;
        None
    }

    // Waits until something can be done, and begins a round. Does the system let it?
    fn wait<C: Clock>(&mut self, clock: &C, accepts: bool) -> bool {
        let timeout = self.timeout(accepts);
        if self.poll.poll(&mut self.reports, timeout).is_err() {
            return false;
        }
        let now = self.connections.tick(clock);
        self.note_reports();
        if accepts {
            self.accept_all();
        } else {
            self.connections.part_unopened();
        }
        if now.saturating_sub(self.swept) >= SWEEP {
            self.swept = now;
            self.is_stuck = false;
            self.connections
                .sweep(self.waits, accepts && self.is_awaited);
        }
        self.connections.begin_round();
        true
    }

    // How long the system is waited for: not at all where connections are listed, and else until the next sweep, if one is
    // open or may be.
    fn timeout(&mut self, accepts: bool) -> Option<Duration> {
        if self.connections.is_busy() {
            Some(Duration::from_millis(0))
        } else if accepts && self.is_stuck {
            Some(Duration::from_millis(PAUSE))
        } else if self.connections.len() > 0 || (accepts && self.is_awaited) {
            Some(Duration::from_millis(SWEEP))
        } else {
            None
        }
    }

    // Lists the connections that were reported. Where nothing was, a failing try to take one may be followed by another.
    fn note_reports(&mut self) {
        if self.reports.is_empty() {
            self.is_stuck = false;
        }
        for report in self.reports.iter() {
            let token = report.token().0;
            if token == LISTENER {
                self.is_awaited = true;
            } else {
                self.connections.wake(token as u64, report.is_read_closed());
            }
        }
    }

    // Takes the connections that wait, while there is room.
    fn accept_all(&mut self) {
        for _ in 0..REPORTS {
            if !self.is_awaited || self.is_stuck || self.connections.len() >= self.open {
                return;
            }
            match take_waiting(&self.listener) {
                Arrival::Came(stream) => {
                    self.failed = 0;
                    self.connections.admit(stream);
                }
                Arrival::Nobody => self.is_awaited = false,
                Arrival::Failed => self.note_failure(),
            }
        }
    }

    // A try to take a connection failed. Most failures pass: a client has gone, or the system is short of something that the
    // connections that are open give back.
    fn note_failure(&mut self) {
        self.is_stuck = true;
        if self.connections.len() == 0 {
            self.failed = self.failed.saturating_add(1);
        }
    }

    /// A connection was opened under this number.
    pub fn name(&mut self, token: u64, number: u64) {
        self.connections.name(token, number);
    }

    /// Sends to a connection, which is let go where that fails.
    pub fn send<C: Clock>(&mut self, clock: &C, token: u64, bytes: &[u8]) -> Result<(), CutOff>
        ensures { IfErr result (λ cut. cut.taken ≤ length bytes.now) }
    {
        self.connections.tick(clock);
        self.connections.send(token, bytes)
    }

    /// Lets a connection go at once.
    pub fn cut(&mut self, token: u64) {
        self.is_stuck = false;
        self.connections.remove(token);
    }

    /// Closes a connection: it is let go once it has taken what is queued.
    pub fn part(&mut self, token: u64, refused: bool) {
        self.is_stuck = false;
        self.connections.part(token, refused, &self.poll);
    }

    /// Closes all connections, and waits until they have taken what is queued or their time is over.
    pub fn finish<C: Clock>(&mut self, clock: &C) {
        self.connections.part_all();
        for _ in 0..u64::MAX {
            if self.next(clock, false).is_none() {
                return;
            }
        }
    }
}
