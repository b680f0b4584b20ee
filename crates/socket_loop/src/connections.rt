// The connections that are open, and whose turn is next.
ghost use Rattle.std.specs.Prelude.{⊤, ◌≡◌, ◌≤◌, length, IfErr};

use crate::peer::{News, Peer};
use crate::waits::Waits;
use byte_queue::CutOff;
use mio::unix::SourceFd;
use mio::{Interest, Poll, Token};
use std::alloc::Global;
use std::collections::{BTreeMap, VecDeque};
use std::io::{Read, Write};
use std::marker::Model;
use std::net::OpenStream;
use std::os::fd::AsRawFd;
use std::time::Clock;

/// The longest read, in bytes.
const BUFFER: usize = 16384;

/// How many bytes are queued at most, of all connections together.
const MOST_QUEUED: usize = 67_108_864;

/// How long a connection is waited for where others wait for its place, in milliseconds.
const CROWDED: u32 = 3_000;

/// News of a connection: of its token, under its number, which is 0 where it is not opened yet.
#[derive(Drop)]
pub struct Signal {
    pub token: u64,
    pub number: u64,
    pub news: News,
}

/// The connections, and which of them are visited next, each at most once in a round.
#[derive(Drop)]
pub struct Connections<S> {
    alloc: Global,
    waits: Waits,
    /// The connections by their tokens.
    peers: BTreeMap<u64, Peer<S>>,
    /// The last token. None is used again, so that a late report of a connection finds no other one.
    token: u64,
    /// The tokens of those that are listed.
    listed: VecDeque<u64>,
    /// How many of them are visited before the system is asked again.
    round: usize,
    /// How many bytes are queued.
    queued: usize,
    /// The time as it was last read, in milliseconds. Where the clock fails it stands still.
    now: u64,
    buffer: [u8; BUFFER],
}

// Clauses see nothing of the connections themselves, which keeps the proofs of the wire small.
impl<S> Model for Connections<S> {
    ghost Value = { ⊤ };

    ghost view = { λ _. tt };
}

impl<S: Read + Write + OpenStream + AsRawFd + Drop> Connections<S> {
    /// No connection is open.
    pub fn new(alloc: Global, waits: Waits) -> Self {
        Connections {
            alloc,
            waits,
            peers: BTreeMap::new(alloc),
            token: 0,
            listed: VecDeque::new(alloc),
            round: 0,
            queued: 0,
            now: 0,
            buffer: [0; BUFFER],
        }
    }

    /// How many connections are open.
    pub fn len(&self) -> usize {
        self.peers.len()
    }

    /// Whether some are to be visited. Those that are gone are no longer listed then, up to the first other one.
    pub fn is_busy(&mut self) -> bool {
        for _ in 0..self.listed.len() {
            match self.listed.front() {
                Some(token) if self.peers.contains_key(token) => return true,
                _ => {}
            }
            let _ = self.listed.pop_front();
        }
        false
    }

    /// The time, as the clock has it now, in milliseconds.
    pub fn tick<C: Clock>(&mut self, clock: &C) -> u64 {
        if let Ok(time) = clock.monotonic()
            && let Ok(now) = u64::try_from(time.as_millis())
        {
            self.now = now;
        }
        self.now
    }

    // Lists a connection for a visit.
    fn list(&mut self, token: u64) {
        if let Some(peer) = self.peers.get_mut(&token)
            && !peer.is_listed
        {
            peer.is_listed = self.listed.push_back(token).is_ok();
        }
    }

    /// A new connection. Where memory for it is refused it is let go.
    pub fn admit(&mut self, stream: S) {
        if stream.set_nonblocking(true).is_err() || self.listed.reserve(self.peers.len()).is_err() {
            return;
        }
        self.token = self.token.saturating_add(1);
        let peer = Peer::new(self.alloc, stream, self.now);
        if self.peers.insert(self.token, peer).is_ok() {
            self.list(self.token);
        }
    }

    /// The system has reported a connection.
    pub fn wake(&mut self, token: u64, has_hung_up: bool) {
        if let Some(peer) = self.peers.get_mut(&token) {
            peer.wake(has_hung_up);
        }
        self.list(token);
    }

    /// A round of visits begins, of all that are listed now.
    pub fn begin_round(&mut self) {
        self.round = self.listed.len();
    }

    /// The connection that is visited next in this round.
    pub fn next_listed(&mut self) -> Option<u64> {
        if self.round == 0 {
            return None;
        }
        self.round -= 1;
        self.listed.pop_front()
    }

    // So many bytes were queued before, and so many are now.
    fn count(&mut self, before: usize, after: usize) {
        self.queued = self.queued.saturating_sub(before).saturating_add(after);
    }

    /// Lets a connection go.
    pub fn remove(&mut self, token: u64) {
        if let Some(peer) = self.peers.remove(&token) {
            self.count(peer.queued(), 0);
        }
    }

    /// A connection has its turn. What comes of it is told where it is not closed yet.
    pub fn visit(&mut self, token: u64, poll: &Poll) -> Option<Signal> {
        let peer = self.peers.get_mut(&token)?;
        peer.is_listed = false;
        let before = peer.queued();
        let turn = peer.take_turn(self.alloc, self.now, self.waits, &mut self.buffer);
        let after = peer.queued();
        let number = peer.number;
        let is_reported = peer.is_registered && peer.is_spent();
        self.count(before, after);
        let Some(news) = turn else {
            self.wait_for(token, poll);
            return None;
        };
        match news {
            News::Bytes(_) if is_reported => {}
            News::Bytes(_) => self.list(token),
            News::Ended => self.wait_for(token, poll),
            News::Lost => self.remove(token),
        }
        if matches!(news, News::Lost) && number == 0 {
            return None;
        }
        Some(Signal {
            token,
            number,
            news,
        })
    }

    // Lists a connection again, or has the system report it where nothing can be done with it until then.
    fn wait_for(&mut self, token: u64, poll: &Poll) {
        let Some(peer) = self.peers.get_mut(&token) else {
            return;
        };
        if !peer.is_waiting() {
            self.list(token);
            return;
        }
        if peer.is_registered {
            return;
        }
        let descriptor = peer.descriptor();
        let registered = poll.registry().register(
            &mut SourceFd(&descriptor),
            Token(token as usize),
            Interest::READABLE | Interest::WRITABLE,
        );
        peer.is_registered = registered.is_ok();
        if registered.is_err() {
            peer.give_up(self.alloc);
            self.list(token);
        }
    }

    /// A connection was opened under this number.
    pub fn name(&mut self, token: u64, number: u64) {
        if let Some(peer) = self.peers.get_mut(&token) {
            peer.number = number;
        }
    }

    /// Sends to a connection, which is let go where that fails. Where more is queued then than may be, others are let go.
    pub fn send(&mut self, token: u64, bytes: &[u8]) -> Result<(), CutOff>
        ensures { IfErr result (λ cut. cut.taken ≤ length bytes.now) }
    {
        let Some(peer) = self.peers.get_mut(&token) else {
            return Err(CutOff { taken: 0 });
        };
        let before = peer.queued();
        let sent = peer.send(self.now, bytes);
        let after = peer.queued();
        self.count(before, after);
        if let Err(cut) = sent {
            self.remove(token);
            return Err(cut);
        }
        if after > 0 {
            self.list(token);
            self.shed(token);
        }
        Ok(())
    }

    // Lets connections go until no more is queued than may be, those first that have taken nothing for longest. This one
    // stays.
    fn shed(&mut self, token: u64) {
        for _ in 0..self.peers.len() {
            if self.queued <= MOST_QUEUED {
                return;
            }
            let Some(other) = self.most_stalled(token) else {
                return;
            };
            if let Some(peer) = self.peers.get_mut(&other) {
                let before = peer.queued();
                peer.give_up(self.alloc);
                self.count(before, 0);
            }
            self.list(other);
        }
    }

    // The connection that has taken nothing for longest of what is queued, apart from this one.
    fn most_stalled(&self, token: u64) -> Option<u64> {
        let mut found = None;
        let mut since = u64::MAX;
        for (other, peer) in self.peers.iter() {
            if *other != token && peer.queued() > 0 && peer.since() < since {
                found = Some(*other);
                since = peer.since();
            }
        }
        found
    }

    /// Closes a connection: it is let go once it has taken what is queued.
    pub fn part(&mut self, token: u64, refused: bool, poll: &Poll) {
        if let Some(peer) = self.peers.get_mut(&token) {
            peer.part(refused);
        }
        let _ = self.visit(token, poll);
    }

    /// Closes all connections.
    pub fn part_all(&mut self) {
        for (token, peer) in self.peers.iter_mut() {
            peer.part(false);
            if !peer.is_listed {
                peer.is_listed = self.listed.push_back(*token).is_ok();
            }
        }
    }

    /// Has all connections that were not opened let go.
    pub fn part_unopened(&mut self) {
        for (token, peer) in self.peers.iter_mut() {
            if peer.is_unopened() {
                peer.give_up(self.alloc);
                if !peer.is_listed {
                    peer.is_listed = self.listed.push_back(*token).is_ok();
                }
            }
        }
    }

    /// Lists those for a visit whose time is over: they are let go then, if they have still nothing to give or to take.
    pub fn sweep(&mut self, waits: Waits, is_crowded: bool) {
        self.waits = if is_crowded {
            Waits {
                idle: waits.idle.min(CROWDED),
                stall: waits.stall,
            }
        } else {
            waits
        };
        for (token, peer) in self.peers.iter_mut() {
            if !peer.is_listed && peer.is_over(self.now, self.waits) {
                peer.wake(false);
                peer.is_listed = self.listed.push_back(*token).is_ok();
            }
        }
    }
}
