// A system whose listeners run out of descriptors, and whose clock may be ahead.
ghost use Rattle.std.specs.Prelude.{None};

use std::cell::Cell;
use std::io;
use std::net::{Net, OpenListener, SocketAddr};
use std::os::fd::{AsRawFd, RawFd};
use std::time::{Clock, Duration};

// The system's number of the error that no descriptor is left.
const EMFILE: i32 = 24;

/// A listener that takes so many connections, and then fails so often for want of a descriptor.
#[derive(Drop)]
pub struct FlakyListener<L> {
    listener: L,
    taking: Cell<u32>,
    failing: Cell<u32>,
}

impl<L: OpenListener> OpenListener for FlakyListener<L> {
    type Stream = L::Stream;

    fn accept(&self) -> io::Result<(L::Stream, SocketAddr)> {
        let taking = self.taking.get();
        let failing = self.failing.get();
        if taking == 0 && failing > 0 {
            self.failing.set(failing - 1);
            return Err(io::Error::from_raw_os_error(EMFILE));
        }
        let taken = self.listener.accept()?;
        self.taking.set(taking.saturating_sub(1));
        Ok(taken)
    }

    fn local_addr(&self) -> io::Result<SocketAddr> {
        self.listener.local_addr()
    }

    fn set_nonblocking(&self, nonblocking: bool) -> io::Result<()> {
        self.listener.set_nonblocking(nonblocking)
    }
}

impl<L: AsRawFd> AsRawFd for FlakyListener<L> {
    fn as_raw_fd(&self) -> RawFd {
        self.listener.as_raw_fd()
    }
}

/// A system whose listeners take so many connections, and then fail so often before they take another one. Its clock is so
/// far ahead of that of its files.
#[derive(Drop)]
pub struct Flaky<'r, R> {
    pub system: &'r R,
    pub taking: u32,
    pub failing: u32,
    pub ahead: Duration,
}

impl<R: Net> Net for Flaky<'_, R> {
    type Stream = R::Stream;

    type Listener = FlakyListener<R::Listener>;

    fn bind(&self, address: SocketAddr) -> io::Result<FlakyListener<R::Listener>> {
        let listener = self.system.bind(address)?;
        Ok(FlakyListener {
            listener,
            taking: Cell::new(self.taking),
            failing: Cell::new(self.failing),
        })
    }

    fn connect(&self, address: SocketAddr) -> io::Result<R::Stream> {
        self.system.connect(address)
    }
}

impl<R: Clock> Clock for Flaky<'_, R> {
    fn monotonic(&self) -> io::Result<Duration> {
        self.system.monotonic()
    }

    fn since_1970(&self) -> io::Result<Duration> {
        let time = self.system.since_1970()?;
        Ok(time.saturating_add(self.ahead))
    }
}
