// How fast a connection gives or takes bytes.
ghost use Rattle.std.specs.Prelude.{◌≡◌, ◌+◌, ◌≤◌, ◌<◌};
ghost use Rattle.socket_loop.specs.Pace.{is_over, started, gone_on};

/// How many bytes a millisecond a connection gives or takes at least.
const RATE: u64 = 16;

/// How a connection has gone on since something is waited for. Times are in milliseconds of the clock.
#[derive(Clone, Copy, Debug, PartialEq, Eq)]
pub struct Pace {
    /// When the first byte came or was taken, or else when the wait began.
    pub begun: u64,
    /// When the last byte came or was taken, or else when the wait began.
    pub since: u64,
    /// How many bytes came or were taken.
    pub bytes: u64,
}

impl Pace {
    /// A wait begins.
    pub fn start(now: u64) -> Pace
        ensures { result ≡ started now }
    {
        Pace {
            begun: now,
            since: now,
            bytes: 0,
        }
    }

    /// So many bytes came or were taken.
    pub fn go_on(&mut self, now: u64, count: usize)
        ensures { self.new ≡ gone_on now count self.old }
    {
        if self.bytes == 0 {
            self.begun = now;
        }
        self.since = now;
        self.bytes = self.bytes.saturating_add(count as u64);
    }

    /// Whether the time is over: nothing for longer than the limit, or less than the least rate after it.
    pub fn is_over(&self, now: u64, limit: u64) -> bool
        ensures { result ≡ is_over limit now self.now }
    {
        limit < now.saturating_sub(self.since)
            || limit.saturating_add(self.bytes / RATE) < now.saturating_sub(self.begun)
    }
}
