// What one connection was sent.
ghost use Rattle.std.specs.Prelude.{◌≡◌, ◌++◌, ◌∷◌, [], ℕ, Some, None, take, nat_lt};
ghost use Rattle.wire.specs.Accounts.{up, taken_in, Took, Shut};
ghost use Rattle.mem_wire.specs.Sent.{Sent};
ghost use Rattle.mem_wire.specs.WireInMemory.{IsNew};

use happenings::Log;
use std::alloc::Global;
use std::marker::Model;

/// What one connection was sent.
#[derive(Drop)]
pub(crate) struct Entry {
    sends: u64,
    taken: Vec<u8>,
    closes: u64,
    faults: u64,
    /// What was done to it, as if its number were 0.
    history: Log,
}

impl Model for Entry {
    ghost use Rattle.std.specs.Prelude.{◌≡◌};
    ghost use Rattle.wire.specs.Accounts.{account_in, taken_in};
    ghost use Rattle.mem_wire.specs.Sent.{Sent};

    ghost Value = { Sent };

    ghost view = { λ e. record {
      sends = e.sends;
      account = account_in e.history.events 0;
      closes = e.closes;
      faults = e.faults;
    } };

    ghost invariant = { λ e. e.taken.items ≡ taken_in (account_in e.history.events 0) };
}

/// How a send went.
#[derive(Clone, Copy, Debug, PartialEq, Eq)]
pub(crate) enum Went {
    Whole,
    /// It was cut off, as a list says.
    Cut,
    /// Memory was refused for the bytes.
    Short,
}

impl Entry {
    /// Nothing was sent yet.
    pub(crate) fn new(alloc: Global) -> Entry
        ensures { IsNew result }
    {
        Entry {
            sends: 0,
            taken: Vec::new(alloc),
            closes: 0,
            faults: 0,
            history: Log::new(),
        }
    }

    /// The number of the next send, counted from 1.
    pub(crate) fn next(&self) -> u64
        ensures { result ≡ up self.now.sends }
    {
        self.sends.saturating_add(1)
    }

    /// Takes the bytes of one send, or the first `cut` of them where it fails.
    pub(crate) fn send(&mut self, bytes: &[u8], cut: Option<u64>) -> Went
        ensures whole { result ≡ Went.Whole → (cut ≡ None)
            × (self.new ≡ record self.old {
              sends = up self.old.sends;
              account = self.old.account ++ Took bytes.now ∷ [];
            }) }
        ensures cut_short { result ≡ Went.Cut → (some : ℕ) × (cut ≡ Some some)
            × (self.new ≡ record self.old {
              sends = up self.old.sends;
              account = self.old.account ++ Took (take some bytes.now) ∷ [];
              faults = up self.old.faults;
            }) }
        ensures short { result ≡ Went.Short
            → self.new ≡ record self.old {
              sends = up self.old.sends;
              account = self.old.account ++ Took [] ∷ [];
              faults = up self.old.faults;
            } }
    {
        self.sends = self.sends.saturating_add(1);
        let taken = match cut {
            None => bytes,
            Some(some) => first(bytes, some),
        };
        if self.taken.extend_from_slice(taken).is_err() {
            self.faults = self.faults.saturating_add(1);
            self.history.sent(0, &[]);
            return Went::Short;
        }
        self.history.sent(0, taken);
        if cut.is_some() {
            self.faults = self.faults.saturating_add(1);
            return Went::Cut;
        }
        Went::Whole
    }

    pub(crate) fn close(&mut self)
        ensures { self.new ≡ record self.old {
          account = self.old.account ++ Shut ∷ [];
          closes = up self.old.closes;
        } }
    {
        self.closes = self.closes.saturating_add(1);
        self.history.closed(0);
    }

    /// The bytes that were taken.
    pub(crate) fn taken(&self) -> &[u8]
        ensures { result.now ≡ taken_in self.now.account }
    {
        self.taken.as_slice()
    }

    /// How many sends failed.
    pub(crate) fn faults(&self) -> u64
        ensures { result ≡ self.now.faults }
    {
        self.faults
    }

    /// Whether it was closed.
    pub(crate) fn is_closed(&self) -> bool
        ensures { result ≡ nat_lt 0 self.now.closes }
    {
        self.closes > 0
    }
}

/// The first bytes, or all of them.
fn first(bytes: &[u8], some: u64) -> &[u8]
    ensures { result.now ≡ take some bytes.now }
{
    if some < bytes.len() as u64 {
        &bytes[..some as usize]
    } else {
        bytes
    }
}
