// A wire in memory of which no call fails but out of memory.
ghost use Rattle.std.specs.Prelude.{◌≡◌, All, ℕ, false, [], IfOk, IfSome};
ghost use Rattle.mem_wire.specs.WireInMemory.{entry_of, faults_in, taken_of, HasEntry, IsNew};
ghost use Rattle.mem_wire.specs.Steady.{steady_told};

use crate::MemWire;
use edge_io::Failed;
use happenings::Log;
use sd_value::{NoMemory, Str};
use std::alloc::Global;
use std::marker::Model;
use wire::{Wire, WireEnd, WireEvent};

/// A wire in memory that is told of no failing call. None fails but out of memory, and it knows whether a send did.
pub struct SteadyWire {
    wire: MemWire,
}

// Written out, so that it is proved here once, and not again in each crate that drops one.
impl Drop for SteadyWire {
    fn drop(self) {
        let SteadyWire { wire: _wire } = self;
    }
}

impl Model for SteadyWire {
    ghost use Rattle.mem_wire.specs.Steady.{IsSteady};
    ghost use Rattle.mem_wire.specs.WireInMemory.{WireInMemory};

    ghost Value = { WireInMemory };

    ghost view = { λ w. w.wire };

    ghost invariant = { λ w. IsSteady w.wire };
}

impl SteadyWire {
    /// A wire that gives these events and then Done.
    pub fn new(alloc: Global, events: Vec<WireEvent>) -> Result<SteadyWire, NoMemory>
        ensures told { IfOk result (λ w. w ≡ record {
          events = events.items;
          count = 0;
          failing = [];
          sends = [];
          calls = 0;
          next_faults = 0;
          listens = 0;
          port = 0;
          connections = 0;
          watches = 0;
          path = [];
          every = 0;
          entries = w.entries;
          is_short = false;
          trace = [];
        }) }
        ensures entries { IfOk result (λ w. (number : ℕ) → IfSome (entry_of w number) IsNew) }
        ensures opened { IfOk result (λ w. All (HasEntry (entry_of w)) events.items) }
    {
        let failing = Vec::new(alloc);
        let sends = Vec::new(alloc);
        let wire = MemWire::new(alloc, events, failing, sends)?;
        Ok(SteadyWire { wire })
    }

    /// The bytes that a connection took.
    pub fn taken(&self, connection: u64) -> &[u8]
        ensures { result.now ≡ taken_of (entry_of self.now connection) }
    {
        self.wire.taken(connection)
    }

    /// Whether memory was refused in a send. Where it was not, no send failed.
    pub fn short(&self) -> bool
        ensures value { result ≡ self.now.is_short }
        ensures fine { result ≡ false → (number : ℕ) → faults_in self.now number ≡ 0 }
    {
        self.wire.short()
    }
}

impl Wire for SteadyWire {
    type Log = Log;

    ghost told = { steady_told };

    ghost trace = { λ w. w.trace };

    fn lend(&mut self, log: &mut Log) {
        self.wire.lend(log);
    }

    fn listen(&mut self, port: u16, connections: u64) -> Result<(), Failed> {
        self.wire.listen(port, connections)
    }

    fn watch(&mut self, alloc: Global, path: &Str, every: u64) -> Result<(), WireEnd> {
        self.wire.watch(alloc, path, every)
    }

    fn next(&mut self, alloc: Global) -> Result<WireEvent, WireEnd> {
        self.wire.next(alloc)
    }

    fn send(&mut self, connection: u64, bytes: &[u8]) -> Result<(), Failed> {
        self.wire.send(connection, bytes)
    }

    fn close(&mut self, connection: u64) {
        self.wire.close(connection);
    }

    fn finish(&mut self) {
        self.wire.finish();
    }
}
