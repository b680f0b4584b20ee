// A port that can't be reported: then no event is asked for.
ghost use Rattle.std.specs.Prelude.{◌≡◌};

use super::{FILES, SERVE};
use crate::runs::{PLAIN, Part, Run, check, check_with, files_of, wire_of};
use edge_io::Failed;
use sd_value::Str;
use std::alloc::Global;
use std::test::Fail;
use wire::{Wire, WireEnd, WireEvent};

/// A wire that counts the events that it is asked for.
#[derive(Drop)]
struct Asked<W> {
    wire: W,
    events: u64,
}

impl<W: Wire> Wire for Asked<W> {
    type Log = W::Log;

    ghost told = { λ a. W.told a.wire };

    ghost trace = { λ a. W.trace a.wire };

    fn lend(&mut self, log: &mut W::Log) {
        self.wire.lend(log);
    }

    fn listen(&mut self, port: u16, connections: u64) -> Result<(), Failed> {
        self.wire.listen(port, connections)
    }

    fn watch(&mut self, alloc: Global, path: &Str, every: u64) -> Result<(), WireEnd> {
        self.wire.watch(alloc, path, every)
    }

    fn next(&mut self, alloc: Global) -> Result<WireEvent, WireEnd> {
        self.events = self.events.saturating_add(1);
        self.wire.next(alloc)
    }

    fn send(&mut self, connection: u64, bytes: &[u8]) -> Result<(), Failed> {
        self.wire.send(connection, bytes)
    }

    fn close(&mut self, connection: u64) {
        self.wire.close(connection);
    }

    fn finish(&mut self) {
        self.wire.finish();
    }
}

// Its first put is the line `serving 8080`.
const UNTOLD: Run = Run {
    name: "an untold port",
    words: SERVE,
    script: &[Part {
        text: "open 1",
        count: 1,
    }],
    failing_puts: &[1],
    code: 5,
    out: "",
    err: "strudel: cannot write\n",
    ..PLAIN
};

#[test]
fn no_event_is_asked_for_where_the_port_is_not_told(rt: HostRuntime) -> Result<(), Fail> {
    let alloc = rt.alloc();
    let mut files = files_of(alloc, FILES, &[])?;
    let mut wire = Asked {
        wire: wire_of(alloc, &UNTOLD)?,
        events: 0,
    };
    check_with(&rt, &UNTOLD, &mut files, &mut wire)?;
    check(&rt, &UNTOLD, wire.events == 0, "an event was asked for");
    Ok(())
}
