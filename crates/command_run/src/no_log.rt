// A run whose log of replies can't be opened.
ghost use Rattle.std.specs.Prelude.{◌≡◌, ◌++◌, List};
ghost use Rattle.happenings.specs.Happening.{Happening};
ghost use Rattle.command_run.specs.NoLog.{EndsWithoutLog};

use crate::lent::line_lent;
use edge_io::Sink;
use happenings::Trace;
use run_report::Status;
use sd_value::Str;
use std::alloc::Global;

/// Ends a run whose log of replies, the file at the path, can't be opened, and gives its exit code: a line on `err` says
/// that the file can't be written. `run_main` isn't called then, so nothing is read, listened at or written.
pub fn end_without_log<L: Trace, E: Sink<Log = L>>(
    alloc: Global,
    path: &Str,
    log: &mut L,
    err: &mut E,
) -> u8
    ensures run { (trace : List Happening) × (L.events log.new ≡ L.events log.old ++ trace)
        × EndsWithoutLog path.now (E.stream err.old) (E.text err.old) (E.text err.new)
        (E.failed err.old) (E.failed err.new) trace result }
    ensures lent { E.trace err.new ≡ E.trace err.old }
{
    let status = match path.copy(alloc) {
        Ok(path) => Status::FileFault { path },
        Err(_) => Status::NoMemory,
    };
    let reached = line_lent(alloc, log, status, err);
    reached.code()
}
