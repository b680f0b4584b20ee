// The program from its words to its exit code.
ghost use Rattle.std.specs.Prelude.{◌≡◌, ◌++◌, List, option_map};
ghost use Rattle.happenings.specs.Happening.{Happening};
ghost use Rattle.command_run.specs.IsRun.{IsRun};
ghost use Rattle.command_run.specs.Main.{status_without, waits_given, log_given, seen};

use crate::given::{GivenWords, default_waits};
use crate::lent::line_lent;
use crate::no_words::NoWords;
use crate::top::strudel;
use command_spec::ServeWaits;
use edge_io::{Files, Sink};
use happenings::Trace;
use run_report::Status;
use sd_value::Str;
use std::alloc::Global;
use wire::Wire;

/// How long the wire of a run is to wait for a connection: what its words say where they give `serve`, and else the
/// defaults.
pub fn waits_of(words: &Result<GivenWords, NoWords>) -> ServeWaits
    ensures { result ≡ waits_given words.now }
{
    match words {
        Ok(words) => words.waits(),
        Err(_) => default_waits(),
    }
}

/// The file that a line of each reply is to be added to, if its words give `serve` and name one.
pub fn log_of(words: &Result<GivenWords, NoWords>) -> Option<&Str>
    ensures { option_map (λ path. path.now) result ≡ log_given words.now }
{
    match words {
        Ok(words) => words.log(),
        Err(_) => None,
    }
}

fn status_of_no_words(reason: NoWords) -> Status
    ensures { result ≡ status_without reason }
{
    match reason {
        NoWords::Unreadable => Status::Usage,
        NoWords::NoMemory => Status::NoMemory,
    }
}

/// Does all that the program does, and gives its exit code. `words` are those after the program's name, with the command
/// that they give, or why there are none. The answer is put on `out`, and a line on `err` reports any other end. `serve`
/// takes its connections from `wire`, which waits as `waits_of` says. All that happens is noted in `log`, in its order:
/// what is done to a device without the log would show in that device's own trace, and there is nothing.
pub fn run_main<L: Trace, F: Files<Log = L>, O: Sink<Log = L>, E: Sink<Log = L>, W: Wire<Log = L>>(
    alloc: Global,
    words: &Result<GivenWords, NoWords>,
    log: &mut L,
    files: &mut F,
    out: &mut O,
    err: &mut E,
    wire: &mut W,
) -> u8
    ensures run { (trace : List Happening) × (L.events log.new ≡ L.events log.old ++ trace)
        × IsRun (O.stream out.old) (E.stream err.old) words.now
        (seen (F.contents files.old) (F.failed_reads files.old) (F.failed_writes files.old)
        (O.text out.old) (O.failed out.old) (E.text err.old) (E.failed err.old) (W.told wire.old))
        (seen (F.contents files.new) (F.failed_reads files.new) (F.failed_writes files.new)
        (O.text out.new) (O.failed out.new) (E.text err.new) (E.failed err.new) (W.told wire.new))
        trace result }
    ensures lent { (F.trace files.new ≡ F.trace files.old) × (O.trace out.new ≡ O.trace out.old)
        × (E.trace err.new ≡ E.trace err.old) × (W.trace wire.new ≡ W.trace wire.old) }
{
    match words {
        Ok(words) => {
            let status = strudel(alloc, words, log, files, out, err, wire);
            status.code()
        }
        Err(reason) => {
            let status = line_lent(alloc, log, status_of_no_words(*reason), err);
            status.code()
        }
    }
}
