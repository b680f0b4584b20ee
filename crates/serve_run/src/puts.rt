// What is put in a run over connections, while the log is lent to the output.
ghost use Rattle.std.specs.Prelude.{◌≡◌, ◌++◌, List};
ghost use Rattle.edge_io.specs.Counts.{Rose};
ghost use Rattle.happenings.specs.Happening.{Happening};
ghost use Rattle.run_report.specs.Told.{IsOnePut};
ghost use Rattle.serve_run.specs.Puts.{IsPut, EndPuts, EndHappens};

use edge_io::Sink;
use happenings::Trace;
use run_report::{Status, put_noted};
use serving_spec::HubEnd;

/// Puts a text whose failure changes no status.
pub fn put_anyway<L: Trace, O: Sink<Log = L>>(log: &mut L, text: &[u8], out: &mut O)
    ensures ends { IsPut (Rose (O.failed out.old) (O.failed out.new))
        (O.text out.old) (O.text out.new) text.now }
    ensures course { (part : List Happening) × (L.events log.new ≡ L.events log.old ++ part)
        × IsOnePut (O.stream out.old) text.now part }
    ensures lent { O.trace out.new ≡ O.trace out.old }
{
    let _ = put_noted(log, text, out);
}

/// Puts the text of a run that ended so, and reports its status.
pub fn put_end<L: Trace, O: Sink<Log = L>>(
    log: &mut L,
    end: HubEnd,
    text: &[u8],
    out: &mut O,
) -> Status
    ensures ends { EndPuts end text.now (O.text out.old) (O.text out.new)
        (Rose (O.failed out.old) (O.failed out.new)) result }
    ensures cause { result ≡ Status.WriteFault → Rose (O.failed out.old) (O.failed out.new) }
    ensures course { (part : List Happening) × (L.events log.new ≡ L.events log.old ++ part)
        × EndHappens end (O.stream out.old) text.now part result }
    ensures lent { O.trace out.new ≡ O.trace out.old }
{
    match end {
        HubEnd::Done => match put_noted(log, text, out) {
            Ok(()) => Status::Ok,
            Err(_) => Status::WriteFault,
        },
        HubEnd::WireFailed => {
            put_anyway(log, text, out);
            Status::WireFault
        }
        HubEnd::TurnsSpent => {
            put_anyway(log, text, out);
            Status::TurnsSpent
        }
        HubEnd::NoMemory => Status::NoMemory,
    }
}
