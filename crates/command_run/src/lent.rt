// Calls of one device while the log of the run is lent to it. What is done to a device without the log shows in its own
// trace, and each of these leaves that as it was.
ghost use Rattle.std.specs.Prelude.{◌≡◌, ◌⊎◌, ◌++◌, List};
ghost use Rattle.std.specs.Option.{ForSome};
ghost use Rattle.edge_io.specs.Counts.{Rose};
ghost use Rattle.edge_io.specs.Sink.{Gains, GainsPart};
ghost use Rattle.happenings.specs.Happening.{Happening};
ghost use Rattle.run_report.specs.Report.{line, IsFixed};
ghost use Rattle.run_report.specs.Told.{IsTold};
ghost use Rattle.command_spec.specs.Inputs.{inputs_of_report, inputs_of_text};
ghost use Rattle.command_spec.specs.Ranges.{IsTextInRange};
ghost use Rattle.site_inputs.specs.Reads.{Reads};
ghost use Rattle.site_inputs.specs.Runs.{ReadsHaveCause};
ghost use Rattle.command_answers.specs.Texts.{TextAnswers};
ghost use Rattle.command_answers.specs.Reports.{ReportAnswers};

use command_answers::{report_answer, text_answer};
use command_spec::{ReportCommand, TextCommand};
use edge_io::{Files, Sink};
use happenings::Trace;
use run_report::{Report, Status, report};
use sd_value::Str;
use site_inputs::Fault;
use std::alloc::Global;

// The text that a command is answered.
pub(crate) fn text_lent<L: Trace, F: Files<Log = L>>(
    alloc: Global,
    log: &mut L,
    files: &mut F,
    command: &TextCommand,
) -> Result<Str, Fault>
    requires { IsTextInRange command.now }
    ensures ends { ForSome (F.contents files.old) (λ map. TextAnswers map command.now result) }
    ensures same { F.contents files.new ≡ F.contents files.old }
    ensures cause { ReadsHaveCause (inputs_of_text command.now)
        (F.failed_reads files.old) (F.failed_reads files.new) result }
    ensures reads { Reads (inputs_of_text command.now) (L.events log.old) (L.events log.new)
        (F.contents files.old) result (λ map. TextAnswers map command.now result) }
    ensures lent { F.trace files.new ≡ F.trace files.old }
{
    files.lend(log);
    let answer = text_answer(alloc, files, command);
    files.lend(log);
    answer
}

// The report that a command is answered.
pub(crate) fn report_lent<L: Trace, F: Files<Log = L>>(
    alloc: Global,
    log: &mut L,
    files: &mut F,
    command: &ReportCommand,
) -> Result<Report, Fault>
    ensures ends { ForSome (F.contents files.old) (λ map. ReportAnswers map command.now result) }
    ensures same { F.contents files.new ≡ F.contents files.old }
    ensures cause { ReadsHaveCause (inputs_of_report command.now)
        (F.failed_reads files.old) (F.failed_reads files.new) result }
    ensures reads { Reads (inputs_of_report command.now) (L.events log.old) (L.events log.new)
        (F.contents files.old) result (λ map. ReportAnswers map command.now result) }
    ensures lent { F.trace files.new ≡ F.trace files.old }
{
    files.lend(log);
    let answer = report_answer(alloc, files, command);
    files.lend(log);
    answer
}

// Puts the line of a status, and gives the status that was reported.
pub(crate) fn line_lent<L: Trace, E: Sink<Log = L>>(
    alloc: Global,
    log: &mut L,
    status: Status,
    err: &mut E,
) -> Status
    ensures status { (result ≡ status) ⊎ (result ≡ Status.NoMemory) }
    ensures fixed { IsFixed status → result ≡ status }
    ensures whole { ¬ Rose (E.failed err.old) (E.failed err.new)
        → Gains (E.text err.old) (E.text err.new) (line result) }
    ensures part { GainsPart (E.text err.old) (E.text err.new) (line result) }
    ensures told { (last : List Happening) × (L.events log.new ≡ L.events log.old ++ last)
        × IsTold (E.stream err.old) result last }
    ensures lent { E.trace err.new ≡ E.trace err.old }
{
    err.lend(log);
    let reported = report(alloc, status, err);
    err.lend(log);
    reported
}
