// The whole run.
ghost use Rattle.std.specs.Prelude.{◌≡◌, ◌⊎◌, ◌++◌, List, None, Some};
ghost use Rattle.std.specs.Option.{ForSome, IsSomeAnd};
ghost use Rattle.edge_io.specs.Counts.{Rose};
ghost use Rattle.edge_io.specs.Sink.{Gains, GainsPart};
ghost use Rattle.happenings.specs.Happening.{Happening};
ghost use Rattle.command_spec.specs.Words.{command};
ghost use Rattle.command_spec.specs.Ranges.{IsInRange};
ghost use Rattle.run_report.specs.Report.{line};
ghost use Rattle.site_inputs.specs.Statuses.{ReadRose, IsSilent};
ghost use Rattle.site_inputs.specs.Outside.{host, outside};
ghost use Rattle.command_run.specs.Complete.{IsComplete};
ghost use Rattle.command_spec.specs.Inputs.{inputs_of_command, given_inputs};
ghost use Rattle.command_run.specs.Top.{Ends, AnswerEnds, text_report, RunEnds, IsExact, AnswersHold};
ghost use Rattle.command_run.specs.Top.{FindingsAreTold, FileFaultRose, WritesNoFile, UsesNoWire};
ghost use Rattle.command_run.specs.IsRun.{AnswerPuts, CommandCourse, Course, CourseThenLine};

use crate::given::GivenWords;
use crate::lent::{line_lent, report_lent, text_lent};
use command_build::build;
use command_replay::replay;
use command_serve::serve;
use command_spec::Command;
use edge_io::{Files, Sink};
use happenings::Trace;
use run_report::{Report, Status, put_noted};
use sd_value::Str;
use site_inputs::Fault;
use std::alloc::Global;
use wire::Wire;

// Puts the text that a command is answered, or gives the status of the fault.
fn put_answer<L: Trace, O: Sink<Log = L>>(
    log: &mut L,
    answer: Result<Str, Fault>,
    out: &mut O,
) -> Status
    ensures ends { AnswerEnds text_report (λ a. a ≡ answer)
        (O.text out.old) (O.text out.new) result }
    ensures words { result ≡ Status.Usage → ⊥ }
    ensures silent { IsSilent result → out.new ≡ out.old }
    ensures write_cause { result ≡ Status.WriteFault → Rose (O.failed out.old) (O.failed out.new) }
    ensures puts { (puts : List Happening) × (L.events log.new ≡ L.events log.old ++ puts)
        × AnswerPuts text_report (O.stream out.old) answer puts result }
    ensures lent { O.trace out.new ≡ O.trace out.old }
{
    match answer {
        Ok(text) => match put_noted(log, text.bytes(), out) {
            Ok(()) => Status::Ok,
            Err(_) => Status::WriteFault,
        },
        Err(fault) => Status::from(fault),
    }
}

// Puts the text of the report that a command is answered, or gives the status of the fault.
fn put_report<L: Trace, O: Sink<Log = L>>(
    log: &mut L,
    answer: Result<Report, Fault>,
    out: &mut O,
) -> Status
    ensures ends { AnswerEnds (λ report. report) (λ a. a ≡ answer)
        (O.text out.old) (O.text out.new) result }
    ensures words { result ≡ Status.Usage → ⊥ }
    ensures silent { IsSilent result → out.new ≡ out.old }
    ensures write_cause { result ≡ Status.WriteFault → Rose (O.failed out.old) (O.failed out.new) }
    ensures puts { (puts : List Happening) × (L.events log.new ≡ L.events log.old ++ puts)
        × AnswerPuts (λ report. report) (O.stream out.old) answer puts result }
    ensures lent { O.trace out.new ≡ O.trace out.old }
{
    match answer {
        Ok(report) => match put_noted(log, report.text.bytes(), out) {
            Ok(()) => {
                if report.passed {
                    Status::Ok
                } else {
                    Status::NotAllYes
                }
            }
            Err(_) => Status::WriteFault,
        },
        Err(fault) => Status::from(fault),
    }
}

// Runs a command.
fn run_command<L: Trace, F: Files<Log = L>, O: Sink<Log = L>, W: Wire<Log = L>>(
    alloc: Global,
    log: &mut L,
    files: &mut F,
    out: &mut O,
    wire: &mut W,
    command: &Command,
) -> Status
    requires { IsInRange command.now }
    ensures words { result ≡ Status.Usage → ⊥ }
    ensures ends { ForSome (F.contents files.old) (λ map. IsSomeAnd (F.contents files.new) (λ now.
        Ends command.now
        (outside map (F.failed_reads files.old) (F.failed_writes files.old)
        (O.text out.old) (O.failed out.old) (W.told wire.old))
        (outside now (F.failed_reads files.new) (F.failed_writes files.new)
        (O.text out.new) (O.failed out.new) (W.told wire.new))
        result)) }
    ensures silent { IsSilent result → out.new ≡ out.old }
    ensures files { WritesNoFile (Some command.now) → F.contents files.new ≡ F.contents files.old }
    ensures wire { UsesNoWire (Some command.now) → wire.new ≡ wire.old }
    ensures quiet { IsSilent result → wire.new ≡ wire.old }
    ensures wire_cause { result ≡ Status.WireFault
        → Rose (W.told wire.old).next_faults (W.told wire.new).next_faults }
    ensures read_cause { ReadRose (inputs_of_command command.now)
        (F.failed_reads files.old) (F.failed_reads files.new) result }
    ensures write_cause { result ≡ Status.WriteFault → Rose (O.failed out.old) (O.failed out.new) }
    ensures file_cause { FileFaultRose (Some command.now) (F.contents files.old)
        (F.failed_writes files.old) (F.failed_writes files.new) result }
    ensures course { (course : List Happening) × (L.events log.new ≡ L.events log.old ++ course)
        × CommandCourse (O.stream out.old) (F.contents files.old) (W.told wire.old)
        (W.told wire.new) command.now course result }
    ensures lent { (F.trace files.new ≡ F.trace files.old) × (O.trace out.new ≡ O.trace out.old)
        × (W.trace wire.new ≡ W.trace wire.old) }
{
    match command {
        Command::Text(command) => {
            let answer = text_lent(alloc, log, files, command);
            put_answer(log, answer, out)
        }
        Command::Report(command) => {
            let answer = report_lent(alloc, log, files, command);
            put_report(log, answer, out)
        }
        Command::Build(command) => build(alloc, log, files, out, command),
        Command::Serve(command) => serve(alloc, log, files, out, wire, command),
        Command::Replay(command) => replay(alloc, log, files, out, command),
    }
}

// Runs the command of the words.
fn run<L: Trace, F: Files<Log = L>, O: Sink<Log = L>, W: Wire<Log = L>>(
    alloc: Global,
    words: &GivenWords,
    log: &mut L,
    files: &mut F,
    out: &mut O,
    wire: &mut W,
) -> Status
    ensures usage { result ≡ Status.Usage → command words.now ≡ None }
    ensures no_command { command words.now
        ≡ None → (result ≡ Status.Usage) ⊎ (result ≡ Status.NoMemory) }
    ensures no_words { command words.now ≡ None → out.new ≡ out.old }
    ensures ends { ForSome (F.contents files.old) (λ map. IsSomeAnd (F.contents files.new) (λ now.
        RunEnds (command words.now)
        (outside map (F.failed_reads files.old) (F.failed_writes files.old)
        (O.text out.old) (O.failed out.old) (W.told wire.old))
        (outside now (F.failed_reads files.new) (F.failed_writes files.new)
        (O.text out.new) (O.failed out.new) (W.told wire.new))
        result)) }
    ensures silent { IsSilent result → out.new ≡ out.old }
    ensures files { WritesNoFile (command words.now) → F.contents files.new ≡ F.contents files.old }
    ensures wire { UsesNoWire (command words.now) → wire.new ≡ wire.old }
    ensures quiet { IsSilent result → wire.new ≡ wire.old }
    ensures wire_cause { result ≡ Status.WireFault
        → Rose (W.told wire.old).next_faults (W.told wire.new).next_faults }
    ensures read_cause { ReadRose (given_inputs (command words.now))
        (F.failed_reads files.old) (F.failed_reads files.new) result }
    ensures write_cause { result ≡ Status.WriteFault → Rose (O.failed out.old) (O.failed out.new) }
    ensures file_cause { FileFaultRose (command words.now) (F.contents files.old)
        (F.failed_writes files.old) (F.failed_writes files.new) result }
    ensures course { (course : List Happening) × (L.events log.new ≡ L.events log.old ++ course)
        × Course (O.stream out.old) (F.contents files.old) (W.told wire.old) (W.told wire.new)
        (command words.now) course result }
    ensures lent { (F.trace files.new ≡ F.trace files.old) × (O.trace out.new ≡ O.trace out.old)
        × (W.trace wire.new ≡ W.trace wire.old) }
{
    match words.command() {
        Some(command) => run_command(alloc, log, files, out, wire, command),
        None => Status::Usage,
    }
}

/// Does all that the program does, and notes in `log` all that happens. `words` are those after the program's name. The
/// answer is put on `out`, and a line on `err` reports any other end; the status has the exit code. `serve` takes its
/// connections from `wire`.
pub fn strudel<L: Trace, F: Files<Log = L>, O: Sink<Log = L>, E: Sink<Log = L>, W: Wire<Log = L>>(
    alloc: Global,
    words: &GivenWords,
    log: &mut L,
    files: &mut F,
    out: &mut O,
    err: &mut E,
    wire: &mut W,
) -> Status
    // Wrong words are reported, and nothing else is reported as wrong words.
    ensures usage { result ≡ Status.Usage → command words.now ≡ None }
    ensures no_command { command words.now
        ≡ None → (result ≡ Status.Usage) ⊎ (result ≡ Status.NoMemory) }
    ensures no_words { command words.now ≡ None → out.new ≡ out.old }

    // Why the run has this status, and what it has put.
    ensures ends { ForSome (F.contents files.old) (λ map. IsSomeAnd (F.contents files.new) (λ now.
        RunEnds (command words.now)
        (outside map (F.failed_reads files.old) (F.failed_writes files.old)
        (O.text out.old) (O.failed out.old) (W.told wire.old))
        (outside now (F.failed_reads files.new) (F.failed_writes files.new)
        (O.text out.new) (O.failed out.new) (W.told wire.new))
        result)) }
    ensures silent { IsSilent result → out.new ≡ out.old }
    ensures files { WritesNoFile (command words.now) → F.contents files.new ≡ F.contents files.old }
    ensures wire { UsesNoWire (command words.now) → wire.new ≡ wire.old }
    ensures quiet { IsSilent result → wire.new ≡ wire.old }
    ensures wire_cause { result ≡ Status.WireFault
        → Rose (W.told wire.old).next_faults (W.told wire.new).next_faults }

    // Where the command's files and the output have no fault, the inputs decide the end, unless it is out of memory.
    ensures exact { ForSome (F.contents files.old) (λ map. ForSome (command words.now) (λ command.
        IsSomeAnd (F.contents files.new) (λ now.
        IsExact command
        (host map (F.failed_reads files.old) (F.failed_writes files.old)
        (O.text out.old) (O.failed out.old))
        (host now (F.failed_reads files.new) (F.failed_writes files.new)
        (O.text out.new) (O.failed out.new))
        result))) }

    // A constraint that `check` answers yes is met in the query's site over every data graph. One that it answers no is
    // broken over the graph whose text it shows.
    ensures holds { ForSome (F.contents files.old) (λ map. ForSome (command words.now) (λ command.
        AnswersHold command map (O.text out.old) (O.text out.new) result)) }

    // `lint` has told exactly the findings in its texts, and its status is 0 exactly where there is none.
    ensures found { ForSome (F.contents files.old) (λ map. ForSome (command words.now) (λ command.
        FindingsAreTold command map (O.text out.old) (O.text out.new) result)) }

    // A build and a run over connections end well where their inputs are accepted and nothing outside fails, unless memory
    // runs out, and a refused input ends them.
    ensures complete { ForSome (F.contents files.old) (λ map.
        ForSome (command words.now) (λ command.
        IsSomeAnd (F.contents files.new) (λ now.
        IsComplete command
        (outside map (F.failed_reads files.old) (F.failed_writes files.old)
        (O.text out.old) (O.failed out.old) (W.told wire.old))
        (outside now (F.failed_reads files.new) (F.failed_writes files.new)
        (O.text out.new) (O.failed out.new) (W.told wire.new))
        result))) }

    // A fault of the outside comes only if its count rose, one of reading only of a file of the command, and one of writing
    // only of the output, or of a file of a build's site.
    ensures read_cause { ReadRose (given_inputs (command words.now))
        (F.failed_reads files.old) (F.failed_reads files.new) result }
    ensures write_cause { result ≡ Status.WriteFault → Rose (O.failed out.old) (O.failed out.new) }
    ensures file_cause { FileFaultRose (command words.now) (F.contents files.old)
        (F.failed_writes files.old) (F.failed_writes files.new) result }

    // The line on `err`.
    ensures line { ¬ Rose (E.failed err.old) (E.failed err.new)
        → Gains (E.text err.old) (E.text err.new) (line result) }
    ensures part { GainsPart (E.text err.old) (E.text err.new) (line result) }

    // All that happened, in its order. What is done to a device without the log shows in its own trace.
    ensures happens { (trace : List Happening) × (L.events log.new ≡ L.events log.old ++ trace)
        × CourseThenLine (E.stream err.old)
        (Course (O.stream out.old) (F.contents files.old) (W.told wire.old) (W.told wire.new)
        (command words.now))
        trace result }
    ensures lent { (F.trace files.new ≡ F.trace files.old) × (O.trace out.new ≡ O.trace out.old)
        × (E.trace err.new ≡ E.trace err.old) × (W.trace wire.new ≡ W.trace wire.old) }
{
    let status = run(alloc, words, log, files, out, wire);
    line_lent(alloc, log, status, err)
}
