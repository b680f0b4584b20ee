// Commands that are answered by a report.
ghost use Rattle.std.specs.Prelude.{◌≡◌};
ghost use Rattle.std.specs.Option.{ForSome};
ghost use Rattle.command_spec.specs.Inputs.{inputs_of_report};
ghost use Rattle.site_inputs.specs.Reads.{Reads};
ghost use Rattle.site_inputs.specs.Runs.{ReadsHaveCause};
ghost use Rattle.command_answers.specs.Reports.{ReportAnswers};

use command_check::{check_all, check_here};
use command_lint::lint;
use command_spec::ReportCommand;
use edge_io::Files;
use run_report::Report;
use site_inputs::Fault;
use std::alloc::Global;

/// The report that a command is answered.
/// # Errors
/// The fault of the command.
pub fn report_answer<F: Files>(
    alloc: Global,
    files: &mut F,
    command: &ReportCommand,
) -> Result<Report, Fault>
    ensures ends { ForSome (F.contents files.old) (λ map. ReportAnswers map command.now result) }
    ensures same { F.contents files.new ≡ F.contents files.old }
    ensures cause { ReadsHaveCause (inputs_of_report command.now)
        (F.failed_reads files.old) (F.failed_reads files.new) result }
    ensures traced { Reads (inputs_of_report command.now)
        (F.trace files.old) (F.trace files.new) (F.contents files.old) result
        (λ map. ReportAnswers map command.now result) }
{
    match command {
        ReportCommand::Check(c) => check_here(alloc, files, &c.sources, &c.query, &c.constraints),
        ReportCommand::CheckAll(c) => check_all(alloc, files, &c.query, &c.constraints),
        ReportCommand::Lint(c) => lint(alloc, files, &c.sources, &c.query, &c.templates),
    }
}
