// The laws of the answers: the inputs decide them.
ghost use Rattle.edge_io.specs.Files.{FileMap};
ghost use Rattle.command_spec.specs.declared.ReportCommand.{ReportCommand};
ghost use Rattle.command_spec.specs.declared.TextCommand.{TextCommand};
ghost use Rattle.site_inputs.specs.Runs.{Decides};
ghost use Rattle.command_answers.specs.Texts.{TextAnswers};
ghost use Rattle.command_answers.specs.Reports.{HasOneReport, ReportAnswers};

/// The inputs decide the text of a command that is answered by one.
pub fn texts_are_decided()
    ensures { (map : FileMap) (command : TextCommand) → Decides (TextAnswers map command) }
{}

/// The inputs decide the report of a command that has one report.
pub fn reports_are_decided()
    ensures { (map : FileMap) (command : ReportCommand) → HasOneReport command
        → Decides (ReportAnswers map command) }
{}
