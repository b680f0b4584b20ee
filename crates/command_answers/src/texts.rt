// Commands that are answered by a text.
ghost use Rattle.std.specs.Prelude.{◌≡◌};
ghost use Rattle.std.specs.Option.{ForSome};
ghost use Rattle.command_spec.specs.Inputs.{inputs_of_text};
ghost use Rattle.command_spec.specs.Ranges.{IsTextInRange};
ghost use Rattle.site_inputs.specs.Reads.{Reads};
ghost use Rattle.site_inputs.specs.Runs.{ReadsHaveCause};
ghost use Rattle.command_answers.specs.Texts.{TextAnswers};

use command_data::data;
use command_explain::explain;
use command_help::{help, version};
use command_page::page;
use command_schema::schema_text;
use command_spec::TextCommand;
use command_trial::trial;
use edge_io::Files;
use sd_value::Str;
use site_inputs::Fault;
use std::alloc::Global;

/// The text that a command is answered.
/// # Errors
/// The fault of the command.
pub fn text_answer<F: Files>(
    alloc: Global,
    files: &mut F,
    command: &TextCommand,
) -> Result<Str, Fault>
    requires { IsTextInRange command.now }
    ensures ends { ForSome (F.contents files.old) (λ map. TextAnswers map command.now result) }
    ensures same { F.contents files.new ≡ F.contents files.old }
    ensures cause { ReadsHaveCause (inputs_of_text command.now)
        (F.failed_reads files.old) (F.failed_reads files.new) result }
    ensures traced { Reads (inputs_of_text command.now)
        (F.trace files.old) (F.trace files.new) (F.contents files.old) result
        (λ map. TextAnswers map command.now result) }
{
    match command {
        TextCommand::Page(command) => page(alloc, files, command),
        TextCommand::Data(command) => data(alloc, files, command),
        TextCommand::Explain(command) => explain(alloc, files, command),
        TextCommand::Schema(command) => schema_text(alloc, files, command),
        TextCommand::Trial(command) => trial(alloc, command),
        TextCommand::Help(command) => help(alloc, command),
        TextCommand::Version => version(alloc),
    }
}
