// The command line as `clap` has it: a subcommand for each command.

ghost use Rattle.std.specs.Prelude.{◌≡◌, IfOk, false};
ghost use Rattle.clap.specs.Simple.{with_subcommand};
ghost use Rattle.clap.specs.Words.{rule_of, app_of};
ghost use Rattle.command_words.specs.Parsed as specs;

use clap::builder::ValueParser;
use clap::{Arg, ArgAction, Command};
use command_spec::{CommandName, ValueOption};
use sd_value::NoMemory;
use std::alloc::Global;

/// The words of a command that are no options.
pub const WORDS: &str = "words";

fn option_arg<'a>(alloc: Global, name: &'a str) -> Arg<'a>
    ensures rule { rule_of result ≡ specs.option_rule name.entry.now }
    ensures own { result.global ≡ false }
{
    Arg::new(alloc, name)
        .long(name)
        .action(ArgAction::Set)
        .value_parser(ValueParser::NonEmptyString)
}

fn words_arg<'a>(alloc: Global) -> Arg<'a>
    ensures rule { rule_of result ≡ specs.words_rule }
    ensures own { result.global ≡ false }
{
    Arg::new(alloc, WORDS).action(ArgAction::Append)
}

fn command_of<'a>(
    alloc: Global,
    name: &'a str,
    options: &[ValueOption],
) -> Result<Command<'a>, NoMemory>
    ensures { IfOk result (specs.IsLeaf name.entry.now options.now) }
{
    let mut command = Command::new(alloc, name).arg(words_arg(alloc))?;
    for option in options {
        command = command.arg(option_arg(alloc, option.name()))?;
    }
    Ok(command)
}

// The program's command line with the subcommand of this command behind those that it has.
fn with_command<'a>(
    alloc: Global,
    program: Command<'a>,
    command: CommandName,
) -> Result<Command<'a>, NoMemory>
    ensures { IfOk result
        (λ c. app_of c ≡ with_subcommand (app_of program.entry) (specs.row_leaf command)) }
{
    let row = command.row();
    let name: &'a str = row.name;
    let leaf = command_of(alloc, name, row.options)?;
    let program = program.subcommand(leaf)?;
    Ok(program)
}

/// The command line.
pub fn program<'a>(alloc: Global) -> Result<Command<'a>, NoMemory>
    ensures { IfOk result (λ c. app_of c ≡ specs.program) }
{
    let mut program = Command::new(alloc, "strudel")
        .no_binary_name(true)
        .disable_help_flag(true)
        .disable_help_subcommand(true)
        .disable_version_flag(true)
        .subcommand_required(true);
    for command in CommandName::all() {
        program = with_command(alloc, program, *command)?;
    }
    Ok(program)
}
