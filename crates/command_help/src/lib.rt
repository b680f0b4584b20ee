//! The commands `help` and `version`: fixed texts, of which the table of the commands has the
//! usages.
#![tactic(auto)]

ghost use Rattle.command_help.specs.Ends.{HelpEnds, VersionEnds};

mod laws;
mod texts;

use command_spec::HelpCommand;
pub use laws::{help_is_decided, version_is_decided};
use sd_value::Str;
use site_inputs::Fault;
use std::alloc::Global;
pub use texts::usage;
use texts::versions;

/// The usage of the program, or of the command that is named.
/// # Errors
/// Out of memory.
pub fn help(alloc: Global, command: &HelpCommand) -> Result<Str, Fault>
    ensures { HelpEnds command.now result }
{
    Ok(usage(alloc, command.name)?)
}

/// The version of the program and of the kit that proved it.
/// # Errors
/// Out of memory.
pub fn version(alloc: Global) -> Result<Str, Fault>
    ensures { VersionEnds result }
{
    Ok(Str::new(alloc, versions())?)
}
