// The laws of the commands: each has one answer.
ghost use Rattle.command_spec.specs.declared.HelpCommand.{HelpCommand};
ghost use Rattle.site_inputs.specs.Runs.{Decides};
ghost use Rattle.command_help.specs.Ends.{HelpEnds, VersionEnds};

/// The command decides the answer of `help`.
pub fn help_is_decided()
    ensures { (command : HelpCommand) → Decides (HelpEnds command) }
{}

/// `version` has one answer.
pub fn version_is_decided()
    ensures { Decides VersionEnds }
{}
