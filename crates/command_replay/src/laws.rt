// The law of the command: how a replay ends that nothing outside fails.
ghost use Rattle.run_report.specs.declared.status.Status.{Status};
ghost use Rattle.command_spec.specs.declared.ReplayCommand.{ReplayCommand};
ghost use Rattle.site_inputs.specs.Outside.{Host};
ghost use Rattle.command_replay.specs.Law.{ReplayEndsWell};

/// A replay whose inputs and script are accepted, which nothing outside fails, and whose script has fewer events than there
/// are turns, ends well; and an input that is refused ends it.
pub fn replays_end_well()
    ensures { (command : ReplayCommand) (before after : Host) (reached : Status)
        → ReplayEndsWell command before after reached }
{}
