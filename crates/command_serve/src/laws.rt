// The law of the command: how a run over connections ends that nothing outside fails.
ghost use Rattle.run_report.specs.declared.status.Status.{Status};
ghost use Rattle.command_spec.specs.declared.ServeCommand.{ServeCommand};
ghost use Rattle.site_inputs.specs.Outside.{Outside};
ghost use Rattle.command_serve.specs.Law.{ServingEndsWell};

/// A run over connections whose inputs are accepted, which nothing outside fails, and for which the wire reports fewer events
/// than there are turns, ends well; and an input that is refused ends it.
pub fn serving_ends_well()
    ensures { (command : ServeCommand) (before after : Outside) (reached : Status)
        → ServingEndsWell command before after reached }
{}
