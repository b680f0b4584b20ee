// The law of the command: the inputs decide its answer.
ghost use Rattle.edge_io.specs.Files.{FileMap};
ghost use Rattle.command_spec.specs.declared.DataCommand.{DataCommand};
ghost use Rattle.site_inputs.specs.Runs.{Decides};
ghost use Rattle.command_data.specs.Ends.{DataEnds};

/// The data decide the answer.
pub fn data_is_decided()
    ensures { (map : FileMap) (command : DataCommand) → Decides (DataEnds map command) }
{}
