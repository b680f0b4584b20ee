// The law of the command: the inputs decide its answer.
ghost use Rattle.edge_io.specs.Files.{FileMap};
ghost use Rattle.command_spec.specs.declared.SchemaCommand.{SchemaCommand};
ghost use Rattle.site_inputs.specs.Runs.{Decides};
ghost use Rattle.command_schema.specs.Ends.{SchemaEnds};

/// The query decides the answer.
pub fn schemas_are_decided()
    ensures { (map : FileMap) (command : SchemaCommand) → Decides (SchemaEnds map command) }
{}
