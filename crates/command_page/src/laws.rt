// The law of the command: the inputs decide its answer.
ghost use Rattle.edge_io.specs.Files.{FileMap};
ghost use Rattle.command_spec.specs.declared.PageCommand.{PageCommand};
ghost use Rattle.site_inputs.specs.Runs.{Decides};
ghost use Rattle.command_page.specs.Ends.{PageEnds};

/// The data, the query, the templates and the address decide the answer.
pub fn pages_are_decided()
    ensures { (map : FileMap) (command : PageCommand) → Decides (PageEnds map command) }
{}
