// The law of the command: the inputs decide its report.
ghost use Rattle.std.specs.Prelude.{ℕ, List};
ghost use Rattle.edge_io.specs.Files.{FileMap};
ghost use Rattle.command_spec.specs.declared.DataFiles.{DataFiles};
ghost use Rattle.site_inputs.specs.Runs.{Decides};
ghost use Rattle.command_lint.specs.Ends.{LintEnds};

/// The data, the query and the templates decide the report.
pub fn reports_are_decided()
    ensures { (map : FileMap) (sources : DataFiles) (query templates : List ℕ)
        → Decides (LintEnds map sources query templates) }
{}
