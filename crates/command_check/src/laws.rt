// The laws of the command: the inputs decide its answer.
ghost use Rattle.std.specs.Prelude.{◌≡◌, ℕ, List, Result};
ghost use Rattle.edge_io.specs.Files.{FileMap};
ghost use Rattle.command_spec.specs.declared.DataFiles.{DataFiles};
ghost use Rattle.site_inputs.specs.declared.fault.Fault.{Fault};
ghost use Rattle.site_inputs.specs.Runs.{IsDecided, Decides};
ghost use Rattle.run_report.specs.declared.reports.Report.{Report};
ghost use Rattle.command_check.specs.CheckEnds.{CheckEnds, all_yes_of};
ghost use Rattle.command_check.specs.Ends.{HereEnds};

/// The data, the query and the constraints decide the report.
pub fn reports_are_decided()
    ensures { (map : FileMap) (sources : DataFiles) (query constraints : List ℕ)
        → Decides (HereEnds map sources query constraints) }
{}

/// The query and the constraints decide whether all are answered yes. Only which certificate is shown
/// of a constraint that has several isn't said.
pub fn answers_are_decided()
    ensures { (map : FileMap) (query constraints : List ℕ) (one other : Result Report Fault)
        → CheckEnds map query constraints one → CheckEnds map query constraints other
        → IsDecided one → IsDecided other → all_yes_of one ≡ all_yes_of other }
{}
