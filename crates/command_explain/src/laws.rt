// The law of the command: the inputs decide its answer.
ghost use Rattle.graph_spec.specs.DataGraph.{DataGraph};
ghost use Rattle.query_spec.specs.Query.{Query as AnyQuery};
ghost use Rattle.edge_io.specs.Files.{FileMap};
ghost use Rattle.command_spec.specs.declared.ExplainCommand.{ExplainCommand};
ghost use Rattle.site_inputs.specs.Runs.{Decides};
ghost use Rattle.command_explain.specs.Explained.{HasOneExplanation};
ghost use Rattle.command_explain.specs.Ends.{ExplainEnds};

/// The graph and the query decide the text.
pub fn a_query_has_one_explanation()
    ensures { (G : DataGraph) (q : AnyQuery) → HasOneExplanation G q }
{}

/// The data and the query decide the answer.
pub fn explanations_are_decided()
    ensures { (map : FileMap) (command : ExplainCommand) → Decides (ExplainEnds map command) }
{}
