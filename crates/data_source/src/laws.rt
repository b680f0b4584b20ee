// A law of data files: reading one into a graph has one answer.

ghost use Rattle.std.specs.Prelude.{ℕ, List};
ghost use Rattle.sd_graph.specs.Statement.{Building};
ghost use Rattle.data_source.specs.OneAnswer.{HasOneAnswer};

use crate::rules::SourceRules;

/// The contract of `crate::read_source` admits one answer besides out of memory, and one graph with it.
pub fn a_data_file_has_one_answer()
    ensures { (rules : SourceRules) (path : List ℕ) (limit : ℕ) (bytes : List ℕ) (b : Building)
        → HasOneAnswer rules path limit bytes b }
{}
