// A law of the data text: reading it into a graph has one answer.

ghost use Rattle.std.specs.Prelude.{ℕ, List};
ghost use Rattle.sd_graph.specs.Statement.{Building};
ghost use Rattle.ddl_laws.specs.OneAnswer.{HasOneAnswer};

/// The contract of `sd_ddl::read_ddl` admits one answer besides out of memory, and one graph with it.
pub fn a_data_text_has_one_answer()
    ensures { (limit : ℕ) (bytes : List ℕ) (b : Building) → HasOneAnswer limit bytes b }
{}
