//! Laws of data texts: what is written is read again, and a text has one answer.
#![tactic(auto)]

ghost use Rattle.graph_spec.specs.DataGraph.{DataGraph, IsWellFormed};
ghost use Rattle.ddl_laws.specs.RoundTrip.{HasI64s, IsReadAgain};

mod answer;
mod integers;

pub use answer::a_data_text_has_one_answer;
pub use integers::integers_fit;

/// The canonical text of a well-formed graph, read into an empty builder with room, gives the graph again: this is an
/// answer that the contract of `sd_ddl::read_ddl` admits.
#[tactic(auto, using(crate::proofs::Again::is_read_again))]
pub fn a_written_graph_is_read_again()
    ensures { (G : DataGraph) → IsWellFormed G → HasI64s G → IsReadAgain G }
{}
