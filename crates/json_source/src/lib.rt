//! JSON read into a data graph, strictly or leniently.
#![tactic(auto)]

ghost use Rattle.std.specs.Prelude.{List, ℕ};
ghost use Rattle.sd_graph.specs.Statement.{Building};
ghost use Rattle.json_source.specs.Reads.{Reads, HasOneAnswer};

mod document;
mod names;
mod orders;
mod records;
mod refusal;
mod rules;
mod statements;
mod tables;
mod values;

use document::read_value;
pub use names::place_of_member;
use records::add_top;
pub use refusal::JsonRefusal;
pub use rules::JsonRules;
use sd_graph::GraphBuilder;
use sd_value::Str;
use std::alloc::Global;

/// Adds what a JSON text states, read by the rules: a list of records, or an object whose values are
/// lists of records. Record k of a list, from 1, is a node: `STEM_k` in the collection STEM, or
/// `STEM_KEY_k` in the collection KEY. Its members are edges, and an object in it is a node of its
/// own. After a refusal the graph has what was before its place. The value is the one that the crate
/// `serde_json` reads, which nests at most 127 deep, and of equal keys has the last.
pub fn read_json(
    alloc: Global,
    rules: JsonRules,
    stem: &Str,
    bytes: &[u8],
    graph: &mut GraphBuilder,
) -> Result<(), JsonRefusal>
    ensures { Reads rules stem.now bytes.now graph.old graph.new result }
{
    let value = read_value(alloc, rules, bytes)?;
    add_top(&value, alloc, rules, graph, stem)
}

/// A text read into a graph has one answer, besides out of memory, and leaves one graph with it.
pub fn texts_have_one_answer()
    ensures { (rules : JsonRules) (stem bytes : List ℕ) (b : Building)
        → HasOneAnswer rules stem bytes b }
{}
