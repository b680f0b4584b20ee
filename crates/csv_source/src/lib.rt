//! CSV read into a data graph, strictly or leniently.
#![tactic(auto)]

ghost use Rattle.std.specs.Prelude.{◌≡◌, List, ℕ};
ghost use Rattle.sd_graph.specs.Statement.{Building};
ghost use Rattle.csv_source.specs.Reads.{Reads, HasOneAnswer};

mod reader;
mod refusal;
mod rows;
mod rules;
mod separator;

use reader::{next_fields, reader_of};
pub use refusal::CsvRefusal;
use rows::{add_rows, check_labels};
pub use rules::CsvRules;
use sd_graph::GraphBuilder;
use sd_value::Str;
use separator::separator_by;
use source_steps::without_mark;
use std::alloc::Global;

/// Adds what a CSV text states, read by the rules. The first record is the header, and record k
/// from 1 is the node `STEM_k`, a member of STEM, with an edge for each field that isn't empty. After
/// a refusal the graph has what the records before its place state, and where there is no room in it
/// or memory also what the record at hand states before the part that wanted it. The records are
/// those of the crate `csv`, which follows RFC 4180.
pub fn read_csv(
    alloc: Global,
    rules: CsvRules,
    stem: &Str,
    bytes: &[u8],
    graph: &mut GraphBuilder,
) -> Result<(), CsvRefusal>
    ensures { Reads rules stem.now bytes.now graph.old graph.new result }
{
    let text = without_mark(bytes);
    let separator = separator_by(alloc, rules, text)?;
    let mut reader = reader_of(alloc, text, separator);
    let Some(labels) = next_fields(alloc, &mut reader)? else {
        return Ok(());
    };
    check_labels(labels.as_slice())?;
    add_rows(alloc, rules, graph, stem, labels.as_slice(), &mut reader)
}

/// A text read into a graph has one answer, besides out of memory, and leaves one graph with it.
pub fn texts_have_one_answer()
    ensures { (rules : CsvRules) (stem bytes : List ℕ) (b : Building)
        → HasOneAnswer rules stem bytes b }
{}
