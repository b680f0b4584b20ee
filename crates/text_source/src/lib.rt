//! Markdown and HTML files read into a data graph: a node with the file's text and what its front matter says.
#![tactic(auto)]

ghost use Rattle.std.specs.Prelude.{◌≡◌, Option, List, ℕ, option_map};
ghost use Rattle.sd_graph.specs.Statement.{Building};
ghost use Rattle.text_source.specs.Reads.{Reads, HasOneAnswer};

mod facts;
mod front;
mod lines;
mod refusal;
mod statements;
mod values;

pub use refusal::TextFileRefusal;
use sd_graph::GraphBuilder;
use sd_value::Str;
use source_steps::without_mark;
use statements::{add_file, check_text};
use std::alloc::Global;

/// Adds what a text file states: the node `stem`, a member of `texts` and, if the file's folder has a name, of the
/// collection of that name, with its name, its text and an edge for each value of its front matter. After a refusal the
/// graph is as it was, and where there is no room in it or memory it has what was stated before.
/// # Errors
/// `NotUtf8` at the first byte that is no text; else `Expected` at the first line of the front matter that can't stand
/// there; else no room for what is stated at a place; or out of memory.
pub fn read_text(
    alloc: Global,
    stem: &Str,
    folder: &Option<Str>,
    bytes: &[u8],
    graph: &mut GraphBuilder,
) -> Result<(), TextFileRefusal>
    ensures { Reads stem.now folder.now bytes.now graph.old graph.new result }
{
    let text = without_mark(bytes);
    let size = bytes.len() as u64;
    check_text(size, text)?;
    add_file(alloc, graph, stem, folder, size, text)
}

/// A file read into a graph has one answer, besides out of memory, and leaves one graph with it.
pub fn texts_have_one_answer()
    ensures { (stem : List ℕ) (folder : Option (List ℕ)) (bytes : List ℕ) (b : Building)
        → HasOneAnswer stem folder bytes b }
{}
