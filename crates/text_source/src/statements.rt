// A text file's facts, put together and stated.
ghost use Rattle.std.specs.Prelude.{◌≤◌, length, MatchResult};
ghost use Rattle.sd_graph.specs.Stating.{Ends};
ghost use Rattle.text_source.specs.Lines.{lines_of};
ghost use Rattle.text_source.specs.Text.{lines_steps, text_ending};
ghost use Rattle.text_source.specs.Scans.{IsText, AreFacts, IsAtFault};

use crate::facts::{Fact, push_node, push_text, state_all};
use crate::front::read_front;
use crate::lines::split;
use crate::refusal::TextFileRefusal;
use sd_graph::GraphBuilder;
use sd_value::Str;
use std::alloc::Global;
use std::str;

/// Whether the last bytes of a file of so many are a text.
pub(crate) fn check_text(size: u64, text: &[u8]) -> Result<(), TextFileRefusal>
    requires { length text.now ≤ size }
    ensures { IsText size text.now result }
{
    match str::from_utf8(text) {
        Ok(_) => Ok(()),
        Err(error) => {
            let before = size - text.len() as u64;
            Err(TextFileRefusal::NotUtf8(before + error.valid_up_to() as u64))
        }
    }
}

// The facts of a text.
fn gather(
    alloc: Global,
    stem: &Str,
    folder: &Option<Str>,
    size: u64,
    text: &[u8],
) -> Result<Vec<Fact>, TextFileRefusal>
    requires { length text.now ≤ size }
    ensures { MatchResult result
        (λ facts. AreFacts stem.now folder.now (lines_of size text.now) facts.items)
        (λ e. IsAtFault (lines_of size text.now) e) }
{
    let (front, own) = split(text);
    let mut facts = Vec::new(alloc);
    push_node(alloc, stem, folder, &mut facts)?;
    if let Some(lines) = front {
        read_front(alloc, size, lines, &mut facts)?;
    }
    push_text(alloc, own, &mut facts)?;
    Ok(facts)
}

/// Adds what a text states, of the last bytes of a file of so many.
pub(crate) fn add_file(
    alloc: Global,
    graph: &mut GraphBuilder,
    stem: &Str,
    folder: &Option<Str>,
    size: u64,
    text: &[u8],
) -> Result<(), TextFileRefusal>
    requires { length text.now ≤ size }
    ensures { Ends graph.old (lines_steps stem.now folder.now (lines_of size text.now)) graph.new
        (text_ending result) }
{
    let facts = gather(alloc, stem, folder, size, text)?;
    state_all(alloc, graph, stem, facts.as_slice())
}
