// Reading a data text into a graph.
ghost use Rattle.sd_ddl.specs.Reads.{Reads};

use crate::conflict::add_text;
use crate::part::parts_of;
use crate::plain::read_plainly;
use crate::refusal::DdlRefusal;
use ddl_text::statements_of;
use sd_graph::GraphBuilder;
use std::alloc::Global;

/// Adds what a text of at most `limit` bytes states. A text that is refused for its bytes, its tokens or a conflict of
/// kinds leaves the graph as it was; where something doesn't fit or it is out of memory, the graph has what was before.
pub fn read_ddl(
    alloc: Global,
    bytes: &[u8],
    limit: u64,
    graph: &mut GraphBuilder,
) -> Result<(), DdlRefusal>
    ensures { Reads limit bytes.now graph.old graph.new result }
{
    if graph.is_empty() {
        // A text without directives that fits is read statement by statement. Of any other nothing
        // is kept.
        if let Some(read) = read_plainly(alloc, bytes, limit, graph.limits()) {
            *graph = read;
            return Ok(());
        }
    }
    let statements = statements_of(alloc, bytes, limit)?;
    let parts = parts_of(alloc, statements.as_slice())?;
    add_text(alloc, parts.as_slice(), graph)?;
    Ok(())
}
