//! Texts that change the data of a run whose data may be the site of a first query.

ghost use Rattle.std.specs.Prelude.{◌≡◌, IfOk};
ghost use Rattle.site_spec.specs.Site.{scope_of};
ghost use Rattle.data_texts.specs.Texts.{States, IsRead};
ghost use Rattle.data_texts.specs.ComposedTexts.{StatesOver, MakesData, Readers};

use crate::read_change;
use command_spec::DATA_LIMIT;
use composed_data::composed_data;
use sd_ddl::read_ddl;
use sd_graph::{Graph, GraphBuilder, GraphRefusal, PROGRAM_LIMITS};
use sd_value::{NoMemory, Str};
use std::alloc::Global;
use struql_check::Checked;

// The graph of the first query's site over the data that the text stated, where it is within the limits.
fn composed(
    alloc: Global,
    text: &Str,
    gathered: GraphBuilder,
    first: &Checked,
) -> Result<Option<Graph>, NoMemory>
    requires { States text.now gathered.graph }
    ensures { IfOk result (IsRead (StatesOver (scope_of first.now)) text.now) }
{
    match composed_data(alloc, gathered, first, PROGRAM_LIMITS) {
        Ok(graph) => Ok(Some(graph)),
        Err(GraphRefusal::TooManyNodes) => Ok(None),
        Err(GraphRefusal::TooManyEdges) => Ok(None),
        Err(GraphRefusal::NoMemory) => Err(NoMemory),
    }
}

// The graph of the first query's site over the data that a text states, where both are accepted.
fn read_composed(alloc: Global, text: &Str, first: &Checked) -> Result<Option<Graph>, NoMemory>
    ensures { IfOk result (IsRead (StatesOver (scope_of first.now)) text.now) }
{
    let mut gathered = GraphBuilder::new(alloc, PROGRAM_LIMITS);
    match read_ddl(alloc, text.bytes(), DATA_LIMIT, &mut gathered) {
        Ok(()) => composed(alloc, text, gathered, first),
        Err(refusal) => {
            if refusal.is_out_of_memory() {
                return Err(NoMemory);
            }
            Ok(None)
        }
    }
}

/// The data that a text makes, where it is accepted; none where it isn't. Without a first query a data text is accepted,
/// and makes the data that it states. With one, it is accepted where the graph of the first query's site over those data
/// is within the program's limits too, and makes that graph.
/// # Errors
/// Out of memory.
pub fn read_text(
    alloc: Global,
    text: &Str,
    first: &Option<Checked>,
) -> Result<Option<Graph>, NoMemory>
    ensures { IfOk result (IsRead (MakesData first.now) text.now) }
{
    match first {
        None => read_change(alloc, text),
        Some(first) => read_composed(alloc, text, first),
    }
}

/// For each first query, and for none, there is a reader, as a function: which texts are accepted, exactly, and the data
/// that each of them makes.
pub fn each_first_query_has_a_reader()
    ensures { Readers }
{}
