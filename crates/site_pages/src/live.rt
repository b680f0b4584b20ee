// Stores of the data of a run, which take edits.
ghost use Rattle.std.specs.Prelude.{◌≡◌, IfOk, Some};
ghost use Rattle.edit_spec.specs.Edited.{IsOfData};
ghost use Rattle.data_texts.specs.Edits.{is_taken, edited};

use edit_spec::Edit;
use live_store::LiveStore;
use sd_graph::GraphRefusal;
use sd_value::NoMemory;
use std::alloc::Global;

/// Makes the edit, where there is room for the graph after it, and tells whether there was.
pub(crate) fn apply(alloc: Global, store: &mut LiveStore, edit: &Edit) -> Result<bool, NoMemory>
    requires { IsOfData edit.now }
    ensures graph { IfOk result
        (λ _. store.new.graph ≡ edited (Some edit.now) store.old.graph) }
    ensures room { IfOk result (λ room. room ≡ is_taken (Some edit.now) store.old.graph) }
{
    match store.apply(alloc, edit) {
        Ok(()) => Ok(true),
        Err(GraphRefusal::TooManyNodes) => Ok(false),
        Err(GraphRefusal::TooManyEdges) => Ok(false),
        Err(GraphRefusal::NoMemory) => Err(NoMemory),
    }
}
