// What an edit changes beside the nodes.
ghost use Rattle.std.specs.Prelude.{◌≡◌, ◌↔◌, OnOk, OnErr, IsTrue};
ghost use Rattle.graph_spec.specs.DataGraph.{IsWellFormed};
ghost use Rattle.live_layers.specs.Items.{HasItem};
ghost use Rattle.live_store.specs.Live.{puts as puts_in, IsChanged};

use crate::lists::is_among;
use edit_spec::Edit;
use index_store::IndexStore;
use live_layers::Layer;
use sd_value::NoMemory;
use std::alloc::Global;

/// Whether the edit puts something in.
pub(crate) fn puts(edit: &Edit) -> bool
    ensures { result ≡ puts_in edit.now }
{
    match edit {
        Edit::Add(_) | Edit::Enter(_) => true,
        Edit::Remove(_) | Edit::Leave(_) => false,
    }
}

/// Whether the store's graph has what the edit is of.
pub(crate) fn item_is_in(store: &IndexStore, edit: &Edit) -> bool
    requires { IsWellFormed store.now }
    ensures { IsTrue result ↔ HasItem store.now edit.now }
{
    match edit {
        Edit::Add(edge) | Edit::Remove(edge) => is_among(store.graph().edges(), edge),
        Edit::Enter(member) | Edit::Leave(member) => is_among(store.graph().member_pairs(), member),
    }
}

/// Makes an edit: of what the store has, by taking it out of what went or putting it there, and else of what came. On
/// `Err` nothing has changed.
pub(crate) fn change(
    alloc: Global,
    base: &IndexStore,
    came: &mut Layer,
    gone: &mut Layer,
    edit: &Edit,
) -> Result<(), NoMemory>
    requires { IsWellFormed base.now }
    ensures changed { OnOk result
        (IsChanged base.now came.old gone.old edit.now came.new gone.new) }
    ensures came { OnErr result (came.new ≡ came.old) }
    ensures gone { OnErr result (gone.new ≡ gone.old) }
{
    if item_is_in(base, edit) {
        return gone.change(alloc, edit, !puts(edit));
    }
    came.change(alloc, edit, puts(edit))
}
