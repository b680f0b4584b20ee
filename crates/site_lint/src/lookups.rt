//! Names among lists of names, and labels and collections of the data.

ghost use Rattle.std.specs.Prelude.{◌↔◌, ℕ, List, Contains, IsTrue};
ghost use Rattle.graph_spec.specs.DataGraph.{HasMember, IsLabelOf};
ghost use Rattle.site_spec.specs.Site.{SomeOf};

use link_index::NameSet;
use sd_value::Str;
use store::Store;

/// Whether the name isn't among these.
pub(crate) fn is_absent(names: &NameSet, name: &Str) -> bool
    ensures { IsTrue result ↔ (Contains names.now name.now → ⊥) }
{
    !names.has(name)
}

// Whether the data have no member of the collection.
fn has_no_member<S: Store>(store: &S, name: &Str) -> bool
    ensures { IsTrue result ↔ ((n : List ℕ) → HasMember (S.graph store.now) name.now n → ⊥) }
{
    store.members_of(name) == 0
}

/// Whether the data have no member of the collection, and it isn't among those of COLLECTs.
pub(crate) fn is_empty_collection<S: Store>(store: &S, collected: &NameSet, name: &Str) -> bool
    ensures { IsTrue result ↔ ((n : List ℕ) → HasMember (S.graph store.now) name.now n → ⊥)
        × (Contains collected.now name.now → ⊥) }
{
    has_no_member(store, name) && is_absent(collected, name)
}

/// Whether the data have no member of the collection, and it is among those of COLLECTs.
pub(crate) fn is_only_collected<S: Store>(store: &S, collected: &NameSet, name: &Str) -> bool
    ensures { IsTrue result ↔ ((n : List ℕ) → HasMember (S.graph store.now) name.now n → ⊥)
        × Contains collected.now name.now }
{
    has_no_member(store, name) && collected.has(name)
}

/// Whether no edge has the label.
pub(crate) fn is_unknown<S: Store>(store: &S, label: &Str) -> bool
    ensures { IsTrue result ↔ (IsLabelOf (S.graph store.now) label.now → ⊥) }
{
    !store.is_label(label)
}

/// Whether no edge has one of the labels.
pub(crate) fn has_unknown<S: Store>(store: &S, labels: &[Str]) -> bool
    ensures { IsTrue result
        ↔ SomeOf (λ l. IsLabelOf (S.graph store.now) l → ⊥) labels.now }
{
    for label in labels {
        if is_unknown(store, label) {
            return true;
        }
    }
    false
}
