//! How often a graph has what a chain names.
ghost use Rattle.std.specs.Prelude.{◌≡◌, IfOk, MatchOption, None, Some, map};
ghost use Rattle.struql_ast.specs.Reading.{condition_of};
ghost use Rattle.plan_spec.specs.Shape.{CountsOf};
ghost use Rattle.planner.specs.Counting.{priced_label, priced_collection, AddsCount, LabelCount, MemberCount, AreCountsOf};

use plan_spec::{Counted, Counts};
use rpe::Rpe;
use sd_value::{NoMemory, Str};
use std::alloc::Global;
use store::Store;
use struql_ast::{Chain, Condition, PathStep};

// The label of a path by a label alone.
fn label_of(condition: &Condition) -> Option<&Str>
    ensures { MatchOption result (priced_label (condition_of condition.now) ≡ None)
        (λ l. priced_label (condition_of condition.now) ≡ Some l.now) }
{
    match condition {
        Condition::Path {
            step: PathStep::Expression(Rpe::Label(label), _),
            ..
        } => Some(label),
        _ => None,
    }
}

// The collection of a condition on members.
fn collection_of(condition: &Condition) -> Option<&Str>
    ensures { MatchOption result (priced_collection (condition_of condition.now) ≡ None)
        (λ c. priced_collection (condition_of condition.now) ≡ Some c.now) }
{
    match condition {
        Condition::Member { collection, .. } => Some(collection),
        _ => None,
    }
}

fn add_label<S: Store>(
    alloc: Global,
    store: &S,
    condition: &Condition,
    counted: &mut Vec<Counted>,
) -> Result<(), NoMemory>
    ensures { IfOk result (λ _. AddsCount priced_label (LabelCount (S.graph store.now))
        (condition_of condition.now) counted.old.items counted.new.items) }
{
    if let Some(label) = label_of(condition) {
        let name = label.copy(alloc)?;
        let count = store.edges_of(label);
        counted.push(Counted { name, count })?;
    }
    Ok(())
}

fn add_collection<S: Store>(
    alloc: Global,
    store: &S,
    condition: &Condition,
    counted: &mut Vec<Counted>,
) -> Result<(), NoMemory>
    ensures { IfOk result (λ _. AddsCount priced_collection (MemberCount (S.graph store.now))
        (condition_of condition.now) counted.old.items counted.new.items) }
{
    if let Some(collection) = collection_of(condition) {
        let name = collection.copy(alloc)?;
        let count = store.members_of(collection);
        counted.push(Counted { name, count })?;
    }
    Ok(())
}

fn labels_of<S: Store>(
    alloc: Global,
    store: &S,
    conditions: &[Condition],
) -> Result<Vec<Counted>, NoMemory>
    ensures { IfOk result (λ counted. AreCountsOf priced_label (LabelCount (S.graph store.now))
        (map condition_of conditions.now) counted.items) }
{
    let mut counted = Vec::new(alloc);
    for condition in conditions {
        add_label(alloc, store, condition, &mut counted)?;
    }
    Ok(counted)
}

fn collections_of<S: Store>(
    alloc: Global,
    store: &S,
    conditions: &[Condition],
) -> Result<Vec<Counted>, NoMemory>
    ensures { IfOk result (λ counted. AreCountsOf priced_collection
        (MemberCount (S.graph store.now)) (map condition_of conditions.now) counted.items) }
{
    let mut counted = Vec::new(alloc);
    for condition in conditions {
        add_collection(alloc, store, condition, &mut counted)?;
    }
    Ok(counted)
}

/// The counts of a store's graph, for the labels and collections by which the chain's conditions are priced.
pub fn counts_of<S: Store>(alloc: Global, store: &S, chain: &Chain) -> Result<Counts, NoMemory>
    ensures { IfOk result (CountsOf (S.graph store.now) chain.now) }
{
    let labels = labels_of(alloc, store, chain.conditions())?;
    let collections = collections_of(alloc, store, chain.conditions())?;
    Ok(Counts {
        sizes: store.sizes(),
        labels,
        collections,
    })
}
