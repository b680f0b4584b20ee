// A search over pairs of a value and a position: a position reads the last label of a walk to the value.

ghost use Rattle.std.specs.Prelude.{◌≡◌, [], ◌↔◌, IfOk, IfSome, IsTrue};
ghost use Rattle.sd_value.specs.Ascending.{ListsExactly};
ghost use Rattle.sd_value.specs.Order.{value_cmp};
ghost use Rattle.walks.specs.Joins.{Joins};
ghost use Rattle.walks.specs.Directions.{JoinsBy, origin};
ghost use Rattle.walks.specs.Search.{Explores, Sorts, At, Ahead, Leads, LeadsFirst, Searches, IsStart, IsEnd, HasEnd};
ghost use Rattle.walks.specs.Search.{IsDone, IsUnderWay, Advances};

use crate::direction::Direction;
use automaton::{Automaton, PositionSet};
use graph_spec::Step;
use sd_value::{NoMemory, Value, copy};
use std::alloc::Global;
use std::collections::BTreeMap;
use store::Store;

// Positions that were visited at a value, and whose edges are still to be followed.
#[derive(Drop)]
struct Task {
    value: Value,
    positions: PositionSet,
}

// Some positions at a value: those that were not visited there, and all that are visited then.
struct Arrivals {
    fresh: PositionSet,
    all: PositionSet,
}

// Sorts the positions by what was visited at the value.
fn sorted(seen: &BTreeMap<Value, PositionSet>, value: &Value, positions: PositionSet) -> Arrivals
    ensures { Sorts seen.now value.now positions result.fresh result.all }
{
    match seen.get(value) {
        Some(old) => {
            let mut fresh = positions;
            fresh.remove_all(old);
            let mut all = positions;
            all.add_all(old);
            Arrivals { fresh, all }
        }
        None => Arrivals {
            fresh: positions,
            all: positions,
        },
    }
}

// Visits the positions at the value: those that are new become a task.
fn visit(
    alloc: Global,
    seen: &mut BTreeMap<Value, PositionSet>,
    tasks: &mut Vec<Task>,
    value: Value,
    positions: PositionSet,
) -> Result<(), NoMemory>
    ensures { IfOk result
        (λ _. Explores (At value positions) seen.old seen.new tasks.old.items tasks.new.items) }
{
    let Arrivals { fresh, all } = sorted(seen, &value, positions);
    if fresh.is_empty() {
        return Ok(());
    }
    let key = copy(alloc, &value)?;
    seen.insert(key, all)?;
    tasks.push(Task {
        value,
        positions: fresh,
    })?;
    Ok(())
}

// Visits what the steps lead to, at those of the positions that may come next.
fn expand(
    alloc: Global,
    automaton: &Automaton,
    reach: &PositionSet,
    steps: Vec<Step>,
    seen: &mut BTreeMap<Value, PositionSet>,
    tasks: &mut Vec<Task>,
) -> Result<(), NoMemory>
    ensures { IfOk result (λ _. Explores (Ahead automaton.now reach.now steps.items)
        seen.old seen.new tasks.old.items tasks.new.items) }
{
    for step in steps {
        let positions = automaton.reading(reach, &step.label);
        visit(alloc, seen, tasks, step.end, positions)?;
    }
    Ok(())
}

// How many edges a search looks at for one value, the look itself counted.
fn looked_at(steps: &[Step]) -> usize {
    steps.len().saturating_add(1)
}

// Follows the edges from the task's value, and reports how many were looked at.
fn follow<S: Store>(
    alloc: Global,
    store: &S,
    automaton: &Automaton,
    direction: Direction,
    task: &Task,
    seen: &mut BTreeMap<Value, PositionSet>,
    tasks: &mut Vec<Task>,
) -> Result<usize, NoMemory>
    ensures { IfOk result
        (λ _. Explores (Leads (S.graph store.now) automaton.now direction task.now)
        seen.old seen.new tasks.old.items tasks.new.items) }
{
    let reach = direction.next(automaton, &task.positions);
    let steps = direction.leaving(alloc, store, &task.value)?;
    let looked = looked_at(&steps);
    expand(alloc, automaton, &reach, steps, seen, tasks)?;
    Ok(looked)
}

// Follows the edges from the first value, and reports how many were looked at.
fn begin<S: Store>(
    alloc: Global,
    store: &S,
    automaton: &Automaton,
    direction: Direction,
    start: &Value,
    seen: &mut BTreeMap<Value, PositionSet>,
    tasks: &mut Vec<Task>,
) -> Result<usize, NoMemory>
    ensures { IfOk result
        (λ _. Explores (LeadsFirst (S.graph store.now) automaton.now direction start.now)
        seen.old seen.new tasks.old.items tasks.new.items) }
{
    let reach = direction.opening(automaton);
    let steps = direction.leaving(alloc, store, start)?;
    let looked = looked_at(&steps);
    expand(alloc, automaton, &reach, steps, seen, tasks)?;
    Ok(looked)
}

// The first value, with nothing visited.
fn started(alloc: Global, start: &Value) -> Result<BTreeMap<Value, PositionSet>, NoMemory>
    ensures { IfOk result (IsStart start.now) }
{
    let key = copy(alloc, start)?;
    let mut seen = BTreeMap::new(alloc);
    seen.insert(key, PositionSet::new())?;
    Ok(seen)
}

// A search that can be left and taken up again: what it visited, what it has still to follow, and how many edges it looked at.
#[derive(Drop)]
struct Exploration {
    seen: BTreeMap<Value, PositionSet>,
    tasks: Vec<Task>,
    looked: usize,
}

impl Exploration {
    fn is_done(&self) -> bool
        ensures { IsTrue result ↔ IsDone self.now }
    {
        self.tasks.is_empty()
    }
}

// A search that has followed the edges from the first value.
fn set_out<S: Store>(
    alloc: Global,
    store: &S,
    automaton: &Automaton,
    direction: Direction,
    start: &Value,
) -> Result<Exploration, NoMemory>
    ensures { IfOk result
        (λ x. IsUnderWay (S.graph store.now) automaton.now direction start.now x) }
{
    let mut seen = started(alloc, start)?;
    let mut tasks = Vec::new(alloc);
    let looked = begin(
        alloc, store, automaton, direction, start, &mut seen, &mut tasks,
    )?;
    Ok(Exploration {
        seen,
        tasks,
        looked,
    })
}

// Follows one task, if there is one.
fn advance<S: Store>(
    alloc: Global,
    store: &S,
    automaton: &Automaton,
    direction: Direction,
    exploration: &mut Exploration,
) -> Result<(), NoMemory>
    ensures { IfOk result
        (λ _. Advances (S.graph store.now) automaton.now direction exploration.old
        exploration.new) }
{
    let Some(task) = exploration.tasks.pop() else {
        return Ok(());
    };
    let followed = follow(
        alloc,
        store,
        automaton,
        direction,
        &task,
        &mut exploration.seen,
        &mut exploration.tasks,
    );
    drop(task);
    let looked = followed?;
    exploration.looked = exploration.looked.saturating_add(looked);
    Ok(())
}

// The positions that a walk from the value may read last, at each value that it comes to; the value itself is there too.
fn visited(exploration: Exploration) -> BTreeMap<Value, PositionSet>
    ensures { result ≡ exploration.seen }
{
    let Exploration {
        seen,
        tasks: _tasks,
        looked: _looked,
    } = exploration;
    seen
}

// Goes on until nothing is left to be followed.
fn search<S: Store>(
    alloc: Global,
    store: &S,
    automaton: &Automaton,
    direction: Direction,
    start: &Value,
) -> Result<BTreeMap<Value, PositionSet>, NoMemory>
    ensures { IfOk result
        (λ seen. Searches (S.graph store.now) automaton.now direction start.now seen []) }
{
    let mut exploration = set_out(alloc, store, automaton, direction, start)?;
    while !exploration.is_done() {
        advance(alloc, store, automaton, direction, &mut exploration)?;
    }
    Ok(visited(exploration))
}

// Whether a walk from the first value may end at the value, where it may read these positions last.
fn is_end(
    automaton: &Automaton,
    direction: Direction,
    start: &Value,
    value: &Value,
    positions: &PositionSet,
) -> bool
    ensures { IsTrue result ↔ IsEnd automaton.now direction start.now value.now positions.now }
{
    direction.closes(automaton, positions) || automaton.has_empty() && start.cmp(value).is_eq()
}

// The values at which a walk may end, ascending.
fn select(
    alloc: Global,
    automaton: &Automaton,
    direction: Direction,
    start: &Value,
    mut seen: BTreeMap<Value, PositionSet>,
) -> Result<Vec<Value>, NoMemory>
    ensures { IfOk result
        (λ values. ListsExactly value_cmp
        (HasEnd automaton.now direction start.now seen) values.items) }
{
    let mut values = Vec::new(alloc);
    let _count = seen.len();
    while let Some((value, positions)) = seen.pop_first() {
        if is_end(automaton, direction, start, &value, &positions) {
            values.push(value)?;
        } else {
            drop(value);
        }
    }
    Ok(values)
}

/// The values that a walk by a word of the automaton joins with the value on this way, ascending: those that it reaches from the
/// value, or those from which it leads to the value.
pub fn reach<S: Store>(
    alloc: Global,
    store: &S,
    automaton: &Automaton,
    direction: Direction,
    start: &Value,
) -> Result<Vec<Value>, NoMemory>
    ensures { IfOk result (λ values. ListsExactly value_cmp
        (JoinsBy (S.graph store.now) automaton.now direction start.now) values.items) }
{
    let seen = search(alloc, store, automaton, direction, start)?;
    select(alloc, automaton, direction, start, seen)
}

fn has_end(
    automaton: &Automaton,
    direction: Direction,
    start: &Value,
    seen: &BTreeMap<Value, PositionSet>,
    value: &Value,
) -> bool
    ensures { IsTrue result ↔ HasEnd automaton.now direction start.now seen.now value.now }
{
    match seen.get(value) {
        Some(positions) => is_end(automaton, direction, start, value, positions),
        None => false,
    }
}

/// The values that a walk joins with the value on this way, as `reach` gives them, if at most about this many edges have to be
/// looked at.
pub fn within<S: Store>(
    alloc: Global,
    store: &S,
    automaton: &Automaton,
    direction: Direction,
    start: &Value,
    limit: usize,
) -> Result<Option<Vec<Value>>, NoMemory>
    ensures { IfOk result
        (λ r. IfSome r
        (λ values. ListsExactly value_cmp
        (JoinsBy (S.graph store.now) automaton.now direction start.now) values.items)) }
{
    let mut exploration = set_out(alloc, store, automaton, direction, start)?;
    while !exploration.is_done() && exploration.looked <= limit {
        advance(alloc, store, automaton, direction, &mut exploration)?;
    }
    if !exploration.is_done() {
        return Ok(None);
    }
    let seen = visited(exploration);
    let values = select(alloc, automaton, direction, start, seen)?;
    Ok(Some(values))
}

// A search that came to its end.
struct Finish {
    direction: Direction,
    seen: BTreeMap<Value, PositionSet>,
}

// Searches from the start onward and from the end backward, always where fewer edges were looked at, until one of the two ends.
fn first_to_end<S: Store>(
    alloc: Global,
    store: &S,
    automaton: &Automaton,
    start: &Value,
    end: &Value,
) -> Result<Finish, NoMemory>
    ensures { IfOk result
        (λ f. Searches (S.graph store.now) automaton.now f.direction
        (origin f.direction start.now end.now) f.seen []) }
{
    let mut onward = set_out(alloc, store, automaton, Direction::Onward, start)?;
    let mut backward = set_out(alloc, store, automaton, Direction::Backward, end)?;
    while !onward.is_done() && !backward.is_done() {
        if onward.looked <= backward.looked {
            advance(alloc, store, automaton, Direction::Onward, &mut onward)?;
        } else {
            advance(alloc, store, automaton, Direction::Backward, &mut backward)?;
        }
    }
    if onward.is_done() {
        Ok(Finish {
            direction: Direction::Onward,
            seen: visited(onward),
        })
    } else {
        Ok(Finish {
            direction: Direction::Backward,
            seen: visited(backward),
        })
    }
}

/// The search of a race that ended first: its way, and all values that walks on it join with the value where it began, ascending.
#[derive(Drop)]
pub struct Winner {
    pub direction: Direction,
    pub values: Vec<Value>,
}

/// The values that a walk from the start reaches, or those from which a walk leads to the end: whichever search ends first, where
/// both go on in turns.
pub fn race<S: Store>(
    alloc: Global,
    store: &S,
    automaton: &Automaton,
    start: &Value,
    end: &Value,
) -> Result<Winner, NoMemory>
    ensures { IfOk result
        (λ w. ListsExactly value_cmp
        (JoinsBy (S.graph store.now) automaton.now w.direction
        (origin w.direction start.now end.now)) w.values.items) }
{
    let Finish { direction, seen } = first_to_end(alloc, store, automaton, start, end)?;
    let origin = direction.origin(start, end);
    let values = select(alloc, automaton, direction, origin, seen)?;
    Ok(Winner { direction, values })
}

/// Whether a walk leads from the one value to the other by a word of the automaton. Two searches begin at both and go on in turns.
pub fn joins<S: Store>(
    alloc: Global,
    store: &S,
    automaton: &Automaton,
    start: &Value,
    end: &Value,
) -> Result<bool, NoMemory>
    ensures { IfOk result
        (λ joined. IsTrue joined ↔ Joins (S.graph store.now) automaton.now start.now end.now) }
{
    let Finish { direction, seen } = first_to_end(alloc, store, automaton, start, end)?;
    let origin = direction.origin(start, end);
    let other = direction.origin(end, start);
    Ok(has_end(automaton, direction, origin, &seen, other))
}
