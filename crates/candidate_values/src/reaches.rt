// What the walks of a search's goals reach, kept for the values at which they were begun.
ghost use Rattle.std.specs.Prelude.{◌≡◌, ◌↔◌, IfOk, IfSome, IsTrue, List, Contains, Some};
ghost use Rattle.std.specs.BTreeMap.{get};
ghost use Rattle.std.specs.List.Sorted.{IsStrictlySortedBy};
ghost use Rattle.sd_value.specs.Ascending.{ListsExactly};
ghost use Rattle.sd_value.specs.Order.{value_cmp};
ghost use Rattle.graph_spec.specs.DataGraph.{DataGraph};
ghost use Rattle.automaton.specs.Table.{Table};
ghost use Rattle.walks.specs.declared.direction.Direction.{Direction as AnyDirection};
ghost use Rattle.walks.specs.Directions.{JoinsBy};
ghost use Rattle.walks.specs.Joins.{Joins};
ghost use Rattle.condition_tests.specs.declared.literal.Goal.{Goal};
ghost use Rattle.candidate_values.specs.Kept.{IsWalkOf, key_cmp, IsReach, AreReaches, IsKept};

use crate::search::Search;
use automaton::Automaton;
use condition_tests::is_among;
use sd_value::{NoMemory, Value, copy};
use std::alloc::Global;
use std::collections::BTreeMap;
use store::Store;
use walks::{Direction, Winner};

// At most this many values and lists are kept, the list that was made last aside.
const ROOM: usize = 1048576;

/// By a goal and a value, all values that walks of the goal join with the value, ascending, for each of the two ways.
#[derive(Drop)]
pub struct Reaches {
    onward: BTreeMap<(usize, Value), Vec<Value>>,
    backward: BTreeMap<(usize, Value), Vec<Value>>,
    count: usize,
}

fn copies(alloc: Global, values: &[Value]) -> Result<Vec<Value>, NoMemory>
    ensures { IfOk result (λ copied. copied.items ≡ values.now) }
{
    let mut copied = Vec::with_capacity(alloc, values.len())?;
    for value in values {
        copied.push(copy(alloc, value)?)?;
    }
    Ok(copied)
}

fn listed<'a>(
    lists: &'a BTreeMap<(usize, Value), Vec<Value>>,
    key: &(usize, Value),
) -> Option<&'a Vec<Value>>
    ensures { IfSome result (λ values. get key_cmp lists.now key.now ≡ Some values.now) }
{
    match lists.get(key) {
        Some(values) => Some(values),
        None => None,
    }
}

fn put(
    lists: &mut BTreeMap<(usize, Value), Vec<Value>>,
    key: (usize, Value),
    values: Vec<Value>,
) -> Result<(), NoMemory>
    ensures { IfOk result
        (λ _. (G : DataGraph) (goals : List Goal) (d : AnyDirection)
        → AreReaches G goals d lists.old
        → IsReach G goals d key values.items → AreReaches G goals d lists.new) }
{
    lists.insert(key, values)?;
    Ok(())
}

impl Reaches {
    /// None is kept yet.
    pub fn new(alloc: Global) -> Reaches
        ensures { (G : DataGraph) (goals : List Goal) → IsKept G goals result }
    {
        Reaches {
            onward: BTreeMap::new(alloc),
            backward: BTreeMap::new(alloc),
            count: 0,
        }
    }

    fn find(&self, direction: Direction, key: &(usize, Value)) -> Option<&Vec<Value>>
        ensures { IfSome result
            (λ values. (G : DataGraph) (goals : List Goal) → IsKept G goals self.now
            → IsReach G goals direction key.now values.now.items) }
    {
        match direction {
            Direction::Onward => listed(&self.onward, key),
            Direction::Backward => listed(&self.backward, key),
        }
    }

    fn recalled(
        &self,
        alloc: Global,
        direction: Direction,
        key: &(usize, Value),
    ) -> Result<Option<Vec<Value>>, NoMemory>
        ensures { IfOk result
            (λ r. IfSome r
            (λ values. (G : DataGraph) (goals : List Goal) → IsKept G goals self.now
            → IsReach G goals direction key.now values.items)) }
    {
        match self.find(direction, key) {
            Some(values) => {
                let values = copies(alloc, values.as_slice())?;
                Ok(Some(values))
            }
            None => Ok(None),
        }
    }

    // Forgets all that is kept where one more list of this length would be too much.
    fn make_room(&mut self, alloc: Global, length: usize)
        ensures { (G : DataGraph) (goals : List Goal) → IsKept G goals self.old
            → IsKept G goals self.new }
    {
        if length < ROOM.saturating_sub(self.count) {
            self.count = self.count.saturating_add(length).saturating_add(1);
            return;
        }
        self.onward = BTreeMap::new(alloc);
        self.backward = BTreeMap::new(alloc);
        self.count = length.saturating_add(1);
    }

    fn keep(
        &mut self,
        alloc: Global,
        direction: Direction,
        key: (usize, Value),
        values: Vec<Value>,
    ) -> Result<(), NoMemory>
        ensures { IfOk result
            (λ _. (G : DataGraph) (goals : List Goal) → IsKept G goals self.old
            → IsReach G goals direction key values.items → IsKept G goals self.new) }
    {
        self.make_room(alloc, values.len());
        match direction {
            Direction::Onward => {
                put(&mut self.onward, key, values)?;
                Ok(())
            }
            Direction::Backward => {
                put(&mut self.backward, key, values)?;
                Ok(())
            }
        }
    }

    /// The values that walks of the goal join with the value on this way, ascending.
    pub fn reach<S: Store>(
        &mut self,
        alloc: Global,
        search: &Search<S>,
        goal: usize,
        automaton: &Automaton,
        direction: Direction,
        start: &Value,
    ) -> Result<Vec<Value>, NoMemory>
        requires kept { IsKept (S.graph search.now.store.now) search.now.goals.now self.old }
        requires walk { IsWalkOf search.now.goals.now goal automaton.now }
        ensures kept { IfOk result
            (λ _. IsKept (S.graph search.now.store.now) search.now.goals.now self.new) }
        ensures reach { IfOk result
            (λ values. ListsExactly value_cmp
            (JoinsBy (S.graph search.now.store.now) automaton.now direction start.now)
            values.items) }
    {
        let value = copy(alloc, start)?;
        let key = (goal, value);
        if let Some(values) = self.recalled(alloc, direction, &key)? {
            return Ok(values);
        }
        let values = walks::reach(alloc, search.store, automaton, direction, start)?;
        let copied = copies(alloc, values.as_slice())?;
        self.keep(alloc, direction, key, values)?;
        Ok(copied)
    }

    /// How many values walks of the goal join with the value on this way, where it is known or is found by looking at few edges.
    pub fn count_within<S: Store>(
        &mut self,
        alloc: Global,
        search: &Search<S>,
        goal: usize,
        automaton: &Automaton,
        direction: Direction,
        start: &Value,
        limit: usize,
    ) -> Result<Option<u64>, NoMemory>
        requires kept { IsKept (S.graph search.now.store.now) search.now.goals.now self.old }
        requires walk { IsWalkOf search.now.goals.now goal automaton.now }
        ensures { IfOk result
            (λ _. IsKept (S.graph search.now.store.now) search.now.goals.now self.new) }
    {
        let value = copy(alloc, start)?;
        let key = (goal, value);
        if let Some(values) = self.find(direction, &key) {
            return Ok(Some(values.len() as u64));
        }
        let Some(values) = walks::within(alloc, search.store, automaton, direction, start, limit)?
        else {
            return Ok(None);
        };
        let count = values.len() as u64;
        self.keep(alloc, direction, key, values)?;
        Ok(Some(count))
    }

    // Whether a walk of the goal joins the values, where that is known.
    fn told(
        &self,
        alloc: Global,
        goal: usize,
        start: &Value,
        end: &Value,
    ) -> Result<Option<bool>, NoMemory>
        ensures { IfOk result
            (λ r. IfSome r
            (λ joined. (G : DataGraph) (goals : List Goal) (t : Table) → IsKept G goals self.now
            → IsWalkOf goals goal t → IsTrue joined ↔ Joins G t start.now end.now)) }
    {
        let value = copy(alloc, start)?;
        let key = (goal, value);
        if let Some(ends) = self.find(Direction::Onward, &key) {
            return Ok(Some(is_among(ends.as_slice(), end)));
        }
        let value = copy(alloc, end)?;
        let key = (goal, value);
        if let Some(starts) = self.find(Direction::Backward, &key) {
            return Ok(Some(is_among(starts.as_slice(), start)));
        }
        Ok(None)
    }

    /// Whether a walk of the goal joins the values.
    pub fn joins<S: Store>(
        &mut self,
        alloc: Global,
        search: &Search<S>,
        goal: usize,
        automaton: &Automaton,
        start: &Value,
        end: &Value,
    ) -> Result<bool, NoMemory>
        requires kept { IsKept (S.graph search.now.store.now) search.now.goals.now self.old }
        requires walk { IsWalkOf search.now.goals.now goal automaton.now }
        ensures kept { IfOk result
            (λ _. IsKept (S.graph search.now.store.now) search.now.goals.now self.new) }
        ensures joined { IfOk result
            (λ joined. IsTrue joined
            ↔ Joins (S.graph search.now.store.now) automaton.now start.now end.now) }
    {
        if let Some(joined) = self.told(alloc, goal, start, end)? {
            return Ok(joined);
        }
        let Winner { direction, values } = walks::race(alloc, search.store, automaton, start, end)?;
        let joined = is_among(values.as_slice(), direction.origin(end, start));
        let origin = copy(alloc, direction.origin(start, end))?;
        self.keep(alloc, direction, (goal, origin), values)?;
        Ok(joined)
    }
}
