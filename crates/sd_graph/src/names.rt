// A set of names, in which the name that was begun last is known without a look.
ghost use Rattle.std.specs.Prelude.{◌≡◌, ◌<◌, ◌^◌, IfOk, IsTrue, ◌↔◌, Some, length, if◌then◌else◌, [], Contains};
ghost use Rattle.std.specs.List.{IsDistinct};
ghost use Rattle.std.specs.Ordering.{eq_by_cmp};
ghost use Rattle.std.specs.Result.{is_ok};
ghost use Rattle.sd_value.specs.Order.{bytes_cmp};
ghost use Rattle.graph_spec.specs.DataGraph.{Name};
ghost use Rattle.sd_graph.specs.Gathered.{in_order};
ghost use Rattle.sd_graph.specs.Statement.{with_name};
ghost use Rattle.sd_graph.specs.Undone.{without, IsUndoneBy};

use indexmap::IndexSet;
use sd_value::{NoMemory, Str};
use std::alloc::Global;
use std::marker::Model;

/// A set of names. They are found by hash, and put in order once, at the end. Data speak of one node again and
/// again, so the name that was begun last is kept beside them.
#[derive(Debug, Drop)]
pub(crate) struct Names {
    set: IndexSet<Str>,
    latest: Option<Str>,
}

impl Model for Names {
    ghost use Rattle.std.specs.Prelude.{List, Contains, IfSome};
    ghost use Rattle.sd_value.specs.Order.{bytes_cmp};
    ghost use Rattle.graph_spec.specs.DataGraph.{Name};
    ghost use Rattle.sd_graph.specs.Gathered.{in_order};

    ghost Value = { List Name };

    ghost view = { λ n. in_order bytes_cmp n.set.keys };

    ghost invariant = { λ n. IfSome n.latest (Contains n.set.keys) };
}

impl Names {
    pub(crate) fn new(alloc: Global) -> Names
        ensures { result ≡ [] }
    {
        Names {
            set: IndexSet::new(alloc),
            latest: None,
        }
    }

    /// How many names there are.
    pub(crate) fn len(&self) -> usize
        ensures len { result ≡ length self.now }
        ensures small { result < 2 ^ 63 }
    {
        self.set.len()
    }

    /// Adds a name, and reports whether it is new. On `Err` nothing has changed.
    pub(crate) fn add(&mut self, alloc: Global, name: &Str) -> Result<bool, NoMemory>
        ensures names { self.new
            ≡ (if is_ok result then with_name name.now self.old else self.old) }
        ensures added { IfOk result (λ added. IsUndoneBy name.now added self.old self.new) }
    {
        declare(alloc, &mut self.set, name)
    }

    /// The same, for a name of which more is said next.
    pub(crate) fn begin(&mut self, alloc: Global, name: &Str) -> Result<bool, NoMemory>
        ensures names { self.new
            ≡ (if is_ok result then with_name name.now self.old else self.old) }
        ensures added { IfOk result (λ added. IsUndoneBy name.now added self.old self.new) }
    {
        if is_name(&self.latest, name) {
            return Ok(false);
        }
        let latest = name.copy(alloc)?;
        let added = self.add(alloc, name)?;
        self.latest = Some(latest);
        Ok(added)
    }

    /// Takes a name out again, if it was added. No name moves where it came last.
    pub(crate) fn forget(&mut self, name: &Str, added: bool)
        ensures { self.new ≡ without name.now added self.old }
    {
        if added {
            self.latest = None;
            self.set.swap_remove(name);
        }
    }

    /// Equal names, whose texts share their bytes with these.
    pub(crate) fn copy(&self, alloc: Global) -> Result<Names, NoMemory>
        ensures { IfOk result (λ names. names ≡ self.now) }
    {
        let set = copied(alloc, &self.set)?;
        Ok(Names { set, latest: None })
    }

    /// The names, ascending.
    pub(crate) fn into_list(self, alloc: Global) -> Result<Vec<Str>, NoMemory>
        ensures { IfOk result (λ list. list.items ≡ self) }
    {
        let mut list = listed(alloc, self.set)?;
        list.sort()?;
        Ok(list)
    }
}

// Whether the latest name is this one. (Short texts are put in order in half the time in which they are told to be equal.)
fn is_name(latest: &Option<Str>, name: &Str) -> bool
    ensures { IsTrue result ↔ (latest.now ≡ Some name.now) }
{
    match latest {
        Some(latest) => latest.cmp(name).is_eq(),
        None => false,
    }
}

// Adds a name, and reports whether it is new. On `Err` nothing has changed.
fn declare(alloc: Global, names: &mut IndexSet<Str>, name: &Str) -> Result<bool, NoMemory>
    ensures names { in_order bytes_cmp names.new.keys
        ≡ (if is_ok result then with_name name.now (in_order bytes_cmp names.old.keys)
        else in_order bytes_cmp names.old.keys) }
    ensures added { IfOk result
        (λ added. IsUndoneBy name.now added (in_order bytes_cmp names.old.keys)
        (in_order bytes_cmp names.new.keys)) }
    ensures kept { (n : Name) → Contains names.old.keys n → Contains names.new.keys n }
{
    let added = names.insert(name.copy(alloc)?)?;
    Ok(added)
}

// The same names.
fn copied(alloc: Global, names: &IndexSet<Str>) -> Result<IndexSet<Str>, NoMemory>
    ensures { IfOk result
        (λ copied. in_order bytes_cmp copied.keys ≡ in_order bytes_cmp names.now.keys) }
{
    let mut copied = IndexSet::with_capacity(alloc, names.len())?;
    for name in names.as_slice() {
        declare(alloc, &mut copied, name)?;
    }
    Ok(copied)
}

// The names as they came.
fn listed(alloc: Global, names: IndexSet<Str>) -> Result<Vec<Str>, NoMemory>
    ensures same { IfOk result (λ list. list.items ≡ names.keys) }
    ensures distinct { IfOk result (λ list. IsDistinct (eq_by_cmp bytes_cmp) list.items) }
{
    let mut list = Vec::with_capacity(alloc, names.len())?;
    for name in names {
        list.push(name)?;
    }
    Ok(list)
}
