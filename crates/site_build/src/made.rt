// What the clauses of a block make of its rows, each thing once.
ghost use Rattle.std.specs.Prelude.{◌≡◌, Some, OnOk};
ghost use Rattle.query_spec.specs.Holds.{Assignment};
ghost use Rattle.query_spec.specs.Rows.{value_in};
ghost use Rattle.site_spec.specs.Site.{SomeOf};
ghost use Rattle.site_build.specs.Gains.{Gains};
ghost use Rattle.site_build.specs.Widths.{OnlyAsks};

use crate::repeats::is_repeated;
use indexmap::IndexSet;
use query_spec::{Row, Variable};
use sd_value::{ExactOrd, NoMemory, Value};
use std::alloc::Global;
use std::hash::Hash;

/// A clause of a block, as it makes terms, links or collected values of a row.
pub trait Clause<M: Eq + Hash> {
    ghost makes: { Self → Assignment → M → Type 0 };

    /// How many of a row's first values decide what the clause makes of it.
    fn width(&self, variables: &[Variable]) -> usize
        ensures { OnlyAsks result (λ row m. makes self.now (value_in variables.now row) m) };

    /// Adds what the clause makes of the row.
    fn add(
        &self,
        alloc: Global,
        variables: &[Variable],
        row: &[Value],
        made: &mut IndexSet<M>,
    ) -> Result<(), NoMemory>
        ensures { OnOk result
            (Gains (makes self.now (value_in variables.now row.now)) made.old.keys made.new.keys) };
}

/// Adds one item, where there is one.
pub fn insert_one<M: ExactOrd + Hash + Drop>(
    made: &mut IndexSet<M>,
    one: Option<M>,
) -> Result<(), NoMemory>
    ensures { OnOk result (Gains (λ m. one ≡ Some m) made.old.keys made.new.keys) }
{
    match one {
        Some(one) => {
            made.insert(one)?;
            Ok(())
        }
        None => Ok(()),
    }
}

/// Adds what the clause makes of the rows. Rows ascend, so what it makes mostly ascends too.
pub fn add_clause<M: Eq + Hash, C: Clause<M>>(
    alloc: Global,
    variables: &[Variable],
    rows: &[Row],
    clause: &C,
    made: &mut IndexSet<M>,
) -> Result<(), NoMemory>
    ensures { OnOk result
        (Gains (λ m. SomeOf (λ row. C.makes clause.now (value_in variables.now row) m) rows.now)
        made.old.keys made.new.keys) }
{
    let width = clause.width(variables);
    for i in 0..rows.len() {
        let row = rows[i].values();
        if is_repeated(&rows[..i], row, width) {
            continue;
        }
        clause.add(alloc, variables, row, made)?;
    }
    Ok(())
}

/// Adds what the clauses make of the rows, clause by clause.
pub fn add_rows<M: Eq + Hash, C: Clause<M>>(
    alloc: Global,
    variables: &[Variable],
    rows: &[Row],
    clauses: &[C],
    made: &mut IndexSet<M>,
) -> Result<(), NoMemory>
    ensures { OnOk result
        (Gains (λ m. SomeOf (λ row. SomeOf (λ k. C.makes k (value_in variables.now row) m)
        clauses.now) rows.now) made.old.keys made.new.keys) }
{
    for clause in clauses {
        add_clause(alloc, variables, rows, clause, made)?;
    }
    Ok(())
}
