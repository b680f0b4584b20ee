// The values that a COLLECT puts under its name, under a row.
ghost use Rattle.std.specs.Prelude.{IfOk, OnOk, MatchOption};
ghost use Rattle.query_spec.specs.Rows.{value_in};
ghost use Rattle.struql_ast.specs.Reading.{collect_of};
ghost use Rattle.site_build.specs.declared.ordered.Put.{Put as AnyPut};
ghost use Rattle.site_build.specs.Gains.{Gains};
ghost use Rattle.site_build.specs.Materialised.{IsPutUnder};

use crate::made::{Clause, insert_one};
use crate::ordered::Put;
use crate::repeats::put_width;
use indexmap::IndexSet;
use query_spec::Variable;
use sd_value::{NoMemory, Value};
use site_lookups::target_under;
use std::alloc::Global;
use struql_ast::Collect;

// What the COLLECT puts under the row, if it puts something.
fn put_under(
    alloc: Global,
    variables: &[Variable],
    row: &[Value],
    collect: &Collect,
) -> Result<Option<Put>, NoMemory>
    ensures { IfOk result
        (λ o. MatchOption o
        ((p : AnyPut) → IsPutUnder (collect_of collect.now) (value_in variables.now row.now) p → ⊥)
        (λ p. IsPutUnder (collect_of collect.now) (value_in variables.now row.now) p)) }
{
    let Some(value) = target_under(alloc, variables, row, &collect.target)? else {
        return Ok(None);
    };
    let collection = collect.collection.copy(alloc)?;
    Ok(Some(Put { collection, value }))
}

fn add_put(
    alloc: Global,
    variables: &[Variable],
    row: &[Value],
    collect: &Collect,
    made: &mut IndexSet<Put>,
) -> Result<(), NoMemory>
    ensures { OnOk result
        (Gains (IsPutUnder (collect_of collect.now) (value_in variables.now row.now)) made.old.keys
        made.new.keys) }
{
    let one = put_under(alloc, variables, row, collect)?;
    insert_one(made, one)?;
    Ok(())
}

impl Clause<Put> for Collect {
    ghost makes = { λ k s p. IsPutUnder (collect_of k) s p };

    fn width(&self, variables: &[Variable]) -> usize {
        put_width(variables, self)
    }

    fn add(
        &self,
        alloc: Global,
        variables: &[Variable],
        row: &[Value],
        made: &mut IndexSet<Put>,
    ) -> Result<(), NoMemory> {
        add_put(alloc, variables, row, self, made)
    }
}
