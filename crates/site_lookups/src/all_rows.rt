//! Targets under all rows of a chain.
ghost use Rattle.std.specs.Prelude.{◌≡◌, ◌↔◌, Contains, IfOk};
ghost use Rattle.sd_value.specs.declared.Value.{Value as AnyValue};
ghost use Rattle.query_spec.specs.Mentions.{IsWellMade};
ghost use Rattle.sd_value.specs.Ascending.{ListsExactly};
ghost use Rattle.query_spec.specs.Rows.{value_in, row_cmp, IsRow};
ghost use Rattle.struql_ast.specs.Reading.{target_of};
ghost use Rattle.site_spec.specs.Site.{IsTargetUnder, SomeRow};
ghost use Rattle.weight_spec.specs.CountsAtMost.{CountsAtMost};
ghost use Rattle.sd_value.specs.Gathered.{Gathered};

use crate::under::target_under;
use crate::wanted::variables_in;
use asker::Asker;
use query_spec::{Bound, Row, Variable};
use sd_value::{NoMemory, Value};
use skolem::all_free;
use std::alloc::Global;
use struql_ast::{Chain, Target};

/// What the target is under each of the rows.
pub(crate) fn targets_under(
    alloc: Global,
    variables: &[Variable],
    rows: &[Row],
    target: &Target,
) -> Result<Vec<Value>, NoMemory>
    ensures { IfOk result
        (λ vs. Gathered
        (λ row v. IsTargetUnder (value_in variables.now row) (target_of target.now) v) rows.now
        vs.items) }
{
    let mut values = Vec::new(alloc);
    for row in rows {
        if let Some(value) = target_under(alloc, variables, row.values(), target)? {
            values.push(value)?;
        }
    }
    Ok(values)
}

/// All rows of the chain, strictly ascending. Each counts one.
pub fn rows_of<A: Asker>(alloc: Global, asker: &mut A, chain: &Chain) -> Result<Vec<Row>, NoMemory>
    requires well_made { IsWellMade chain.now }
    ensures graph { A.graph asker.new ≡ A.graph asker.old }
    ensures counted { CountsAtMost (IsRow (A.graph asker.old) chain.now) (A.count asker.old)
        (A.count asker.new) }
    ensures rows { IfOk result
        (λ rows. ListsExactly row_cmp (IsRow (A.graph asker.old) chain.now) rows.items) }
{
    let free = all_free(alloc, chain.variables().len())?;
    let bound = Bound::new(free);
    let rows = asker.ask(alloc, chain, &bound)?;
    Ok(rows)
}

/// What the target is under the rows of the chain. Each row that is handed out counts one.
pub fn targets_of<A: Asker>(
    alloc: Global,
    asker: &mut A,
    chain: &Chain,
    target: &Target,
) -> Result<Vec<Value>, NoMemory>
    requires well_made { IsWellMade chain.now }
    ensures graph { A.graph asker.new ≡ A.graph asker.old }
    ensures counted { CountsAtMost (IsRow (A.graph asker.old) chain.now) (A.count asker.old)
        (A.count asker.new) }
    ensures values { IfOk result
        (λ vs. (v : AnyValue) → Contains vs.items v
        ↔ SomeRow (A.graph asker.old) chain.now (λ s. IsTargetUnder s (target_of target.now) v)) }
{
    let free = all_free(alloc, chain.variables().len())?;
    let bound = Bound::new(free);
    let wanted = variables_in(alloc, chain.variables(), target)?;
    let rows = asker.ask_some(alloc, chain, &bound, wanted.as_slice())?;
    let values = targets_under(alloc, chain.variables(), rows.as_slice(), target)?;
    Ok(values)
}
