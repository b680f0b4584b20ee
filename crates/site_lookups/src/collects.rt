//! The values collected under a name.
ghost use Rattle.std.specs.Prelude.{◌≡◌, ◌↔◌, ℕ, List, length, Contains, IfOk};
ghost use Rattle.sd_value.specs.declared.Value.{Value as AnyValue};
ghost use Rattle.sd_value.specs.Order.{value_cmp};
ghost use Rattle.sd_value.specs.Ascending.{ListsExactly};
ghost use Rattle.graph_spec.specs.DataGraph.{IsWellFormed};
ghost use Rattle.query_spec.specs.Mentions.{IsWellMade};
ghost use Rattle.query_spec.specs.Rows.{value_in, Agrees};
ghost use Rattle.struql_ast.specs.Reading.{target_of, collect_of};
ghost use Rattle.site_spec.specs.Site.{IsTargetUnder, IsPut, Collected, SomeRow};
ghost use Rattle.query_blocks.specs.Blocks.{IsCheckedBlock, AreCheckedBlocks, scope_of};
ghost use Rattle.tmpl.specs.Body.{TemplateFile};
ghost use Rattle.page_spec.specs.Question.{collected as asks_collected};
ghost use Rattle.weight_spec.specs.Charges.{IsCause};
ghost use Rattle.weight_spec.specs.CountsAtMost.{CountsAtMost, IsAt};
ghost use Rattle.site_lookups.specs.Counts.{IsCollectRow};
ghost use Rattle.sd_value.specs.Gathered.{Gathered};
ghost use Rattle.site_lookups.specs.Ends.{BlockPuts};

use crate::all_rows::targets_of;
use crate::data_members::members;
use asker::Asker;
use query_blocks::{QueryBlock, QueryBlocks};
use sd_value::{NoMemory, Str, Value, sort_and_dedup};
use std::alloc::Global;
use struql_ast::{Chain, Collect};

// What the COLLECT puts under the name.
fn puts_of_collect<A: Asker>(
    alloc: Global,
    asker: &mut A,
    chain: &Chain,
    collect: &Collect,
    name: &Str,
) -> Result<Vec<Value>, NoMemory>
    requires well_made { IsWellMade chain.now }
    ensures graph { A.graph asker.new ≡ A.graph asker.old }
    ensures counted { CountsAtMost
        (IsCollectRow (A.graph asker.old) chain.now name.now (collect_of collect.now))
        (A.count asker.old) (A.count asker.new) }
    ensures values { IfOk result
        (λ vs. (v : AnyValue) → Contains vs.items v
        ↔ IsPut (A.graph asker.old) chain.now name.now v (collect_of collect.now)) }
{
    if collect.collection == *name {
        let values = targets_of(alloc, asker, chain, &collect.target)?;
        Ok(values)
    } else {
        Ok(Vec::new(alloc))
    }
}

// What the COLLECTs of a block put under the name.
fn puts_of_block<A: Asker>(
    alloc: Global,
    asker: &mut A,
    block: &QueryBlock,
    name: &Str,
) -> Result<Vec<Value>, NoMemory>
    requires scoped { (version : ℕ) × IsCheckedBlock version block.now }
    ensures graph { A.graph asker.new ≡ A.graph asker.old }
    ensures counted { CountsAtMost
        (IsAt block.now.collects.items
        (λ k. IsCollectRow (A.graph asker.old) block.now.chain name.now (collect_of k)))
        (A.count asker.old) (A.count asker.new) }
    ensures values { IfOk result
        (λ vs. Gathered
        (λ k v. IsPut (A.graph asker.old) block.now.chain name.now v (collect_of k))
        block.now.collects.items vs.items) }
{
    let collects = block.collects.as_slice();
    let mut values = Vec::new(alloc);
    for collect in collects {
        let mut more = puts_of_collect(alloc, asker, &block.chain, collect, name)?;
        values.append(&mut more)?;
    }
    Ok(values)
}

// What the COLLECTs of the blocks put under the name.
fn puts<A: Asker>(
    alloc: Global,
    asker: &mut A,
    scopes: &QueryBlocks,
    name: &Str,
) -> Result<Vec<Value>, NoMemory>
    requires scoped { AreCheckedBlocks scopes.now.version scopes.now.blocks.items }
    ensures graph { A.graph asker.new ≡ A.graph asker.old }
    ensures counted { CountsAtMost
        (IsAt scopes.now.blocks.items
        (λ b. IsAt b.collects.items
        (λ k. IsCollectRow (A.graph asker.old) b.chain name.now (collect_of k))))
        (A.count asker.old) (A.count asker.new) }
    ensures values { IfOk result
        (λ vs. Gathered (BlockPuts (A.graph asker.old) name.now) scopes.now.blocks.items vs.items) }
{
    let blocks = scopes.blocks.as_slice();
    let mut values = Vec::new(alloc);
    for block in blocks {
        let mut more = puts_of_block(alloc, asker, block, name)?;
        values.append(&mut more)?;
    }
    Ok(values)
}

/// The values collected under the name, ascending: by a COLLECT, or as members in the data. Each member, and each row
/// of a COLLECT under the name, counts one.
pub fn collected<A: Asker>(
    alloc: Global,
    asker: &mut A,
    scopes: &QueryBlocks,
    name: &Str,
) -> Result<Vec<Value>, NoMemory>
    requires scoped { AreCheckedBlocks scopes.now.version scopes.now.blocks.items }
    requires well_formed { IsWellFormed (A.graph asker.old) }
    ensures graph { A.graph asker.new ≡ A.graph asker.old }
    ensures counted { (f : TemplateFile)
        → CountsAtMost
        (IsCause (A.graph asker.old) (scope_of scopes.now) f (asks_collected name.now))
        (A.count asker.old) (A.count asker.new) }
    ensures values { IfOk result
        (λ vs. ListsExactly value_cmp
        (Collected (A.graph asker.old) (scope_of scopes.now) name.now) vs.items) }
{
    let mut values = members(alloc, asker, name)?;
    let mut more = puts(alloc, asker, scopes, name)?;
    values.append(&mut more)?;
    sort_and_dedup(&mut values);
    Ok(values)
}
