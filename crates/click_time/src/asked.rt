//! The ends of a value's edges and the values of a collection, as a view gives them.
ghost use Rattle.std.specs.Prelude.{◌≡◌, [], Contains, IfOk};
ghost use Rattle.std.specs.Map.{keys_of};
ghost use Rattle.sd_value.specs.declared.Term.{Term};
ghost use Rattle.sd_value.specs.declared.Value.TheVariants.{Page};
ghost use Rattle.sd_value.specs.Order.{value_cmp};
ghost use Rattle.sd_value.specs.Ascending.{ListsExactly};
ghost use Rattle.graph_spec.specs.DataGraph.{IsWellFormed};
ghost use Rattle.tmpl.specs.Body.{TemplateFile};
ghost use Rattle.page_spec.specs.Site.{MayStart};
ghost use Rattle.page_spec.specs.Question.{out as asks_out, collected as asks_collected};
ghost use Rattle.site_spec.specs.Site.{InSite, SiteEdge, Collected};
ghost use Rattle.query_blocks.specs.Blocks.{AreCheckedBlocks, scope_of};
ghost use Rattle.weight_spec.specs.Charges.{IsCause};
ghost use Rattle.weight_spec.specs.CountsAtMost.{CountsAtMost};
ghost use Rattle.click_time.specs.Known.{AsksOnce};
ghost use Rattle.click_time.specs.Told.{AreEnds, AreGathered};

use crate::known::Known;
use crate::recall::{ends_once, gathered_once};
use asker::Asker;
use query_blocks::QueryBlocks;
use sd_value::{NoMemory, Str, Value};
use std::alloc::Global;

/// The ends of the value's edges by the label, ascending.
pub(crate) fn ends<A: Asker>(
    alloc: Global,
    asker: &mut A,
    known: &mut Known<(Value, Str), Vec<Value>>,
    scopes: &QueryBlocks,
    value: &Value,
    label: &Str,
) -> Result<Vec<Value>, NoMemory>
    requires scoped { AreCheckedBlocks scopes.now.version scopes.now.blocks.items }
    requires well_formed { IsWellFormed (A.graph asker.old) }
    requires told { AreEnds (A.graph asker.old) (scope_of scopes.now) known.old.told.entries }
    ensures graph { A.graph asker.new ≡ A.graph asker.old }
    ensures told { AreEnds (A.graph asker.old) (scope_of scopes.now) known.new.told.entries }
    ensures asked { AsksOnce (value.now, label.now)
        ((f : TemplateFile)
        → CountsAtMost
        (IsCause (A.graph asker.old) (scope_of scopes.now) f (asks_out value.now label.now))
        (A.count asker.old) (A.count asker.new))
        (keys_of known.old.told.entries) (keys_of known.new.told.entries) (A.count asker.old)
        (A.count asker.new) }
    ensures ends { IfOk result
        (λ ends. ListsExactly value_cmp
        (SiteEdge (A.graph asker.old) (scope_of scopes.now) value.now label.now) ends.items) }
    ensures starts { IfOk result (λ ends. (MayStart value.now → ⊥) → ends.items ≡ []) }
    ensures stays { IfOk result
        (λ ends. (t : Term) → Contains ends.items (Page t)
        → InSite (A.graph asker.old) (scope_of scopes.now) t) }
{
    let ends = ends_once(alloc, asker, known, scopes, value, label)?;
    Ok(ends)
}

/// The values collected under the name, ascending.
pub(crate) fn gathered<A: Asker>(
    alloc: Global,
    asker: &mut A,
    known: &mut Known<Str, Vec<Value>>,
    scopes: &QueryBlocks,
    name: &Str,
) -> Result<Vec<Value>, NoMemory>
    requires scoped { AreCheckedBlocks scopes.now.version scopes.now.blocks.items }
    requires well_formed { IsWellFormed (A.graph asker.old) }
    requires told { AreGathered (A.graph asker.old) (scope_of scopes.now) known.old.told.entries }
    ensures graph { A.graph asker.new ≡ A.graph asker.old }
    ensures told { AreGathered (A.graph asker.old) (scope_of scopes.now) known.new.told.entries }
    ensures asked { AsksOnce name.now
        ((f : TemplateFile)
        → CountsAtMost
        (IsCause (A.graph asker.old) (scope_of scopes.now) f (asks_collected name.now))
        (A.count asker.old) (A.count asker.new))
        (keys_of known.old.told.entries) (keys_of known.new.told.entries) (A.count asker.old)
        (A.count asker.new) }
    ensures values { IfOk result
        (λ vs. ListsExactly value_cmp
        (Collected (A.graph asker.old) (scope_of scopes.now) name.now) vs.items) }
    ensures stays { IfOk result
        (λ vs. (t : Term) → Contains vs.items (Page t)
        → InSite (A.graph asker.old) (scope_of scopes.now) t) }
{
    let values = gathered_once(alloc, asker, known, scopes, name)?;
    Ok(values)
}
