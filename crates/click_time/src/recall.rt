//! Questions, each asked at most once. A question is kept before it is asked, so that one that was out of memory isn't
//! asked again.
ghost use Rattle.std.specs.Prelude.{◌≡◌, ◌↔◌, Contains, IfOk, IsTrue};
ghost use Rattle.std.specs.Option.{IsSomeAnd};
ghost use Rattle.std.specs.Map.{keys_of};
ghost use Rattle.sd_value.specs.Order.{value_cmp};
ghost use Rattle.sd_value.specs.Ascending.{ListsExactly};
ghost use Rattle.graph_spec.specs.DataGraph.{IsWellFormed};
ghost use Rattle.tmpl.specs.Body.{TemplateFile};
ghost use Rattle.tmpl.specs.Reading.{file_of};
ghost use Rattle.page_spec.specs.Question.{in_site as asks_term, out as asks_out, collected as asks_collected, template as asks_template};
ghost use Rattle.site_spec.specs.Site.{Scope, InSite, SiteEdge, Collected};
ghost use Rattle.query_blocks.specs.Blocks.{AreCheckedBlocks, scope_of};
ghost use Rattle.weight_spec.specs.Charges.{IsCause};
ghost use Rattle.weight_spec.specs.CountsAtMost.{CountsAtMost};
ghost use Rattle.click_time.specs.Known.{AsksOnce};
ghost use Rattle.click_time.specs.Told.{AreTerms, AreEnds, AreGathered, AreNumbers, Numbers};

use crate::known::Known;
use asker::Asker;
use query_blocks::QueryBlocks;
use sd_value::{NoMemory, Str, Term, Value, copied_list, copy};
use site_lookups::{collected, edges_out, in_site, template};
use std::alloc::Global;
use tmpl::Templates;

fn edge_key(alloc: Global, value: &Value, label: &Str) -> Result<(Value, Str), NoMemory>
    ensures { IfOk result (λ k. k ≡ (value.now, label.now)) }
{
    Ok((copy(alloc, value)?, label.copy(alloc)?))
}

// What was reported before, if anything was.
fn recalled(alloc: Global, told: &Option<Vec<Value>>) -> Result<Vec<Value>, NoMemory>
    ensures { IfOk result (λ vs. IsSomeAnd told.now (λ kept. vs.items ≡ kept.items)) }
{
    match told {
        Some(values) => copied_list(alloc, values.as_slice()),
        None => Err(NoMemory),
    }
}

// Whether the term is in the site, asked for the first time.
fn term_first<A: Asker>(
    alloc: Global,
    asker: &mut A,
    known: &mut Known<Term, bool>,
    scopes: &QueryBlocks,
    term: &Term,
) -> Result<bool, NoMemory>
    requires scoped { AreCheckedBlocks scopes.now.version scopes.now.blocks.items }
    requires told { AreTerms (A.graph asker.old) (scope_of scopes.now) known.old.told.entries }
    requires fresh { Contains (keys_of known.old.told.entries) term.now → ⊥ }
    ensures graph { A.graph asker.new ≡ A.graph asker.old }
    ensures told { AreTerms (A.graph asker.old) (scope_of scopes.now) known.new.told.entries }
    ensures asked { AsksOnce term.now
        ((f : TemplateFile)
        → CountsAtMost (IsCause (A.graph asker.old) (scope_of scopes.now) f (asks_term term.now))
        (A.count asker.old) (A.count asker.new))
        (keys_of known.old.told.entries) (keys_of known.new.told.entries) (A.count asker.old)
        (A.count asker.new) }
    ensures answer { IfOk result
        (λ b. IsTrue b ↔ InSite (A.graph asker.old) (scope_of scopes.now) term.now) }
{
    let first = term.copy(alloc)?;
    let again = term.copy(alloc)?;
    known.put(first, None)?;
    let found = in_site(alloc, asker, scopes, term)?;
    known.put(again, Some(found))?;
    Ok(found)
}

/// Whether the term is in the site.
pub(crate) fn term_once<A: Asker>(
    alloc: Global,
    asker: &mut A,
    known: &mut Known<Term, bool>,
    scopes: &QueryBlocks,
    term: &Term,
) -> Result<bool, NoMemory>
    requires scoped { AreCheckedBlocks scopes.now.version scopes.now.blocks.items }
    requires told { AreTerms (A.graph asker.old) (scope_of scopes.now) known.old.told.entries }
    ensures graph { A.graph asker.new ≡ A.graph asker.old }
    ensures told { AreTerms (A.graph asker.old) (scope_of scopes.now) known.new.told.entries }
    ensures asked { AsksOnce term.now
        ((f : TemplateFile)
        → CountsAtMost (IsCause (A.graph asker.old) (scope_of scopes.now) f (asks_term term.now))
        (A.count asker.old) (A.count asker.new))
        (keys_of known.old.told.entries) (keys_of known.new.told.entries) (A.count asker.old)
        (A.count asker.new) }
    ensures answer { IfOk result
        (λ b. IsTrue b ↔ InSite (A.graph asker.old) (scope_of scopes.now) term.now) }
{
    match known.find(term) {
        Some(told) => match told {
            Some(found) => Ok(*found),
            None => Err(NoMemory),
        },
        None => {
            let found = term_first(alloc, asker, known, scopes, term)?;
            Ok(found)
        }
    }
}

// The ends of the value's edges by the label, asked for the first time.
fn ends_first<A: Asker>(
    alloc: Global,
    asker: &mut A,
    known: &mut Known<(Value, Str), Vec<Value>>,
    scopes: &QueryBlocks,
    value: &Value,
    label: &Str,
) -> Result<Vec<Value>, NoMemory>
    requires scoped { AreCheckedBlocks scopes.now.version scopes.now.blocks.items }
    requires told { AreEnds (A.graph asker.old) (scope_of scopes.now) known.old.told.entries }
    requires fresh { Contains (keys_of known.old.told.entries) (value.now, label.now) → ⊥ }
    ensures graph { A.graph asker.new ≡ A.graph asker.old }
    ensures told { AreEnds (A.graph asker.old) (scope_of scopes.now) known.new.told.entries }
    ensures asked { AsksOnce (value.now, label.now)
        ((f : TemplateFile)
        → CountsAtMost
        (IsCause (A.graph asker.old) (scope_of scopes.now) f (asks_out value.now label.now))
        (A.count asker.old) (A.count asker.new))
        (keys_of known.old.told.entries) (keys_of known.new.told.entries) (A.count asker.old)
        (A.count asker.new) }
    ensures ends { IfOk result
        (λ vs. ListsExactly value_cmp
        (SiteEdge (A.graph asker.old) (scope_of scopes.now) value.now label.now) vs.items) }
{
    let first = edge_key(alloc, value, label)?;
    let again = edge_key(alloc, value, label)?;
    known.put(first, None)?;
    let ends = edges_out(alloc, asker, scopes, value, label)?;
    let kept = copied_list(alloc, ends.as_slice())?;
    known.put(again, Some(kept))?;
    Ok(ends)
}

/// The ends of the value's edges by the label.
pub(crate) fn ends_once<A: Asker>(
    alloc: Global,
    asker: &mut A,
    known: &mut Known<(Value, Str), Vec<Value>>,
    scopes: &QueryBlocks,
    value: &Value,
    label: &Str,
) -> Result<Vec<Value>, NoMemory>
    requires scoped { AreCheckedBlocks scopes.now.version scopes.now.blocks.items }
    requires told { AreEnds (A.graph asker.old) (scope_of scopes.now) known.old.told.entries }
    ensures graph { A.graph asker.new ≡ A.graph asker.old }
    ensures told { AreEnds (A.graph asker.old) (scope_of scopes.now) known.new.told.entries }
    ensures asked { AsksOnce (value.now, label.now)
        ((f : TemplateFile)
        → CountsAtMost
        (IsCause (A.graph asker.old) (scope_of scopes.now) f (asks_out value.now label.now))
        (A.count asker.old) (A.count asker.new))
        (keys_of known.old.told.entries) (keys_of known.new.told.entries) (A.count asker.old)
        (A.count asker.new) }
    ensures ends { IfOk result
        (λ vs. ListsExactly value_cmp
        (SiteEdge (A.graph asker.old) (scope_of scopes.now) value.now label.now) vs.items) }
{
    let key = edge_key(alloc, value, label)?;
    match known.find(&key) {
        Some(told) => recalled(alloc, told),
        None => {
            let ends = ends_first(alloc, asker, known, scopes, value, label)?;
            Ok(ends)
        }
    }
}

// The values collected under the name, asked for the first time.
fn gathered_first<A: Asker>(
    alloc: Global,
    asker: &mut A,
    known: &mut Known<Str, Vec<Value>>,
    scopes: &QueryBlocks,
    name: &Str,
) -> Result<Vec<Value>, NoMemory>
    requires scoped { AreCheckedBlocks scopes.now.version scopes.now.blocks.items }
    requires well_formed { IsWellFormed (A.graph asker.old) }
    requires told { AreGathered (A.graph asker.old) (scope_of scopes.now) known.old.told.entries }
    requires fresh { Contains (keys_of known.old.told.entries) name.now → ⊥ }
    ensures graph { A.graph asker.new ≡ A.graph asker.old }
    ensures told { AreGathered (A.graph asker.old) (scope_of scopes.now) known.new.told.entries }
    ensures asked { AsksOnce name.now
        ((f : TemplateFile)
        → CountsAtMost
        (IsCause (A.graph asker.old) (scope_of scopes.now) f (asks_collected name.now))
        (A.count asker.old) (A.count asker.new))
        (keys_of known.old.told.entries) (keys_of known.new.told.entries) (A.count asker.old)
        (A.count asker.new) }
    ensures values { IfOk result
        (λ vs. ListsExactly value_cmp
        (Collected (A.graph asker.old) (scope_of scopes.now) name.now) vs.items) }
{
    let first = name.copy(alloc)?;
    let again = name.copy(alloc)?;
    known.put(first, None)?;
    let values = collected(alloc, asker, scopes, name)?;
    let kept = copied_list(alloc, values.as_slice())?;
    known.put(again, Some(kept))?;
    Ok(values)
}

/// The values collected under the name.
pub(crate) fn gathered_once<A: Asker>(
    alloc: Global,
    asker: &mut A,
    known: &mut Known<Str, Vec<Value>>,
    scopes: &QueryBlocks,
    name: &Str,
) -> Result<Vec<Value>, NoMemory>
    requires scoped { AreCheckedBlocks scopes.now.version scopes.now.blocks.items }
    requires well_formed { IsWellFormed (A.graph asker.old) }
    requires told { AreGathered (A.graph asker.old) (scope_of scopes.now) known.old.told.entries }
    ensures graph { A.graph asker.new ≡ A.graph asker.old }
    ensures told { AreGathered (A.graph asker.old) (scope_of scopes.now) known.new.told.entries }
    ensures asked { AsksOnce name.now
        ((f : TemplateFile)
        → CountsAtMost
        (IsCause (A.graph asker.old) (scope_of scopes.now) f (asks_collected name.now))
        (A.count asker.old) (A.count asker.new))
        (keys_of known.old.told.entries) (keys_of known.new.told.entries) (A.count asker.old)
        (A.count asker.new) }
    ensures values { IfOk result
        (λ vs. ListsExactly value_cmp
        (Collected (A.graph asker.old) (scope_of scopes.now) name.now) vs.items) }
{
    match known.find(name) {
        Some(told) => recalled(alloc, told),
        None => {
            let values = gathered_first(alloc, asker, known, scopes, name)?;
            Ok(values)
        }
    }
}

// The number of the value's template, where it has one, asked for the first time.
fn template_first<A: Asker>(
    alloc: Global,
    asker: &mut A,
    known: &mut Known<Value, Option<u32>>,
    templates: &Templates,
    value: &Value,
) -> Result<Option<u32>, NoMemory>
    requires well_formed { IsWellFormed (A.graph asker.old) }
    requires told { AreNumbers (A.graph asker.old) (file_of templates.now) known.old.told.entries }
    requires fresh { Contains (keys_of known.old.told.entries) value.now → ⊥ }
    ensures graph { A.graph asker.new ≡ A.graph asker.old }
    ensures told { AreNumbers (A.graph asker.old) (file_of templates.now) known.new.told.entries }
    ensures asked { AsksOnce value.now
        ((q : Scope)
        → CountsAtMost
        (IsCause (A.graph asker.old) q (file_of templates.now) (asks_template value.now))
        (A.count asker.old) (A.count asker.new))
        (keys_of known.old.told.entries) (keys_of known.new.told.entries) (A.count asker.old)
        (A.count asker.new) }
    ensures answer { IfOk result (Numbers (A.graph asker.old) (file_of templates.now) value.now) }
{
    let first = copy(alloc, value)?;
    let again = copy(alloc, value)?;
    known.put(first, None)?;
    let number = template(alloc, asker, templates, value)?;
    known.put(again, Some(number))?;
    Ok(number)
}

/// The number of the value's template, where it has one.
pub(crate) fn template_once<A: Asker>(
    alloc: Global,
    asker: &mut A,
    known: &mut Known<Value, Option<u32>>,
    templates: &Templates,
    value: &Value,
) -> Result<Option<u32>, NoMemory>
    requires well_formed { IsWellFormed (A.graph asker.old) }
    requires told { AreNumbers (A.graph asker.old) (file_of templates.now) known.old.told.entries }
    ensures graph { A.graph asker.new ≡ A.graph asker.old }
    ensures told { AreNumbers (A.graph asker.old) (file_of templates.now) known.new.told.entries }
    ensures asked { AsksOnce value.now
        ((q : Scope)
        → CountsAtMost
        (IsCause (A.graph asker.old) q (file_of templates.now) (asks_template value.now))
        (A.count asker.old) (A.count asker.new))
        (keys_of known.old.told.entries) (keys_of known.new.told.entries) (A.count asker.old)
        (A.count asker.new) }
    ensures answer { IfOk result (Numbers (A.graph asker.old) (file_of templates.now) value.now) }
{
    match known.find(value) {
        Some(told) => match told {
            Some(number) => Ok(*number),
            None => Err(NoMemory),
        },
        None => {
            let number = template_first(alloc, asker, known, templates, value)?;
            Ok(number)
        }
    }
}
