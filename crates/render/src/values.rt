// The values of a template's expressions.
ghost use Rattle.std.specs.Prelude.{◌≡◌, ◌↔◌, List, [], ◌∷◌, Contains, IfOk, MatchOption, Some};
ghost use Rattle.sd_value.specs.declared.Value.{Value};
ghost use Rattle.sd_value.specs.Order.{value_cmp};
ghost use Rattle.sd_value.specs.Ascending.{ListsExactly};
ghost use Rattle.page_spec.specs.Site.{Reaches, InRange, HasKey, Starts, IsBound};
ghost use Rattle.page_spec.specs.Question.{out as asks_out};
ghost use Rattle.demand_spec.specs.Reads.{KeepsOnly};
ghost use Rattle.render.specs.Asks.{WordAsks, RootAsks, RangeAsks, KeyAsks};

use page_spec::Bound;
use sd_value::{NoMemory, Str, Value, copy, sort_and_dedup};
use site_view::SiteView;
use std::alloc::Global;
use tmpl::{Expr, Word, WordRoot};

/// The ends of the values' edges by the label, ascending.
fn step<V: SiteView>(
    alloc: Global,
    view: &mut V,
    from: &[Value],
    label: &Str,
) -> Result<Vec<Value>, NoMemory>
    requires own { V.Own view.old }
    ensures own { V.Own view.new }
    ensures fixed { V.fixed view.new ≡ V.fixed view.old }
    ensures kept { KeepsOnly (λ q. (u : Value) × Contains from.now u × (q ≡ asks_out u label.now))
        (V.kept view.old) (V.kept view.new) }
    ensures answer { IfOk result (λ vs. ListsExactly value_cmp
        (λ v. (m : Value) × Contains from.now m × (V.site (V.fixed view.old)).edge m label.now v)
        vs.items) }
{
    let mut ends = Vec::new(alloc);
    for value in from {
        let mut more = view.out(alloc, value, label)?;
        ends.append(&mut more)?;
    }
    sort_and_dedup(&mut ends);
    Ok(ends)
}

/// The values that the word reaches from the values of `from`, ascending.
pub fn reached<V: SiteView>(
    alloc: Global,
    view: &mut V,
    from: Vec<Value>,
    word: &[Str],
) -> Result<Vec<Value>, NoMemory>
    requires own { V.Own view.old }
    ensures own { V.Own view.new }
    ensures fixed { V.fixed view.new ≡ V.fixed view.old }
    ensures kept { KeepsOnly (WordAsks (V.site (V.fixed view.old)) (Contains from.items) word.now)
        (V.kept view.old) (V.kept view.new) }
    ensures answer { IfOk result (λ vs. ListsExactly value_cmp
        (λ v. (u : Value) × Contains from.items u
        × Reaches (V.site (V.fixed view.old)) u word.now v) vs.items) }
{
    let mut at = from;
    sort_and_dedup(&mut at);
    for label in word {
        at = step(alloc, view, at.as_slice(), label)?;
    }
    Ok(at)
}

/// The values at which the words of an expression with this root begin.
fn starts<V: SiteView>(
    alloc: Global,
    view: &mut V,
    here: &Value,
    loops: &[Bound],
    root: &WordRoot,
) -> Result<Vec<Value>, NoMemory>
    requires own { V.Own view.old }
    ensures own { V.Own view.new }
    ensures fixed { V.fixed view.new ≡ V.fixed view.old }
    ensures kept { KeepsOnly (RootAsks root.now) (V.kept view.old) (V.kept view.new) }
    ensures answer { IfOk result (λ us. (v : Value) → Contains us.items v
        ↔ Starts (V.site (V.fixed view.old)) record {
          here = here.now;
          loops = loops.now;
        } root.now v) }
{
    match root {
        WordRoot::Here => alone(alloc, here),
        WordRoot::Loop(number) => match bound(loops, *number) {
            Some(value) => {
                let values = alone(alloc, value)?;
                Ok(values)
            }
            None => Ok(Vec::new(alloc)),
        },
        WordRoot::Collection(name) => view.collected(alloc, name),
    }
}

fn alone(alloc: Global, value: &Value) -> Result<Vec<Value>, NoMemory>
    ensures { IfOk result (λ vs. vs.items ≡ value.now ∷ []) }
{
    let mut values = Vec::new(alloc);
    values.push(copy(alloc, value)?)?;
    Ok(values)
}

/// The value of the innermost loop of the number.
fn bound(loops: &[Bound], number: u32) -> Option<&Value>
    ensures { MatchOption result ((v : Value) → IsBound loops.now number v → ⊥)
        (λ v. IsBound loops.now number v.now) }
{
    for inner in loops {
        if inner.number == number {
            return Some(&inner.value);
        }
    }
    None
}

/// The values of the expression, ascending.
pub fn range<V: SiteView>(
    alloc: Global,
    view: &mut V,
    here: &Value,
    loops: &[Bound],
    expr: &Expr,
) -> Result<Vec<Value>, NoMemory>
    requires own { V.Own view.old }
    ensures own { V.Own view.new }
    ensures fixed { V.fixed view.new ≡ V.fixed view.old }
    ensures kept { KeepsOnly (RangeAsks (V.site (V.fixed view.old)) record {
      here = here.now;
      loops = loops.now;
    } expr.now) (V.kept view.old) (V.kept view.new) }
    ensures answer { IfOk result (λ vs. ListsExactly value_cmp
        (InRange (V.site (V.fixed view.old)) record {
          here = here.now;
          loops = loops.now;
        } expr.now) vs.items) }
{
    let from = starts(alloc, view, here, loops, &expr.root)?;
    let values = reached(alloc, view, from, expr.word.labels())?;
    Ok(values)
}

/// The values that the word reaches from the value, ascending.
pub fn reached_from<V: SiteView>(
    alloc: Global,
    view: &mut V,
    value: &Value,
    word: &Word,
) -> Result<Vec<Value>, NoMemory>
    requires own { V.Own view.old }
    ensures own { V.Own view.new }
    ensures fixed { V.fixed view.new ≡ V.fixed view.old }
    ensures kept { KeepsOnly (KeyAsks (V.site (V.fixed view.old)) (Some word.now) value.now)
        (V.kept view.old) (V.kept view.new) }
    ensures answer { IfOk result (λ vs. ListsExactly value_cmp
        (Reaches (V.site (V.fixed view.old)) value.now word.now) vs.items) }
{
    match word.labels() {
        [] => alone(alloc, value),
        [label, more @ ..] => {
            let ends = view.out(alloc, value, label)?;
            let values = reached(alloc, view, ends, more)?;
            Ok(values)
        }
    }
}

/// The least value that the word reaches from the value, if there is a word and it reaches one.
pub fn key<V: SiteView>(
    alloc: Global,
    view: &mut V,
    value: &Value,
    word: &Option<Word>,
) -> Result<Option<Value>, NoMemory>
    requires own { V.Own view.old }
    ensures own { V.Own view.new }
    ensures fixed { V.fixed view.new ≡ V.fixed view.old }
    ensures kept { KeepsOnly (KeyAsks (V.site (V.fixed view.old)) word.now value.now)
        (V.kept view.old) (V.kept view.new) }
    ensures answer { IfOk result (λ k. HasKey (V.site (V.fixed view.old)) word.now value.now k) }
{
    match word {
        None => Ok(None),
        Some(word) => {
            let values = reached_from(alloc, view, value, word)?;
            Ok(first(values))
        }
    }
}

/// The first of the values.
pub fn first(mut values: Vec<Value>) -> Option<Value>
    ensures { MatchOption result (values.items ≡ [])
        (λ v. (vs : List Value) × (values.items ≡ v ∷ vs)) }
{
    if values.is_empty() {
        None
    } else {
        Some(values.swap_remove(0))
    }
}
