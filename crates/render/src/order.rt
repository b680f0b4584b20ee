// The values of a template's expressions in order.
ghost use Rattle.std.specs.Prelude.{◌≡◌, List, [], ◌∷◌, Contains, IfOk, Option, Some, None, Bool, true, false, map, reverse, if◌then◌else◌};
ghost use Rattle.std.specs.Option.{option_map};
ghost use Rattle.sd_value.specs.declared.Value.{Value as AnyValue};
ghost use Rattle.sd_value.specs.Ascending.{ListsExactly};
ghost use Rattle.key_spec.specs.Keys.{folded_text, folded_cmp};
ghost use Rattle.tmpl.specs.declared.SortKey.{SortKey as AnySortKey};
ghost use Rattle.sort_keys.specs.Keys.{key_of};
ghost use Rattle.page_spec.specs.declared.Keyed.{Keyed};
ghost use Rattle.page_spec.specs.Site.{IsLeast, place, places, row_cmp, limited, Arranged};
ghost use Rattle.demand_spec.specs.Reads.{KeepsOnly};
ghost use Rattle.render.specs.Asks.{KeyAsks, KeysAsks, ArrangedAsks};
ghost use Rattle.render.specs.Rows.{HasRow, IsLeastKey, first_rows};

use crate::rows::{Row, add_row, keep_first};
use crate::values::{first, range, reached_from};
use page_spec::{Bound, Place};
use sd_value::{NoMemory, Value, copy};
use site_view::SiteView;
use sort_keys::{Key, lesser};
use std::alloc::Global;
use tmpl::{Expr, Order, SortKey};

/// The values of the expression in this order.
pub fn arranged<V: SiteView>(
    alloc: Global,
    view: &mut V,
    here: &Value,
    loops: &[Bound],
    expr: &Expr,
    order: &Order,
) -> Result<Vec<Value>, NoMemory>
    requires own { V.Own view.old }
    ensures own { V.Own view.new }
    ensures fixed { V.fixed view.new ≡ V.fixed view.old }
    ensures kept { KeepsOnly (ArrangedAsks (V.site (V.fixed view.old)) record {
      here = here.now;
      loops = loops.now;
    } expr.now order.now) (V.kept view.old) (V.kept view.new) }
    ensures answer { IfOk result (λ vs. Arranged (V.site (V.fixed view.old)) record {
      here = here.now;
      loops = loops.now;
    } expr.now order.now vs.items) }
{
    let values = range(alloc, view, here, loops, expr)?;
    match order.keys.list() {
        // By no key they stay as they are.
        [] => Ok(limited(turned(values, order.descend), order.limit)),
        [key, more @ ..] => {
            let limit = first_limit(order);
            let rows = with_places(alloc, view, values.as_slice(), key, more, limit)?;
            let arranged = without_places(alloc, rows)?;
            Ok(limited(turned(arranged, order.descend), order.limit))
        }
    }
}

/// How many of the first rows are enough: of an order that is turned round all are needed.
fn first_limit(order: &Order) -> Option<usize>
    ensures { result ≡ (if order.now.descend then None else order.now.limit) }
{
    if order.descend { None } else { order.limit }
}

fn limited(mut values: Vec<Value>, limit: Option<usize>) -> Vec<Value>
    ensures { result.items ≡ limited limit values.items }
{
    if let Some(limit) = limit {
        values.truncate(limit);
    }
    values
}

fn turned(mut values: Vec<Value>, descend: bool) -> Vec<Value>
    ensures { result.items ≡ (if descend then reverse values.items else values.items) }
{
    if descend {
        values.reverse();
    }
    values
}

/// The first of the values with their places by the keys, in order. The keys of each value are found once.
fn with_places<V: SiteView>(
    alloc: Global,
    view: &mut V,
    values: &[Value],
    key: &SortKey,
    more: &[SortKey],
    limit: Option<usize>,
) -> Result<Vec<Row>, NoMemory>
    requires own { V.Own view.old }
    ensures own { V.Own view.new }
    ensures fixed { V.fixed view.new ≡ V.fixed view.old }
    ensures kept { KeepsOnly
        (λ q. (v : AnyValue) × Contains values.now v
        × KeysAsks (V.site (V.fixed view.old)) (key.now ∷ more.now) v q)
        (V.kept view.old) (V.kept view.new) }
    ensures answer { IfOk result (λ rows. (all : List Keyed)
        × ListsExactly row_cmp
        (λ r. (v : AnyValue) × Contains values.now v
        × HasRow (V.site (V.fixed view.old)) (key.now ∷ more.now) v r) all
        × (rows.items ≡ first_rows limit all)) }
{
    let mut rows = Vec::new(alloc);
    for value in values {
        let row = row_of(alloc, view, value, key, more)?;
        add_row(&mut rows, row, limit)?;
    }
    keep_first(&mut rows, limit);
    Ok(rows)
}

fn without_places(alloc: Global, rows: Vec<Row>) -> Result<Vec<Value>, NoMemory>
    ensures { IfOk result (λ vs. vs.items ≡ map (λ r. r.value) rows.items) }
{
    let values = rows.into_iter().map(|row| row.value).collect(alloc)?;
    Ok(values)
}

/// The value and where it stands by the keys, one after another.
fn row_of<V: SiteView>(
    alloc: Global,
    view: &mut V,
    value: &Value,
    key: &SortKey,
    more: &[SortKey],
) -> Result<Row, NoMemory>
    requires own { V.Own view.old }
    ensures own { V.Own view.new }
    ensures fixed { V.fixed view.new ≡ V.fixed view.old }
    ensures kept { KeepsOnly
        (KeysAsks (V.site (V.fixed view.old)) (key.now ∷ more.now) value.now)
        (V.kept view.old) (V.kept view.new) }
    ensures answer { IfOk result
        (λ r. HasRow (V.site (V.fixed view.old)) (key.now ∷ more.now) value.now r) }
{
    let (place, mut list) = places_by(alloc, view, value, key)?;
    for further in more {
        let (next, mut tie) = places_by(alloc, view, value, further)?;
        list.push(next)?;
        list.append(&mut tie)?;
    }
    let value = copy(alloc, value)?;
    Ok(Row {
        place,
        more: list,
        value,
    })
}

/// Where the value stands by the key. With FOLD the text itself is a place after that of the folded one.
fn places_by<V: SiteView>(
    alloc: Global,
    view: &mut V,
    value: &Value,
    key: &SortKey,
) -> Result<(Place, Vec<Place>), NoMemory>
    requires own { V.Own view.old }
    ensures own { V.Own view.new }
    ensures fixed { V.fixed view.new ≡ V.fixed view.old }
    ensures kept { KeepsOnly (KeyAsks (V.site (V.fixed view.old)) (Some key.now.word) value.now)
        (V.kept view.old) (V.kept view.new) }
    ensures answer { IfOk result (λ ps. (k : Option AnyValue)
        × IsLeast (V.site (V.fixed view.old))
        (folded_cmp folded_text key.now.fold) key.now.word value.now k
        × (places key.now k ≡ ps.0 ∷ ps.1.items)) }
{
    let values = reached_from(alloc, view, value, &key.word)?;
    if key.fold {
        let least = least(alloc, values.as_slice())?;
        folded_places(alloc, key.descend, least)
    } else {
        let place = plain_place(key.descend, first(values));
        Ok((place, Vec::new(alloc)))
    }
}

/// The least of the values by their folded texts, if there is one.
fn least(alloc: Global, values: &[Value]) -> Result<Option<Key>, NoMemory>
    ensures { IfOk result (λ k. IsLeastKey true values.now k) }
{
    let mut least = None;
    for value in values {
        let key = Key::of(alloc, true, value)?;
        least = lesser(least, Some(key));
    }
    Ok(least)
}

/// Where a value stands that has this least key, by the folded text and then by the text itself.
fn folded_places(
    alloc: Global,
    descend: bool,
    least: Option<Key>,
) -> Result<(Place, Vec<Place>), NoMemory>
    ensures { IfOk result (λ ps. (key : AnySortKey) (k : Option AnyValue) → key.fold ≡ true
        → key.descend ≡ descend → least ≡ option_map (key_of true) k
        → places key k ≡ ps.0 ∷ ps.1.items) }
{
    let mut more = Vec::new(alloc);
    match least {
        None => Ok((Place::Last, more)),
        Some(least) => {
            let (stands, value) = least.into_parts();
            more.push(place(descend, value))?;
            Ok((place(descend, stands), more))
        }
    }
}

/// Where a value stands by this one, or last without one.
fn plain_place(descend: bool, value: Option<Value>) -> Place
    ensures { (key : AnySortKey) → key.fold ≡ false → key.descend ≡ descend
        → places key value ≡ result ∷ [] }
{
    match value {
        None => Place::Last,
        Some(value) => place(descend, value),
    }
}

/// Where a value stands by this one.
fn place(descend: bool, value: Value) -> Place
    ensures { result ≡ place descend value }
{
    if descend {
        Place::Down(value)
    } else {
        Place::Up(value)
    }
}
