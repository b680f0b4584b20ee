// Lists whose items have an order to be kept.
ghost use Rattle.std.specs.Prelude.{◌≡◌, ◌++◌, ◌&&◌, ◌||◌, IfOk, is_some};
ghost use Rattle.serde_json.specs.View.{view, items_view};
ghost use Rattle.json_source.specs.Orders.{are_shown as all_are_shown, has_two, has_order as has_an_order};
ghost use Rattle.json_source.specs.Orders.{shown, further, items_text, order_text as text_in_order};

use sd_value::{NoMemory, Str};
use serde_json::Value as Json;
use std::alloc::Global;
use token_writer::{put, put_int};

fn are_shown(items: &[Json]) -> bool
    ensures { result ≡ all_are_shown (items_view items.now) }
{
    let mut rest = items;
    'items: while let Some((first, more)) = rest.split_first() {
        if !first.is_string() && !first.is_i64() {
            return false;
        }
        rest = more;
    }
    true
}

// Whether items are two or more, each of them a text or an integer.
fn are_ordered(items: &[Json]) -> bool
    ensures { result ≡ (has_two (items_view items.now) && all_are_shown (items_view items.now)) }
{
    if items.len() < 2 {
        return false;
    }
    are_shown(items)
}

/// Whether a value is a list of two or more items, each of them a text or an integer of 64 bits.
pub(crate) fn has_order(value: &Json) -> bool
    ensures { result ≡ has_an_order (view value.now) }
{
    let Some(list) = value.as_array() else {
        return false;
    };
    are_ordered(list.as_slice())
}

// A text as it is, or a number by its digits.
fn put_shown(value: &Json, out: &mut Vec<u8>) -> Result<(), NoMemory>
    ensures { IfOk result (λ _. out.new.items ≡ out.old.items ++ shown (view value.now)) }
{
    if let Some(text) = value.as_str() {
        return put(text.as_bytes(), out);
    }
    if let Some(number) = value.as_i64() {
        return put_int(number, out);
    }
    Ok(())
}

// Items, each after `, `.
fn put_further(items: &[Json], out: &mut Vec<u8>) -> Result<(), NoMemory>
    ensures { IfOk result (λ _. out.new.items ≡ out.old.items ++ further (items_view items.now)) }
{
    let mut rest = items;
    'items: while let Some((first, more)) = rest.split_first() {
        put(b", ", out)?;
        put_shown(first, out)?;
        rest = more;
    }
    Ok(())
}

// The items with `, ` between them.
fn put_items(items: &[Json], out: &mut Vec<u8>) -> Result<(), NoMemory>
    ensures { IfOk result (λ _. out.new.items
        ≡ out.old.items ++ items_text (items_view items.now)) }
{
    let Some((first, more)) = items.split_first() else {
        return Ok(());
    };
    put_shown(first, out)?;
    put_further(more, out)
}

/// The items of a list in their order, with `, ` between them.
pub(crate) fn order_text(alloc: Global, value: &Json) -> Result<Str, NoMemory>
    ensures { IfOk result (λ s. s ≡ text_in_order (view value.now)) }
{
    let mut text = Vec::new(alloc);
    if let Some(list) = value.as_array() {
        put_items(list.as_slice(), &mut text)?;
    }
    Str::of(alloc, text)
}
