// The lists of objects in an object.
ghost use Rattle.std.specs.Prelude.{◌≡◌};
ghost use Rattle.serde_json.specs.View.{view, items_view, members_view};
ghost use Rattle.json_source.specs.Tables.{are_objects as all_are_objects, is_table as is_a_table, has_table as holds_table};
ghost use Rattle.json_source.specs.Tables.{is_empty_list as is_an_empty_list, are_empty_lists as all_are_empty_lists};
ghost use Rattle.json_source.specs.Tables.{holds_empty_lists as holds_only_empty_lists};
ghost use Rattle.json_source.specs.Tables.{is_collection as is_a_collection, holds_collections as holds_some};

use crate::rules::JsonRules;
use serde_json::{Map, Value as Json};

fn are_objects(items: &[Json]) -> bool
    ensures { result ≡ all_are_objects (items_view items.now) }
{
    let mut rest = items;
    'items: while let Some((first, more)) = rest.split_first() {
        if !first.is_object() {
            return false;
        }
        rest = more;
    }
    true
}

// Whether a value is a list of objects, with an item at least.
fn is_table(value: &Json) -> bool
    ensures { result ≡ is_a_table (view value.now) }
{
    let Some(list) = value.as_array() else {
        return false;
    };
    let items = list.as_slice();
    if items.is_empty() {
        return false;
    }
    are_objects(items)
}

// Whether an object holds a list of objects.
fn has_table(members: &Map<String, Json>) -> bool
    ensures { result ≡ holds_table (members_view members.now.entries) }
{
    for (_key, value) in members.iter() {
        if is_table(value) {
            return true;
        }
    }
    false
}

fn is_empty_list(value: &Json) -> bool
    ensures { result ≡ is_an_empty_list (view value.now) }
{
    let Some(list) = value.as_array() else {
        return false;
    };
    let items = list.as_slice();
    items.is_empty()
}

fn are_empty_lists(members: &Map<String, Json>) -> bool
    ensures { result ≡ all_are_empty_lists (members_view members.now.entries) }
{
    for (_key, value) in members.iter() {
        if !is_empty_list(value) {
            return false;
        }
    }
    true
}

// Whether an object holds empty lists, one at least, and nothing else.
fn holds_empty_lists(members: &Map<String, Json>) -> bool
    ensures { result ≡ holds_only_empty_lists (members_view members.now.entries) }
{
    !members.is_empty() && are_empty_lists(members)
}

/// Whether a member of an object at the top is a collection: any, or by the rules a list of
/// objects.
pub(crate) fn is_collection(rules: JsonRules, value: &Json) -> bool
    ensures { result ≡ is_a_collection rules (view value.now) }
{
    !rules.tables || is_table(value)
}

/// Whether an object at the top holds collections, or empty lists and nothing else.
pub(crate) fn holds_collections(rules: JsonRules, members: &Map<String, Json>) -> bool
    ensures { result ≡ holds_some rules (members_view members.now.entries) }
{
    !rules.tables || has_table(members) || holds_empty_lists(members)
}
