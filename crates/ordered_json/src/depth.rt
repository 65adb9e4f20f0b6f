//! How deep a value nests.
ghost use Rattle.std.specs.Prelude.{◌≡◌, ◌+◌, nat_le};
ghost use Rattle.json.specs.Tree.{depth as nesting, items_depth, members_depth};
ghost use Rattle.ordered_json.specs.View.{items_view, members_view, view};

use crate::read::MAX_DEPTH;
use crate::value::{Map, Value};

/// Returns whether a value may stand behind so many names of a document.
pub(crate) fn fits_below(names: usize, value: &Value) -> bool
    ensures { result ≡ nat_le (names + nesting (view value.now)) MAX_DEPTH }
{
    names <= MAX_DEPTH && nests_within(value, MAX_DEPTH - names)
}

/// Returns whether a value nests at most so many levels deep. It looks no deeper.
#[cycle(nests)]
fn nests_within(value: &Value, levels: usize) -> bool
    ensures { result ≡ nat_le (nesting (view value.now)) levels }
{
    match value {
        Value::Array(items) => levels > 0 && items_nest_within(items, levels - 1),
        Value::Object(members) => levels > 0 && members_nest_within(&**members, levels - 1),
        _ => true,
    }
}

/// The same of all items of an array.
#[cycle(nests)]
fn items_nest_within(items: &Vec<Value>, levels: usize) -> bool
    ensures { result ≡ nat_le (items_depth (items_view items.now.items)) levels }
{
    for item in items {
        if !nests_within(item, levels) {
            return false;
        }
    }
    true
}

/// The same of all members of an object.
#[cycle(nests)]
fn members_nest_within(members: &Map, levels: usize) -> bool
    ensures { result ≡ nat_le (members_depth (members_view members.now.pairs)) levels }
{
    for member in members.values() {
        if !nests_within(member, levels) {
            return false;
        }
    }
    true
}
