// How many items a list has.
ghost use Rattle.std.specs.Prelude.{◌≡◌, length, map, nat_lt};
ghost use Rattle.cfa_base.specs.declared.limits.TheConstants.{MOST_COMBINATIONS};
ghost use Rattle.cfa_functions.specs.Calls.{referred_list};
ghost use Rattle.cfa_tree.specs.Plain.{plain_value};
ghost use Rattle.cfa_tree.specs.Tree.{value_trees};
ghost use Rattle.cfa_vars.specs.Scopes.{in_scope, look};
ghost use Rattle.cfa_defines.specs.OwnTexts.{held_list};
ghost use Rattle.cfa_defines.specs.Items.{items_or_none, count_under, counted, item_count};

use crate::combining::held_list;
use cfa_base::MOST_COMBINATIONS;
use cfa_functions::referred_list;
use cfa_tree::Value;
use cfa_vars::Scopes;

// How many items the list of a name has, none where it refers to no list.
fn count_named(name: &str, scopes: &Scopes<'_>) -> usize
    ensures { result ≡ length (items_or_none (held_list (look (in_scope scopes.now) name.now))) }
{
    match held_list(scopes, name) {
        Some(items) => items.as_slice().len(),
        None => 0,
    }
}

// How many items an item of a list gives, or a value that isn't written as a list.
fn count_under(value: &Value, scopes: &Scopes<'_>, other: usize) -> usize
    ensures { result
        ≡ count_under (in_scope scopes.now) (referred_list (plain_value value.now)) other }
{
    match referred_list(value) {
        Some(name) => count_named(name, scopes),
        None => other,
    }
}

// Whether more than 4,096 items stand between the brackets of a list.
fn have_many(values: &[Value], scopes: &Scopes<'_>) -> bool
    ensures { result ≡ nat_lt MOST_COMBINATIONS
        (counted (in_scope scopes.now) (value_trees (map plain_value values.now))) }
{
    let mut count = 0;
    for value in values {
        let more = count_under(value, scopes, 1);
        if more > MOST_COMBINATIONS - count {
            return true;
        }
        count += more;
    }
    false
}

/// Whether a value where a list is wanted has more than 4,096 items, without taking memory.
pub fn has_many_items(value: &Value, scopes: &Scopes<'_>) -> bool
    ensures { result ≡ nat_lt MOST_COMBINATIONS
        (item_count (in_scope scopes.now) (plain_value value.now)) }
{
    if let Some(name) = referred_list(value) {
        return count_named(name, scopes) > MOST_COMBINATIONS;
    }
    match value {
        Value::List(items, _) => have_many(items.as_slice(), scopes),
        _ => false,
    }
}
