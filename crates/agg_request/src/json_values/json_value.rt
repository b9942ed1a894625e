//! Looking into JSON values.
ghost use Rattle.std.specs.Prelude.{◌≡◌, IfOk, nat_lt, option_map};
ghost use Rattle.serde_json.specs.Events.{members_len};
ghost use Rattle.serde_json.specs.Find.{as_str};
ghost use Rattle.serde_json.specs.View.{members_view, view};
ghost use Rattle.agg_request.specs.json_values.Json.{has_member, has_members, only_item};
ghost use Rattle.agg_request.specs.json_values.Json.{only_member, only_named, only_other, present};
ghost use Rattle.agg_request.specs.json_values.Json.{small_number};

use agg_values::{OutOfMemory, Text};
use serde_json::{Map, Value};
use std::alloc::Global;

/// Whether a value is an object of so many members.
pub fn has_members(value: &Value, count: usize) -> bool
    ensures { result ≡ has_members count (view value.now) }
{
    match value.as_object() {
        Some(members) => members.len() == count,
        None => false,
    }
}

/// The one member of an object that has no other.
pub fn only_member(value: &Value) -> Option<(&str, &Value)>
    ensures { option_map (λ m. (m.0.now, view m.1.now)) result ≡ only_member (view value.now) }
{
    let mut members = value.as_object()?.iter();
    let (name, only) = members.next()?;
    if members.next().is_some() {
        return None;
    }
    Some((name.as_str(), only))
}

/// The one item of an array that has no other.
pub fn only_item(value: &Value) -> Option<&Value>
    ensures { option_map (λ v. view v.now) result ≡ only_item (view value.now) }
{
    let mut items = value.as_array()?.iter();
    let only = items.next()?;
    if items.next().is_some() {
        return None;
    }
    Some(only)
}

/// The one member of an object that has another name.
pub fn only_other<'a>(value: &'a Value, name: &str) -> Option<(&'a str, &'a Value)>
    ensures { option_map (λ m. (m.0.now, view m.1.now)) result
        ≡ only_other name.now (view value.now) }
{
    let mut found = None;
    for (other, member) in value.as_object()?.iter() {
        if other.as_str() != name {
            if found.is_some() {
                return None;
            }
            found = Some((other.as_str(), member));
        }
    }
    found
}

/// The value of the only member, where it has this name.
pub fn only_named<'a>(value: &'a Value, name: &str) -> Option<&'a Value>
    ensures { option_map (λ v. view v.now) result ≡ only_named name.now (view value.now) }
{
    let (found, only) = only_member(value)?;
    if found == name { Some(only) } else { None }
}

/// Whether an object has a member.
pub fn is_inhabited(members: &Map<String, Value>) -> bool
    ensures { result ≡ nat_lt 0 (members_len (members_view members.now.entries)) }
{
    members.len() > 0
}

/// Whether an object has a member of this name.
pub fn has_member(members: &Map<String, Value>, name: &str) -> bool
    ensures { result ≡ has_member name.now (members_view members.now.entries) }
{
    members.get(name).is_some()
}

/// The value of a member, where it isn't null.
pub fn present<'a>(value: &'a Value, name: &str) -> Option<&'a Value>
    ensures { option_map (λ v. view v.now) result ≡ present name.now (view value.now) }
{
    let found = value.get(name)?;
    if found.is_null() { None } else { Some(found) }
}

/// A whole number within u32.
pub fn small_number(value: &Value) -> Option<u32>
    ensures { result ≡ small_number (view value.now) }
{
    u32::try_from(value.as_u64()?).ok()
}

/// The copy of a text.
pub fn read_text(alloc: Global, value: &Value) -> Result<Option<Text>, OutOfMemory>
    ensures { IfOk result (λ text. text ≡ as_str (view value.now)) }
{
    match value.as_str() {
        Some(text) => Ok(Some(Text::copy_of(alloc, text)?)),
        None => Ok(None),
    }
}
