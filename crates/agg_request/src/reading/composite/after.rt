//! The key after which a page of a composite begins.
ghost use Rattle.std.specs.Prelude.{◌≡◌, OnOk, codes};
ghost use Rattle.serde_json.specs.Find.{get};
ghost use Rattle.serde_json.specs.View.{members_view, view};
ghost use Rattle.agg_values.specs.Names.{put};
ghost use Rattle.agg_request.specs.reading.CompositeJson.{IsAfter, IsKeyJson};
ghost use Rattle.agg_request.specs.reading.Unsupported.{HasUnsupportedAfter, IsUnsupportedKey};
ghost use Rattle.agg_request.specs.json_values.Json.{EachNamedIs};
ghost use Rattle.agg_request.specs.json_values.Unsupported.{HasUnsupportedMember};
ghost use Rattle.agg_request.specs.json_values.Reading.{IsReading};

use crate::json_values::ReadError;
use agg_values::{AfterKey, NameMap, OutOfMemory, Text};
use serde_json::{Map, Value};
use std::alloc::Global;

/// The after key of a body, none where it isn't there.
pub fn read_after(alloc: Global, body: &Value) -> Result<NameMap<AfterKey>, ReadError>
    ensures { IsReading (λ lenient. IsAfter lenient (get (codes "after") (view body.now)))
        (HasUnsupportedAfter (get (codes "after") (view body.now))) result }
{
    let Some(found) = body.get("after") else {
        return Ok(NameMap::new(alloc));
    };
    let Some(members) = found.as_object() else {
        return Err(ReadError::Grammar);
    };
    read_members(alloc, members)
}

fn read_members(alloc: Global, members: &Map<String, Value>) -> Result<NameMap<AfterKey>, ReadError>
    ensures { IsReading
        (λ lenient. EachNamedIs (IsKeyJson lenient) (members_view members.now.entries))
        (HasUnsupportedMember IsUnsupportedKey (members_view members.now.entries)) result }
{
    let mut after = NameMap::new(alloc);
    for (name, value) in members.iter() {
        put_key(alloc, &mut after, name.as_str(), read_key(alloc, value)?)?;
    }
    Ok(after)
}

// Sets the key of a name.
fn put_key(
    alloc: Global,
    after: &mut NameMap<AfterKey>,
    name: &str,
    key: AfterKey,
) -> Result<(), OutOfMemory>
    ensures { OnOk result (after.new ≡ put name.now key after.old) }
{
    after.insert(Text::copy_of(alloc, name)?, key)?;
    Ok(())
}

/// The key that a text says.
pub(super) fn read_key(alloc: Global, value: &Value) -> Result<AfterKey, ReadError>
    ensures { IsReading (λ lenient. IsKeyJson lenient (view value.now))
        (IsUnsupportedKey (view value.now)) result }
{
    let Some(text) = value.as_str() else {
        return Err(ReadError::Grammar);
    };
    Ok(AfterKey::read(alloc, &Text::copy_of(alloc, text)?)?)
}
