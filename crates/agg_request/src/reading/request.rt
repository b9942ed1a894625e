//! Requests from JSON.
ghost use Rattle.std.specs.Prelude.{◌≡◌, ◌<◌, ◌≤◌, ◌⊎◌, ℕ, codes, IfOk, IsErrOf, OnOk, Some, None};
ghost use Rattle.serde_json.specs.Data.{depth, members_depth};
ghost use Rattle.serde_json.specs.Find.{get};
ghost use Rattle.serde_json.specs.View.{members_view, view};
ghost use Rattle.agg_values.specs.Names.{put};
ghost use Rattle.agg_request.specs.reading.Builders.{left_behind, left_below, left_by_each};
ghost use Rattle.agg_request.specs.json_values.Reading.{IsReadingWith};
ghost use Rattle.agg_request.specs.json_values.Json.{names_in};
ghost use Rattle.agg_request.specs.json_values.Unsupported.{HasUnsupportedMember};
ghost use Rattle.agg_request.specs.reading.RequestJson.{HasUnknownBuilder};
ghost use Rattle.agg_request.specs.reading.Unsupported.{HasUnsupportedAggregation};
ghost use Rattle.agg_request.specs.reading.Unsupported.{HasUnsupportedBelow, HasUnsupportedRequest};
ghost use Rattle.agg_request.specs.reading.RequestJson.{IsAggregation, IsBelow, IsNoRequest};
ghost use Rattle.agg_request.specs.reading.RequestJson.{IsNoRequestAtAll, IsRequestJson};
ghost use Rattle.agg_request.specs.reading.RequestJson.{IsRequestWithin};
ghost use Rattle.agg_request.specs.reading.Kinds.{may_hold};

mod builders;
mod kind;

use crate::json_values::ReadError;
use crate::json_values::json_value::{has_member, is_inhabited, only_other};
use agg_request_tree::{Aggregation, Aggregations, NamedBuilder};
use agg_values::{NameMap, OutOfMemory, Text};
pub use builders::HasName;
use kind::{is_metric, read_kind};
use serde_json::{Map, Value};
use std::alloc::Global;

/// The request that a JSON value says. A filter that asks for a builder by its name gets the first
/// unused one of this name; builders that no filter asks for are given up.
pub fn read_aggregations(
    alloc: Global,
    value: &Value,
    builders: Vec<NamedBuilder>,
) -> Result<Aggregations, ReadError>
    ensures ok { IfOk result (IsRequestJson (λ b. b.name) (view value.now) builders.items) }
    ensures unsupported { IsErrOf result ReadError.Unsupported
        → HasUnsupportedRequest (view value.now) }
    ensures grammar { IsErrOf result ReadError.Grammar
        → IsNoRequestAtAll ⟦<NamedBuilder as HasName>⟧.name_of (view value.now) }
    ensures unknown { IsErrOf result ReadError.UnknownBuilder
        → HasUnknownBuilder (λ b. b.name) (view value.now) builders.items }
    ensures none { IsErrOf result ReadError.Unsupported ⊎ IsErrOf result ReadError.Grammar
        ⊎ IsErrOf result ReadError.UnknownBuilder
        → IsNoRequest (λ b. b.name) (view value.now) builders.items }
{
    read_request(alloc, value, builders)
}

/// The request that a JSON value says, with builders of any type that have names.
pub fn read_request<B: HasName>(
    alloc: Global,
    value: &Value,
    builders: Vec<B>,
) -> Result<NameMap<Aggregation<B>>, ReadError>
    ensures ok { IfOk result (IsRequestJson B.name_of (view value.now) builders.items) }
    ensures unsupported { IsErrOf result ReadError.Unsupported
        → HasUnsupportedRequest (view value.now) }
    ensures grammar { IsErrOf result ReadError.Grammar
        → IsNoRequestAtAll B.name_of (view value.now) }
    ensures unknown { IsErrOf result ReadError.UnknownBuilder
        → HasUnknownBuilder B.name_of (view value.now) builders.items }
    ensures none { IsErrOf result ReadError.Unsupported ⊎ IsErrOf result ReadError.Grammar
        ⊎ IsErrOf result ReadError.UnknownBuilder
        → IsNoRequest B.name_of (view value.now) builders.items }
{
    let mut pool = builders;
    let Some(members) = value.as_object() else {
        return Err(ReadError::Grammar);
    };
    read_members(alloc, members, &mut pool)
}

// Each member by its name.
#[cycle(requests)]
fn read_members<B: HasName>(
    alloc: Global,
    members: &Map<String, Value>,
    pool: &mut Vec<B>,
) -> Result<NameMap<Aggregation<B>>, ReadError>
    ensures read { (n : ℕ) → members_depth (members_view members.now.entries) < n
        → IsReadingWith (λ lenient. IsRequestWithin lenient B.name_of n
        (members_view members.now.entries))
        (HasUnsupportedMember (HasUnsupportedAggregation n) (members_view members.now.entries))
        (λ some. left_by_each (left_behind B.name_of n) (members_view members.now.entries) some
        ≡ None) pool.old.items result }
    ensures left { (n : ℕ) → members_depth (members_view members.now.entries) < n
        → OnOk result (left_by_each (left_behind B.name_of n) (members_view members.now.entries)
        pool.old.items ≡ Some pool.new.items) }
{
    let mut request = NameMap::new(alloc);
    for (name, member) in members.iter() {
        let aggregation = read_aggregation(alloc, member, pool)?;
        put_aggregation(alloc, &mut request, name.as_str(), aggregation)?;
    }
    Ok(request)
}

// Sets the aggregation of a name.
fn put_aggregation<B: Drop>(
    alloc: Global,
    request: &mut NameMap<Aggregation<B>>,
    name: &str,
    aggregation: Aggregation<B>,
) -> Result<(), OutOfMemory>
    ensures { OnOk result (request.new ≡ put name.now aggregation request.old) }
{
    request.insert(Text::copy_of(alloc, name)?, aggregation)?;
    Ok(())
}

// An aggregation: its kind, and then what is below it.
#[cycle(requests)]
fn read_aggregation<B: HasName>(
    alloc: Global,
    value: &Value,
    pool: &mut Vec<B>,
) -> Result<Aggregation<B>, ReadError>
    ensures read { (n : ℕ) → depth (view value.now) < n
        → IsReadingWith (λ lenient. IsAggregation lenient B.name_of n (view value.now))
        (HasUnsupportedAggregation n (view value.now))
        (λ some. left_behind B.name_of n (view value.now) some ≡ None) pool.old.items result }
    ensures left { (n : ℕ) → depth (view value.now) < n
        → OnOk result (left_behind B.name_of n (view value.now) pool.old.items
        ≡ Some pool.new.items) }
{
    let Some((kind, body)) = only_other(value, "aggs") else {
        return Err(ReadError::Grammar);
    };
    let agg = read_kind(alloc, kind, body, pool)?;
    let sub_aggregation = read_below(alloc, kind, value, pool)?;
    Ok(Aggregation {
        agg,
        sub_aggregation,
    })
}

// What is below an aggregation of this kind.
#[cycle(requests)]
fn read_below<B: HasName>(
    alloc: Global,
    kind: &str,
    value: &Value,
    pool: &mut Vec<B>,
) -> Result<NameMap<Aggregation<B>>, ReadError>
    ensures read { (n : ℕ) → depth (view value.now) ≤ n
        → IsReadingWith (λ lenient. IsBelow lenient (left_behind B.name_of n)
        (IsAggregation lenient B.name_of n) kind.now (get (codes "aggs") (view value.now)))
        (HasUnsupportedBelow (HasUnsupportedAggregation n) kind.now
        (get (codes "aggs") (view value.now)))
        (λ some. left_below B.name_of n (view value.now) some ≡ None) pool.old.items result }
    ensures left { (n : ℕ) → depth (view value.now) ≤ n
        → OnOk result (left_below B.name_of n (view value.now) pool.old.items
        ≡ Some pool.new.items) }
{
    let Some(below) = value.get("aggs") else {
        return Ok(NameMap::new(alloc));
    };
    let Some(members) = below.as_object() else {
        return Err(ReadError::Grammar);
    };
    if !may_hold(kind, members) {
        return Err(ReadError::Unsupported);
    }
    read_members(alloc, members, pool)
}

// Whether an aggregation of this kind may have such members below it: a metric may have none, and
// none may have the name of a member of a bucket.
fn may_hold(kind: &str, members: &Map<String, Value>) -> bool
    ensures { result ≡ may_hold kind.now (names_in (members_view members.now.entries)) }
{
    if is_metric(kind) && is_inhabited(members) {
        return false;
    }
    !has_member(members, "key") && !has_member(members, "doc_count")
}
