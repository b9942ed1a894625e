//! What an aggregation asks, by the body of its kind.
ghost use Rattle.std.specs.Prelude.{◌≡◌, ◌⊎◌, codes, IsSome, IsTrue, None, OnOk, Some, option_map};
ghost use Rattle.serde_json.specs.Find.{as_str};
ghost use Rattle.serde_json.specs.View.{view};
ghost use Rattle.agg_request.specs.reading.Builders.{builder_name, left_by_filter, left_by_kind};
ghost use Rattle.agg_request.specs.json_values.Json.{is_among, present};
ghost use Rattle.agg_request.specs.json_values.Unsupported.{HasUnsupportedQuery};
ghost use Rattle.agg_request.specs.reading.RequestJson.{IsKind, IsMetric};
ghost use Rattle.agg_request.specs.reading.RequestJson.{IsQueryOf};
ghost use Rattle.agg_request.specs.reading.Unsupported.{HasUnsupportedAsked, IsUnsupportedKind};
ghost use Rattle.agg_request.specs.reading.Kinds.{metric_kinds};
ghost use Rattle.agg_request.specs.json_values.Reading.{IsReading, IsReadingWith};

use super::builders::{HasName, take_builder};
use crate::json_values::json_value::{only_named, present};
use crate::json_values::members::{is_among, read_field};
use crate::json_values::{ReadError, read_query};
use crate::reading::read_composite;
use agg_request_tree::{
    AggregationVariants, CountAggregation, FilterAggregation, FilterQuery, MaxAggregation,
    MinAggregation, SumAggregation,
};
use agg_values::Text;
use serde_json::Value;
use std::alloc::Global;

/// What the body of a kind asks.
pub fn read_kind<B: HasName>(
    alloc: Global,
    kind: &str,
    body: &Value,
    pool: &mut Vec<B>,
) -> Result<AggregationVariants<B>, ReadError>
    ensures read { IsReadingWith
        (λ lenient. IsKind lenient B.name_of kind.now (view body.now))
        (HasUnsupportedAsked kind.now (view body.now))
        (λ some. left_by_kind B.name_of kind.now (view body.now) some ≡ None)
        pool.old.items result }
    ensures left { OnOk result
        (left_by_kind B.name_of kind.now (view body.now) pool.old.items ≡ Some pool.new.items) }
{
    match kind {
        "filter" => Ok(AggregationVariants::Filter(FilterAggregation::of(read_filter(
            alloc, body, pool,
        )?))),
        "composite" => Ok(AggregationVariants::Composite(read_composite(alloc, body)?)),
        "value_count" => Ok(AggregationVariants::Count(CountAggregation {
            field: read_metric(alloc, body)?,
        })),
        "max" => Ok(AggregationVariants::Max(MaxAggregation {
            field: read_metric(alloc, body)?,
        })),
        "min" => Ok(AggregationVariants::Min(MinAggregation {
            field: read_metric(alloc, body)?,
        })),
        "sum" => Ok(AggregationVariants::Sum(SumAggregation {
            field: read_metric(alloc, body)?,
        })),
        _ => Err(refusal_of(kind)),
    }
}

// The refusal of a kind that isn't read: it is known and left out, or it is none.
fn refusal_of(kind: &str) -> ReadError
    ensures unsupported { result ≡ ReadError.Unsupported → IsUnsupportedKind kind.now }
    ensures grammar { result ≡ ReadError.Grammar → ¬ (IsUnsupportedKind kind.now) }
    ensures kinds { (result ≡ ReadError.Unsupported) ⊎ (result ≡ ReadError.Grammar) }
{
    if is_among(
        kind,
        &[
            "avg",
            "stats",
            "extended_stats",
            "percentiles",
            "cardinality",
            "terms",
            "range",
            "histogram",
            "date_histogram",
            "top_hits",
        ],
    ) {
        ReadError::Unsupported
    } else {
        ReadError::Grammar
    }
}

/// Whether a kind is a number over a field.
pub fn is_metric(kind: &str) -> bool
    ensures { result ≡ is_among kind.now metric_kinds }
{
    is_among(kind, &["value_count", "max", "min", "sum"])
}

// The field of a metric's body.
fn read_metric(alloc: Global, body: &Value) -> Result<Text, ReadError>
    ensures { IsReading (λ lenient. IsMetric lenient (view body.now))
        (IsSome (present (codes "missing") (view body.now))) result }
{
    let field = read_field(alloc, body)?;
    if present(body, "missing").is_some() {
        return Err(ReadError::Unsupported);
    }
    Ok(field)
}

// The query of a filter's body.
fn read_filter<B: HasName>(
    alloc: Global,
    body: &Value,
    pool: &mut Vec<B>,
) -> Result<FilterQuery<B>, ReadError>
    ensures read { IsReadingWith (λ lenient. IsQueryOf lenient B.name_of (view body.now))
        (HasUnsupportedQuery (view body.now))
        (λ some. left_by_filter B.name_of (builder_name (view body.now)) some ≡ None)
        pool.old.items result }
    ensures left { OnOk result
        (left_by_filter B.name_of (builder_name (view body.now)) pool.old.items
        ≡ Some pool.new.items) }
{
    match builder_name(body) {
        Some(name) => match take_builder(pool, name) {
            Some(builder) => Ok(FilterQuery::CustomBuilder(builder)),
            None => Err(ReadError::UnknownBuilder),
        },
        None => Ok(FilterQuery::Tree(read_query(alloc, body)?)),
    }
}

// The name of the builder that a filter asks for, if it asks for one.
fn builder_name(body: &Value) -> Option<&str>
    ensures { option_map (λ name. name.now) result ≡ builder_name (view body.now) }
{
    only_named(body, "builder")?.as_str()
}
