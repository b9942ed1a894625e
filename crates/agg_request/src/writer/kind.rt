//! What an aggregation asks, to JSON.
ghost use Rattle.std.specs.Prelude.{◌≡◌, IfOk, false, true};
ghost use Rattle.serde_json.specs.View.{view};
ghost use Rattle.serde_json.specs.Data.{object};
ghost use Rattle.agg_request.specs.ReadBack.{IsWritten, SaysKind};
ghost use Rattle.agg_request.specs.Written.{has_no_null_min};
ghost use Rattle.agg_request.specs.reading.RequestJson.{IsMetric};
ghost use Rattle.agg_request.specs.reading.RequestJson.{kind_word};
ghost use Rattle.agg_request.specs.WrittenJson.{data_of_kind, field_members};

use super::composite::write_composite;
use super::objects::{field_member, object_of};
use super::query::write_query;
use crate::reading::HasName;
use agg_request_tree::{AggregationVariants, FilterAggregation, FilterQuery};
use agg_values::{OutOfMemory, Text};
use serde_json::Value;
use std::alloc::Global;

/// The name of the kind of an aggregation.
pub fn kind_word<B>(agg: &AggregationVariants<B>) -> &'static str
    ensures { result.now ≡ kind_word agg.now }
{
    match agg {
        AggregationVariants::Filter(_) => "filter",
        AggregationVariants::Composite(_) => "composite",
        AggregationVariants::Count(_) => "value_count",
        AggregationVariants::Max(_) => "max",
        AggregationVariants::Min(_) => "min",
        AggregationVariants::Sum(_) => "sum",
    }
}

/// The body of that kind.
pub fn write_kind<B: HasName>(
    alloc: Global,
    agg: &AggregationVariants<B>,
) -> Result<Value, OutOfMemory>
    requires { has_no_null_min agg.now ≡ true }
    ensures { IfOk result (λ value.
        IsWritten (data_of_kind B.name_of) (SaysKind B.name_of) (view value) agg.now) }
{
    match agg {
        AggregationVariants::Filter(filter) => write_filter(alloc, filter),
        AggregationVariants::Composite(composite) => write_composite(alloc, composite),
        AggregationVariants::Count(metric) => write_metric(alloc, &metric.field),
        AggregationVariants::Max(metric) => write_metric(alloc, &metric.field),
        AggregationVariants::Min(metric) => write_metric(alloc, &metric.field),
        AggregationVariants::Sum(metric) => write_metric(alloc, &metric.field),
    }
}

// The query of a filter, or the name of its builder.
fn write_filter<B: HasName>(
    alloc: Global,
    filter: &FilterAggregation<B>,
) -> Result<Value, OutOfMemory>
    ensures { IfOk result (λ value. IsWritten (data_of_kind B.name_of) (SaysKind B.name_of)
        (view value) (AggregationVariants.Filter filter.now)) }
{
    match filter.query() {
        FilterQuery::Tree(tree) => write_query(alloc, tree),
        FilterQuery::CustomBuilder(builder) => {
            object_of(
                alloc,
                "builder",
                Value::try_from_str(alloc, builder.name())?,
            )
        }
    }
}

// The body of a metric over a field.
fn write_metric(alloc: Global, field: &Text) -> Result<Value, OutOfMemory>
    ensures written { IfOk result (λ value. view value ≡ object (field_members field.now)) }
    ensures says { IfOk result (λ value. IsMetric false (view value) field.now) }
{
    Ok(Value::from(field_member(alloc, field)?))
}
