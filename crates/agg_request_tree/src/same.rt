//! Whether two aggregations are the same.
ghost use Rattle.std.specs.Prelude.{◌≡◌, ◌↔◌, [], IsTrue};
ghost use Rattle.agg_request_tree.specs.Request.{IsSame, builders_of, own_builder, query_builder};

mod composite;
mod query;

use crate::{Aggregation, AggregationVariants, FilterAggregation, FilterQuery};
use agg_values::NameMap;
use composite::is_same_composite;
use query::is_same_tree;

impl<B: Drop> Aggregation<B> {
    /// Whether it has the same parts as another, and the same below it. Two builders are never the
    /// same.
    #[cycle(same)]
    pub fn same_as(&self, other: &Aggregation<B>) -> bool
        ensures { IsTrue result ↔ IsSame self.now other.now }
    {
        is_same_kind(&self.agg, &other.agg)
            && are_same(&self.sub_aggregation, &other.sub_aggregation)
    }
}

// Whether two requests have the same names for the same aggregations.
#[cycle(same)]
fn are_same<B: Drop>(request: &NameMap<Aggregation<B>>, other: &NameMap<Aggregation<B>>) -> bool
    ensures { IsTrue result ↔ (request.now ≡ other.now) × (builders_of request.now ≡ []) }
{
    let mut others = other.iter();
    for (name, aggregation) in request.iter() {
        let Some((other_name, other_aggregation)) = others.next() else {
            return false;
        };
        if name != other_name {
            return false;
        }
        if !aggregation.same_as(other_aggregation) {
            return false;
        }
    }
    others.next().is_none()
}

// Whether two kinds are the same, with the same parts.
fn is_same_kind<B>(agg: &AggregationVariants<B>, other: &AggregationVariants<B>) -> bool
    ensures { IsTrue result ↔ (agg.now ≡ other.now) × (own_builder agg.now ≡ []) }
{
    match (agg, other) {
        (AggregationVariants::Filter(filter), AggregationVariants::Filter(other)) => {
            is_same_filter(filter, other)
        }
        (AggregationVariants::Composite(composite), AggregationVariants::Composite(other)) => {
            is_same_composite(composite, other)
        }
        (AggregationVariants::Count(metric), AggregationVariants::Count(other)) => {
            metric.field == other.field
        }
        (AggregationVariants::Max(metric), AggregationVariants::Max(other)) => {
            metric.field == other.field
        }
        (AggregationVariants::Min(metric), AggregationVariants::Min(other)) => {
            metric.field == other.field
        }
        (AggregationVariants::Sum(metric), AggregationVariants::Sum(other)) => {
            metric.field == other.field
        }
        _ => false,
    }
}

// Whether two filters have the same tree.
fn is_same_filter<B>(filter: &FilterAggregation<B>, other: &FilterAggregation<B>) -> bool
    ensures { IsTrue result ↔ (filter.now ≡ other.now) × (query_builder filter.now.query ≡ []) }
{
    match (filter.query(), other.query()) {
        (FilterQuery::Tree(tree), FilterQuery::Tree(other)) => is_same_tree(tree, other),
        _ => false,
    }
}
