//! Aggregations as they are asked for.
ghost use Rattle.std.specs.Prelude.{◌≡◌};
ghost use Rattle.agg_request_tree.specs.Request.{below_of};

mod filter;
mod metrics;

use crate::{CompositeAggregationSource, NamedBuilder};
use agg_values::{AfterKey, ItemList, NameMap};
pub use filter::{FilterAggregation, FilterQuery};
pub use metrics::{CountAggregation, MaxAggregation, MinAggregation, SumAggregation};

/// A request: aggregations by name.
pub type Aggregations = NameMap<Aggregation>;

/// One aggregation of a request, and those that are asked of the documents of each of its buckets.
/// `B` makes the queries of filters that have none of their own.
#[derive(Drop)]
pub struct Aggregation<B = NamedBuilder> {
    pub agg: AggregationVariants<B>,
    pub sub_aggregation: NameMap<Aggregation<B>>,
}

impl<B> Aggregation<B> {
    /// The aggregations below it.
    pub fn sub_aggregation(&self) -> &NameMap<Aggregation<B>>
        ensures { result.now ≡ below_of self.now }
    {
        &self.sub_aggregation
    }
}

/// The kinds of aggregation.
#[derive(Drop)]
pub enum AggregationVariants<B = NamedBuilder> {
    /// The documents that a query matches.
    Filter(FilterAggregation<B>),
    /// A page of groups.
    Composite(CompositeAggregation),
    /// How many values a field has.
    Count(CountAggregation),
    /// The greatest number or date of a field, a date in nanoseconds.
    Max(MaxAggregation),
    /// The least number or date of a field, a date in nanoseconds.
    Min(MinAggregation),
    /// The sum of the numbers and dates of a field, dates in nanoseconds.
    Sum(SumAggregation),
}

/// Groups by the tuples of the sources' keys, of which one page is answered.
#[derive(Drop)]
pub struct CompositeAggregation {
    pub sources: ItemList<CompositeAggregationSource>,
    /// How many groups a page has room for.
    pub size: u32,
    /// The key after which the page begins, by the names of sources.
    pub after: NameMap<AfterKey>,
}
