//! Requests as trees of aggregations: their sources, what these read in documents, the pages that
//! they ask for, what they may not ask, and what they are charged in memory.
#![tactic(auto)]

mod aggregation;
mod builder;
mod by_source;
pub mod charges;
mod check;
mod field_names;
mod laws;
mod same;
mod source;

pub use aggregation::{
    Aggregation, AggregationVariants, Aggregations, CompositeAggregation, CountAggregation,
    FilterAggregation, FilterQuery, MaxAggregation, MinAggregation, SumAggregation,
};
pub use builder::{NamedBuilder, QueryBuildError, QueryBuilder};
pub use by_source::{after_keys, shown_keys};
pub use check::{check_composite, check_request};
pub use field_names::get_fast_field_names;
pub use laws::{
    a_page_lists_each_tuple_once, a_page_with_room_is_the_last, an_after_key_is_its_tuple,
    classes_count_in_any_order, counts_are_of_the_documents, each_request_has_one_page,
    request_equality_is_sameness, successive_pages_are_one_page,
    successive_pages_end_with_every_tuple, successive_pages_list_each_tuple_once,
    the_lowest_groups_are_a_page,
};
pub use source::{
    CompositeAggregationSource, DateHistogramCompositeAggregationSource,
    HistogramCompositeAggregationSource, TermCompositeAggregationSource,
};
