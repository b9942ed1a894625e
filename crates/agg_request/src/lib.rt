//! Requests: what a JSON value says, and the JSON that is written of one.
#![tactic(auto)]

pub mod json_values;
pub mod reading;
mod writer;

pub use crate::json_values::{ReadError, json_value, read_error_equality_is_sameness, read_query};
pub use crate::reading::{
    CustomOrder, HasName, order_equality_is_sameness, read_aggregations, read_composite,
    read_request, the_default_order,
};
pub use agg_request_tree::{
    Aggregation, AggregationVariants, Aggregations, CompositeAggregation,
    CompositeAggregationSource, CountAggregation, DateHistogramCompositeAggregationSource,
    FilterAggregation, FilterQuery, HistogramCompositeAggregationSource, MaxAggregation,
    MinAggregation, NamedBuilder, QueryBuildError, QueryBuilder, SumAggregation,
    TermCompositeAggregationSource, a_page_lists_each_tuple_once, a_page_with_room_is_the_last,
    an_after_key_is_its_tuple, check_request, classes_count_in_any_order,
    counts_are_of_the_documents, each_request_has_one_page, get_fast_field_names,
    request_equality_is_sameness, successive_pages_are_one_page,
    successive_pages_end_with_every_tuple, successive_pages_list_each_tuple_once,
    the_lowest_groups_are_a_page,
};
pub use writer::{may_be_written, write_aggregations};
