//! What is held, as it is shown.
use crate::held::{Named, Nested, held_of};
use agg_cache::LimitsLedger;
use agg_request::{Aggregations, read_aggregations};
use agg_results::{AggregationResults, FinalError, IntermediateAggregationResults};
use agg_values::Text;
use serde_json::Value;
use std::alloc::Global;
use std::test::Fail;

/// A request of one composite.
pub const PAGE: &str =
    r#"{"g":{"composite":{"sources":[{"a":{"terms":{"field":"a"}}}],"size":2}}}"#;

/// A request, what two machines hold for it, and what is shown of both as one.
pub type MergedRow = (&'static str, Named<Nested>, Named<Nested>, &'static str);

fn request_of(alloc: Global, text: &str) -> Result<Aggregations, Fail> {
    let value = Value::from_str(alloc, text)?;
    Ok(read_aggregations(alloc, &value, Vec::new(alloc))?)
}

/// The final results of what is held, for the request of a text.
pub fn final_of(
    alloc: Global,
    request: &str,
    held: IntermediateAggregationResults,
    bucket_limit: Option<u32>,
) -> Result<Result<AggregationResults, FinalError>, Fail> {
    let request = request_of(alloc, request)?;
    Ok(held.into_final_result(&request, &LimitsLedger::new(None, bucket_limit)))
}

/// What is held of no documents, for the request of a text.
pub fn empty_of(alloc: Global, request: &str) -> Result<IntermediateAggregationResults, Fail> {
    let request = request_of(alloc, request)?;
    Ok(IntermediateAggregationResults::empty_from_req(alloc, &request)?)
}

/// What is held, as a request shows it.
pub fn shown(
    alloc: Global,
    request: &str,
    held: IntermediateAggregationResults,
) -> Result<Text, Fail> {
    let (text, _) = shown_with_count(alloc, request, held)?;
    Ok(text)
}

/// What is held, as a request shows it, and the number of its buckets. The text is the same where
/// the results end with it.
pub fn shown_with_count(
    alloc: Global,
    request: &str,
    held: IntermediateAggregationResults,
) -> Result<(Text, u64), Fail> {
    let results = final_of(alloc, request, held, None)??;
    let (text, count) = (results.write_json()?, results.get_bucket_count());
    let mut ending = String::new(alloc);
    results.into_json(&mut ending)?;
    if ending.as_str() != text.as_str() {
        return Err("another text in the end")?;
    }
    Ok((text, count))
}

/// What two machines hold as one, as the request shows it.
pub fn shown_as_one(alloc: Global, row: &MergedRow) -> Result<Text, Fail> {
    let &(request, first, second, _) = row;
    let mut held = held_of(alloc, first)?;
    held.merge_fruits(held_of(alloc, second)?)?;
    shown(alloc, request, held)
}
