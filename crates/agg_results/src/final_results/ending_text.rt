//! Texts as JSON of results that end: each bucket of a composite at the top is dropped once its
//! text stands there, so that a long page doesn't stand in memory beside its whole text.
ghost use Rattle.std.specs.Prelude.{◌≡◌, ◌∷◌, [], ◌++◌, IfOk, MatchOption, OnOk, map};
ghost use Rattle.std.specs.Prelude.{string_bytes};
ghost use Rattle.agg_results.specs.final_results.ResultsText.{bracketed};
ghost use Rattle.agg_results.specs.final_results.ResultsText.{composite_members, members_text};
ghost use Rattle.agg_results.specs.final_results.ResultsText.{results_text};
ghost use Rattle.agg_results.specs.final_results.PartTexts.{bucket_text, result_text};

use crate::final_results::json_text::{write_comma, write_name};
use crate::final_results::result_text::{write_after_key, write_bucket, write_result};
use crate::final_results::{
    AggregationResult, AggregationResults, BucketResult, CompositeBucketEntry,
};
use agg_values::freeing::FreeingIter;
use agg_values::{AfterKey, NameMap, OutOfMemory, Text};
use std::alloc::Global;

/// Appends an object of results by name, each of which is dropped once its text stands there.
pub fn write_ending(
    alloc: Global,
    text: &mut String,
    results: AggregationResults,
) -> Result<(), OutOfMemory>
    ensures { OnOk result
        (string_bytes text.new ≡ string_bytes text.old ++ results_text results) }
{
    let AggregationResults(mut rest) = results;
    text.push('{')?;
    let mut first = true;
    while let Some((name, aggregation)) = take_first(alloc, &mut rest)? {
        write_comma(text, &mut first)?;
        write_name(alloc, text, name.as_str())?;
        write_ending_result(alloc, text, aggregation)?;
    }
    text.push('}')?;
    Ok(())
}

// Takes out the result of the least name, None exactly where there are none.
fn take_first(
    alloc: Global,
    results: &mut NameMap<AggregationResult>,
) -> Result<Option<(Text, AggregationResult)>, OutOfMemory>
    ensures { IfOk result (λ taken. MatchOption taken (results.old ≡ [])
        (λ first. results.old ≡ first ∷ results.new)) }
{
    let Some(least) = results.keys().next() else {
        return Ok(None);
    };
    let name = least.try_clone(alloc)?;
    Ok(results.remove(&name).map(|aggregation| (name, aggregation)))
}

// Appends the result of an aggregation, which is dropped: bucket by bucket where it is a page.
fn write_ending_result(
    alloc: Global,
    text: &mut String,
    aggregation: AggregationResult,
) -> Result<(), OutOfMemory>
    ensures { OnOk result
        (string_bytes text.new ≡ string_bytes text.old ++ result_text aggregation) }
{
    match aggregation {
        AggregationResult::BucketResult(BucketResult::Composite { buckets, after_key }) => {
            write_ending_composite(alloc, text, buckets.into_vec(), &after_key)
        }
        other => write_result(alloc, text, &other),
    }
}

// Appends the page of a composite: its after key, unless that is empty, and its buckets.
fn write_ending_composite(
    alloc: Global,
    text: &mut String,
    buckets: Vec<CompositeBucketEntry>,
    after_key: &NameMap<AfterKey>,
) -> Result<(), OutOfMemory>
    ensures { OnOk result
        (string_bytes text.new ≡ string_bytes text.old
        ++ members_text (composite_members (map bucket_text buckets.items) after_key.now)) }
{
    text.push('{')?;
    write_after_key(alloc, text, after_key)?;
    text.push_str("\"buckets\":")?;
    write_ending_buckets(alloc, text, buckets)?;
    text.push('}')?;
    Ok(())
}

// Appends an array of buckets, each of which is dropped once its text stands there.
fn write_ending_buckets(
    alloc: Global,
    text: &mut String,
    buckets: Vec<CompositeBucketEntry>,
) -> Result<(), OutOfMemory>
    ensures { OnOk result
        (string_bytes text.new
        ≡ string_bytes text.old ++ bracketed (map bucket_text buckets.items)) }
{
    text.push('[')?;
    let mut first = true;
    for bucket in FreeingIter::new(buckets) {
        write_comma(text, &mut first)?;
        write_bucket(alloc, text, &bucket)?;
    }
    text.push(']')?;
    Ok(())
}
