//! Texts of results as JSON, down to their sub-results.
ghost use Rattle.std.specs.Prelude.{◌≡◌, ◌++◌, map, string_bytes, OnOk};
ghost use Rattle.std.specs.List.Sorted.{IsStrictlySortedBy};
ghost use Rattle.std.specs.Map.{keys_of};
ghost use Rattle.agg_values.specs.Names.{name_cmp};
ghost use Rattle.agg_results.specs.final_results.Appending.{after_key_member};
ghost use Rattle.agg_results.specs.final_results.OwnMembers.{own_members};
ghost use Rattle.agg_results.specs.final_results.ResultsText.{bracketed};
ghost use Rattle.agg_results.specs.final_results.ResultsText.{composite_members};
ghost use Rattle.agg_results.specs.final_results.ResultsText.{members_text};
ghost use Rattle.agg_results.specs.final_results.ResultsText.{plain_members, put_all};
ghost use Rattle.agg_results.specs.final_results.PartTexts.{bucket_result_text, bucket_text};
ghost use Rattle.agg_results.specs.final_results.PartTexts.{filter_text, result_text};
ghost use Rattle.agg_results.specs.final_results.ResultsText.{results_members};

use crate::final_results::json_text::{JsonText, write_comma, write_name};
use crate::final_results::own_members::OwnMembers;
use crate::final_results::{
    AggregationResult, AggregationResults, BucketResult, CompositeBucketEntry, FilterBucketResult,
};
use agg_values::{AfterKey, NameMap, OutOfMemory};
use std::alloc::Global;

/// Appends an object of results by name. They are put over the members that a bucket or a filter
/// has of its own.
#[cycle(result_text)]
pub fn write_results(
    alloc: Global,
    text: &mut String,
    mut own: OwnMembers<'_>,
    results: &AggregationResults,
) -> Result<(), OutOfMemory>
    ensures text { OnOk result
        (string_bytes text.new ≡ string_bytes text.old
        ++ members_text (put_all (results_members results.now) (own_members own.entry))) }
    ensures ascending { OnOk result (IsStrictlySortedBy name_cmp (keys_of results.now.0)) }
{
    text.push('{')?;
    let mut first = true;
    for (name, result) in results.0.iter() {
        own.write_below(alloc, text, &mut first, name.as_str())?;
        write_comma(text, &mut first)?;
        write_name(alloc, text, name.as_str())?;
        write_result(alloc, text, result)?;
    }
    own.write_rest(alloc, text, &mut first)?;
    text.push('}')?;
    Ok(())
}

/// Appends the result of an aggregation.
#[cycle(result_text)]
pub fn write_result(
    alloc: Global,
    text: &mut String,
    aggregation: &AggregationResult,
) -> Result<(), OutOfMemory>
    ensures { OnOk result
        (string_bytes text.new ≡ string_bytes text.old ++ result_text aggregation.now) }
{
    match aggregation {
        AggregationResult::BucketResult(buckets) => write_bucket_result(alloc, text, buckets),
        AggregationResult::MetricResult(metric) => metric.write_to(alloc, text),
    }
}

// Appends a result that has buckets.
#[cycle(result_text)]
fn write_bucket_result(
    alloc: Global,
    text: &mut String,
    buckets: &BucketResult,
) -> Result<(), OutOfMemory>
    ensures { OnOk result
        (string_bytes text.new ≡ string_bytes text.old ++ bucket_result_text buckets.now) }
{
    match buckets {
        BucketResult::Filter(filter) => write_filter(alloc, text, filter),
        BucketResult::Composite { buckets, after_key } => {
            write_composite(alloc, text, buckets.as_slice(), after_key)
        }
    }
}

// Appends a filter: its number of documents, and its sub-results by their names.
#[cycle(result_text)]
fn write_filter(
    alloc: Global,
    text: &mut String,
    filter: &FilterBucketResult,
) -> Result<(), OutOfMemory>
    ensures { OnOk result
        (string_bytes text.new ≡ string_bytes text.old ++ filter_text filter.now) }
{
    write_results(
        alloc,
        text,
        OwnMembers::of_filter(filter),
        &filter.sub_aggregations,
    )
}

// Appends the page of a composite: its after key, unless that is empty, and its buckets.
#[cycle(result_text)]
fn write_composite(
    alloc: Global,
    text: &mut String,
    buckets: &[CompositeBucketEntry],
    after_key: &NameMap<AfterKey>,
) -> Result<(), OutOfMemory>
    ensures { OnOk result
        (string_bytes text.new ≡ string_bytes text.old
        ++ members_text (composite_members (map bucket_text buckets.now) after_key.now)) }
{
    text.push('{')?;
    write_after_key(alloc, text, after_key)?;
    text.push_str("\"buckets\":")?;
    write_buckets(alloc, text, buckets)?;
    text.push('}')?;
    Ok(())
}

// Appends an array of buckets.
#[cycle(result_text)]
fn write_buckets(
    alloc: Global,
    text: &mut String,
    buckets: &[CompositeBucketEntry],
) -> Result<(), OutOfMemory>
    ensures { OnOk result
        (string_bytes text.new
        ≡ string_bytes text.old ++ bracketed (map bucket_text buckets.now)) }
{
    text.push('[')?;
    let mut first = true;
    for bucket in buckets {
        write_comma(text, &mut first)?;
        write_bucket(alloc, text, bucket)?;
    }
    text.push(']')?;
    Ok(())
}

/// Appends a bucket: its number of occurrences, its key, and its sub-results by their names.
#[cycle(result_text)]
pub fn write_bucket(
    alloc: Global,
    text: &mut String,
    bucket: &CompositeBucketEntry,
) -> Result<(), OutOfMemory>
    ensures { OnOk result
        (string_bytes text.new ≡ string_bytes text.old ++ bucket_text bucket.now) }
{
    if bucket.sub_aggregation.0.is_empty() {
        return write_plain_bucket(alloc, text, bucket);
    }
    write_results(
        alloc,
        text,
        OwnMembers::of_bucket(bucket),
        &bucket.sub_aggregation,
    )
}

// Appends a bucket without sub-results.
fn write_plain_bucket(
    alloc: Global,
    text: &mut String,
    bucket: &CompositeBucketEntry,
) -> Result<(), OutOfMemory>
    ensures { OnOk result
        (string_bytes text.new ≡ string_bytes text.old
        ++ members_text (plain_members bucket.now.doc_count bucket.now.key)) }
{
    text.push_str("{\"doc_count\":")?;
    bucket.doc_count.write_to(alloc, text)?;
    text.push_str(",\"key\":")?;
    bucket.key.write_to(alloc, text)?;
    text.push('}')?;
    Ok(())
}

/// Appends the member of the after key and a comma, unless the after key is empty.
pub fn write_after_key(
    alloc: Global,
    text: &mut String,
    after_key: &NameMap<AfterKey>,
) -> Result<(), OutOfMemory>
    ensures { OnOk result
        (string_bytes text.new ≡ string_bytes text.old ++ after_key_member after_key.now) }
{
    if !after_key.is_empty() {
        text.push_str("\"after_key\":")?;
        after_key.write_to(alloc, text)?;
        text.push(',')?;
    }
    Ok(())
}
