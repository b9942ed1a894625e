//! What machines hold, as the tables hold it.
ghost use Rattle.std.specs.Prelude.{◌≡◌, ◌≢◌, [], IfOk};
ghost use Rattle.agg_results.specs.intermediate_results.Intermediate.{entries_of, target_size_of};

use agg_results::{
    IntermediateAggregationResult, IntermediateAggregationResults, IntermediateBucketResult,
    IntermediateCompositeBucketResult, IntermediateCount, IntermediateMax,
    IntermediateMetricResult, IntermediateMin, IntermediateSum, IntermediateTermBucketEntry,
    MergeError,
};
use agg_values::{CompositeIntermediateKey, MissingOrder, Order, Text, Tuple};
use std::alloc::Global;
use std::test::Fail;

/// Results by name.
pub type Named<T> = &'static [(&'static str, T)];

/// Numbers, each with how many occurrences it has and what is below it.
pub type Entries<T> = &'static [(i64, u64, Named<T>)];

/// A metric.
#[derive(Clone, Copy)]
pub enum Metric {
    Count(u64),
    Max(Option<i128>),
    Min(Option<i128>),
    Sum(i128),
}

/// A result: a metric, the documents of a filter, or the target size and the entries of a
/// composite.
pub enum Given<T: 'static> {
    Metric(Metric),
    Filter(u64, Named<T>),
    Page(u32, Entries<T>),
}

/// A result below which two more stand one below the other, and below these a metric.
pub type Nested = Given<Given<Given<Metric>>>;

/// What a table holds of a result.
pub trait Held: 'static {
    /// The result itself.
    fn held(&self, alloc: Global) -> Result<IntermediateAggregationResult, Fail>;
}

impl Held for Metric {
    fn held(&self, _: Global) -> Result<IntermediateAggregationResult, Fail> {
        Ok(IntermediateAggregationResult::Metric(match *self {
            Metric::Count(count) => IntermediateMetricResult::Count(IntermediateCount { count }),
            Metric::Max(value) => IntermediateMetricResult::Max(IntermediateMax { value }),
            Metric::Min(value) => IntermediateMetricResult::Min(IntermediateMin { value }),
            Metric::Sum(sum) => IntermediateMetricResult::Sum(IntermediateSum { sum }),
        }))
    }
}

impl<T: Held> Held for Given<T> {
    fn held(&self, alloc: Global) -> Result<IntermediateAggregationResult, Fail> {
        let bucket = match *self {
            Given::Metric(metric) => return metric.held(alloc),
            Given::Filter(doc_count, below) => IntermediateBucketResult::Filter {
                doc_count,
                sub_aggregations: held_of(alloc, below)?,
            },
            Given::Page(size, entries) => IntermediateBucketResult::Composite {
                buckets: page_of(alloc, size, entries)?,
            },
        };
        Ok(IntermediateAggregationResult::Bucket(bucket))
    }
}

/// What is held by these names.
pub fn held_of<T: Held>(
    alloc: Global,
    named: Named<T>,
) -> Result<IntermediateAggregationResults, Fail> {
    let mut results = IntermediateAggregationResults::new(alloc);
    for (name, given) in named {
        results.push(Text::copy_of(alloc, name)?, given.held(alloc)?)?;
    }
    Ok(results)
}

/// What is held where a name has this value.
pub fn one_held(
    alloc: Global,
    name: &str,
    value: IntermediateAggregationResult,
) -> Result<IntermediateAggregationResults, Fail> {
    let mut results = IntermediateAggregationResults::new(alloc);
    results.push(Text::copy_of(alloc, name)?, value)?;
    Ok(results)
}

/// What is held where the name g has this page.
pub fn held_page(
    alloc: Global,
    buckets: IntermediateCompositeBucketResult,
) -> Result<IntermediateAggregationResults, Fail> {
    let bucket = IntermediateBucketResult::Composite { buckets };
    one_held(alloc, "g", IntermediateAggregationResult::Bucket(bucket))
}

/// A page of one source without entries.
pub fn empty_page(
    alloc: Global,
    size: u32,
    order: Order,
) -> Result<IntermediateCompositeBucketResult, Fail>
    ensures size { IfOk result (λ page. target_size_of page ≡ size) }
    ensures entries { IfOk result (λ page. entries_of page ≡ []) }
{
    let mut page = IntermediateCompositeBucketResult::new(alloc, size);
    page.add_order(order, MissingOrder::Default)?;
    Ok(page)
}

/// An ascending page of one source. Without a target size it has no entries.
pub fn page_of<T: Held>(
    alloc: Global,
    size: u32,
    entries: Entries<T>,
) -> Result<IntermediateCompositeBucketResult, Fail>
    ensures { IfOk result (λ page. target_size_of page ≡ size) }
{
    let mut page = empty_page(alloc, size, Order::Asc)?;
    if size > 0 {
        add_entries(alloc, &mut page, entries)?;
    }
    Ok(page)
}

fn add_entries<T: Held>(
    alloc: Global,
    page: &mut IntermediateCompositeBucketResult,
    entries: Entries<T>,
) -> Result<(), Fail>
    requires { target_size_of page.now ≢ 0 }
    ensures { target_size_of page.new ≡ target_size_of page.old }
{
    for &(key, doc_count, below) in entries {
        add_to(alloc, page, key, entry_of(alloc, doc_count, below)?)??;
    }
    Ok(())
}

/// Adds an entry to a page, and what is answered.
pub fn add_to(
    alloc: Global,
    page: &mut IntermediateCompositeBucketResult,
    key: i64,
    entry: IntermediateTermBucketEntry,
) -> Result<Result<(), MergeError>, Fail>
    requires { target_size_of page.now ≢ 0 }
    ensures { target_size_of page.new ≡ target_size_of page.old }
{
    Ok(page.add_entry(tuple_of(alloc, key)?, entry))
}

/// The tuple of one number.
pub fn tuple_of(alloc: Global, key: i64) -> Result<Tuple, Fail> {
    let mut tuple = Tuple::new(alloc);
    tuple.push(CompositeIntermediateKey::I64(key))?;
    Ok(tuple)
}

/// An entry of a count, with this below it.
pub fn entry_of<T: Held>(
    alloc: Global,
    doc_count: u64,
    below: Named<T>,
) -> Result<IntermediateTermBucketEntry, Fail> {
    Ok(IntermediateTermBucketEntry {
        doc_count,
        sub_aggregation: held_of(alloc, below)?,
    })
}
