use crate::segment_context::filter::given::red_in_segment;
use agg_cache::{Batch, BucketId, CollectError, LowCardSubAggCache};
use agg_expect::expect_equal;
use agg_filter::{FilterAggReqData, SegmentFilterCollector};
use agg_values::DocId;
use std::process::Abort;
use std::test::Fail;

// A collector with a cache for few buckets.
type Collector = SegmentFilterCollector<LowCardSubAggCache>;

// The parents that are prepared, and the red documents that are collected under each.
const RED: &[(BucketId, &[DocId])] = &[(0, &[2, 0, 2]), (1, &[]), (2, &[0])];

// Collects documents under the parent 2, then under 0, and under 2 again.
fn collect_all(collector: &mut Collector, req: &FilterAggReqData) -> Result<(), Fail> {
    collector.prepare_max_bucket(2)?;
    collector.collect(2, &[1, 0], req)?;
    collector.collect(0, &[2, 1, 0, 2], req)?;
    collector.collect(2, &[3, 4], req)?;
    Ok(())
}

// The documents of the batch of a bucket.
fn docs_of(batches: &[Batch], id: Option<BucketId>) -> &[DocId] {
    for batch in batches {
        if Some(batch.bucket_id) == id {
            return batch.docs.as_slice();
        }
    }
    &[]
}

// What is handed on of documents.
fn handed_on(docs: &[DocId], hands_on: bool) -> &[DocId] {
    if hands_on { docs } else { &[] }
}

// The parents have these counts and ids, and the batches these documents, if any are handed on.
fn expect_red(
    rt: &impl Abort,
    collector: &Collector,
    batches: &[Batch],
    hands_on: bool,
) -> Result<(), Fail> {
    for &(parent, red) in RED {
        let id = collector.bucket_id(parent);
        assert!(rt; id.is_some());
        expect_equal(collector.doc_count(parent), red.len() as u64)?;
        expect_equal(docs_of(batches, id), handed_on(red, hands_on))?;
    }
    expect_equal((collector.doc_count(3), collector.bucket_id(3)), (0, None))
}

// A collector counts the red documents under their parents, and hands them on or doesn't.
fn expect_collected(
    rt: &(impl Abort + AllocGlobal),
    mut collector: Collector,
    hands_on: bool,
) -> Result<(), Fail> {
    collect_all(&mut collector, &red_in_segment(rt.alloc())?)?;
    assert!(rt; !collector.due());
    let batches = collector.take()?;
    expect_red(rt, &collector, batches.as_slice(), hands_on)
}

#[test]
fn counts_and_hands_on_what_matches(rt: HostRuntime) -> Result<(), Fail> {
    expect_collected(&rt, Collector::new(rt.alloc()), true)
}

#[test]
fn a_leaf_counts_what_matches(rt: HostRuntime) -> Result<(), Fail> {
    expect_collected(&rt, Collector::new_leaf(rt.alloc()), false)
}

#[test]
fn no_parent_has_the_last_number(rt: HostRuntime) -> Result<(), Fail> {
    let mut collector = Collector::new(rt.alloc());
    let refused = collector.prepare_max_bucket(BucketId::MAX);
    expect_equal(refused, Err(CollectError::TooMany))
}
