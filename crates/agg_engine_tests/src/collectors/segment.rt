//! Tests of the collector of a request in a segment: what it tells of itself, and what is in use
//! after it ends.
ghost use Rattle.std.specs.Prelude.{◌≡◌, ◌≤◌, ◌<◌};
ghost use Rattle.agg_engine_tree.specs.segment_context.Trees.{AreOfRequest};
ghost use Rattle.agg_engine.specs.collectors.Segment.{MayBeUsed};

use crate::collectors::given::{FIRST, REQUEST, Values, context_of, request_of};
use agg_cache::{CollectError, LimitsLedger};
use agg_engine::collectors::AggregationSegmentCollector;
use agg_engine_tree::segment_context::{AggContextParams, AggKind, AggRefNode};
use agg_expect::expect_equal;
use agg_low_tests::segment::given::{Given, segment_of};
use agg_metric::StatsType;
use agg_request::Aggregations;
use agg_results::IntermediateAggregationResults;
use agg_segment::SegmentReader;
use agg_values::{AggregationError, Steps};
use std::alloc::{AllocError, Global};
use std::marker::Brand;
use std::process::Abort;
use std::sync::ledger::{Blank, Ledger};
use std::test::Fail;

// The kinds of nodes, each before those below it.
fn add_kinds(nodes: &[AggRefNode], kinds: &mut Vec<AggKind>) -> Result<(), AllocError> {
    for node in nodes {
        kinds.push(node.kind)?;
        add_kinds(node.children.as_slice(), kinds)?;
    }
    Ok(())
}

const KINDS: [AggKind; 3] = [
    AggKind::Composite,
    AggKind::StatsKind(StatsType::Sum),
    AggKind::StatsKind(StatsType::Max),
];

// A collector tells this of its segment.
fn expect_told(alloc: Global, collector: &AggregationSegmentCollector<'_>) -> Result<(), Fail> {
    let data = &collector.segment_data().per_request;
    let mut kinds = Vec::new(alloc);
    add_kinds(data.agg_tree.as_slice(), &mut kinds)?;
    let num_composites = data.composite_req_data.as_slice().len();
    expect_equal(
        (collector.num_docs(), collector.allocated(), num_composites),
        (2, 1_024, 1),
    )?;
    expect_equal(kinds.as_slice(), KINDS.as_slice())
}

// The collector of a request tells this of the first segment.
fn expect_told_by(
    alloc: Global,
    request: &Aggregations,
    context: &AggContextParams,
) -> Result<(), Fail>
    requires { AreOfRequest request.now context.now.trees }
{
    let mut limits = LimitsLedger::new(None, None);
    let reader = segment_of(alloc, FIRST)?;
    let collector = AggregationSegmentCollector::from_agg_req_and_reader(
        alloc,
        request,
        &reader,
        context,
        &mut limits,
    )?;
    expect_told(alloc, &collector)
}

#[test]
fn tells_of_its_segment(rt: HostRuntime) -> Result<(), Fail> {
    let request = request_of(rt.alloc(), REQUEST)?;
    let context = context_of(rt.alloc(), &request, None)?;
    expect_told_by(rt.alloc(), &request, &context)
}

// The bytes that are in use before a collector is made.
const IN_USE: u64 = 512;

// A ledger with these bytes in use, of so many that may be.
fn ledger_in_use(memory_limit: Option<u64>) -> Result<LimitsLedger, AggregationError> {
    let mut limits = LimitsLedger::new(memory_limit, None);
    let mut guard = limits.guard();
    guard.add_memory_consumed(&mut limits, IN_USE)?;
    Ok(limits)
}

// Groups by tens.
const TENS: &str = r#"{"g":{"composite":{"sources":[{"h":{"histogram":{"field":"h",
    "interval":10}}}],"size":2}}}"#;

// The bucket of the second document would start below the least number of 64 bits.
const OUT_OF_RANGE: &[Values] = &[
    &[("h", Given::Signed(1))],
    &[("h", Given::Signed(i64::MIN))],
];

// Groups, and the first group within each. The fixed charge is 1024 bytes, and a bucket takes 96.
const NESTED: &str = r#"{"g":{"composite":{"sources":[{"a":{"terms":{"field":"a"}}}],
    "size":10},"aggs":{"h":{"composite":{"sources":[{"b":{"terms":{"field":"b"}}}],
    "size":1}}}}}"#;

// One group, with three within it.
const ONE_OF_THREE: &[Values] = &[
    &[("a", Given::Signed(1)), ("b", Given::Signed(1))],
    &[("a", Given::Signed(1)), ("b", Given::Signed(2))],
    &[("a", Given::Signed(1)), ("b", Given::Signed(3))],
];

// The error of a charge.
fn memory_exceeded(limit: u64, current: u64) -> CollectError {
    CollectError::Aggregation(AggregationError::MemoryExceeded { limit, current })
}

// The documents of a segment, and why a collector refuses the first two of them, with a limit of
// memory.
#[derive(Drop)]
struct Refused {
    documents: &'static [Values],
    memory_limit: Option<u64>,
    error: CollectError,
}

// A collector answers so once it has failed.
fn expect_spent(rt: &impl Abort, answer: Result<(), CollectError>) {
    assert_eq!(rt; answer, Err(CollectError::CollectorFailed));
}

// A collector gets a block, and then refuses a document and a block.
fn expect_refusals<L: Ledger>(
    rt: &impl Abort,
    collector: &mut AggregationSegmentCollector<'_>,
    reader: &SegmentReader,
    limits: &mut LimitsLedger,
    steps: &mut Steps<L>,
) -> Result<(), CollectError>
    requires usable { MayBeUsed collector.old }
    requires reader { collector.old.reader.now ≡ reader.now }
    requires charged { collector.old.tree.guard ≤ limits.old.in_use }
    ensures usable { MayBeUsed collector.new }
    ensures charged { collector.new.tree.guard ≤ limits.new.in_use }
{
    assert!(rt; 2 <= reader.num_docs());
    let first = collector.collect_block(&[0, 1], limits, steps);
    expect_spent(rt, collector.collect(0, limits, steps));
    expect_spent(rt, collector.collect_block(&[0], limits, steps));
    first
}

// Whether a collector has results.
fn refused_results<L: Ledger>(
    collector: AggregationSegmentCollector<'_>,
    limits: &mut LimitsLedger,
    steps: &mut Steps<L>,
) -> Result<(), CollectError>
    requires usable { MayBeUsed collector }
    requires charged { collector.tree.guard ≤ limits.old.in_use }
{
    collector.harvest(limits, steps)?;
    Ok(())
}

// After that it has no results, and nothing more is in use.
fn expect_end<L: Ledger>(
    rt: &impl Abort,
    collector: AggregationSegmentCollector<'_>,
    reader: &SegmentReader,
    limits: &mut LimitsLedger,
    steps: &mut Steps<L>,
) -> Result<(), CollectError>
    requires usable { MayBeUsed collector }
    requires reader { collector.reader.now ≡ reader.now }
    requires charged { collector.tree.guard ≤ limits.old.in_use }
{
    let mut collector = collector;
    let first = expect_refusals(rt, &mut collector, reader, limits, steps);
    expect_spent(rt, refused_results(collector, limits, steps));
    assert_eq!(rt; limits.in_use(), IN_USE);
    first
}

// The collector of a request fails so in a segment of such documents.
fn expect_failed_in<L: Ledger>(
    rt: &(impl Abort + AllocGlobal),
    request: &Aggregations,
    context: &AggContextParams,
    refused: Refused,
    steps: &mut Steps<L>,
) -> Result<(), Fail>
    requires { AreOfRequest request.now context.now.trees }
{
    let alloc = rt.alloc();
    let mut limits = ledger_in_use(refused.memory_limit)?;
    let reader = segment_of(alloc, refused.documents)?;
    let collector = AggregationSegmentCollector::from_agg_req_and_reader(
        alloc,
        request,
        &reader,
        context,
        &mut limits,
    )?;
    let first = expect_end(rt, collector, &reader, &mut limits, steps);
    expect_equal(first, Err(refused.error))
}

fn expect_failed<L: Ledger>(
    rt: &(impl Abort + AllocGlobal),
    request: &Aggregations,
    refused: Refused,
    blank: Blank,
) -> Result<(), Fail>
    requires name { blank.name ≡ L.name }
    requires parts { blank.parts ≡ L.parts }
    requires shared { 0 < L.parts }
{
    let mut steps: Steps<L> = Steps::new(blank);
    let context = context_of(rt.alloc(), request, None)?;
    expect_failed_in(rt, request, &context, refused, &mut steps)
}

#[test]
fn answers_nothing_more_after_it_failed(rt: HostRuntime) -> Result<(), Fail> {
    let request = request_of(rt.alloc(), TENS)?;
    let refused = Refused {
        documents: OUT_OF_RANGE,
        memory_limit: None,
        error: CollectError::BucketOutOfRange,
    };
    expect_failed::<Brand>(&rt, &request, refused, Blank::new(1))
}

#[test]
fn refuses_all_after_memory_was_exceeded(rt: HostRuntime) -> Result<(), Fail> {
    let request = request_of(rt.alloc(), NESTED)?;
    let refused = Refused {
        documents: ONE_OF_THREE,
        memory_limit: Some(IN_USE + 1_119),
        error: memory_exceeded(IN_USE + 1_119, IN_USE + 1_120),
    };
    expect_failed::<Brand>(&rt, &request, refused, Blank::new(1))
}

// The results of a collector over three documents.
fn results_of_three<L: Ledger>(
    rt: &impl Abort,
    collector: AggregationSegmentCollector<'_>,
    reader: &SegmentReader,
    limits: &mut LimitsLedger,
    steps: &mut Steps<L>,
) -> Result<IntermediateAggregationResults, CollectError>
    requires usable { MayBeUsed collector }
    requires reader { collector.reader.now ≡ reader.now }
    requires charged { collector.tree.guard ≤ limits.old.in_use }
{
    let mut collector = collector;
    assert!(rt; 3 <= reader.num_docs());
    match collector.collect_block(&[0, 1, 2], limits, steps) {
        Ok(()) => collector.harvest(limits, steps),
        Err(error) => {
            drop(collector);
            Err(error)
        }
    }
}

// Why there are none, for a request in a segment of three documents with a limit of memory, if
// there are none. Nothing is in use after that.
fn refusal_within<L: Ledger>(
    rt: &(impl Abort + AllocGlobal),
    request: &Aggregations,
    context: &AggContextParams,
    memory_limit: u64,
    steps: &mut Steps<L>,
) -> Result<Option<CollectError>, Fail>
    requires { AreOfRequest request.now context.now.trees }
{
    let alloc = rt.alloc();
    let mut limits = LimitsLedger::new(Some(memory_limit), None);
    let reader = segment_of(alloc, ONE_OF_THREE)?;
    let collector = AggregationSegmentCollector::from_agg_req_and_reader(
        alloc,
        request,
        &reader,
        context,
        &mut limits,
    )?;
    let results = results_of_three(rt, collector, &reader, &mut limits, steps);
    expect_equal(limits.in_use(), 0)?;
    match results {
        Ok(_) => Ok(None),
        Err(error) => Ok(Some(error)),
    }
}

// There are results with just the bytes that the collector takes at last, and none with one less.
fn expect_limits<L: Ledger>(
    rt: &(impl Abort + AllocGlobal),
    request: &Aggregations,
    blank: Blank,
) -> Result<(), Fail>
    requires name { blank.name ≡ L.name }
    requires parts { blank.parts ≡ L.parts }
    requires shared { 0 < L.parts }
{
    let mut steps: Steps<L> = Steps::new(blank);
    let context = context_of(rt.alloc(), request, None)?;
    let enough = refusal_within(rt, request, &context, 1_216, &mut steps)?;
    let less = refusal_within(rt, request, &context, 1_215, &mut steps)?;
    expect_equal((enough, less), (None, Some(memory_exceeded(1_215, 1_216))))
}

#[test]
fn holds_as_much_as_memory_allows(rt: HostRuntime) -> Result<(), Fail> {
    let request = request_of(rt.alloc(), NESTED)?;
    expect_limits::<Brand>(&rt, &request, Blank::new(1))
}

// A collector is abandoned after it took two documents.
fn abandon_after_two<L: Ledger>(
    rt: &impl Abort,
    collector: AggregationSegmentCollector<'_>,
    reader: &SegmentReader,
    limits: &mut LimitsLedger,
    steps: &mut Steps<L>,
) -> Result<(), CollectError>
    requires usable { MayBeUsed collector }
    requires reader { collector.reader.now ≡ reader.now }
    requires charged { collector.tree.guard ≤ limits.old.in_use }
{
    let mut collector = collector;
    assert!(rt; 2 <= reader.num_docs());
    let taken = collector.collect_block(&[1, 0], limits, steps);
    collector.abandon(limits);
    taken
}

// Nothing more is in use after the collector of a request is abandoned so.
fn expect_abandoned_in<L: Ledger>(
    rt: &(impl Abort + AllocGlobal),
    request: &Aggregations,
    context: &AggContextParams,
    steps: &mut Steps<L>,
) -> Result<(), Fail>
    requires { AreOfRequest request.now context.now.trees }
{
    let alloc = rt.alloc();
    let mut limits = ledger_in_use(None)?;
    let reader = segment_of(alloc, FIRST)?;
    let collector = AggregationSegmentCollector::from_agg_req_and_reader(
        alloc,
        request,
        &reader,
        context,
        &mut limits,
    )?;
    let taken = abandon_after_two(rt, collector, &reader, &mut limits, steps);
    expect_equal((taken, limits.in_use()), (Ok(()), IN_USE))
}

fn expect_abandoned<L: Ledger>(
    rt: &(impl Abort + AllocGlobal),
    request: &Aggregations,
    blank: Blank,
) -> Result<(), Fail>
    requires name { blank.name ≡ L.name }
    requires parts { blank.parts ≡ L.parts }
    requires shared { 0 < L.parts }
{
    let mut steps: Steps<L> = Steps::new(blank);
    let context = context_of(rt.alloc(), request, None)?;
    expect_abandoned_in(rt, request, &context, &mut steps)
}

#[test]
fn gives_back_where_it_is_abandoned(rt: HostRuntime) -> Result<(), Fail> {
    let request = request_of(rt.alloc(), REQUEST)?;
    expect_abandoned::<Brand>(&rt, &request, Blank::new(1))
}
