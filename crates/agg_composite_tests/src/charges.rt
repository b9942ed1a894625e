//! Tests of what a collector charges for its buckets.
ghost use Rattle.std.specs.Prelude.{◌≡◌, ◌≤◌, ◌<◌, All, IfOk, OnOk, length};
ghost use Rattle.std.specs.Map.{keys_of};
ghost use Rattle.agg_values.specs.Names.{Named};
ghost use Rattle.agg_values.specs.declared.after_key.AfterKey.{AfterKey};
ghost use Rattle.agg_segment.specs.Segment.{Stored};
ghost use Rattle.agg_composite.specs.accessor.Accessors.{Fits};
ghost use Rattle.agg_composite.specs.accessor.Decoded.{IsEncoded};
ghost use Rattle.agg_composite_tests.specs.Right.{IsRight};

use crate::collector::{Values, collector_for, composite_over, number_of, request_in};
use agg_cache::{
    AggregationLimitsGuard, CollectError, LimitsLedger, LowCardSubAggCache, SubAggCache,
};
use agg_composite::{CompositeAggReqData, PageEntries, PageEntry, SegmentCompositeCollector};
use agg_expect::expect_equal;
use agg_low_tests::segment::given::{Given, segment_of};
use agg_request_tree::CompositeAggregation;
use agg_segment::SegmentReader;
use agg_values::{AggregationError, DocId, Steps};
use std::alloc::Global;
use std::marker::Brand;
use std::process::Abort;
use std::sync::ledger::{Blank, Ledger};
use std::test::Fail;

const DOCUMENTS: &[Values] = &[
    &[("a", Given::Signed(2))],
    &[("a", Given::Signed(3))],
    &[("a", Given::Signed(4))],
    &[("a", Given::Signed(5))],
    &[("a", Given::Signed(6))],
    &[("a", Given::Signed(7))],
    &[("a", Given::Signed(1))],
];

// Documents that come after the first five, on a page of so many buckets: the numbers on the page
// then, or the bytes that the limit refuses.
struct Case {
    size: u32,
    docs: &'static [DocId],
    page: &'static [i64],
    refused: Option<(u64, u64)>,
}

const CASES: &[Case] = &[
    Case {
        size: 5,
        docs: &[0, 5],
        page: &[2, 3, 4, 5, 6],
        refused: None,
    },
    Case {
        size: 5,
        docs: &[6],
        page: &[1, 2, 3, 4, 5],
        refused: None,
    },
    Case {
        size: 10,
        docs: &[0],
        page: &[2, 3, 4, 5, 6],
        refused: None,
    },
    Case {
        size: 10,
        docs: &[6],
        page: &[],
        refused: Some((1_000, 1_088)),
    },
];

// A ledger with a guard that charges it.
#[derive(Drop)]
struct Account {
    limits: LimitsLedger,
    guard: AggregationLimitsGuard,
    ghost within: { guard ≤ limits.in_use },
}

// A ledger of a limit of 1000 bytes, of which 512 are charged.
fn charged_account() -> Result<Account, AggregationError> {
    let mut limits = LimitsLedger::new(Some(1_000), None);
    let mut guard = limits.guard();
    guard.add_memory_consumed(&mut limits, 512)?;
    Ok(Account { limits, guard })
}

// Collects documents under the first parent.
fn collect<C: SubAggCache, L: Ledger>(
    collector: &mut SegmentCompositeCollector<C>,
    docs: &[DocId],
    req: &CompositeAggReqData<'_>,
    account: &mut Account,
    steps: &mut Steps<L>,
) -> Result<(), CollectError>
    requires right { IsRight C.waiting req.now collector.old }
    requires parents { 0 < length collector.old.node.parents }
    requires fits { (segment : Stored) × (after : Named AfterKey) × Fits segment after req.now }
    requires room { length req.now.req.now.sources ≤ collector.old.room }
    ensures right { OnOk result (IsRight C.waiting req.now collector.new) }
    ensures parents { OnOk result
        (length collector.new.node.parents ≡ length collector.old.node.parents) }
    ensures room { OnOk result (collector.new.room ≡ collector.old.room) }
{
    collector.collect(0, docs, req, &mut account.limits, &mut account.guard, steps)
}

// The limit and the bytes that would be in use, where that is why documents are refused.
fn refused(error: &CollectError) -> Option<(u64, u64)> {
    match error {
        CollectError::Aggregation(AggregationError::MemoryExceeded { limit, current }) => {
            Some((*limit, *current))
        }
        _ => None,
    }
}

// The number of an entry of one key.
fn only_number(entry: PageEntry) -> Option<i64> {
    number_of(&entry, 0)
}

// The numbers of the entries that are left.
fn numbers_of(
    alloc: Global,
    entries: &mut PageEntries,
    req: &CompositeAggReqData<'_>,
) -> Result<Vec<i64>, Fail>
    requires { All (IsEncoded req.now) (keys_of entries.old) }
{
    let mut numbers = Vec::new(alloc);
    while let Some(entry) = entries.next_entry(alloc, req)? {
        numbers.push(only_number(entry).ok_or("not a number")?)?;
    }
    Ok(numbers)
}

// Entries are of these numbers.
fn expect_entries(
    alloc: Global,
    entries: &mut PageEntries,
    req: &CompositeAggReqData<'_>,
    expected: &[i64],
) -> Result<(), Fail>
    requires { All (IsEncoded req.now) (keys_of entries.old) }
{
    expect_equal(entries.len(), expected.len())?;
    let numbers = numbers_of(alloc, entries, req)?;
    expect_equal(numbers.as_slice(), expected)
}

// In the end the first parent has a page of these numbers.
fn expect_page<C: SubAggCache>(
    alloc: Global,
    collector: SegmentCompositeCollector<C>,
    req: &CompositeAggReqData<'_>,
    expected: &[i64],
) -> Result<(), Fail>
    requires { IsRight C.waiting req.now collector }
{
    let mut entries = collector.into_entries(0)?;
    expect_entries(alloc, &mut entries, req, expected)
}

// 8 bytes of an account are left.
fn expect_charged(account: &Account) -> Result<(), Fail> {
    expect_equal(account.limits.in_use(), 992)?;
    expect_equal(account.guard.allocated(), 992)
}

// After the first five documents 8 bytes are left, and the others, if they are collected, leave as
// many.
fn collect_charged<C: SubAggCache, L: Ledger>(
    collector: &mut SegmentCompositeCollector<C>,
    docs: &[DocId],
    req: &CompositeAggReqData<'_>,
    steps: &mut Steps<L>,
) -> Result<Result<(), CollectError>, Fail>
    requires right { IsRight C.waiting req.now collector.old }
    requires parents { 0 < length collector.old.node.parents }
    requires fits { (segment : Stored) × (after : Named AfterKey) × Fits segment after req.now }
    requires room { length req.now.req.now.sources ≤ collector.old.room }
    ensures { IfOk result (λ collected. OnOk collected (IsRight C.waiting req.now collector.new)) }
{
    let mut account = charged_account()?;
    collect(collector, &[0, 1, 2, 3, 4], req, &mut account, steps)?;
    expect_charged(&account)?;
    let collected = collect(collector, docs, req, &mut account, steps);
    expect_charged(&account)?;
    Ok(collected)
}

// Documents are refused for these numbers.
fn expect_refused(error: &CollectError, expected: Option<(u64, u64)>) -> Result<(), Fail> {
    expect_equal(refused(error), Some(expected.ok_or("not collected")?))
}

// The last documents of a case give its page, or are refused.
fn expect_case<C: SubAggCache, L: Ledger>(
    rt: &(impl Abort + AllocGlobal),
    case: &Case,
    req: &CompositeAggReqData<'_>,
    steps: &mut Steps<L>,
) -> Result<(), Fail>
    requires { (segment : Stored) × (after : Named AfterKey) × Fits segment after req.now }
{
    let mut collector: SegmentCompositeCollector<C> = collector_for(rt, req, false)?;
    match collect_charged(&mut collector, case.docs, req, steps)? {
        Ok(()) => expect_page(rt.alloc(), collector, req, case.page),
        Err(error) => expect_refused(&error, case.refused),
    }
}

// The last documents of a case give their page, or are refused, with a count of steps of their own.
fn expect_counted<L: Ledger>(
    rt: &(impl Abort + AllocGlobal),
    segment: &SegmentReader,
    composite: &CompositeAggregation,
    case: &Case,
    blank: Blank,
) -> Result<(), Fail>
    requires name { blank.name ≡ L.name }
    requires parts { blank.parts ≡ L.parts }
    requires shared { 0 < L.parts }
{
    let mut steps: Steps<L> = Steps::new(blank);
    let req = request_in(rt.alloc(), segment, composite)?;
    expect_case::<LowCardSubAggCache, L>(rt, case, &req, &mut steps)
}

// The last documents of a case give the page of a composite over one field, or are refused.
fn expect_charges(
    rt: &(impl Abort + AllocGlobal),
    segment: &SegmentReader,
    case: &Case,
) -> Result<(), Fail> {
    let composite = composite_over(rt.alloc(), &["a"], case.size)?;
    expect_counted::<Brand>(rt, segment, &composite, case, Blank::new(1))
}

// So it is in each case.
fn expect_cases(rt: &(impl Abort + AllocGlobal), segment: &SegmentReader) -> Result<(), Fail> {
    for case in CASES {
        expect_charges(rt, segment, case)?;
    }
    Ok(())
}

#[test]
fn charges_for_each_bucket_more(rt: HostRuntime) -> Result<(), Fail> {
    let segment = segment_of(rt.alloc(), DOCUMENTS)?;
    expect_cases(&rt, &segment)
}
