//! Tests of collectors: pages that are full, parents in any order, and what is handed on.
ghost use Rattle.std.specs.Prelude.{◌≡◌, ◌≤◌, ◌<◌, [], IfOk, OnOk, length};
ghost use Rattle.agg_values.specs.Names.{Named};
ghost use Rattle.agg_values.specs.declared.after_key.AfterKey.{AfterKey};
ghost use Rattle.agg_segment.specs.Segment.{Stored};
ghost use Rattle.agg_composite.specs.accessor.Accessors.{AllFit, Fits};
ghost use Rattle.agg_request_tree.specs.Faults.{max_sources};
ghost use Rattle.agg_composite.specs.declared.accessor.request_data.CompositeAggReqData as declared;
ghost use Rattle.agg_composite.specs.Composite.{CompositeFor};
ghost use Rattle.agg_composite_tests.specs.Right.{IsRight};

use agg_cache::{Batch, BucketId, LimitsLedger, LowCardSubAggCache, SubAggCache};
use agg_composite::{
    CompositeAggReqData, CompositeSourceAccessors, PageEntries, PageEntry,
    SegmentCompositeCollector,
};
use agg_expect::{expect_equal, expect_equal_for};
use agg_low_tests::segment::given::{Given, segment_of};
use agg_request_tests::request_tree::given::{GivenSource, Kind, composite_of};
use agg_request_tree::{CompositeAggregation, CompositeAggregationSource};
use agg_segment::SegmentReader;
use agg_values::{CompositeIntermediateKey, DocId, ItemList, OutOfMemory, Steps, Text};
use std::alloc::Global;
use std::marker::Brand;
use std::process::Abort;
use std::sync::ledger::{Blank, Ledger};
use std::test::Fail;

/// The values of a document.
pub(crate) type Values = &'static [(&'static str, Given)];

// A bucket of one or two signed keys: these, how many documents it has, and its id.
type Shown = (Option<i64>, Option<i64>, u64, BucketId);

pub(crate) const DOCUMENTS: &[Values] = &[
    &[("a", Given::Signed(5)), ("b", Given::Signed(1))],
    &[("a", Given::Signed(7)), ("b", Given::Signed(1))],
    &[("a", Given::Signed(6))],
    &[("a", Given::Signed(7)), ("b", Given::Signed(2))],
    &[("a", Given::Signed(5)), ("b", Given::Signed(0))],
    &[("b", Given::Signed(3))],
];

/// What a collector is asked in a segment, from the first tuple on.
pub(crate) fn request_in<'s>(
    alloc: Global,
    segment: &'s SegmentReader,
    composite: &'s CompositeAggregation,
) -> Result<CompositeAggReqData<'s>, Fail>
    ensures fits { IfOk result (Fits segment.now []) }
    ensures composite { IfOk result (λ req. req.req.now ≡ composite.now) }
{
    Ok(CompositeAggReqData {
        name: Text::copy_of(alloc, "g")?,
        req: composite,
        size: composite.size,
        composite_accessors: accessors_of(alloc, segment, composite.sources.as_slice())?,
    })
}

// The accessors of each source, from the first tuple on.
fn accessors_of<'s>(
    alloc: Global,
    segment: &'s SegmentReader,
    sources: &[CompositeAggregationSource],
) -> Result<ItemList<CompositeSourceAccessors<'s>>, Fail>
    ensures { IfOk result (AllFit segment.now [] sources.now) }
{
    let mut accessors = ItemList::new(alloc);
    for source in sources {
        let built = CompositeSourceAccessors::build_for_source(alloc, segment, source, None)?;
        accessors.push(built)?;
    }
    Ok(accessors)
}

// A collector of so many sources, which hands documents on or doesn't.
fn new_collector<C: SubAggCache>(
    alloc: Global,
    num_sources: usize,
    hands_on: bool,
) -> Result<SegmentCompositeCollector<C>, OutOfMemory>
    requires some { 1 ≤ num_sources }
    requires few { num_sources ≤ max_sources }
    ensures empty { IfOk result (λ collector. (req : declared.CompositeAggReqData)
        → CompositeFor C.waiting req collector [] []) }
    ensures room { IfOk result (λ collector. num_sources ≤ collector.room) }
{
    if hands_on {
        return SegmentCompositeCollector::new(alloc, num_sources);
    }
    SegmentCompositeCollector::new_leaf(alloc, num_sources)
}

/// A collector for a composite, with two parents.
pub(crate) fn collector_for<C: SubAggCache>(
    rt: &(impl Abort + AllocGlobal),
    req: &CompositeAggReqData<'_>,
    hands_on: bool,
) -> Result<SegmentCompositeCollector<C>, Fail>
    ensures right { IfOk result (λ collector. IsRight C.waiting req.now collector) }
    ensures parents { IfOk result (λ collector. 1 < length collector.node.parents) }
    ensures room { IfOk result (λ collector. length req.now.req.now.sources ≤ collector.room) }
{
    let num_sources = req.req.sources.as_slice().len();
    assert!(rt; 1 <= num_sources && num_sources <= 16);
    let mut collector = new_collector(rt.alloc(), num_sources, hands_on)?;
    collector.prepare_max_bucket(1)?;
    Ok(collector)
}

// Collects documents under a parent, and charges a ledger of its own.
fn collect<C: SubAggCache, L: Ledger>(
    collector: &mut SegmentCompositeCollector<C>,
    parent: BucketId,
    docs: &[DocId],
    req: &CompositeAggReqData<'_>,
    steps: &mut Steps<L>,
) -> Result<(), Fail>
    requires right { IsRight C.waiting req.now collector.old }
    requires parent { parent < length collector.old.node.parents }
    requires fits { (segment : Stored) × (after : Named AfterKey) × Fits segment after req.now }
    requires room { length req.now.req.now.sources ≤ collector.old.room }
    ensures right { OnOk result (IsRight C.waiting req.now collector.new) }
    ensures parents { OnOk result
        (length collector.new.node.parents ≡ length collector.old.node.parents) }
    ensures room { OnOk result (collector.new.room ≡ collector.old.room) }
{
    let mut limits = LimitsLedger::new(None, None);
    let mut guard = limits.guard();
    collector.collect(parent, docs, req, &mut limits, &mut guard, steps)?;
    Ok(())
}

/// The number of an entry's key that is signed or a date.
pub(crate) fn number_of(entry: &PageEntry, index: usize) -> Option<i64> {
    match entry.key.as_slice().get(index) {
        Some(CompositeIntermediateKey::I64(number)) => Some(*number),
        Some(CompositeIntermediateKey::DateTime(nanoseconds)) => Some(*nanoseconds),
        _ => None,
    }
}

// What the entries of a parent's page say.
fn shown<C: SubAggCache>(
    alloc: Global,
    collector: &SegmentCompositeCollector<C>,
    parent: BucketId,
    req: &CompositeAggReqData<'_>,
) -> Result<Vec<Shown>, Fail>
    requires right { IsRight C.waiting req.now collector.now }
    requires fits { (segment : Stored) × (after : Named AfterKey) × Fits segment after req.now }
{
    let page = collector.page(parent, req)?;
    shown_of(alloc, page.as_slice())
}

// What entries say.
fn shown_of(alloc: Global, entries: &[PageEntry]) -> Result<Vec<Shown>, Fail> {
    let mut shown = Vec::new(alloc);
    for entry in entries {
        let (first, second) = (number_of(entry, 0), number_of(entry, 1));
        shown.push((first, second, entry.doc_count, entry.bucket_id))?;
    }
    Ok(shown)
}

// The documents that are handed on, with the ids of their buckets.
fn taken<C: SubAggCache>(
    alloc: Global,
    collector: &mut SegmentCompositeCollector<C>,
) -> Result<Vec<(BucketId, DocId)>, Fail> {
    let batches = collector.take()?;
    docs_of(alloc, batches.as_slice())
}

// The documents of batches, with the ids of their buckets.
fn docs_of(alloc: Global, batches: &[Batch]) -> Result<Vec<(BucketId, DocId)>, Fail> {
    let mut taken = Vec::new(alloc);
    for batch in batches {
        for doc in batch.docs.as_slice() {
            taken.push((batch.bucket_id, *doc))?;
        }
    }
    Ok(taken)
}

// A composite with what its collector shows of the parents 1 and 0.
struct Pages {
    fields: &'static [&'static str],
    first: &'static [Shown],
    second: &'static [Shown],
    taken: &'static [(BucketId, DocId)],
}

const PAGES: &[Pages] = &[
    Pages {
        fields: &["a"],
        first: &[(Some(5), None, 2, 0), (Some(6), None, 1, 3)],
        second: &[(Some(6), None, 1, 2)],
        taken: &[(0, 0), (0, 4), (1, 1), (2, 2), (3, 2)],
    },
    Pages {
        fields: &["a", "b"],
        first: &[(Some(5), Some(0), 1, 2), (Some(5), Some(1), 1, 0)],
        second: &[],
        taken: &[(0, 0), (1, 1), (2, 4)],
    },
];

// A collector takes documents under both parents.
fn collect_all<C: SubAggCache, L: Ledger>(
    collector: &mut SegmentCompositeCollector<C>,
    req: &CompositeAggReqData<'_>,
    steps: &mut Steps<L>,
) -> Result<(), Fail>
    requires right { IsRight C.waiting req.now collector.old }
    requires parents { 1 < length collector.old.node.parents }
    requires fits { (segment : Stored) × (after : Named AfterKey) × Fits segment after req.now }
    requires room { length req.now.req.now.sources ≤ collector.old.room }
    ensures right { OnOk result (IsRight C.waiting req.now collector.new) }
{
    collect(collector, 1, &[0, 1], req, steps)?;
    collect(collector, 0, &[2], req, steps)?;
    collect(collector, 1, &[2, 3, 4, 5], req, steps)
}

// A collector shows these entries of a parent.
fn expect_page<C: SubAggCache>(
    alloc: Global,
    collector: &SegmentCompositeCollector<C>,
    parent: BucketId,
    req: &CompositeAggReqData<'_>,
    expected: &[Shown],
) -> Result<(), Fail>
    requires right { IsRight C.waiting req.now collector.now }
    requires fits { (segment : Stored) × (after : Named AfterKey) × Fits segment after req.now }
{
    let shown = shown(alloc, collector, parent, req)?;
    expect_equal_for(parent, shown.as_slice(), expected)
}

// A collector that has taken its documents shows these pages, and none of the parent 2.
fn expect_shown<C: SubAggCache, L: Ledger>(
    rt: &(impl Abort + AllocGlobal),
    pages: &Pages,
    collector: &mut SegmentCompositeCollector<C>,
    req: &CompositeAggReqData<'_>,
    steps: &mut Steps<L>,
) -> Result<(), Fail>
    requires right { IsRight C.waiting req.now collector.old }
    requires parents { 1 < length collector.old.node.parents }
    requires fits { (segment : Stored) × (after : Named AfterKey) × Fits segment after req.now }
    requires room { length req.now.req.now.sources ≤ collector.old.room }
{
    collect_all(collector, req, steps)?;
    expect_page(rt.alloc(), collector, 1, req, pages.first)?;
    expect_page(rt.alloc(), collector, 0, req, pages.second)?;
    expect_page(rt.alloc(), collector, 2, req, &[])
}

// A collector hands these documents on.
fn expect_taken<C: SubAggCache>(
    alloc: Global,
    collector: &mut SegmentCompositeCollector<C>,
    expected: &[(BucketId, DocId)],
) -> Result<(), Fail> {
    let taken = taken(alloc, collector)?;
    expect_equal(taken.as_slice(), expected)
}

// A collector shows these pages, and hands their documents on, if it hands any on.
fn expect_shown_and_taken<C: SubAggCache, L: Ledger>(
    rt: &(impl Abort + AllocGlobal),
    case: (&Pages, bool),
    collector: &mut SegmentCompositeCollector<C>,
    req: &CompositeAggReqData<'_>,
    steps: &mut Steps<L>,
) -> Result<(), Fail>
    requires right { IsRight C.waiting req.now collector.old }
    requires parents { 1 < length collector.old.node.parents }
    requires fits { (segment : Stored) × (after : Named AfterKey) × Fits segment after req.now }
    requires room { length req.now.req.now.sources ≤ collector.old.room }
{
    let (pages, hands_on) = case;
    expect_shown(rt, pages, collector, req, steps)?;
    let taken = if hands_on { pages.taken } else { &[] };
    expect_taken(rt.alloc(), collector, taken)
}

// A new collector shows these pages, and hands their documents on, if it hands any on.
fn expect_pages_of<C: SubAggCache, L: Ledger>(
    rt: &(impl Abort + AllocGlobal),
    case: (&Pages, bool),
    req: &CompositeAggReqData<'_>,
    steps: &mut Steps<L>,
) -> Result<(), Fail>
    requires fits { (segment : Stored) × (after : Named AfterKey) × Fits segment after req.now }
{
    let mut collector: SegmentCompositeCollector<C> = collector_for(rt, req, case.1)?;
    expect_shown_and_taken(rt, case, &mut collector, req, steps)
}

// The collector of a composite shows these pages, and hands their documents on, if any.
fn expect_pages<C: SubAggCache, L: Ledger>(
    rt: &(impl Abort + AllocGlobal),
    segment: &SegmentReader,
    composite: &CompositeAggregation,
    case: (&Pages, bool),
    blank: Blank,
) -> Result<(), Fail>
    requires name { blank.name ≡ L.name }
    requires parts { blank.parts ≡ L.parts }
    requires shared { 0 < L.parts }
{
    let mut steps: Steps<L> = Steps::new(blank);
    let req = request_in(rt.alloc(), segment, composite)?;
    expect_pages_of::<C, L>(rt, case, &req, &mut steps)
}

/// A composite of so many buckets over terms of these fields.
pub(crate) fn composite_over(
    alloc: Global,
    fields: &[&'static str],
    size: u32,
) -> Result<CompositeAggregation, Fail> {
    let mut sources = Vec::new(alloc);
    for field in fields {
        sources.push(GivenSource::of(field, Kind::Terms, false))?;
    }
    Ok(composite_of(alloc, sources.as_slice(), size)?)
}

// Composites over a case's fields show these pages, with a count of steps of their own.
fn expect_counted(
    rt: &(impl Abort + AllocGlobal),
    segment: &SegmentReader,
    case: (&Pages, bool),
) -> Result<(), Fail> {
    let composite = composite_over(rt.alloc(), case.0.fields, 2)?;
    expect_pages::<LowCardSubAggCache, Brand>(rt, segment, &composite, case, Blank::new(1))
}

// Collectors show each of the pages, whether they hand documents on or not.
fn expect_each(rt: &(impl Abort + AllocGlobal), segment: &SegmentReader) -> Result<(), Fail> {
    for pages in PAGES {
        for hands_on in [true, false] {
            expect_counted(rt, segment, (pages, hands_on))?;
        }
    }
    Ok(())
}

#[test]
fn keeps_the_lowest_of_each_parent(rt: HostRuntime) -> Result<(), Fail> {
    let segment = segment_of(rt.alloc(), DOCUMENTS)?;
    expect_each(&rt, &segment)
}

#[test]
fn there_may_be_no_entries(rt: HostRuntime) -> Result<(), Fail> {
    expect_equal(PageEntries::none(rt.alloc()).len(), 0)
}
