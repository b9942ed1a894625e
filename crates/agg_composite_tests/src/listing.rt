//! Tests of the entries of documents whose tuples are listed.
ghost use Rattle.std.specs.Prelude.{◌≡◌, ◌<◌, All};
ghost use Rattle.std.specs.Map.{keys_of};
ghost use Rattle.agg_values.specs.Names.{Named};
ghost use Rattle.agg_values.specs.declared.after_key.AfterKey.{AfterKey};
ghost use Rattle.agg_segment.specs.Segment.{Stored};
ghost use Rattle.agg_composite.specs.accessor.Accessors.{Fits};
ghost use Rattle.agg_composite.specs.accessor.Decoded.{IsEncoded};

use crate::collector::{DOCUMENTS, composite_over, number_of, request_in};
use agg_composite::{CompositeAggReqData, PageEntries, PageEntry, list_entries};
use agg_expect::expect_equal;
use agg_low_tests::segment::given::segment_of;
use agg_request_tree::CompositeAggregation;
use agg_segment::SegmentReader;
use agg_values::{DocId, Steps};
use std::alloc::Global;
use std::marker::Brand;
use std::process::Abort;
use std::sync::ledger::{Blank, Ledger};
use std::test::Fail;

/// An entry of one key that is signed or a date: its number, and how many documents it has.
pub(crate) type Shown = (Option<i64>, u64);

const ALL: &[DocId] = &[0, 1, 2, 3, 4, 5];

// Terms of a field, how many entries a page has, and these.
const LISTED: &[(&str, u32, &[Shown])] = &[
    ("a", 2, &[(Some(5), 2), (Some(6), 1)]),
    ("a", 6, &[(Some(5), 2), (Some(6), 1), (Some(7), 2)]),
    ("b", 1, &[(Some(0), 1)]),
    ("c", 6, &[]),
];

// What an entry says.
fn shown_entry(entry: PageEntry) -> Shown {
    (number_of(&entry, 0), entry.doc_count)
}

// What the entries that are left say.
fn shown(
    alloc: Global,
    entries: &mut PageEntries,
    req: &CompositeAggReqData<'_>,
) -> Result<Vec<Shown>, Fail>
    requires { All (IsEncoded req.now) (keys_of entries.old) }
{
    let mut shown = Vec::new(alloc);
    while let Some(entry) = entries.next_entry(alloc, req)? {
        shown.push(shown_entry(entry))?;
    }
    Ok(shown)
}

// Entries say this.
fn expect_entries(
    alloc: Global,
    entries: &mut PageEntries,
    req: &CompositeAggReqData<'_>,
    expected: &[Shown],
) -> Result<(), Fail>
    requires { All (IsEncoded req.now) (keys_of entries.old) }
{
    let shown = shown(alloc, entries, req)?;
    expect_equal(shown.as_slice(), expected)
}

// The entries of these documents say this.
fn expect_shown<L: Ledger>(
    rt: &(impl Abort + AllocGlobal),
    req: &CompositeAggReqData<'_>,
    docs: &[DocId],
    expected: &[Shown],
    blank: Blank,
) -> Result<(), Fail>
    requires fits { (segment : Stored) × (after : Named AfterKey) × Fits segment after req.now }
    requires name { blank.name ≡ L.name }
    requires parts { blank.parts ≡ L.parts }
    requires shared { 0 < L.parts }
{
    let mut steps: Steps<L> = Steps::new(blank);
    assert!(rt; req.req.sources.as_slice().len() == 1 && req.are_starts_in_range(docs));
    let mut entries = list_entries(rt.alloc(), docs, req, &mut steps)?;
    expect_entries(rt.alloc(), &mut entries, req, expected)
}

// The entries of all documents say this, with a count of steps of their own.
fn expect_listed(
    rt: &(impl Abort + AllocGlobal),
    req: &CompositeAggReqData<'_>,
    docs: &[DocId],
    expected: &[Shown],
) -> Result<(), Fail>
    requires { (segment : Stored) × (after : Named AfterKey) × Fits segment after req.now }
{
    expect_shown::<Brand>(rt, req, docs, expected, Blank::new(1))
}

/// The entries of documents whose tuples are listed for a composite say this.
pub(crate) fn expect_composite(
    rt: &(impl Abort + AllocGlobal),
    segment: &SegmentReader,
    composite: &CompositeAggregation,
    docs: &[DocId],
    expected: &[Shown],
) -> Result<(), Fail> {
    let req = request_in(rt.alloc(), segment, composite)?;
    expect_listed(rt, &req, docs, expected)
}

// The entries of terms of a field say this, with so many on a page.
fn expect_terms(
    rt: &(impl Abort + AllocGlobal),
    segment: &SegmentReader,
    field: &'static str,
    size: u32,
    expected: &[Shown],
) -> Result<(), Fail> {
    let composite = composite_over(rt.alloc(), &[field], size)?;
    expect_composite(rt, segment, &composite, ALL, expected)
}

// A segment lists the entries of the table.
fn expect_table(rt: &(impl Abort + AllocGlobal), segment: &SegmentReader) -> Result<(), Fail> {
    for &(field, size, expected) in LISTED {
        expect_terms(rt, segment, field, size, expected)?;
    }
    Ok(())
}

#[test]
fn lists_the_lowest(rt: HostRuntime) -> Result<(), Fail> {
    let segment = segment_of(rt.alloc(), DOCUMENTS)?;
    expect_table(&rt, &segment)
}
