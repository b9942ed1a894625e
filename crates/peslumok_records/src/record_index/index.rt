//! The records of all files, kept for as many pages as are asked for.
ghost use Rattle.std.specs.Prelude.{◌≡◌, IfOk, flat_map};
ghost use Rattle.std.specs.List.{range_with_len};
ghost use Rattle.peslumok_records.specs.held.Held.{held_documents};
ghost use Rattle.agg_segment.specs.Segment.{documents_of};
ghost use Rattle.agg_segment.specs.Snapshot.{snapshots_documents};
ghost use Rattle.peslumok_records.specs.record_index.Index.{AreOneOf, has_keys, is_seen};
ghost use Rattle.peslumok_records.specs.record_index.Index.{unseen_names};

use crate::held::{AskedFields, Records};
use crate::record_index::report::Report;
use agg_segment::{Column, SegmentReader, Snapshot};
use agg_values::{ItemList, OutOfMemory, Text};
use std::alloc::Global;

/// The records of files, kept for as many pages as are asked for.
#[derive(Drop)]
pub struct Index {
    /// The one snapshot.
    pub snapshots: ItemList<Snapshot>,
    /// The asked fields that have a value in no record.
    pub unseen: Vec<Text>,
    names: Vec<Text>,
}

impl Index {
    /// The one snapshot of records, whose pages have room for so many groups.
    pub fn of(
        alloc: Global,
        records: Records,
        asked: &AskedFields,
        page_size: u32,
    ) -> Result<Index, OutOfMemory>
        ensures snapshots { IfOk result (λ index.
            AreOneOf (held_documents records) page_size (snapshots_documents index.snapshots)) }
        ensures unseen { IfOk result (λ index.
            index.unseen.items ≡ unseen_names (held_documents records) asked.now) }
    {
        let names = copies_of(alloc, records.names())?;
        let segments = records.into_segments()?;
        let unseen = unseen_of(alloc, asked, segments.as_slice())?;
        let mut snapshots = ItemList::new(alloc);
        snapshots.push(Snapshot {
            segments: ItemList::from_vec(segments),
            page_size,
        })?;
        Ok(Index {
            snapshots,
            unseen,
            names,
        })
    }

    /// The one snapshot.
    pub fn snapshots(&self) -> &ItemList<Snapshot>
        ensures { result.now ≡ self.now.snapshots }
    {
        &self.snapshots
    }

    /// What there is to tell, with the key after which the next page begins.
    pub fn into_report(self, next: Option<Text>) -> Report
        ensures unseen { result.unseen ≡ self.unseen }
        ensures next { result.next ≡ next }
    {
        let Index { unseen, names, .. } = self;
        Report {
            unseen,
            names,
            next,
        }
    }
}

fn copies_of(alloc: Global, names: &[Text]) -> Result<Vec<Text>, OutOfMemory> {
    let mut copies = Vec::new(alloc);
    for name in names {
        copies.push(name.try_clone(alloc)?)?;
    }
    Ok(copies)
}

// The names of the asked fields that have a value in no record.
fn unseen_of(
    alloc: Global,
    asked: &AskedFields,
    segments: &[SegmentReader],
) -> Result<Vec<Text>, OutOfMemory>
    ensures { IfOk result (λ unseen.
        unseen.items ≡ unseen_names (flat_map documents_of segments.now) asked.now) }
{
    let mut unseen = Vec::new(alloc);
    for field in asked.as_slice() {
        if !is_seen(segments, &field.name) {
            unseen.push(field.name.try_clone(alloc)?)?;
        }
    }
    Ok(unseen)
}

// Whether a field has a value in some record.
fn is_seen(segments: &[SegmentReader], field: &Text) -> bool
    ensures { result ≡ is_seen (flat_map documents_of segments.now) field.now }
{
    for segment in segments {
        if has_values(segment, field) {
            return true;
        }
    }
    false
}

// Whether a field has a value in some document of a segment.
fn has_values(segment: &SegmentReader, field: &Text) -> bool
    ensures { result ≡ is_seen (documents_of segment.now) field.now }
{
    let count = segment.num_docs();
    for column in segment.columns(field) {
        if has_keys(column, count) {
            return true;
        }
    }
    false
}

// Whether a column has a value of one of so many documents.
fn has_keys(column: &Column, count: u32) -> bool
    ensures { result ≡ has_keys column.now (range_with_len 0 count) }
{
    for doc in 0..count {
        if !column.values_for_doc(doc).is_empty() {
            return true;
        }
    }
    false
}
