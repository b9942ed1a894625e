//! Snapshots of the documents that are drawn.
ghost use Rattle.std.specs.Prelude.{◌≡◌, IfOk, map, replicate};
ghost use Rattle.std.specs.List.{range_with_len};
ghost use Rattle.agg_segment.specs.Segment.{documents_of};
ghost use Rattle.agg_segment.specs.Snapshot.{snapshot_documents, snapshots_documents};
ghost use Rattle.agg_pages.specs.generator.Documents.{generated_segment, generated_snapshot};

use crate::generator::documents::next_segment;
use crate::generator::draws::Generator;
use agg_segment::{SegmentReader, Snapshot};
use agg_values::{ItemList, OutOfMemory};
use std::alloc::Global;

const SNAPSHOTS: u32 = 12;

const SEGMENTS: u32 = 4;

const DOCUMENTS_OF_A_SEGMENT: u32 = 1_024;

const PAGE_SIZE: u32 = 100;

/// Twelve snapshots of the same documents.
pub(crate) fn generated_snapshots(
    alloc: Global,
    seed: u64,
) -> Result<ItemList<Snapshot>, OutOfMemory>
    ensures { IfOk result (λ snapshots. snapshots_documents snapshots
        ≡ replicate 12 (generated_snapshot seed)) }
{
    let mut snapshots = ItemList::new(alloc);
    for _ in 0..SNAPSHOTS {
        snapshots.push(generated_snapshot(alloc, seed)?)?;
    }
    Ok(snapshots)
}

// A snapshot of all documents.
fn generated_snapshot(alloc: Global, seed: u64) -> Result<Snapshot, OutOfMemory>
    ensures { IfOk result
        (λ snapshot. snapshot_documents snapshot ≡ generated_snapshot seed) }
{
    Ok(Snapshot {
        segments: generated_segments(alloc, seed)?,
        page_size: PAGE_SIZE,
    })
}

// Four segments of 1,024 documents each.
fn generated_segments(alloc: Global, seed: u64) -> Result<ItemList<SegmentReader>, OutOfMemory>
    ensures { IfOk result (λ segments. map documents_of segments
        ≡ map (generated_segment seed) (range_with_len 0 4)) }
{
    let mut generator = Generator::new(seed);
    let mut segments = ItemList::new(alloc);
    for _ in 0..SEGMENTS {
        let segment = next_segment(alloc, &mut generator, DOCUMENTS_OF_A_SEGMENT)?;
        segments.push(segment)?;
    }
    Ok(segments)
}
