//! Snapshots, from their lines.
ghost use Rattle.std.specs.Prelude.{◌≡◌, ◌≢◌, ◌∷◌, ◌++◌, [], List, Err, IfOk, OnOk, IsErrOf};
ghost use Rattle.std.specs.Prelude.{map};
ghost use Rattle.agg_segment.specs.Segment.{documents_of, gathered_documents};
ghost use Rattle.agg_segment.specs.Snapshot.{snapshot_documents};
ghost use Rattle.agg_segment.specs.SnapshotDocuments.{SnapshotDocuments};
ghost use Rattle.agg_segment.specs.Snapshot.{snapshots_documents};
ghost use Rattle.agg_values.specs.Nothing.{NoneIs};
ghost use Rattle.agg_pages.specs.input_text.SnapshotLines.{AreSnapshots, begins};
ghost use Rattle.agg_pages.specs.input_text.Snapshots.{AreFit, CannotFollow, TakesLine, begun};
ghost use Rattle.agg_pages.specs.input_text.Snapshots.{made_by, last_segment, open_of};
ghost use Rattle.agg_pages.specs.input_text.Snapshots.{snapshots_made, whole_snapshot, with_line};
ghost use Rattle.agg_pages.specs.input_text.Snapshots.{with_segment};

use crate::document_json::{InputError, LineRoom, read_document};
use crate::input_text::line::{begun_size, is_segment_line, is_snapshot_line};
use crate::input_text::lines::Lines;
use agg_segment::{SegmentBuilder, SegmentReader, Snapshot};
use agg_values::ItemList;
use std::alloc::Global;
use std::mem;

/// The snapshots that lines stand for.
pub fn read_snapshots(alloc: Global, lines: Lines<'_>) -> Result<ItemList<Snapshot>, InputError>
    ensures ok { IfOk result
        (λ snapshots. AreSnapshots lines.entry (snapshots_documents snapshots)) }
    ensures not_input { IsErrOf result InputError.NotInput
        → NoneIs (AreSnapshots lines.entry) }
{
    let mut lines = lines;
    match lines.next() {
        Some(first) => read_from(alloc, first, lines),
        None => Ok(ItemList::new(alloc)),
    }
}

// The snapshots from the first line on, on which one has to begin.
fn read_from(alloc: Global, first: &str, lines: Lines<'_>) -> Result<ItemList<Snapshot>, InputError>
    ensures ok { IfOk result
        (λ snapshots. AreSnapshots (first.now ∷ lines.entry) (snapshots_documents snapshots)) }
    ensures not_input { IsErrOf result InputError.NotInput
        → NoneIs (AreSnapshots (first.now ∷ lines.entry)) }
{
    let page_size = begun_size(first).ok_or(InputError::NotInput)?;
    let mut builder = SnapshotsBuilder::new(alloc, page_size);
    for line in lines {
        builder.add_line(line)?;
    }
    builder.finish()
}

/// A snapshot in the making.
#[derive(Drop)]
pub struct OpenSnapshot {
    pub page_size: u32,
    /// The closed segments.
    pub segments: ItemList<SegmentReader>,
    /// The documents after them.
    pub documents: SegmentBuilder,
    /// Whether a line opened a segment for these documents. Else they are one where there are some.
    pub opened: bool,
}

impl OpenSnapshot {
    // A snapshot with no segment.
    fn new(alloc: Global, page_size: u32) -> OpenSnapshot
        ensures { open_of result ≡ begun page_size }
    {
        OpenSnapshot {
            page_size,
            segments: ItemList::new(alloc),
            documents: SegmentBuilder::new(alloc),
            opened: false,
        }
    }

    // Opens a segment, which closes the one before, if there is one.
    fn open_segment(&mut self, alloc: Global) -> Result<(), InputError>
        ensures ok { OnOk result (open_of self.new ≡ with_segment (open_of self.old)) }
        ensures memory { result ≢ Err InputError.NotInput }
    {
        let documents = mem::replace(&mut self.documents, SegmentBuilder::new(alloc));
        push_segment(&mut self.segments, documents, self.opened)?;
        self.opened = true;
        Ok(())
    }

    // The snapshot of these segments.
    fn close(self) -> Result<Snapshot, InputError>
        ensures ok { IfOk result (λ s. snapshot_documents s ≡ whole_snapshot (open_of self)) }
        ensures memory { result ≢ Err InputError.NotInput }
    {
        let OpenSnapshot {
            page_size,
            mut segments,
            documents,
            opened,
        } = self;
        push_segment(&mut segments, documents, opened)?;
        Ok(Snapshot {
            segments,
            page_size,
        })
    }
}

// Appends the segment of documents. One that no line opened has some.
fn push_segment(
    segments: &mut ItemList<SegmentReader>,
    documents: SegmentBuilder,
    opened: bool,
) -> Result<(), InputError>
    ensures ok { OnOk result (map documents_of segments.new
        ≡ map documents_of segments.old ++ last_segment opened (gathered_documents documents)) }
    ensures memory { result ≢ Err InputError.NotInput }
{
    let segment = documents.build()?;
    if opened || segment.num_docs() > 0 {
        segments.push(segment)?;
    }
    Ok(())
}

/// The snapshots of the lines so far. The last one is open for more segments and documents.
#[derive(Drop)]
pub struct SnapshotsBuilder {
    alloc: Global,
    pub closed: ItemList<Snapshot>,
    pub current: OpenSnapshot,
    room: LineRoom,
}

impl SnapshotsBuilder {
    // The builder at the first snapshot.
    fn new(alloc: Global, page_size: u32) -> SnapshotsBuilder
        ensures closed { result.closed ≡ [] }
        ensures current { open_of result.current ≡ begun page_size }
    {
        SnapshotsBuilder {
            alloc,
            closed: ItemList::new(alloc),
            current: OpenSnapshot::new(alloc, page_size),
            room: LineRoom::new(alloc),
        }
    }

    // Takes the next line.
    fn add_line(&mut self, line: &str) -> Result<(), InputError>
        requires { AreFit (made_by self.old) }
        ensures ok { OnOk result (TakesLine line.now self.old self.new) }
        ensures not_input { IsErrOf result InputError.NotInput → CannotFollow line.now self.old }
    {
        if is_snapshot_line(line) {
            let page_size = begun_size(line).ok_or(InputError::NotInput)?;
            return self.begin(page_size);
        }
        if is_segment_line(line) {
            return self.current.open_segment(self.alloc);
        }
        read_document(
            self.alloc,
            &mut self.current.documents,
            line,
            &mut self.room,
        )
    }

    // Begins a snapshot, which closes the one before.
    fn begin(&mut self, page_size: u32) -> Result<(), InputError>
        ensures ok { OnOk result
            (made_by self.new ≡ with_line (begins page_size) (made_by self.old)) }
        ensures memory { result ≢ Err InputError.NotInput }
    {
        let next = OpenSnapshot::new(self.alloc, page_size);
        let done = mem::replace(&mut self.current, next);
        self.closed.push(done.close()?)?;
        Ok(())
    }

    // The snapshots, where no line follows.
    fn finish(self) -> Result<ItemList<Snapshot>, InputError>
        ensures ok { IfOk result
            (λ snapshots. snapshots_documents snapshots ≡ snapshots_made (made_by self)) }
        ensures memory { result ≢ Err InputError.NotInput }
    {
        let SnapshotsBuilder {
            mut closed,
            current,
            ..
        } = self;
        closed.push(current.close()?)?;
        Ok(closed)
    }
}
