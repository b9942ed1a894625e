//! A line on which a snapshot or a segment begins.
ghost use Rattle.std.specs.Prelude.{◌≡◌, ◌↔◌, IsTrue};
ghost use Rattle.agg_pages.specs.input_text.SnapshotLines.{begun_size, is_snapshot_line};
ghost use Rattle.agg_pages.specs.input_text.SnapshotLines.{page_size_of, segment_line};

const SNAPSHOT: &str = "snapshot ";

const SEGMENT: &str = "segment";

/// Whether a line is one of a snapshot.
pub fn is_snapshot_line(line: &str) -> bool
    ensures { result ≡ is_snapshot_line line.now }
{
    line.starts_with(SNAPSHOT)
}

/// Whether a segment begins on a line.
pub fn is_segment_line(line: &str) -> bool
    ensures { IsTrue result ↔ (line.now ≡ segment_line) }
{
    line == SEGMENT
}

/// The page size of the snapshot that begins on a line.
pub fn begun_size(line: &str) -> Option<u32>
    ensures { result ≡ begun_size line.now }
{
    page_size(line.strip_prefix(SNAPSHOT)?)
}

// Digits alone, where a parse would also take a sign.
fn page_size(digits: &str) -> Option<u32>
    ensures { result ≡ page_size_of digits.now }
{
    if digits.starts_with('+') {
        return None;
    }
    digits.parse().ok()
}
