//! How the records of a file are written.
ghost use Rattle.std.specs.Prelude.{◌≡◌, find, not, option_copied};
ghost use Rattle.std.specs.Char.{is_ascii_whitespace};
ghost use Rattle.csv.specs.Reading.{strip_bom};
ghost use Rattle.peslumok_records.specs.record_index.Format as spec;

use peslumok_texts::formats::RecordFormat;
use std::path::Path;

/// The format of a file: by the end of its name, or else by its first byte that isn't blank.
pub fn format_of(name: &str, bytes: &[u8]) -> RecordFormat
    ensures { result ≡ spec.format_told name.now bytes.now }
{
    match format_of_name(name) {
        Some(format) => format,
        None => format_of_bytes(bytes),
    }
}

// The format that the end of a name tells.
fn format_of_name(name: &str) -> Option<RecordFormat>
    ensures { result ≡ spec.format_of_name name.now }
{
    format_of_extension(Path::new(name).extension()?)
}

// The format that a file's extension tells.
#[tactic(auto, using(crate::proofs::lemmas::record_index::Words::other), unfolding(crate::specs::record_index::Format::format_of_end))]
fn format_of_extension(extension: &str) -> Option<RecordFormat>
    ensures { result ≡ spec.format_of_end extension.now }
{
    match extension {
        "jsonl" | "ndjson" => Some(RecordFormat::JsonLines),
        "json" => Some(RecordFormat::Json),
        "csv" => Some(RecordFormat::Csv),
        "tsv" | "tab" => Some(RecordFormat::Tsv),
        _ => None,
    }
}

// The format that the first byte tells: a brace begins an object, a bracket an array of them, and
// all else a header.
fn format_of_bytes(bytes: &[u8]) -> RecordFormat
    ensures { result ≡ spec.format_of_first (spec.first_shown bytes.now) }
{
    match first_shown(without_mark(bytes)) {
        Some(b'{') => RecordFormat::JsonLines,
        Some(b'[') => RecordFormat::Json,
        _ => RecordFormat::Csv,
    }
}

// The first byte that isn't blank.
fn first_shown(bytes: &[u8]) -> Option<u8>
    ensures { result ≡ find (λ b. not (is_ascii_whitespace b)) bytes.now }
{
    bytes
        .iter()
        .copied()
        .find(|byte| !byte.is_ascii_whitespace())
}

// The text without the byte order mark that it may begin with.
fn without_mark(bytes: &[u8]) -> &[u8]
    ensures { result.now ≡ strip_bom bytes.now }
{
    bytes.strip_prefix(b"\xEF\xBB\xBF").unwrap_or(bytes)
}
