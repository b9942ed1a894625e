//! The mark of its byte order with which a text may begin.
ghost use Rattle.std.specs.Prelude.{◌≡◌};
ghost use Rattle.csv.specs.Reading.{strip_bom};

/// The text without the byte order mark that it may begin with.
pub fn without_mark(bytes: &[u8]) -> &[u8]
    ensures { result.now ≡ strip_bom bytes.now }
{
    bytes.strip_prefix(b"\xEF\xBB\xBF").unwrap_or(bytes)
}
