//! Texts that begin as another encoding does.
ghost use Rattle.std.specs.Prelude.{◌≡◌, ◌↔◌, IfErr, IsErrOf, IsTrue, OnOk, false};
ghost use Rattle.peslumok_records.specs.held.Causes.{is_fault};
ghost use Rattle.peslumok_records.specs.records.Encodings.{begins_as_gzip, begins_as_utf16};

use crate::held::RecordCause;

/// Refuses UTF-16, told by its byte order mark, and gzip.
pub fn refuse_other_encodings(bytes: &[u8]) -> Result<(), RecordCause>
    ensures utf16 { IsErrOf result RecordCause.Utf16 ↔ IsTrue (begins_as_utf16 bytes.now) }
    ensures gzip { IsErrOf result RecordCause.Gzip ↔ IsTrue (begins_as_gzip bytes.now) }
    ensures ok { OnOk result
        ((begins_as_utf16 bytes.now ≡ false) × (begins_as_gzip bytes.now ≡ false)) }
    ensures no_fault { IfErr result (λ cause. is_fault cause ≡ false) }
{
    if bytes.starts_with(b"\xFF\xFE") || bytes.starts_with(b"\xFE\xFF") {
        return Err(RecordCause::Utf16);
    }
    if bytes.starts_with(b"\x1F\x8B") {
        return Err(RecordCause::Gzip);
    }
    Ok(())
}
