ghost use Rattle.std.specs.Prelude.{◌≡◌, ◌≤◌, ◌<◌, ◌+◌, ℕ, List, Some, IfOk, IsErrOf, length, drop};
ghost use Rattle.agg_streams.specs.Causes.{Rose};
ghost use Rattle.agg_pages.specs.Reading.{GivesAll, TakesAtMost};

use super::Source;
use crate::input_text::MAX_INPUT_BYTES;
use agg_streams::Failed;
use std::alloc::{AllocError, Global};

// How many bytes one read asks for at most.
const CHUNK_BYTES: usize = 65_536;

/// Why not all bytes of a source were read.
#[derive(Clone, Copy, Debug, PartialEq, Eq)]
pub enum ReadAllError {
    ReadFault,
    /// There are more bytes than an input has.
    TooLong,
    OutOfMemory,
}

impl From<Failed> for ReadAllError {
    ghost use Rattle.agg_pages.specs.declared.source.reading.ReadAllError.TheVariants as error;

    ghost from_gives = { λ _ e. e ≡ error.ReadFault };

    fn from(_failed: Failed) -> ReadAllError {
        ReadAllError::ReadFault
    }
}

impl From<AllocError> for ReadAllError {
    ghost use Rattle.agg_pages.specs.declared.source.reading.ReadAllError.TheVariants as error;

    ghost from_gives = { λ _ e. e ≡ error.OutOfMemory };

    fn from(_error: AllocError) -> ReadAllError {
        ReadAllError::OutOfMemory
    }
}

/// All bytes that a source has left. It reads one past the limit at most.
pub fn read_all<R: Source>(alloc: Global, source: &mut R) -> Result<Vec<u8>, ReadAllError>
    ensures ok { IfOk result
        (λ bytes. GivesAll (R.left source.old) (R.left source.new) bytes.items) }
    ensures within { IfOk result (λ bytes. length bytes.items ≤ MAX_INPUT_BYTES) }
    ensures too_long { IsErrOf result ReadAllError.TooLong
        → (all : List ℕ) → R.left source.old ≡ Some all
        → (MAX_INPUT_BYTES < length all)
        × (R.left source.new ≡ Some (drop (MAX_INPUT_BYTES + 1) all)) }
    ensures fault { IsErrOf result ReadAllError.ReadFault
        → Rose (R.faults source.old) (R.faults source.new) }
    ensures later { R.faults source.old ≤ R.faults source.new }

    // Whatever the answer, no more than one byte past the limit is gone.
    ensures taken { TakesAtMost (MAX_INPUT_BYTES + 1) (R.left source.old) (R.left source.new) }
{
    let mut bytes = Vec::new(alloc);
    let mut chunk = [0; CHUNK_BYTES];
    loop {
        let room = MAX_INPUT_BYTES - bytes.len();
        let asked = CHUNK_BYTES.min(room + 1);
        let count = source.read(&mut chunk[..asked])?;
        if count == 0 {
            return Ok(bytes);
        }
        if count > room {
            return Err(ReadAllError::TooLong);
        }
        bytes.extend_from_slice(&chunk[..count])?;
    }
}
