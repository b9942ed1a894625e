use agg_values::{KeyTextError, OutOfMemory};
use thiserror::Error;

/// Why a request or a query wasn't read.
#[derive(Clone, Copy, Debug, PartialEq, Eq, Error)]
pub enum ReadError {
    /// A known thing that is left out stands in it.
    #[error("not supported")]
    Unsupported,
    /// The value is outside the grammar for another reason.
    #[error("not in the grammar")]
    Grammar,
    /// No unused builder of a name was handed in.
    #[error("no unused builder of this name")]
    UnknownBuilder,
    /// Memory was refused.
    #[error("out of memory")]
    OutOfMemory,
}

impl From<OutOfMemory> for ReadError {
    ghost use Rattle.std.specs.Prelude.{◌≡◌};
    ghost use Rattle.agg_request.specs.declared.json_values.read_error.ReadError.TheVariants
        as refusal;

    ghost from_gives = { λ _ error. error ≡ refusal.OutOfMemory };

    fn from(_error: OutOfMemory) -> ReadError {
        ReadError::OutOfMemory
    }
}

impl From<KeyTextError> for ReadError {
    ghost use Rattle.std.specs.Prelude.{◌≡◌};
    ghost use Rattle.agg_request.specs.json_values.Reading.{refusal_of};

    ghost from_gives = { λ error refusal. refusal ≡ refusal_of error };

    fn from(error: KeyTextError) -> ReadError {
        match error {
            KeyTextError::Unsupported => ReadError::Unsupported,
            KeyTextError::OutOfMemory => ReadError::OutOfMemory,
            KeyTextError::NoColon | KeyTextError::UnknownType | KeyTextError::BadValue => {
                ReadError::Grammar
            }
        }
    }
}
