//! Why bytes gave no input.

ghost use Rattle.std.specs.Prelude.{◌≡◌, ◌↔◌};

use agg_request::json_values::ReadError;
use agg_segment::BuildError;
use agg_values::OutOfMemory;
use serde_json::Category;
use thiserror::Error;

/// Why bytes gave no input.
#[derive(Clone, Copy, Debug, PartialEq, Eq, Error)]
pub enum InputError {
    #[error("the bytes are no input")]
    NotInput,
    #[error("out of memory")]
    OutOfMemory,
}

impl From<OutOfMemory> for InputError {
    ghost use Rattle.agg_pages.specs.declared.document_json.input_error.InputError.TheVariants
        as error;

    ghost from_gives = { λ _ e. e ≡ error.OutOfMemory };

    fn from(_error: OutOfMemory) -> InputError {
        InputError::OutOfMemory
    }
}

impl From<serde_json::Error> for InputError {
    ghost use Rattle.serde_json.specs.Errors.{IsMemory};
    ghost use Rattle.agg_pages.specs.declared.document_json.input_error.InputError.TheVariants.{
      NotInput,
    };

    ghost from_gives = { λ error e. (e ≡ NotInput) ↔ (¬ (IsMemory error)) };

    fn from(error: serde_json::Error) -> InputError {
        match error.classify() {
            Category::Memory => InputError::OutOfMemory,
            _ => InputError::NotInput,
        }
    }
}

impl From<BuildError> for InputError {
    ghost use Rattle.std.specs.Prelude.{◌⊎◌};
    ghost use Rattle.agg_segment.specs.declared.builder.BuildError.TheVariants.{MixedNumbers};
    ghost use Rattle.agg_segment.specs.declared.builder.BuildError.TheVariants.{TooManyDocuments};
    ghost use Rattle.agg_pages.specs.declared.document_json.input_error.InputError.TheVariants.{
      NotInput,
    };

    ghost from_gives = { λ error e.
        (e ≡ NotInput) ↔ ((error ≡ TooManyDocuments) ⊎ (error ≡ MixedNumbers)) };

    fn from(error: BuildError) -> InputError {
        match error {
            BuildError::TooManyDocuments | BuildError::MixedNumbers => InputError::NotInput,
            BuildError::OutOfMemory => InputError::OutOfMemory,
        }
    }
}

impl From<ReadError> for InputError {
    ghost use Rattle.std.specs.Prelude.{◌⊎◌};
    ghost use Rattle.agg_request.specs.declared.json_values.read_error.ReadError.TheVariants.{
      Grammar,
    };
    ghost use Rattle.agg_request.specs.declared.json_values.read_error.ReadError.TheVariants.{
      Unsupported,
    };
    ghost use Rattle.agg_request.specs.declared.json_values.read_error.ReadError.TheVariants.{
      UnknownBuilder,
    };
    ghost use Rattle.agg_pages.specs.declared.document_json.input_error.InputError.TheVariants.{
      NotInput,
    };

    ghost from_gives = { λ error e. (e ≡ NotInput)
        ↔ ((error ≡ Unsupported) ⊎ ((error ≡ Grammar) ⊎ (error ≡ UnknownBuilder))) };

    fn from(error: ReadError) -> InputError {
        match error {
            ReadError::Unsupported | ReadError::Grammar | ReadError::UnknownBuilder => {
                InputError::NotInput
            }
            ReadError::OutOfMemory => InputError::OutOfMemory,
        }
    }
}
