ghost use Rattle.std.specs.Prelude.{◌≡◌};
ghost use Rattle.agg_pages.specs.Status.{code_of, status_of_input, status_of_reading};
ghost use Rattle.agg_pages.specs.declared.status.Status.TheVariants.{OutOfMemory as NoMemory};

use crate::input_text::InputError;
use crate::source::ReadAllError;
use agg_values::OutOfMemory;

/// How a run of the program ended.
#[derive(Clone, Copy, Debug, PartialEq, Eq)]
pub enum Status {
    Ok,
    Refused,
    Usage,
    Input,
    ReadFault,
    WriteFault,
    OutOfMemory,
}

impl Status {
    /// The exit code of the program.
    pub fn code(&self) -> u8
        ensures { result ≡ code_of self.now }
    {
        match self {
            Status::Ok => 0,
            Status::Refused => 1,
            Status::Usage => 2,
            Status::Input => 3,
            Status::ReadFault => 4,
            Status::WriteFault => 5,
            Status::OutOfMemory => 6,
        }
    }
}

impl From<ReadAllError> for Status {
    ghost from_gives = { λ error status. status ≡ status_of_reading error };

    fn from(error: ReadAllError) -> Status {
        match error {
            ReadAllError::ReadFault => Status::ReadFault,
            ReadAllError::TooLong => Status::Input,
            ReadAllError::OutOfMemory => Status::OutOfMemory,
        }
    }
}

impl From<InputError> for Status {
    ghost from_gives = { λ error status. status ≡ status_of_input error };

    fn from(error: InputError) -> Status {
        match error {
            InputError::NotInput => Status::Input,
            InputError::OutOfMemory => Status::OutOfMemory,
        }
    }
}

impl From<OutOfMemory> for Status {
    ghost from_gives = { λ _ status. status ≡ NoMemory };

    fn from(_error: OutOfMemory) -> Status {
        Status::OutOfMemory
    }
}
