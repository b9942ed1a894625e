//! Why a run ends before its answer is written.
use crate::messages::complain;
use agg_values::{OutOfMemory, Text};
use peslumok_front::front::Failure;
use peslumok_front::grouping::GroupingError;
use std::process::ExitCode;

/// Why a run ends before its answer is written.
#[derive(Drop)]
pub enum Stop {
    Failed(Failure),
    /// The reader of the output is gone, and needs no message.
    Closed,
    /// What this input of `walk` asks is refused, for this reason.
    Refused { file: Text, why: Text },
    /// This file is no input of `walk`.
    NoInput(Text),
    /// The header of `walk` has no place for `--top`.
    TopInRequest,
    /// No header says a request.
    NoHeader,
}

impl Stop {
    /// Tells on standard error why the run ends, unless the reader is gone, and answers the exit
    /// code.
    pub fn tell(&self, rt: &impl Eprint) -> ExitCode {
        match self {
            Stop::Failed(failure) => complain(rt, failure.code(), failure),
            Stop::Closed => ExitCode::from(5),
            Stop::Refused { file, why } => {
                let _written = eprintln!(rt; "{}: {}", file.as_str(), why.as_str());
                ExitCode::from(1)
            }
            Stop::NoInput(file) => {
                let _written = eprintln!(rt;
                    "{}: no input of walk; 'peslumok check' tells what is wrong",
                    file.as_str()
                );
                ExitCode::from(3)
            }
            Stop::TopInRequest => complain(
                rt,
                2,
                &"error: '--top <N>' has no place in the header of a request",
            ),
            Stop::NoHeader => complain(rt, 1, &"peslumok: no header says this request"),
        }
    }
}

impl From<Failure> for Stop {
    fn from(failure: Failure) -> Stop {
        Stop::Failed(failure)
    }
}

impl From<GroupingError> for Stop {
    fn from(error: GroupingError) -> Stop {
        Stop::Failed(Failure::from(error))
    }
}

impl From<OutOfMemory> for Stop {
    fn from(_error: OutOfMemory) -> Stop {
        Stop::Failed(Failure::OutOfMemory)
    }
}
