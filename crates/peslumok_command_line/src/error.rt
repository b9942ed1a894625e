ghost use Rattle.std.specs.Prelude.{◌≡◌, false, OnOk, IfSome};
ghost use Rattle.std.specs.Fmt.{WritesOnOk};
ghost use Rattle.std.specs.Io.KnownBytes.{Appends};
ghost use Rattle.peslumok_command_line.specs.declared.error.CommandLineError.TheVariants.{
  OutOfMemory,
};
ghost use Rattle.peslumok_command_line.specs.Messages.{conflict_with, message_of};
ghost use Rattle.peslumok_command_line.specs.Mistakes.{IsHelp, is_own};

use clap::error::ErrorKind;
use peslumok_texts::words::{BySpecError, ConditionError, DateFieldError, DecimalFieldError};
use std::alloc::{AllocError, AllocFailed};
use std::{error, fmt, io};

/// Why the words ask nothing: help or the version was wanted, a word is wrong, or memory ran out.
#[derive(Debug, Drop)]
pub enum CommandLineError<'a> {
    /// Help, the version or a mistake, as clap prints it.
    Shown(clap::Error),
    /// No command is named.
    NoCommand,
    /// A text of `--by` is wrong.
    By(&'a str, BySpecError<'a>),
    /// More than 16 times `--by`.
    TooManyBy,
    /// `--top` beside `--after`.
    TopWithAfter,
    /// `--top` beside `--all`.
    TopWithAll,
    /// A text of `--where` is wrong.
    Where(&'a str, ConditionError),
    /// A text of `--date` is wrong.
    Date(&'a str, DateFieldError),
    /// A text of `--decimal` is wrong.
    Decimal(&'a str, DecimalFieldError),
    OutOfMemory,
}

impl CommandLineError<'_> {
    /// What the program exits with, unless memory ran out: 0 after help and the version, else 2.
    pub fn exit_code(&self) -> u8
        ensures shown { IsHelp self.now → result ≡ 0 }
        ensures mistake { ¬ IsHelp self.now → result ≡ 2 }
    {
        match self {
            CommandLineError::Shown(error) => { if error.use_stderr() { 2 } else { 0 } }
            _ => 2,
        }
    }

    /// Writes help and the version to the first writer, as standard output, and a mistake to the
    /// second one, as standard error.
    pub fn print<O: io::Write, E: io::Write>(
        &self,
        output: &mut O,
        errors: &mut E,
    ) -> io::Result<()>
        ensures help { IsHelp self.now → errors.new ≡ errors.old }
        ensures mistake { ¬ IsHelp self.now → output.new ≡ output.old }
        ensures message { OnOk result (IfSome
            (message_of self.now)
            (Appends (E.contents errors.old) (E.contents errors.new))) }
    {
        match self {
            CommandLineError::Shown(error) if !error.use_stderr() => write!(output, "{error}"),
            other => write!(errors, "{other}"),
        }
    }
}

impl From<clap::Error> for CommandLineError<'_> {
    ghost from_gives = { λ error told. is_own told ≡ false };

    fn from(error: clap::Error) -> Self {
        match error.kind() {
            ErrorKind::OutOfMemory => CommandLineError::OutOfMemory,
            _ => CommandLineError::Shown(error),
        }
    }
}

impl From<AllocError> for CommandLineError<'_> {
    ghost from_gives = { λ _ told. told ≡ OutOfMemory };

    fn from(_error: AllocError) -> Self {
        CommandLineError::OutOfMemory
    }
}

impl<T: Drop> From<AllocFailed<T>> for CommandLineError<'_> {
    ghost from_gives = { λ _ told. told ≡ OutOfMemory };

    fn from(_error: AllocFailed<T>) -> Self {
        CommandLineError::OutOfMemory
    }
}

impl fmt::Display for CommandLineError<'_> {
    ghost output = { message_of };

    fn fmt<W: fmt::Write>(&self, f: &mut fmt::Formatter<W>) -> fmt::Result {
        match self {
            CommandLineError::Shown(error) => fmt::Display::fmt(error, f),
            CommandLineError::NoCommand => {
                write!(f, "error: no command is named; expected {COMMANDS}\n{MORE}")
            }
            CommandLineError::By(text, why) => write_invalid(f, text, "--by <SPEC>", why),
            CommandLineError::TooManyBy => write!(
                f,
                "error: '--by <SPEC>' may be used 16 times at most\n{MORE}"
            ),
            CommandLineError::TopWithAfter => write_conflict(f, "--after <VALUES>"),
            CommandLineError::TopWithAll => write_conflict(f, "--all"),
            CommandLineError::Where(text, why) => write_invalid(f, text, "--where <COND>", why),
            CommandLineError::Date(text, why) => {
                write_invalid(f, text, "--date <FIELD[=UNIT]>", why)
            }
            CommandLineError::Decimal(text, why) => {
                write_invalid(f, text, "--decimal <FIELD=PLACES>", why)
            }
            CommandLineError::OutOfMemory => f.write_str("error: out of memory\n"),
        }
    }
}

impl error::Error for CommandLineError<'_> {}

const COMMANDS: &str = "'group', 'request', 'walk' or 'check'";

const MORE: &str = "\nFor more information, try '--help'.\n";

// A mistake in a value, as clap tells it.
fn write_invalid<W: fmt::Write>(
    f: &mut fmt::Formatter<W>,
    text: &str,
    option: &str,
    why: &impl fmt::Display,
) -> fmt::Result {
    write!(
        f,
        "error: invalid value '{text}' for '{option}': {why}\n{MORE}"
    )
}

// A mistake in the choice of options, as clap tells it.
fn write_conflict<W: fmt::Write>(f: &mut fmt::Formatter<W>, option: &str) -> fmt::Result
    ensures { WritesOnOk W.write_str_gives f.old result (conflict_with option.now) f.new }
{
    write!(
        f,
        "error: the argument '--top <N>' cannot be used with '{option}'\n{MORE}"
    )
}
