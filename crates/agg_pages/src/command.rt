//! The commands of the program, by its arguments.
ghost use Rattle.std.specs.Prelude.{MatchOption};
ghost use Rattle.agg_values.specs.Nothing.{NoneIs};
ghost use Rattle.agg_pages.specs.Commands.{AskFor, IsSeed};

use agg_values::Text;

/// What the program is asked to do.
#[derive(Clone, Copy, Debug, PartialEq, Eq)]
pub enum Command {
    /// To walk the input that a source has left.
    Walk,
    /// To walk the input that is generated from a seed.
    Make(u64),
}

/// The command that the arguments ask for, if they ask for one.
pub fn command_of(words: &[Text]) -> Option<Command>
    ensures { MatchOption result (NoneIs (AskFor words.now)) (AskFor words.now) }
{
    match words {
        [name] if name.as_str() == "walk" => Some(Command::Walk),
        [name, digits] if name.as_str() == "make" => {
            Some(Command::Make(seed_of(digits.as_str())?))
        }
        _ => None,
    }
}

// The seed that digits write, if they write one. A sign is no digit.
fn seed_of(digits: &str) -> Option<u64>
    ensures { MatchOption result (NoneIs (IsSeed digits.now)) (IsSeed digits.now) }
{
    if digits.starts_with('+') {
        return None;
    }
    digits.parse().ok()
}
