ghost use Rattle.std.specs.Prelude.{◌≡◌, ◌*ℤ◌, pos, FitsSigned};
ghost use Rattle.std.specs.Int.{w64};
ghost use Rattle.std.specs.Option.{SomeIff};
ghost use Rattle.peslumok_texts.specs.dates.Units as spec;

/// A unit of numbers that count from 1970.
#[derive(Clone, Copy, Debug, PartialEq, Eq)]
pub enum DateUnit {
    Seconds,
    Millis,
    Nanos,
}

impl DateUnit {
    /// The unit of a word: `seconds`, `millis` or `nanos`.
    pub fn read(word: &str) -> Option<DateUnit>
        ensures { result ≡ spec.unit_of word.now }
    {
        match word {
            "seconds" => Some(DateUnit::Seconds),
            "millis" => Some(DateUnit::Millis),
            "nanos" => Some(DateUnit::Nanos),
            _ => None,
        }
    }

    /// The nanoseconds of a number of this unit, None exactly where they have more than 64 bits.
    pub fn nanos(self, number: i64) -> Option<i64>
        ensures { SomeIff
            result
            (FitsSigned w64 (number *ℤ pos (spec.nanos_each self)))
            (number *ℤ pos (spec.nanos_each self)) }
    {
        number.checked_mul(self.nanos_each())
    }

    fn nanos_each(self) -> i64
        ensures { result ≡ pos (spec.nanos_each self) }
    {
        match self {
            DateUnit::Seconds => 1_000_000_000,
            DateUnit::Millis => 1_000_000,
            DateUnit::Nanos => 1,
        }
    }
}
