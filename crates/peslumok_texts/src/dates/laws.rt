//! What holds of the texts of dates, as their definitions say it.
ghost use Rattle.std.specs.Prelude.{◌≡◌, ℕ, ℤ, List, Ok, FitsSigned};
ghost use Rattle.std.specs.Int.{w64};
ghost use Rattle.peslumok_texts.specs.dates.Dates.{date_of, IsDateText};

/// The text of nanoseconds within 64 bits is read as these.
pub fn date_texts_are_read_back()
    ensures { (nanos : ℤ) (text : List ℕ)
        → FitsSigned w64 nanos
        → IsDateText nanos text
        → date_of text ≡ Ok nanos }
{}
