//! What holds of decimal texts, as their definitions say it.
ghost use Rattle.std.specs.Prelude.{◌≡◌, ◌<◌, ◌^◌, ℕ, ℤ, Ok, unsigned_abs};
ghost use Rattle.peslumok_texts.specs.decimals.Decimal.{decimal_of, decimal_text};

/// What is written of a number within 63 bits is read back.
pub fn decimal_texts_are_read_back()
    ensures { (places : ℕ) (number : ℤ)
        → unsigned_abs number < 2 ^ 63
        → decimal_of places (decimal_text places number) ≡ Ok number }
{}
