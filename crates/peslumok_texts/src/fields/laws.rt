//! What holds of values and of their texts, as their definitions say it.
ghost use Rattle.std.specs.Prelude.{◌≡◌, ◌↔◌, ◌<◌, ◌^◌, ℕ, ℤ, List, Some, Ok, IsTrue};
ghost use Rattle.std.specs.Prelude.{unsigned_abs, FitsSigned};
ghost use Rattle.std.specs.Fmt.{signed_decimal};
ghost use Rattle.std.specs.Int.{w64};
ghost use Rattle.agg_segment.specs.declared.storage.document.FieldValue.TheVariants as value;
ghost use Rattle.peslumok_texts.specs.dates.Dates.{IsDateText};
ghost use Rattle.peslumok_texts.specs.decimals.Decimal.{decimal_text};
ghost use Rattle.peslumok_texts.specs.fields.Values.{text_value, number_value};
ghost use Rattle.peslumok_texts.specs.fields.Wholes.{whole_of, has_64_bits};
ghost use Rattle.peslumok_texts.specs.declared.fields.field_type.FieldType.TheVariants as of;

/// A text is a whole number exactly where it is how that number is written.
pub fn whole_numbers_are_as_they_are_written()
    ensures { (text : List ℕ) (number : ℤ)
        → (whole_of text ≡ Some number)
        ↔ ((text ≡ signed_decimal number) × IsTrue (has_64_bits number)) }
{}

/// What is shown of a value is read back as a text of its field.
pub fn shown_values_are_read_back()
    ensures numbers { (number : ℤ)
        → IsTrue (has_64_bits number)
        → text_value of.Plain (signed_decimal number) ≡ Ok (number_value number) }
    ensures decimals { (places : ℕ) (number : ℤ)
        → unsigned_abs number < 2 ^ 63
        → text_value (of.Decimal places) (decimal_text places number) ≡ Ok (value.I64 number) }
    ensures dates { (nanos : ℤ) (text : List ℕ)
        → FitsSigned w64 nanos
        → IsDateText nanos text
        → text_value of.Date text ≡ Ok (value.Date nanos) }
{}
