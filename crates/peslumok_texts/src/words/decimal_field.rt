ghost use Rattle.std.specs.Prelude.{ℕ, List, IfOk, IfErr, MatchOption};
ghost use Rattle.peslumok_texts.specs.words.DecimalField.{IsDecimalField, IsDecimalFieldFault};
ghost use Rattle.peslumok_texts.specs.words.DecimalField.{IsPlaces};

use crate::decimals::Places;
use crate::words::cut::cut;
use thiserror::Error;

/// A field that holds decimal numbers, and how many decimals they have.
#[derive(Clone, Copy, Debug, PartialEq, Eq)]
pub struct DecimalField<'a> {
    pub field: &'a str,
    pub places: Places,
}

/// What is wrong with a text of `--decimal`.
#[derive(Clone, Copy, Debug, PartialEq, Eq, Error)]
pub enum DecimalFieldError {
    #[error("no field is named")]
    NoField,
    #[error("no number of decimals; expected FIELD=PLACES")]
    NoPlaces,
    #[error("the number of decimals is a whole number from 0 to 18")]
    NotPlaces,
}

/// What a text of `--decimal` stands for: `FIELD=PLACES`.
pub fn read_decimal_field(text: &str) -> Result<DecimalField<'_>, DecimalFieldError>
    ensures ok { IfOk result (λ decimal.
        IsDecimalField text.now decimal.field.now decimal.places) }
    ensures err { IfErr result (λ error. (field : List ℕ) (places : ℕ)
        → ¬ IsDecimalField text.now field places) }
    ensures cause { IfErr result (IsDecimalFieldFault text.now) }
{
    let (field, digits) = cut(text, '=');
    if field.is_empty() {
        return Err(DecimalFieldError::NoField);
    }
    let Some(digits) = digits else {
        return Err(DecimalFieldError::NoPlaces);
    };
    match read_places(digits) {
        Some(places) => Ok(DecimalField { field, places }),
        None => Err(DecimalFieldError::NotPlaces),
    }
}

// The number of decimals that digits write.
fn read_places(digits: &str) -> Option<Places>
    ensures { MatchOption
        result
        ((n : ℕ) → ¬ IsPlaces digits.now n)
        (λ places. IsPlaces digits.now places) }
{
    match digits.parse::<u32>() {
        Ok(count) => Places::new(count),
        Err(_) => None,
    }
}
