ghost use Rattle.std.specs.Prelude.{◌≡◌, Some, None, MatchResult, IfErr};
ghost use Rattle.peslumok_texts.specs.words.DateField as spec;

use crate::dates::DateUnit;
use crate::words::cut::cut;
use thiserror::Error;

/// A field that holds dates: texts, or numbers of a unit.
#[derive(Clone, Copy, Debug, PartialEq, Eq)]
pub struct DateField<'a> {
    pub field: &'a str,
    pub unit: Option<DateUnit>,
}

/// What is wrong with a text of `--date`.
#[derive(Clone, Copy, Debug, PartialEq, Eq, Error)]
pub enum DateFieldError {
    #[error("no field is named")]
    NoField,
    #[error("the unit after `=` is `seconds`, `millis` or `nanos`")]
    UnknownUnit,
}

/// What a text of `--date` stands for: `FIELD[=UNIT]`.
pub fn read_date_field(text: &str) -> Result<DateField<'_>, DateFieldError>
    ensures stands { MatchResult
        result
        (λ date. spec.date_field_of text.now ≡ Some (spec.parts date))
        (λ error. spec.date_field_of text.now ≡ None) }
    ensures cause { IfErr result (spec.IsDateFieldFault text.now) }
{
    let (field, word) = cut(text, '=');
    if field.is_empty() {
        return Err(DateFieldError::NoField);
    }
    match word {
        None => Ok(DateField { field, unit: None }),
        Some(word) => match DateUnit::read(word) {
            Some(unit) => Ok(DateField {
                field,
                unit: Some(unit),
            }),
            None => Err(DateFieldError::UnknownUnit),
        },
    }
}
