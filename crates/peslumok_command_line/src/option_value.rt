//! The values of options that have a grammar of their own.
ghost use Rattle.std.specs.Prelude.{ℕ, List, Contains, IfOk, IfErr, codes};
ghost use Rattle.clap.specs.Words.{Row};
ghost use Rattle.peslumok_command_line.specs.Asked as spec;
ghost use Rattle.peslumok_command_line.specs.Mistakes.{Tells};

use crate::CommandLineError;
use peslumok_texts::words::{
    BySpec, Condition, DateField, DecimalField, read_by, read_condition, read_date_field,
    read_decimal_field,
};

/// What the texts of one option stand for.
pub(crate) trait OptionValue<'a>: Sized + Drop {
    // The name of the option.
    ghost option_name: { List ℕ };

    ghost stands_for: { List ℕ → Self → Type 0 };

    /// What a text stands for.
    fn read(text: &'a str) -> Result<Self, CommandLineError<'a>>
        ensures read { IfOk result (stands_for text.now) }
        ensures told { IfErr result (λ error. (rows : List Row)
            → Contains (spec.texts_of option_name rows) text.now → Tells rows error) };
}

impl<'a> OptionValue<'a> for BySpec<'a> {
    ghost option_name = { codes "by" };

    ghost stands_for = { spec.ReadsBy };

    fn read(text: &'a str) -> Result<Self, CommandLineError<'a>> {
        match read_by(text) {
            Ok(by) => Ok(by),
            Err(why) => Err(CommandLineError::By(text, why)),
        }
    }
}

impl<'a> OptionValue<'a> for Condition<'a> {
    ghost option_name = { codes "where" };

    ghost stands_for = { spec.ReadsCondition };

    fn read(text: &'a str) -> Result<Self, CommandLineError<'a>> {
        match read_condition(text) {
            Ok(condition) => Ok(condition),
            Err(why) => Err(CommandLineError::Where(text, why)),
        }
    }
}

impl<'a> OptionValue<'a> for DateField<'a> {
    ghost option_name = { codes "date" };

    ghost stands_for = { spec.ReadsDate };

    fn read(text: &'a str) -> Result<Self, CommandLineError<'a>> {
        match read_date_field(text) {
            Ok(date) => Ok(date),
            Err(why) => Err(CommandLineError::Date(text, why)),
        }
    }
}

impl<'a> OptionValue<'a> for DecimalField<'a> {
    ghost option_name = { codes "decimal" };

    ghost stands_for = { spec.ReadsDecimal };

    fn read(text: &'a str) -> Result<Self, CommandLineError<'a>> {
        match read_decimal_field(text) {
            Ok(decimal) => Ok(decimal),
            Err(why) => Err(CommandLineError::Decimal(text, why)),
        }
    }
}
