//! The values of a text of `--after`.
ghost use Rattle.std.specs.Prelude.{◌≡◌, IfOk, option_map};
ghost use Rattle.csv.specs.Machine.{next_record};
ghost use Rattle.csv.specs.Reading.{default_config, strip_bom};
ghost use Rattle.csv.specs.Records.{fields_of};
ghost use Rattle.csv.specs.declared.parser.State.TheVariants as st;
ghost use Rattle.peslumok_front.specs.after_text.After.{values_in};

use agg_values::OutOfMemory;
use csv::{ReaderBuilder, StringRecord};
use std::alloc::Global;

/// The values of a text that are separated by commas: the cells of the one line of CSV that it is.
/// None where there is more than one line.
pub fn values_of(alloc: Global, text: &str) -> Result<Option<StringRecord>, OutOfMemory>
    ensures { IfOk result (λ values. option_map fields_of values ≡ values_in text.now) }
{
    let mut reader = ReaderBuilder::new()
        .has_headers(false)
        .flexible(true)
        .from_reader(alloc, text.as_bytes());
    let mut values = StringRecord::new(alloc);
    match reader.read_record(&mut values) {
        Ok(true) => {}
        Ok(false) => return Ok(Some(StringRecord::new(alloc))),
        Err(_) => return Err(OutOfMemory),
    }
    let mut more = StringRecord::new(alloc);
    match reader.read_record(&mut more) {
        Ok(true) => Ok(None),
        Ok(false) => Ok(Some(values)),
        Err(_) => Err(OutOfMemory),
    }
}
