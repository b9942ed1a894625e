//! The texts of options that are used many times, read one by one.
ghost use Rattle.std.specs.Prelude.{◌≡◌, ◌++◌, IfOk, IfErr, List, OnOk, codes, map};
ghost use Rattle.std.specs.List.{AllZip};
ghost use Rattle.clap.specs.Words.{Row, found_of, rows_of};
ghost use Rattle.peslumok_command_line.specs.Asked as spec;
ghost use Rattle.peslumok_command_line.specs.Mistakes.{Tells};

use crate::CommandLineError;
use crate::option_value::OptionValue;
use crate::values::texts;
use clap::ArgMatches;
use peslumok_texts::words::{Metric, MetricKind};
use std::alloc::{AllocError, Global};

/// What the texts of an option stand for.
pub(crate) fn read_all<'a, T: OptionValue<'a>>(
    alloc: Global,
    matches: &ArgMatches<'a>,
    option: &str,
) -> Result<Vec<T>, CommandLineError<'a>>
    requires { option.now ≡ T.option_name }
    ensures read { IfOk result (λ read. AllZip
        T.stands_for
        (spec.texts_of option.now (rows_of (found_of matches.now)))
        read.items) }
    ensures told { IfErr result (Tells (rows_of (found_of matches.now))) }
{
    let texts = texts(alloc, matches, option)?;
    read_each(alloc, texts.as_slice())
}

// What each text stands for.
fn read_each<'a, T: OptionValue<'a>>(
    alloc: Global,
    texts: &[&'a str],
) -> Result<Vec<T>, CommandLineError<'a>>
    ensures read { IfOk result (λ read. AllZip
        T.stands_for
        (map (λ text. text.now) texts.now)
        read.items) }
    ensures told { IfErr result (λ error. (rows : List Row)
        → map (λ text. text.now) texts.now ≡ spec.texts_of T.option_name rows
        → Tells rows error) }
{
    let mut read = Vec::new(alloc);
    for text in texts {
        match T::read(text) {
            Ok(value) => read.push(value)?,
            Err(error) => return Err(error),
        }
    }
    Ok(read)
}

/// The columns of numbers, in the order of their kinds.
pub(crate) fn metric_columns<'a>(
    alloc: Global,
    matches: &ArgMatches<'a>,
) -> Result<Vec<Metric<'a>>, AllocError>
    ensures { IfOk result (λ columns. map spec.column columns.items
        ≡ spec.all_columns (rows_of (found_of matches.now))) }
{
    let mut columns = Vec::new(alloc);
    push_named(alloc, matches, &mut columns, MetricKind::Count, "count")?;
    push_named(alloc, matches, &mut columns, MetricKind::Sum, "sum")?;
    push_named(alloc, matches, &mut columns, MetricKind::Min, "min")?;
    push_named(alloc, matches, &mut columns, MetricKind::Max, "max")?;
    Ok(columns)
}

// Appends the columns of a kind, of the fields that an option names.
fn push_named<'a>(
    alloc: Global,
    matches: &ArgMatches<'a>,
    columns: &mut Vec<Metric<'a>>,
    kind: MetricKind,
    option: &str,
) -> Result<(), AllocError>
    ensures { OnOk result (map spec.column columns.new.items
        ≡ map spec.column columns.old.items
        ++ spec.columns_of kind (spec.texts_of option.now (rows_of (found_of matches.now)))) }
{
    let fields = texts(alloc, matches, option)?;
    push_columns(columns, kind, fields.as_slice())
}

// Appends the columns of a kind.
fn push_columns<'a>(
    columns: &mut Vec<Metric<'a>>,
    kind: MetricKind,
    fields: &[&'a str],
) -> Result<(), AllocError>
    ensures { OnOk result (map spec.column columns.new.items
        ≡ map spec.column columns.old.items
        ++ spec.columns_of kind (map (λ field. field.now) fields.now)) }
{
    for field in fields {
        columns.push(Metric { kind, field })?;
    }
    Ok(())
}
