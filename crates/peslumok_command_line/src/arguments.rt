//! The arguments of `group` and `request`.
ghost use Rattle.std.specs.Prelude.{◌≡◌, false, map, IfOk};
ghost use Rattle.clap.specs.Words.{rule_of};
ghost use Rattle.peslumok_command_line.specs.Adds.{AddsRules};
ghost use Rattle.peslumok_command_line.specs.CommandLine as spec;
ghost use Rattle.peslumok_command_line.specs.OptionRules.{option_rule};

use crate::named_option::{NamedOption, Usage};
use crate::rules::{choice, flag, many, number, one};
use clap::{Arg, ArgAction, Command};
use std::alloc::{AllocError, Global};

static INPUT_FORMATS: [&str; 4] = ["jsonl", "json", "csv", "tsv"];

static OUTPUT_FORMATS: [&str; 3] = ["table", "jsonl", "csv"];

/// The names of the formats.
#[derive(Clone, Copy)]
pub(crate) struct FormatNames<'a> {
    inputs: &'a [&'a str],
    outputs: &'a [&'a str],
}

/// The names of all formats.
pub(crate) fn format_names() -> FormatNames<'static>
    ensures inputs { map (λ name. name.now) result.inputs.now ≡ spec.input_names }
    ensures outputs { map (λ name. name.now) result.outputs.now ≡ spec.output_names }
{
    FormatNames {
        inputs: INPUT_FORMATS.as_slice(),
        outputs: OUTPUT_FORMATS.as_slice(),
    }
}

// All options but those whose value is the name of a format.
static OPTIONS: [NamedOption; 15] = [
    NamedOption {
        name: "by",
        usage: Usage::Required,
        value: "SPEC",
        help: "Group by a field: \
               [NAME=]FIELD[:INTERVAL[OFFSET]][,desc][,missing[=first|last]][,min=VALUE]; \
               up to 16 times",
    },
    NamedOption {
        name: "where",
        usage: Usage::Many,
        value: "COND",
        help: "Take records with FIELD=VALUE, !=, <, <=, >, >= or FIELD? (it has a value)",
    },
    NamedOption {
        name: "query",
        usage: Usage::Once,
        value: "JSON",
        help: "Take records that match a query, as the header of 'walk' writes it",
    },
    NamedOption {
        name: "count",
        usage: Usage::Many,
        value: "FIELD",
        help: "Count a field's values in each group",
    },
    NamedOption {
        name: "sum",
        usage: Usage::Many,
        value: "FIELD",
        help: "Add up a field's values in each group",
    },
    NamedOption {
        name: "min",
        usage: Usage::Many,
        value: "FIELD",
        help: "Show a field's least value in each group",
    },
    NamedOption {
        name: "max",
        usage: Usage::Many,
        value: "FIELD",
        help: "Show a field's greatest value in each group",
    },
    NamedOption {
        name: "total",
        usage: Usage::Flag,
        value: "",
        help: "Add a row over all records",
    },
    NamedOption {
        name: "size",
        usage: Usage::NumberOr("20"),
        value: "N",
        help: "How many groups a page has",
    },
    NamedOption {
        name: "after",
        usage: Usage::Once,
        value: "VALUES",
        help: "Begin after the group of these values, as a page shows them at its end: \
               --after=VALUES",
    },
    NamedOption {
        name: "all",
        usage: Usage::Flag,
        value: "",
        help: "Write all pages, one after another",
    },
    NamedOption {
        name: "top",
        usage: Usage::Number,
        value: "N",
        help: "Write the N groups with the most records, without pages",
    },
    NamedOption {
        name: "date",
        usage: Usage::Many,
        value: "FIELD[=UNIT]",
        help: "Read a field as dates: texts of ISO 8601, or numbers of seconds, millis or nanos",
    },
    NamedOption {
        name: "decimal",
        usage: Usage::Many,
        value: "FIELD=PLACES",
        help: "Read a field as numbers with up to so many decimals, from 0 to 18",
    },
    NamedOption {
        name: "text",
        usage: Usage::Many,
        value: "FIELD",
        help: "Read a field as text, also where it looks like a number",
    },
];

/// Adds all options of `group`, which `request` has too.
pub(crate) fn with_options<'a>(
    alloc: Global,
    command: Command<'a>,
    formats: FormatNames<'a>,
) -> Result<Command<'a>, AllocError>
    ensures { IfOk result
        (AddsRules (spec.all_options formats.entry.inputs formats.entry.outputs) command.entry) }
{
    let named = with_named(alloc, command, OPTIONS.as_slice())?;
    with_formats(alloc, named, formats)
}

// Adds options one after another.
fn with_named<'a>(
    alloc: Global,
    command: Command<'a>,
    options: &'a [NamedOption],
) -> Result<Command<'a>, AllocError>
    ensures { IfOk result (AddsRules (map option_rule options.now) command.entry) }
{
    let mut grown = command;
    for option in options {
        grown = grown.arg(argument(alloc, option))?;
    }
    Ok(grown)
}

// Adds how records and groups are written.
fn with_formats<'a>(
    alloc: Global,
    command: Command<'a>,
    formats: FormatNames<'a>,
) -> Result<Command<'a>, AllocError>
    ensures { IfOk result
        (AddsRules (spec.format_rules formats.entry.inputs formats.entry.outputs) command.entry) }
{
    let from = command.arg(choice(
        alloc,
        "from",
        formats.inputs,
        "How records are written, if the names of files don't tell it",
    ))?;
    from.arg(choice(
        alloc,
        "to",
        formats.outputs,
        "How to write groups; if left out, a table on a terminal and jsonl elsewhere",
    ))
}

// The argument that an option is.
fn argument<'a>(alloc: Global, option: &NamedOption) -> Arg<'a>
    ensures rule { rule_of result ≡ option_rule option.now }
    ensures local { result.global ≡ false }
{
    let NamedOption {
        name,
        usage,
        value,
        help,
    } = *option;
    match usage {
        Usage::Required => many(alloc, name, value, help).required(true),
        Usage::Many => many(alloc, name, value, help),
        Usage::Once => one(alloc, name, value, help),
        Usage::Number => number(alloc, name, value, help),
        Usage::NumberOr(default) => number(alloc, name, value, help).default_value(default),
        Usage::Flag => flag(alloc, name, help),
    }
}

/// The files of `group`.
pub(crate) fn files<'a>(alloc: Global) -> Arg<'a>
    ensures rule { rule_of result ≡ spec.files_rule }
    ensures local { result.global ≡ false }
{
    file(alloc)
        .action(ArgAction::Append)
        .help("Files to read; standard input if there is none, or for -")
}

/// The file of `walk` and `check`.
pub(crate) fn file<'a>(alloc: Global) -> Arg<'a>
    ensures rule { rule_of result ≡ spec.file_rule }
    ensures local { result.global ≡ false }
{
    Arg::new(alloc, "file").value_name("FILE").help(
        "The file to read; standard input if there is none, or for -",
    )
}
