//! The kinds of arguments.
ghost use Rattle.std.specs.Prelude.{◌≡◌, Some, false};
ghost use Rattle.clap.specs.Words.{rule_of};
ghost use Rattle.peslumok_command_line.specs.OptionRules as spec;

use clap::{Arg, ArgAction};
use std::alloc::Global;

/// An option that may be used many times, each time with a value.
pub(crate) fn many<'a>(alloc: Global, name: &'a str, value: &'a str, help: &'a str) -> Arg<'a>
    ensures rule { rule_of result ≡ spec.many_rule name.entry.now }
    ensures local { result.global ≡ false }
{
    one(alloc, name, value, help).action(ArgAction::Append)
}

/// An option that is used once, with a value.
pub(crate) fn one<'a>(alloc: Global, name: &'a str, value: &'a str, help: &'a str) -> Arg<'a>
    ensures rule { rule_of result ≡ spec.one_rule name.entry.now }
    ensures local { result.global ≡ false }
{
    Arg::new(alloc, name)
        .long(name)
        .value_name(value)
        .help(help)
}

/// An option that is used once, with a number from 1 on.
pub(crate) fn number<'a>(alloc: Global, name: &'a str, value: &'a str, help: &'a str) -> Arg<'a>
    ensures rule { rule_of result ≡ spec.number_rule name.entry.now }
    ensures local { result.global ≡ false }
{
    one(alloc, name, value, help).value_parser(clap::value_parser!(u32).range(1..))
}

/// An option without a value.
pub(crate) fn flag<'a>(alloc: Global, name: &'a str, help: &'a str) -> Arg<'a>
    ensures rule { rule_of result ≡ spec.flag_rule name.entry.now }
    ensures local { result.global ≡ false }
{
    Arg::new(alloc, name)
        .long(name)
        .action(ArgAction::SetTrue)
        .help(help)
}

/// An option whose value is the name of a format.
pub(crate) fn choice<'a>(
    alloc: Global,
    name: &'a str,
    names: &'a [&'a str],
    help: &'a str,
) -> Arg<'a>
    ensures rule { rule_of result ≡ spec.choice_rule name.entry.now names.entry }
    ensures local { result.global ≡ false }
{
    one(alloc, name, "FORMAT", help).value_parser(names)
}
