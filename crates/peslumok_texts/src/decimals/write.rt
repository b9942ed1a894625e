ghost use Rattle.std.specs.Prelude.{◌≡◌, ◌≤◌, ◌<◌, ◌+◌, ◌^◌, ◌++◌, ◌∷◌, [], OnOk, string_bytes};
ghost use Rattle.peslumok_texts.specs.decimals.Decimal as spec;

use crate::decimals::Places;
use std::alloc::AllocError;
use std::fmt::Write;

/// Appends the text of a whole number of the last place: 1250 in two places is 12.50.
pub fn write_decimal(out: &mut String, number: i128, places: Places) -> Result<(), AllocError>
    ensures { OnOk result (string_bytes out.new
        ≡ string_bytes out.old ++ spec.decimal_text places number) }
{
    let magnitude = number.unsigned_abs();
    write_sign(out, number)?;
    write!(out, "{}", magnitude / unit(places.get()))?;
    write_fraction(out, magnitude, places.get())
}

// Appends a minus before a number below zero.
fn write_sign(out: &mut String, number: i128) -> Result<(), AllocError>
    ensures { OnOk result (string_bytes out.new ≡ string_bytes out.old ++ spec.sign_text number) }
{
    if number < 0 {
        return out.push('-');
    }
    Ok(())
}

// Appends a point and the digits after it, where there is a place.
fn write_fraction(out: &mut String, number: u128, places: u32) -> Result<(), AllocError>
    requires { places ≤ 18 }
    ensures { OnOk result (string_bytes out.new
        ≡ string_bytes out.old ++ spec.fraction_text places number) }
{
    if places == 0 {
        return Ok(());
    }
    out.push('.')?;
    write_last_digits(out, number, places)
}

// Appends the last digits of a number.
#[tactic(auto, using(crate::proofs::lemmas::decimals::Digits::digit_written))]
fn write_last_digits(out: &mut String, number: u128, count: u32) -> Result<(), AllocError>
    requires { count ≤ 18 }
    ensures { OnOk result (string_bytes out.new
        ≡ string_bytes out.old ++ spec.last_digits count number) }
{
    for written in 0..count {
        write_digit(out, number / unit(count - 1 - written) % 10)?;
    }
    Ok(())
}

// Appends a digit.
fn write_digit(out: &mut String, digit: u128) -> Result<(), AllocError>
    requires { digit < 10 }
    ensures { OnOk result (string_bytes out.new ≡ string_bytes out.old ++ (48 + digit) ∷ []) }
{
    out.push((b'0' + digit as u8) as char)
}

// How many of the last place are one.
#[tactic(auto, using(crate::proofs::lemmas::decimals::Digits::unit_positive))]
fn unit(places: u32) -> u128
    requires { places ≤ 18 }
    ensures value { result ≡ 10 ^ places }
    ensures positive { 0 < result }
{
    10u128.pow(places)
}
