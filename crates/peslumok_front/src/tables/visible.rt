//! Texts whose control characters show as escapes.
ghost use Rattle.std.specs.Prelude.{◌≡◌, ◌++◌, OnOk, string_bytes};
ghost use Rattle.peslumok_front.specs.tables.Visible.{IsHarmless, is_escaped, visible};
ghost use Rattle.peslumok_front.specs.tables.Visible.{visible_char};

use agg_values::OutOfMemory;
use std::fmt::Write;

/// Appends a text for a terminal: what would end the line, move the cursor or turn the direction
/// of the text shows as an escape.
pub fn write_visible(out: &mut String, text: &str) -> Result<(), OutOfMemory>
    ensures appends { OnOk result
        (string_bytes out.new ≡ string_bytes out.old ++ visible text.now) }
    ensures harmless { IsHarmless (visible text.now) }
{
    for c in text.chars() {
        write_visible_char(out, c)?;
    }
    Ok(())
}

fn write_visible_char(out: &mut String, c: char) -> Result<(), OutOfMemory>
    ensures { OnOk result (string_bytes out.new ≡ string_bytes out.old ++ visible_char c) }
{
    match c {
        '\n' => out.push_str("\\n")?,
        '\r' => out.push_str("\\r")?,
        '\t' => out.push_str("\\t")?,
        c if is_escaped(c) => write!(out, "\\u{{{:x}}}", u32::from(c))?,
        c => out.push(c)?,
    }
    Ok(())
}

// Control characters, ends of lines and of paragraphs, and marks that turn the direction.
fn is_escaped(c: char) -> bool
    ensures { result ≡ is_escaped c }
{
    c.is_control() || matches!(c, '\u{2028}'..='\u{202e}' | '\u{2066}'..='\u{2069}')
}
