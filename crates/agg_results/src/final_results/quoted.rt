//! Texts as JSON strings.
ghost use Rattle.std.specs.Prelude.{◌≡◌, ◌∷◌, [], ◌++◌, OnOk, string_bytes};
ghost use Rattle.std.specs.List.{list_all};
ghost use Rattle.json.specs.Print.{quoted};
ghost use Rattle.agg_results.specs.final_results.PlainText.{is_plain};

use agg_values::OutOfMemory;
use json::Writer;
use std::alloc::Global;

/// Appends a quoted text.
pub fn write_quoted(alloc: Global, text: &mut String, s: &str) -> Result<(), OutOfMemory>
    ensures { OnOk result (string_bytes text.new ≡ string_bytes text.old ++ quoted s.now) }
{
    if !is_plain_text(s) {
        return write_escaped(alloc, text, s);
    }
    write_between_quotes(text, s)
}

// Whether a text needs no escape.
fn is_plain_text(s: &str) -> bool
    ensures { result ≡ list_all is_plain s.now }
{
    s.as_bytes()
        .iter()
        .all(|b| *b >= 32 && *b != b'"' && *b != b'\\')
}

// Appends a text as it stands, between two quotes.
fn write_between_quotes(text: &mut String, s: &str) -> Result<(), OutOfMemory>
    ensures { OnOk result
        (string_bytes text.new ≡ string_bytes text.old ++ 34 ∷ (s.now ++ 34 ∷ [])) }
{
    text.push('"')?;
    text.push_str(s)?;
    text.push('"')?;
    Ok(())
}

// Appends a quoted text, some byte of which needs an escape.
#[cold]
#[tactic(auto, unfolding(json::specs::Print::print_from))]
fn write_escaped(alloc: Global, text: &mut String, s: &str) -> Result<(), OutOfMemory>
    ensures { OnOk result (string_bytes text.new ≡ string_bytes text.old ++ quoted s.now) }
{
    let mut writer = Writer::new(Vec::new(alloc));
    writer.string(s)?;
    let quoted = String::from_utf8(writer.into_inner()).unwrap();
    text.push_str(quoted.as_str())?;
    Ok(())
}
