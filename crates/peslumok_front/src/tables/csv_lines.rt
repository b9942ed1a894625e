//! Lines of CSV, with the quotes of RFC 4180.
ghost use Rattle.std.specs.Prelude.{◌≡◌, [], ◌∷◌, ◌++◌, if◌then◌else◌, map};
ghost use Rattle.std.specs.Prelude.{OnOk, encode_utf8, string_bytes};
ghost use Rattle.csv.specs.Writing.{default_writer, escaped, field_text, fields_text, quoted};
ghost use Rattle.csv.specs.Writing.{is_blank, needs_quotes, row_body, row_text};

use agg_values::OutOfMemory;

/// Appends a line of cells.
pub fn write_csv_line(out: &mut String, cells: &[&str]) -> Result<(), OutOfMemory>
    ensures { OnOk result (string_bytes out.new
        ≡ string_bytes out.old ++ row_text default_writer (map (λ cell. cell.now) cells.now)) }
{
    write_cells(out, cells)?;
    write_blank(out, cells)?;
    out.push('\n')?;
    Ok(())
}

// Appends cells with a comma between each two.
fn write_cells(out: &mut String, cells: &[&str]) -> Result<(), OutOfMemory>
    ensures { OnOk result (string_bytes out.new
        ≡ string_bytes out.old ++ row_body default_writer (map (λ cell. cell.now) cells.now)) }
{
    match cells {
        [] => Ok(()),
        [cell, rest @ ..] => {
            write_csv_cell(out, cell)?;
            write_rest(out, rest)
        }
    }
}

// Appends cells, each after a comma.
fn write_rest(out: &mut String, cells: &[&str]) -> Result<(), OutOfMemory>
    ensures { OnOk result (string_bytes out.new
        ≡ string_bytes out.old ++ fields_text default_writer (map (λ cell. cell.now) cells.now)) }
{
    for cell in cells {
        out.push(',')?;
        write_csv_cell(out, cell)?;
    }
    Ok(())
}

// Appends two quotes where the line of these cells would have no character.
fn write_blank(out: &mut String, cells: &[&str]) -> Result<(), OutOfMemory>
    ensures { OnOk result (string_bytes out.new
        ≡ string_bytes out.old
        ++ (if is_blank default_writer (map (λ cell. cell.now) cells.now)
        then 34 ∷ 34 ∷ [] else [])) }
{
    if is_blank(cells) {
        out.push_str("\"\"")?;
    }
    Ok(())
}

fn is_blank(cells: &[&str]) -> bool
    ensures { result ≡ is_blank default_writer (map (λ cell. cell.now) cells.now) }
{
    match cells {
        [] => true,
        [only] => only.is_empty(),
        _ => false,
    }
}

/// Appends a cell, in quotes where it has a comma, a quote or an end of a line.
pub fn write_csv_cell(out: &mut String, cell: &str) -> Result<(), OutOfMemory>
    ensures { OnOk result (string_bytes out.new
        ≡ string_bytes out.old ++ field_text default_writer cell.now) }
{
    if needs_quotes(cell) {
        write_in_quotes(out, cell)
    } else {
        out.push_str(cell)?;
        Ok(())
    }
}

fn needs_quotes(cell: &str) -> bool
    ensures { result ≡ needs_quotes default_writer cell.now }
{
    cell.as_bytes()
        .iter()
        .any(|b| *b == b',' || *b == b'"' || *b == b'\r' || *b == b'\n')
}

// Appends a cell between two quotes, with each quote in it twice.
fn write_in_quotes(out: &mut String, cell: &str) -> Result<(), OutOfMemory>
    ensures { OnOk result (string_bytes out.new
        ≡ string_bytes out.old ++ quoted default_writer cell.now) }
{
    out.push('"')?;
    for c in cell.chars() {
        write_doubled(out, c)?;
    }
    out.push('"')?;
    Ok(())
}

// Appends a character, and a quote twice.
fn write_doubled(out: &mut String, c: char) -> Result<(), OutOfMemory>
    ensures { OnOk result (string_bytes out.new
        ≡ string_bytes out.old ++ escaped default_writer (encode_utf8 c)) }
{
    if c == '"' {
        out.push_str("\"\"")?;
        return Ok(());
    }
    out.push(c)?;
    Ok(())
}
