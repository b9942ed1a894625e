//! Whether a text of cells ends inside quotes.
ghost use Rattle.std.specs.Prelude.{◌≡◌, ◌≢◌, false, true};
ghost use Rattle.csv.specs.Machine.{step};
ghost use Rattle.csv.specs.Reading.{strip_bom};
ghost use Rattle.csv.specs.declared.parser.State.{State};
ghost use Rattle.peslumok_records.specs.cells.Csv.{IsClosed, cells_config};
ghost use Rattle.peslumok_records.specs.cells.Quotes.{IsStateIn, MayBeOpenIn};

use crate::cells::encoding::without_mark;

// Where in a cell a byte stands.
#[derive(Clone, Copy)]
enum CellPart {
    Start,
    Bare,
    Quoted,
    AfterQuote,
}

impl CellPart {
    // The part after one more byte.
    fn after(self, byte: u8, delimiter: u8) -> CellPart
        ensures { (state : State) → IsStateIn self state
            → IsStateIn result (step (cells_config delimiter) state byte).0 }
    {
        match self {
            CellPart::Start if byte == b'"' => CellPart::Quoted,
            CellPart::Quoted if byte == b'"' => CellPart::AfterQuote,
            CellPart::Quoted => CellPart::Quoted,
            CellPart::AfterQuote if byte == b'"' => CellPart::Quoted,
            _ if byte == delimiter || byte == b'\n' || byte == b'\r' => CellPart::Start,
            _ => CellPart::Bare,
        }
    }
}

/// Whether a quote is open where a text of cells ends.
pub fn ends_in_quotes(bytes: &[u8], delimiter: u8) -> bool
    ensures unclosed { result ≡ true → ¬ (IsClosed delimiter bytes.now) }
    ensures closed { result ≡ false → IsClosed delimiter bytes.now }
{
    let text = without_mark(bytes);
    let mut part = CellPart::Start;
    for byte in text {
        part = part.after(*byte, delimiter);
    }
    matches!(part, CellPart::Quoted)
}

/// Whether a quote may be open where a text of cells ends, by its last cell alone: where the cell
/// has a quote, or is after one.
pub fn may_end_in_quotes(bytes: &[u8], cell: &str) -> bool
    ensures { result ≡ false → ¬ (MayBeOpenIn (strip_bom bytes.now) cell.now) }
{
    let cell = cell.as_bytes();
    if cell.contains(&b'"') {
        return true;
    }
    match without_mark(bytes).strip_suffix(cell) {
        Some(front) => front.ends_with(b"\""),
        None => false,
    }
}
