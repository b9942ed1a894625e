//! Places of rows in a text.
use crate::held::line_of;

/// The line where a row begins that may have line ends before it.
pub fn line_of_row(bytes: &[u8], offset: usize) -> u64 {
    let ends = match bytes.get(offset..) {
        Some(rest) => rest
            .iter()
            .take_while(|b| **b == b'\n' || **b == b'\r')
            .count(),
        None => 0,
    };
    line_of(bytes, offset.saturating_add(ends)).0
}
