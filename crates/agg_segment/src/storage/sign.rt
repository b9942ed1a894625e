//! The sign of a field's numbers, which says how wide their column is.

/// Whether the numbers of a field have one below zero, or one above those of an i64. No field has
/// both.
#[derive(Clone, Copy, PartialEq, Eq)]
pub enum Sign {
    Small,
    Negative,
    Large,
}
