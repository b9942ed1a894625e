//! Lines in the plainest JSON, read byte by byte with no index: names and texts without escapes,
//! words, whole numbers, objects and arrays, with no space but after a comma or a colon.
mod cursor;
mod digits;
mod reader;

pub use reader::PlainReader;
