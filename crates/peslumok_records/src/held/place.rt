//! Places of bytes in a text.
use memchr::{memchr_iter, memrchr};

/// The line and the column of a byte, both from 1.
pub fn line_of(bytes: &[u8], offset: usize) -> (u64, usize) {
    let before = bytes.get(..offset).unwrap_or(bytes);
    let feeds = memchr_iter(b'\n', before).count() as u64;
    let column = match memrchr(b'\n', before) {
        Some(feed) => before.len().saturating_sub(feed),
        None => before.len().saturating_add(1),
    };
    (feeds.saturating_add(1), column)
}
