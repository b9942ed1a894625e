//! A line of progress for what takes longer than a second.
use std::rt::Clock;
use std::time::Duration;

// From so many bytes on, work may take longer than a second.
const MANY_BYTES: u64 = 16_777_216;

/// A line of progress on standard error, if that is a terminal.
#[derive(Drop)]
pub struct Progress<'r, R> {
    rt: &'r R,
    /// When the line was last written, or else when the run began; `None` if no line is ever shown.
    last: Option<Duration>,
    /// How many bytes were read.
    bytes: u64,
    is_shown: bool,
}

impl<'r, R: Clock + Eprint> Progress<'r, R> {
    /// No progress so far. The line is shown only on a terminal.
    pub fn new(rt: &'r R, is_terminal: bool) -> Progress<'r, R> {
        let last = if is_terminal {
            rt.monotonic().ok()
        } else {
            None
        };
        Progress {
            rt,
            last,
            bytes: 0,
            is_shown: false,
        }
    }

    /// So many further bytes are read. Shows it once a second.
    pub fn add_bytes(&mut self, count: usize) {
        self.bytes = self.bytes.saturating_add(count as u64);
        if self.is_due() {
            self.show("read");
        }
    }

    /// All is read, and this is what is done now. Shows it if it may take longer than a second.
    pub fn begin(&mut self, work: &str) {
        if self.is_shown || self.bytes >= MANY_BYTES {
            self.show(work);
        }
    }

    /// Wipes the line, if there is one.
    pub fn wipe(&mut self) {
        if self.is_shown {
            let _written = eprint!(self.rt; "\r{:40}\r", "");
            self.is_shown = false;
        }
    }

    // Whether a second has gone by since the line was last written.
    fn is_due(&self) -> bool {
        match (self.last, self.rt.monotonic()) {
            (Some(last), Ok(now)) => now.saturating_sub(last) >= Duration::from_secs(1),
            _ => false,
        }
    }

    // Writes the line anew.
    fn show(&mut self, work: &str) {
        if self.last.is_none() {
            return;
        }
        let megabytes = self.bytes / 1_000_000;
        let _written = eprint!(self.rt; "\r{megabytes} MB {work:30}");
        self.last = self.rt.monotonic().ok();
        self.is_shown = true;
    }
}
