//! Where the answer goes.
ghost use Rattle.std.specs.Prelude.{None};
ghost use Rattle.std.specs.Io.{WritesAtMost};
ghost use Rattle.std.specs.Io.KnownBytes.{Keeps, WriteAppends};

use crate::progress::Progress;
use std::io::{self, ErrorKind, Write};
use std::rt::Clock;

/// A writer that wipes the line of progress before it writes, and notes whether the reader of what
/// it writes is gone. It tells no bytes.
#[derive(Drop)]
pub struct Output<'p, 'r, W, R> {
    writer: W,
    progress: &'p mut Progress<'r, R>,
    is_closed: bool,
}

impl<'p, 'r, W, R> Output<'p, 'r, W, R> {
    /// An output over a writer.
    pub fn new(writer: W, progress: &'p mut Progress<'r, R>) -> Output<'p, 'r, W, R> {
        Output {
            writer,
            progress,
            is_closed: false,
        }
    }

    /// Whether a write failed since the reader of a pipe is gone.
    pub fn is_closed(&self) -> bool {
        self.is_closed
    }

    // Notes why a write failed, if it did.
    fn note<T>(&mut self, written: &io::Result<T>) {
        if let Err(error) = written {
            if error.kind() == ErrorKind::BrokenPipe {
                self.is_closed = true;
            }
        }
    }
}

impl<W: Write, R: Clock + Eprint> Write for Output<'_, '_, W, R> {
    ghost contents = { λ _. None };

    fn write(&mut self, bytes: &[u8]) -> io::Result<usize>
        ensures bound { WritesAtMost result bytes.now }
        ensures bytes { WriteAppends None None result bytes.now }
    {
        self.progress.wipe();
        let written = self.writer.write(bytes);
        self.note(&written);
        written
    }

    fn flush(&mut self) -> io::Result<()>
        ensures bytes { Keeps None None }
    {
        let flushed = self.writer.flush();
        self.note(&flushed);
        flushed
    }
}
