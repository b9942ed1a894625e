ghost use Rattle.std.specs.Prelude.{◌≡◌, ◌≤◌, is_err};
ghost use Rattle.std.specs.Result.{result_ok};
ghost use Rattle.std.specs.Io.{ReadsAtMost};
ghost use Rattle.std.specs.Io.KnownBytes.{ReadConsumes};
ghost use Rattle.agg_streams.specs.Causes.{HasCause, faults_after};

use super::Source;
use crate::fault::Failed;
use std::io::{self, Read};
use std::marker::Model;

/// A reader of std as a source, which counts the reads that failed. Contracts see the reader and
/// the count.
#[derive(Drop)]
pub struct StdSource<R> {
    reader: R,
    faults: u64,
}

impl<R> Model for StdSource<R> {
    ghost use Rattle.agg_streams.specs.Causes.{Counted};

    ghost Value = { Counted R };

    ghost view = { λ source. record { inner = source.reader; faults = source.faults } };
}

impl<R> StdSource<R> {
    /// A source over a reader, with no fault counted.
    pub fn new(reader: R) -> StdSource<R>
        ensures { result ≡ record { inner = reader; faults = 0 } }
    {
        StdSource { reader, faults: 0 }
    }

    // The answer for what the reader answered: its count, or a fault, which is counted.
    fn settle(&mut self, read: io::Result<usize>) -> Result<usize, Failed>
        ensures answer { result_ok result ≡ result_ok read }
        ensures counted { self.new.faults ≡ faults_after (is_err read) self.old.faults }
        ensures later { self.old.faults ≤ self.new.faults }
        ensures reader { self.new.inner ≡ self.old.inner }
    {
        match read {
            Ok(count) => Ok(count),
            Err(_) => {
                self.faults = self.faults.saturating_add(1);
                Err(Failed)
            }
        }
    }
}

impl<R: Read> Source for StdSource<R> {
    ghost left = { λ source. R.remaining source.inner };

    ghost faults = { λ source. source.faults };

    fn read(&mut self, buf: &mut [u8]) -> Result<usize, Failed>
        ensures bound { ReadsAtMost result buf.new }
        ensures bytes { ReadConsumes
            (R.remaining self.old.inner) (R.remaining self.new.inner) result buf.new }
        ensures cause { HasCause self.old.faults self.new.faults result }
        ensures counted { self.new.faults ≡ faults_after (is_err result) self.old.faults }
    {
        let read = self.reader.read(buf);
        self.settle(read)
    }
}
