use agg_expect::expect_equal_for;
use agg_streams::Failed;
use agg_streams::sink::{Sink, StdSink};
use std::io::{self, ErrorKind, Write};
use std::test::Fail;

// A writer that answers what it is told to.
#[derive(Drop)]
struct Told {
    write: Result<usize, ErrorKind>,
    flush: Result<(), ErrorKind>,
}

impl Write for Told {
    fn write(&mut self, buf: &[u8]) -> io::Result<usize> {
        let count = self.write.map_err(io::Error::from)?;
        Ok(count.min(buf.len()))
    }

    fn flush(&mut self) -> io::Result<()> {
        self.flush.map_err(io::Error::from)
    }
}

#[test]
fn answers_as_its_writer_does() -> Result<(), Fail> {
    for (write, flush, bytes, answer) in [
        (Ok(2), Ok(()), "abc", Ok(2)),
        (Ok(3), Ok(()), "abc", Ok(3)),
        (Ok(0), Ok(()), "", Ok(0)),
        (Ok(0), Ok(()), "abc", Err(Failed)),
        (Err(ErrorKind::BrokenPipe), Ok(()), "abc", Err(Failed)),
        (Ok(3), Err(ErrorKind::BrokenPipe), "abc", Err(Failed)),
    ] {
        let mut sink = StdSink::new(Told { write, flush });
        expect_equal_for(bytes, sink.write(bytes.as_bytes()), answer)?;
    }
    Ok(())
}
