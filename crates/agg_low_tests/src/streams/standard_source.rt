use agg_expect::expect_equal;
use agg_streams::Failed;
use agg_streams::source::{Source, StdSource};
use std::io::{self, ErrorKind, Read};
use std::test::Fail;

// A reader whose second read fails.
#[derive(Drop)]
struct Broken {
    reads: u64,
}

impl Read for Broken {
    fn read(&mut self, buf: &mut [u8]) -> io::Result<usize> {
        self.reads = self.reads.saturating_add(1);
        match buf {
            _ if self.reads == 2 => Err(io::Error::from(ErrorKind::Interrupted)),
            [] => Ok(0),
            [first, ..] => {
                *first = b'x';
                Ok(1)
            }
        }
    }
}

#[test]
fn fails_where_its_reader_does() -> Result<(), Fail> {
    let mut source = StdSource::new(Broken { reads: 0 });
    let mut buf = [0; 3];
    for read in [Ok(1), Err(Failed), Ok(1)] {
        expect_equal(source.read(&mut buf), read)?;
    }
    expect_equal(buf.as_slice(), b"x\0\0".as_slice())
}
