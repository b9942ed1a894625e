//! The files of the command line.
use crate::progress::Progress;
use agg_values::Text;
use peslumok_front::front::{Failure, RecordFile, format_of};
use peslumok_texts::formats::RecordFormat;
use std::alloc::Global;
use std::fs::File;
use std::io::{self, ErrorKind, Read};
use std::rt::{Clock, Files};

// How many bytes are read at a time.
const PIECE_BYTES: u64 = 1_048_576;

/// Reads the files in their order, or standard input where there is none. Where no format is given,
/// the name and the bytes of a file tell its own. The error names the first file that can't be
/// read, or is of memory.
pub fn read_files<'a, R: Files + Input + Clock + Eprint + AllocGlobal>(
    rt: &R,
    names: &[&'a str],
    from: Option<RecordFormat>,
    progress: &mut Progress<'_, R>,
) -> Result<Vec<RecordFile<'a>>, Failure> {
    let mut files = Vec::new(rt.alloc());
    if names.is_empty() {
        let file = read_records(rt, "-", from, progress)?;
        files.push(file)?;
    }
    for name in names {
        let file = read_records(rt, name, from, progress)?;
        files.push(file)?;
    }
    Ok(files)
}

// Reads a file of records.
fn read_records<'a, R: Files + Input + Clock + Eprint + AllocGlobal>(
    rt: &R,
    name: &'a str,
    from: Option<RecordFormat>,
    progress: &mut Progress<'_, R>,
) -> Result<RecordFile<'a>, Failure> {
    let bytes = read_file(rt, name, progress)?;
    let format = match from {
        Some(from) => from,
        None => format_of(name, bytes.as_slice()),
    };
    Ok(RecordFile {
        name: shown_name(name),
        format,
        bytes,
    })
}

/// All bytes of a file, or of standard input for `-`. The error names the file, or is of memory.
pub fn read_file<R: Files + Input + Clock + Eprint + AllocGlobal>(
    rt: &R,
    name: &str,
    progress: &mut Progress<'_, R>,
) -> Result<Vec<u8>, Failure> {
    match bytes_of(rt, name, progress) {
        Ok(bytes) => Ok(bytes),
        Err(error) => Err(unreadable(rt.alloc(), shown_name(name), &error)),
    }
}

/// The name of a file in messages: `standard input` for `-`.
pub fn shown_name(name: &str) -> &str {
    if name == "-" { "standard input" } else { name }
}

fn bytes_of<R: Files + Input + Clock + Eprint + AllocGlobal>(
    rt: &R,
    name: &str,
    progress: &mut Progress<'_, R>,
) -> io::Result<Vec<u8>> {
    if name == "-" {
        return read_all(rt.alloc(), &mut rt.reader(), progress);
    }
    let mut file = File::open(rt, name)?;
    read_all(rt.alloc(), &mut file, progress)
}

// Reads a reader to its end.
fn read_all<S: Read, R: Clock + Eprint>(
    alloc: Global,
    source: &mut S,
    progress: &mut Progress<'_, R>,
) -> io::Result<Vec<u8>> {
    let mut bytes = Vec::new(alloc);
    for _ in 0..u64::MAX {
        let count = source.by_ref().take(PIECE_BYTES).read_to_end(&mut bytes)?;
        if count == 0 {
            break;
        }
        progress.add_bytes(count);
    }
    Ok(bytes)
}

// Why a file can't be read.
fn unreadable(alloc: Global, name: &str, error: &io::Error) -> Failure {
    if error.kind() == ErrorKind::OutOfMemory {
        return Failure::OutOfMemory;
    }
    match Text::copy_of(alloc, name) {
        Ok(name) => Failure::Unreadable(name),
        Err(error) => Failure::from(error),
    }
}
