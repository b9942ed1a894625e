//! The records of files.
ghost use Rattle.std.specs.Prelude.{IfErr, IfOk};
ghost use Rattle.peslumok_records.specs.held.Held.{held_documents};
ghost use Rattle.peslumok_front.specs.front.Files.{AreDocumentsOfFiles, AreUnreadable};
ghost use Rattle.peslumok_front.specs.front.Files.{IsUnreadable};

use crate::front::RecordFile;
use crate::front::failure::Failure;
use agg_values::Text;
use peslumok_records::records::{AskedFields, RecordCause, RecordError, Records, read_records};
use std::alloc::Global;

/// The records of files, one after another. The bytes of each are given up as soon as its
/// records are read.
pub fn records_of(
    alloc: Global,
    files: Vec<RecordFile<'_>>,
    asked: &AskedFields,
) -> Result<Records, Failure>
    ensures held { IfOk result
        (λ records. AreDocumentsOfFiles asked.now files.entry.items (held_documents records)) }
    ensures cause { IfErr result (AreUnreadable files.entry.items) }
{
    let mut records = Records::new(alloc);
    for file in files {
        let RecordFile {
            name,
            format,
            bytes,
        } = file;
        match read_records(alloc, format, &bytes, asked, &mut records) {
            Ok(()) => {}
            Err(error) => return Err(refusal(alloc, name, error)),
        }
    }
    Ok(records)
}

// Why the records of a file can't be read.
fn refusal(alloc: Global, name: &str, error: RecordError) -> Failure
    ensures { IsUnreadable name.now result }
{
    if let RecordCause::OutOfMemory = error.cause {
        return Failure::OutOfMemory;
    }
    match Text::copy_of(alloc, name) {
        Ok(name) => Failure::Record { name, error },
        Err(_) => Failure::OutOfMemory,
    }
}
