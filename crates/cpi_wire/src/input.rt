//! The records of an input, one after the other (RFC 4180).
ghost use Rattle.std.specs.Prelude.{◌≡◌, ◌≢◌, [], IfOk, IfErr};
ghost use Rattle.csv.specs.Records.{fields_of};
ghost use Rattle.cpi_wire.specs.Input.{IsAt, TakesRecord};

use crate::failure::Failure;
use crate::fault::WireFault;
use csv::{ByteRecord, Error, ErrorKind, Reader, ReaderBuilder};
use std::alloc::{AllocError, Global};
use std::io::Read;

/// The reader of an input without a header row, before its first record.
pub(crate) fn record_reader<R: Read>(alloc: Global, input: R) -> Reader<R>
    ensures { IsAt R.remaining (R.remaining input) [] result }
{
    ReaderBuilder::new()
        .has_headers(false)
        .flexible(true)
        .from_reader(alloc, input)
}

// The failure that an error of the reader is for a replay.
fn failure_of(error: &Error) -> Failure
    ensures { result ≢ WireFault.Write }
{
    match error.kind() {
        ErrorKind::OutOfMemory => Failure::of(WireFault::NoMemory),
        _ => Failure::of(WireFault::Read),
    }
}

/// Takes the next record of an input into `row`, and returns whether there was one. The failures are `Read`
/// and `NoMemory`.
pub(crate) fn next_record<R: Read>(
    reader: &mut Reader<R>,
    row: &mut ByteRecord,
) -> Result<bool, Failure>
    ensures ok { IfOk result (λ found. TakesRecord R.remaining reader.old reader.new (fields_of row.new) found) }
    ensures err { IfErr result (λ e. e ≢ WireFault.Write) }
{
    match reader.read_byte_record(row) {
        Ok(found) => Ok(found),
        Err(error) => Err(failure_of(&error)),
    }
}

/// Takes the next row of a text into `row`, and returns whether there was one. The text is in memory, so the only error
/// is that memory ran out.
pub(crate) fn next_row<R: Read>(
    reader: &mut Reader<R>,
    row: &mut ByteRecord,
) -> Result<bool, AllocError>
    ensures { IfOk result (λ found. TakesRecord R.remaining reader.old reader.new (fields_of row.new) found) }
{
    match next_record(reader, row) {
        Ok(found) => Ok(found),
        Err(_) => Err(AllocError),
    }
}
