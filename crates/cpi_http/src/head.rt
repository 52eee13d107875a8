//! Reading the head of a request (RFC 9112, sections 2 to 5).
ghost use Rattle.std.specs.Prelude.{◌≡◌, ◌≤◌, [], ◌∷◌, ◌++◌, length, OnOk, IfOk, IfErr};
ghost use Rattle.std.specs.Io.KnownBytes.{Consumes};
ghost use Rattle.cpi_http.specs.HeadEnd.{HeadEndIs, IsFaultOfReading};

use crate::limits::{MOST_FIELDS, MOST_HEAD_BYTES};
use crate::read::read_byte;
use cpi_wire::{Failure, ReadNote};
use httparse::Status;
use httparse::spans::{HeaderSpan, RequestSpans, parse_request};
use std::alloc::AllocError;
use std::io::Read;

/// How reading a head ended.
#[derive(Clone, Copy, PartialEq, Eq)]
pub enum HeadEnd {
    /// A head within the limits, which ends where reading stopped.
    Whole(RequestSpans),
    /// No head within the limits, whatever follows.
    Malformed,
    /// The stream ended before the head was whole.
    Cut,
}

// Adds one byte to the buffer.
fn push_byte(buf: &mut Vec<u8>, byte: u8) -> Result<(), AllocError>
    ensures { OnOk result (buf.new.items ≡ buf.old.items ++ byte ∷ []) }
{
    buf.push(byte)?;
    Ok(())
}

/// Reads the head of a request, and no byte after it. The failures are `Read` and `NoMemory`.
pub fn read_head<R: Read>(
    reader: &mut R,
    note: &mut ReadNote<R>,
    buf: &mut Vec<u8>,
    fields: &mut [HeaderSpan],
) -> Result<HeadEnd, Failure>
    requires empty { buf.old.items ≡ [] }
    requires room { length fields.old ≡ MOST_FIELDS }
    ensures bytes { OnOk result (Consumes (R.remaining reader.old) (R.remaining reader.new) buf.new.items) }
    ensures fault { IfErr result (IsFaultOfReading note.new.has_failed) }
    ensures head { IfOk result (HeadEndIs buf.new.items fields.new (R.remaining reader.new)) }
{
    'bytes: while buf.len() < MOST_HEAD_BYTES {
        let Some(byte) = read_byte(reader, note)? else {
            return Ok(HeadEnd::Cut);
        };
        push_byte(buf, byte)?;
        if byte == b'\n' {
            match parse_request(buf, fields) {
                Ok(Status::Complete(spans)) => return Ok(HeadEnd::Whole(spans)),
                Ok(Status::Partial) => {}
                Err(_) => return Ok(HeadEnd::Malformed),
            }
        }
    }
    Ok(HeadEnd::Malformed)
}
