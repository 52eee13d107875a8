//! Reading the body of a request.
ghost use Rattle.std.specs.Prelude.{◌≡◌, IfOk, IfErr, true};
ghost use Rattle.cpi_http.specs.HeadEnd.{IsFaultOfReading};
ghost use Rattle.cpi_http.specs.Body.{FillsFrom, IsBodyOf};

use cpi_wire::{Failure, ReadNote, WireFault};
use std::alloc::Global;
use std::io::Read;

/// Fills the body and returns true, or returns false if the stream ends before the body does. The failure is `Read`.
pub fn read_body<R: Read>(
    reader: &mut R,
    note: &mut ReadNote<R>,
    body: &mut [u8],
) -> Result<bool, Failure>
    ensures fault { IfErr result (λ e. (e ≡ WireFault.Read) × (note.new.has_failed ≡ true)) }
    ensures body { IfOk result (FillsFrom (R.remaining reader.old) (R.remaining reader.new) body.new) }
{
    let mut at = 0;
    while at < body.len() {
        let n = note.read_some(reader, &mut body[at..])?;
        if n == 0 {
            return Ok(false);
        }
        at += n;
    }
    Ok(true)
}

/// Reads a body of `n` bytes; none if the stream ends before. The failures are `Read` and `NoMemory`.
pub fn receive_body<R: Read>(
    alloc: Global,
    reader: &mut R,
    note: &mut ReadNote<R>,
    n: usize,
) -> Result<Option<Vec<u8>>, Failure>
    ensures fault { IfErr result (IsFaultOfReading note.new.has_failed) }
    ensures body { IfOk result (IsBodyOf (R.remaining reader.old) (R.remaining reader.new) n) }
{
    let mut body = vec![in alloc; 0; n]?;
    if read_body(reader, note, &mut body)? {
        Ok(Some(body))
    } else {
        Ok(None)
    }
}
