//! Reading one byte of a message.
ghost use Rattle.std.specs.Prelude.{◌≡◌, IfOk, IfErr, IfNone, true};
ghost use Rattle.std.specs.Io.KnownBytes.{Consumes, IsAtEnd};
ghost use Rattle.cpi_http.specs.Head.{byte_list};

use cpi_wire::{Failure, ReadNote, WireFault};
use std::io::Read;

/// The next byte; none at the end of the stream. The failure is `Read`.
pub fn read_byte<R: Read>(reader: &mut R, note: &mut ReadNote<R>) -> Result<Option<u8>, Failure>
    ensures bytes { IfOk result (λ b. Consumes (R.remaining reader.old) (R.remaining reader.new) (byte_list b)) }
    ensures end { IfOk result (λ b. IfNone b (IsAtEnd (R.remaining reader.new))) }
    ensures fault { IfErr result (λ e. (e ≡ WireFault.Read) × (note.new.has_failed ≡ true)) }
{
    let mut byte = [0u8; 1];
    if note.read_some(reader, &mut byte)? == 0 {
        return Ok(None);
    }
    Ok(Some(byte[0]))
}
