//! The service that answers the peers of connections.
ghost use Rattle.std.specs.Prelude.{IfErr};
ghost use Rattle.cpi_http.specs.Served.{IsNoted};
ghost use Rattle.cpi_app.specs.Connection.{Serving, connection};

use crate::buffer_note::BufferNote;
use cpi_codes::Moment;
use cpi_http::Ended;
use cpi_wire::{Failure, WriteNote};
use std::io::{Read, Write};

/// Serves the peers of connections, one after another.
pub trait Service {
    /// What serving a connection does to it and to the service.
    ghost serves: { Serving Self };

    /// Serves one connection at a moment: the reader gives the bytes that its peer sends, and the peer gets the bytes
    /// that are written to the writer. The failures are those of `serve_noted` of `cpi_http`: after `Read` the note
    /// beside the reader says that reading from an `R` failed, and after `Write` the other one that writing to a `W`
    /// did.
    fn serve<R: Read, W: Write>(
        &mut self,
        now: Moment,
        reader: &mut R,
        read_note: &mut BufferNote<R>,
        writer: &mut W,
        write_note: &mut WriteNote<W>,
    ) -> Result<Ended, Failure>
        ensures served { serves self.old
            (connection now (R.remaining reader.old) (W.contents writer.old) (W.contents writer.new))
            result self.new }
        ensures noted { IfErr result (IsNoted read_note.new.has_failed write_note.new.has_failed) };
}
