//! One connection: its message is read and answered by the office at a desk.
ghost use Rattle.std.specs.Prelude.{IfOk, IfErr};
ghost use Rattle.cpi_http.specs.Message.{setting};
ghost use Rattle.cpi_http.specs.Served.{IsNoted, messages, served_change};
ghost use Rattle.cpi_app.specs.Connection.{ServesFront, GivesUpFront};

use crate::buffer_note::BufferNote;
use crate::desk::Desk;
use crate::service::Service;
use cpi_codes::Moment;
use cpi_http::{Ended, Routes, serve_noted};
use cpi_office::Office;
use cpi_store::Book;
use cpi_wire::{Failure, ReadNote, WriteNote};
use std::alloc::{AllocError, Global};
use std::io::{BufReader, Read, Write};

// Serves one message of the reader, which may read ahead of the message.
fn serve_buffered<R: Read, W: Write, B: Book>(
    alloc: Global,
    routes: &Routes,
    reader: &mut R,
    read_note: &mut ReadNote<R>,
    writer: &mut W,
    write_note: &mut WriteNote<W>,
    now: Moment,
    desk: &Desk,
    office: &mut Office<B>,
) -> Result<Ended, Failure>
    ensures ok { IfOk result (ServesFront B.state (messages (setting now desk.now.zone desk.now.key))
        (R.remaining reader.old)
        (served_change office.old.book office.new.book (W.contents writer.old) (W.contents writer.new))) }
    ensures err { IfErr result (GivesUpFront B.state (messages (setting now desk.now.zone desk.now.key))
        (R.remaining reader.old)
        (served_change office.old.book office.new.book (W.contents writer.old) (W.contents writer.new))) }
    ensures noted { IfErr result (IsNoted read_note.new.has_failed write_note.new.has_failed) }
{
    serve_noted(
        alloc, routes, reader, read_note, writer, write_note, now, &desk.zone, desk.key, office,
    )
}

/// Serves one message of the reader, which it reads through a buffer: bytes after the message may have been read too,
/// and are thrown away. Without routes it makes them for this message, which takes memory. The failures are those of
/// `serve_noted` of `cpi_http`, and a lack of memory for the buffer. After `Read` the first note says that reading
/// failed, and after `Write` the second one that writing did.
pub fn serve_front<R: Read, W: Write, B: Book>(
    alloc: Global,
    routes: Option<&Routes>,
    reader: &mut R,
    read_note: &mut BufferNote<R>,
    writer: &mut W,
    write_note: &mut WriteNote<W>,
    now: Moment,
    desk: &Desk,
    office: &mut Office<B>,
) -> Result<Ended, Failure>
    ensures ok { IfOk result (ServesFront B.state (messages (setting now desk.now.zone desk.now.key))
        (R.remaining reader.old)
        (served_change office.old.book office.new.book (W.contents writer.old) (W.contents writer.new))) }
    ensures err { IfErr result (GivesUpFront B.state (messages (setting now desk.now.zone desk.now.key))
        (R.remaining reader.old)
        (served_change office.old.book office.new.book (W.contents writer.old) (W.contents writer.new))) }
    ensures noted { IfErr result (IsNoted read_note.new.has_failed write_note.new.has_failed) }
{
    let Ok(mut buffered) = BufReader::new(alloc, reader) else {
        return Err(Failure::from(AllocError));
    };
    let mut note = ReadNote::new();
    let ended = match routes {
        Some(routes) => serve_buffered(
            alloc,
            routes,
            &mut buffered,
            &mut note,
            writer,
            write_note,
            now,
            desk,
            office,
        ),
        None => serve_buffered(
            alloc,
            &Routes::new(alloc)?,
            &mut buffered,
            &mut note,
            writer,
            write_note,
            now,
            desk,
            office,
        ),
    };
    read_note.take(&note);
    ended
}

/// The office at a desk. It serves one message of each connection, by routes that it keeps, if it had memory for them.
pub struct OfficeAtDesk<'a, B: Book> {
    pub alloc: Global,
    pub routes: Option<Routes>,
    pub desk: &'a Desk,
    pub office: Office<B>,
}

impl<B: Book> Service for OfficeAtDesk<'_, B> {
    ghost use Rattle.std.specs.Prelude.{◌≡◌};
    ghost use Rattle.cpi_app.specs.Connection.{ServesAtDesk};

    ghost serves = { λ it came outcome after. (after.desk.now ≡ it.desk.now)
        × ServesAtDesk B.state it.desk.now.zone it.desk.now.key it.office.book came outcome after.office.book };

    fn serve<R: Read, W: Write>(
        &mut self,
        now: Moment,
        reader: &mut R,
        read_note: &mut BufferNote<R>,
        writer: &mut W,
        write_note: &mut WriteNote<W>,
    ) -> Result<Ended, Failure> {
        let (alloc, desk, routes) = (self.alloc, self.desk, self.routes.as_ref());
        let office = &mut self.office;
        serve_front(
            alloc, routes, reader, read_note, writer, write_note, now, desk, office,
        )
    }
}
