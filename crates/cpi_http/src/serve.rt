//! One HTTP message: it is read, carried out and answered (RFC 9112).
ghost use Rattle.std.specs.Prelude.{◌≡◌, ◌++◌, false, true, None, IfOk, IfErr, OnOk, OnErr};
ghost use Rattle.std.specs.Io.KnownBytes.{Appends};
ghost use Rattle.cpi_office.specs.declared.refusal.Refusal.TheVariants.{BadRequest};
ghost use Rattle.cpi_office.specs.declared.reply.Reply.TheVariants.{Refused};
ghost use Rattle.cpi_wire.specs.Answers.{Begins};
ghost use Rattle.cpi_wire.specs.Causes.{IsCaused};
ghost use Rattle.cpi_wire.specs.Line.{line_of_reply};
ghost use Rattle.cpi_http.specs.Bytes.{http_of};
ghost use Rattle.cpi_http.specs.Message.{asked_by, setting};
ghost use Rattle.cpi_http.specs.Response.{IsCarriedOut, ask_in, body_bytes, in_json};
ghost use Rattle.cpi_http.specs.Served.{bodies, messages, served_change, is_failed, IsNoted, IsServed, GaveUp, SendFails};

use crate::asked::asked_by;
use crate::body::receive_body;
use crate::bytes::front_of;
use crate::called::called_of;
use crate::framing::framing;
use crate::head::{HeadEnd, read_head};
use crate::limits::{MOST_BYTES_WITH_HEAD, MOST_FIELDS};
use crate::responses::{Response, refusal, respond};
use crate::routes::{Route, Routes};
use cpi_codes::{Key, Moment, Zone};
use cpi_office::{Caller, Cause, Office};
use cpi_store::Book;
use cpi_wire::{Failure, ReadNote, WireFault, WriteNote};
use http::StatusCode;
use httparse::spans::EMPTY_HEADER_SPAN;
use std::alloc::{AllocError, Global};
use std::io::{Read, Write};

/// How the message of a connection ended.
#[derive(Clone, Copy, PartialEq, Eq)]
pub enum Served {
    /// The status that was written, and whether one of the replies is that the office was unavailable.
    Answered(StatusCode, bool),
    /// The stream ended within the message. Nothing was carried out, and nothing written.
    Cut,
}

/// How the message of a connection ended, and a cause if a reply says that the office was unavailable.
#[derive(Clone, Copy)]
pub struct Ended {
    pub served: Served,
    pub cause: Option<Cause>,
}

// Writes two texts, one after the other.
fn write_both<W: Write>(
    writer: &mut W,
    note: &mut WriteNote<W>,
    front: &[u8],
    rest: &[u8],
) -> Result<(), Failure>
    ensures whole { OnOk result (Appends (W.contents writer.old) (W.contents writer.new) (front.now ++ rest.now)) }
    ensures part { IfErr result (SendFails (W.contents writer.old) (W.contents writer.new) (front.now ++ rest.now)) }
    ensures noted { IfErr result (λ _. note.new.has_failed ≡ true) }
{
    note.write_whole(writer, front)?;
    note.write_whole(writer, rest)
}

// Writes a response: first its head with the first bytes of its body, up to `MOST_BYTES_WITH_HEAD`, and then the others
// from their place in memory, so that a long body isn't in memory twice.
fn send<W: Write>(
    alloc: Global,
    writer: &mut W,
    note: &mut WriteNote<W>,
    response: &Response,
) -> Result<Ended, Failure>
    ensures ok { IfOk result (λ ended. ended.served ≡ Served.Answered response.now.status response.now.failed) }
    ensures cause { IfOk result (λ ended. ended.cause ≡ response.now.cause) }
    ensures whole { OnOk result (Appends (W.contents writer.old) (W.contents writer.new)
        (http_of response.now.status response.now.content response.now.body.items)) }
    ensures err { IfErr result (SendFails (W.contents writer.old) (W.contents writer.new)
        (http_of response.now.status response.now.content response.now.body.items)) }
    ensures noted { IfErr result (λ e. e ≡ WireFault.Write → note.new.has_failed ≡ true) }
{
    let size = response.body.len();
    let (begun, rest) = response.body.split_at(size.min(MOST_BYTES_WITH_HEAD));
    let front = front_of(alloc, response.status, response.content, size, begun)?;
    write_both(writer, note, &front, rest)?;
    Ok(Ended {
        served: Served::Answered(response.status, response.failed),
        cause: response.cause,
    })
}

// Refuses a message before a request was made of it.
fn refuse<W: Write>(
    alloc: Global,
    writer: &mut W,
    note: &mut WriteNote<W>,
    status: StatusCode,
) -> Result<Ended, Failure>
    ensures ok { IfOk result (λ ended. ended.served ≡ Served.Answered status false) }
    ensures cause { IfOk result (λ ended. ended.cause ≡ None) }
    ensures whole { OnOk result (Appends (W.contents writer.old) (W.contents writer.new)
        (body_bytes (in_json status (line_of_reply (Refused BadRequest))))) }
    ensures err { IfErr result (SendFails (W.contents writer.old) (W.contents writer.new)
        (body_bytes (in_json status (line_of_reply (Refused BadRequest))))) }
    ensures noted { IfErr result (λ e. e ≡ WireFault.Write → note.new.has_failed ≡ true) }
{
    send(alloc, writer, note, &refusal(alloc, status)?)
}

// Carries out a whole message. If memory runs out, the message may have been begun.
fn carry_out<B: Book>(
    alloc: Global,
    now: Moment,
    zone: &Zone,
    called: Result<(Route, Caller), StatusCode>,
    path: &[u8],
    body: &[u8],
    office: &mut Office<B>,
) -> Result<Response, AllocError>
    ensures ok { IfOk result (IsCarriedOut B.state (asked_by now zone.now called path.now body.now)
        office.old.book office.new.book) }
    ensures caused { IfOk result (λ response. IsCaused (B.state office.old.book) (B.state office.new.book)
        response.failed response.cause) }
    ensures err { OnErr result (Begins B.state office.old.book (ask_in (asked_by now zone.now called path.now body.now))
        office.new.book) }
{
    match asked_by(alloc, now, zone, called, path, body)? {
        Ok(ask) => respond(alloc, office, ask),
        Err(status) => refusal(alloc, status),
    }
}

// Reads the body after a head, carries out the message and answers it. The size is that of the body, in bytes, or the
// status that refuses the message before its body is read.
fn serve_body<R: Read, W: Write, B: Book>(
    alloc: Global,
    reader: &mut R,
    read_note: &mut ReadNote<R>,
    writer: &mut W,
    write_note: &mut WriteNote<W>,
    now: Moment,
    zone: &Zone,
    size: Result<usize, StatusCode>,
    called: Result<(Route, Caller), StatusCode>,
    path: &[u8],
    office: &mut Office<B>,
) -> Result<Ended, Failure>
    ensures ok { IfOk result (λ ended. IsServed B.state (bodies now zone.now size called path.now)
        (R.remaining reader.old) (R.remaining reader.new)
        (served_change office.old.book office.new.book (W.contents writer.old) (W.contents writer.new))
        ended.served) }
    ensures err { IfErr result (GaveUp B.state (bodies now zone.now size called path.now)
        (R.remaining reader.old) (R.remaining reader.new)
        (served_change office.old.book office.new.book (W.contents writer.old) (W.contents writer.new))) }
    ensures caused { IfOk result (λ ended. IsCaused (B.state office.old.book) (B.state office.new.book)
        (is_failed ended.served) ended.cause) }
    ensures noted { IfErr result (IsNoted read_note.new.has_failed write_note.new.has_failed) }
{
    let length = match size {
        Ok(length) => length,
        Err(status) => return refuse(alloc, writer, write_note, status),
    };
    let Some(body) = receive_body(alloc, reader, read_note, length)? else {
        return Ok(Ended {
            served: Served::Cut,
            cause: None,
        });
    };
    let response = carry_out(alloc, now, zone, called, path, &body, office)?;
    send(alloc, writer, write_note, &response)
}

/// Reads one HTTP message at a moment, in seconds since 1970 UTC, carries out on the office what it asks, and writes
/// its response. Civil times are read by the clock of the zone. A message with the desk's key comes from the desk, one
/// with any other key from a collector, and one without a key from the public.
///
/// The message is judged in this order: whole (or `Cut`: nothing is done or written); its head, of at most 8,192 bytes
/// and 64 fields (400); no transfer coding (501); its length, one number (400) up to 65,536 (413); its route (404); its
/// caller (400); what it asks, which must make a record (400). Then the request is carried out. No byte after the
/// message is read, and `read` is called at most `MOST_MESSAGE_CALLS` times.
///
/// After `Read` nothing was carried out. After `Write` all commands of the message were carried out; the same message,
/// sent again, is answered anew. After `NoMemory` the first commands of it were carried out, or none.
pub fn serve_one<R: Read, W: Write, B: Book>(
    alloc: Global,
    reader: &mut R,
    writer: &mut W,
    now: Moment,
    zone: &Zone,
    desk_key: Key,
    office: &mut Office<B>,
) -> Result<Served, WireFault>
    ensures ok { IfOk result (IsServed B.state (messages (setting now zone.now desk_key))
        (R.remaining reader.old) (R.remaining reader.new)
        (served_change office.old.book office.new.book (W.contents writer.old) (W.contents writer.new))) }
    ensures err { IfErr result (GaveUp B.state (messages (setting now zone.now desk_key))
        (R.remaining reader.old) (R.remaining reader.new)
        (served_change office.old.book office.new.book (W.contents writer.old) (W.contents writer.new))) }
{
    let routes = Routes::new(alloc)?;
    let (mut read_note, mut write_note) = (ReadNote::new(), WriteNote::new());
    let ended = serve_noted(
        alloc,
        &routes,
        reader,
        &mut read_note,
        writer,
        &mut write_note,
        now,
        zone,
        desk_key,
        office,
    )?;
    Ok(ended.served)
}

/// Does what [`serve_one`] does, by routes that are kept from message to message, and says why if the message isn't
/// answered: if a reply is 90, a cause comes with it, and it gives up only by a [`Failure`]. After `Read` the first
/// note says that reading failed, and after `Write` the second one says that writing did.
pub fn serve_noted<R: Read, W: Write, B: Book>(
    alloc: Global,
    routes: &Routes,
    reader: &mut R,
    read_note: &mut ReadNote<R>,
    writer: &mut W,
    write_note: &mut WriteNote<W>,
    now: Moment,
    zone: &Zone,
    desk_key: Key,
    office: &mut Office<B>,
) -> Result<Ended, Failure>
    ensures ok { IfOk result (λ ended. IsServed B.state (messages (setting now zone.now desk_key))
        (R.remaining reader.old) (R.remaining reader.new)
        (served_change office.old.book office.new.book (W.contents writer.old) (W.contents writer.new))
        ended.served) }
    ensures err { IfErr result (GaveUp B.state (messages (setting now zone.now desk_key))
        (R.remaining reader.old) (R.remaining reader.new)
        (served_change office.old.book office.new.book (W.contents writer.old) (W.contents writer.new))) }
    ensures caused { IfOk result (λ ended. IsCaused (B.state office.old.book) (B.state office.new.book)
        (is_failed ended.served) ended.cause) }
    ensures noted { IfErr result (IsNoted read_note.new.has_failed write_note.new.has_failed) }
{
    let mut buf = Vec::new(alloc);
    let mut fields = [EMPTY_HEADER_SPAN; MOST_FIELDS];
    let spans = match read_head(reader, read_note, &mut buf, &mut fields)? {
        HeadEnd::Whole(spans) => spans,
        HeadEnd::Malformed => return refuse(alloc, writer, write_note, StatusCode::BAD_REQUEST),
        HeadEnd::Cut => {
            return Ok(Ended {
                served: Served::Cut,
                cause: None,
            });
        }
    };
    let fields = &fields[..spans.headers];
    let path = spans.path.of(&buf);
    let size = framing(&buf, fields);
    let called = called_of(routes, desk_key, &buf, fields, spans.method.of(&buf), path);
    serve_body(
        alloc, reader, read_note, writer, write_note, now, zone, size, called, path, office,
    )
}
