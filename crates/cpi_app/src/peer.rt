//! A peer is served: its message is read, and it gets the response.
ghost use Rattle.std.specs.Prelude.{◌≡◌};
ghost use Rattle.cpi_app.specs.ServedPeers.{ServesPeer};

use crate::buffer_note::BufferNote;
use crate::network::{Network, Peer};
use crate::offer_note::OfferNote;
use crate::offered::Offered;
use crate::service::Service;
use crate::timed::Timed;
use cpi_codes::Moment;
use cpi_http::Ended;
use cpi_wire::{Failure, WriteNote};
use std::io::{Read, Write};
use std::time::{Clock, Duration};

/// How many seconds a peer may take to send its message, and again to take the response.
const MESSAGE_SECONDS: u64 = 10;

/// How many seconds a peer may take to close after its response.
const CLOSING_SECONDS: u64 = 1;

/// How many times a peer is heard after its response.
const CLOSING_READS: u32 = 1024;

/// How many bytes are taken each time.
const CLOSING_BYTES: usize = 4096;

/// A peer that was served, with the outcome and the note of writing to it.
#[derive(Drop)]
pub struct ServedPeer<'a, R, W, C> {
    pub outcome: Result<Ended, Failure>,
    pub peer: Peer<R, W>,
    pub note: OfferNote<Timed<'a, W, C>>,
}

// Takes the bytes that a peer still sends, for at most `CLOSING_SECONDS`.
fn drain<R: Read, C: Clock>(clock: &C, reader: R) -> R {
    let mut reader = Timed::new(clock, reader, Duration::from_secs(CLOSING_SECONDS));
    let mut rest = [0; CLOSING_BYTES];
    for _ in 0..CLOSING_READS {
        match reader.read(&mut rest) {
            Ok(count) if count > 0 => {}
            _ => break,
        }
    }
    reader.into_inner()
}

/// Hangs up after a response that the peer took: ends it, and for at most `CLOSING_SECONDS` takes the bytes that the
/// peer still sends. A close while bytes are unread would reset the connection, and the peer might lose its response
/// (RFC 9112, section 9.6). Nothing more is written to the peer.
pub fn hang_up<N: Network, C: Clock>(
    network: &N,
    clock: &C,
    is_taken: bool,
    peer: Peer<N::Reader, N::Writer>,
) -> Peer<N::Reader, N::Writer>
    ensures { N.Writer.contents result.writer ≡ N.Writer.contents peer.writer }
{
    let mut peer = peer;
    let wait = Duration::from_secs(CLOSING_SECONDS);
    if !is_taken || network.end(&mut peer, wait).is_err() {
        return peer;
    }
    let Peer { reader, writer } = peer;
    let reader = drain(clock, reader);
    Peer { reader, writer }
}

/// Has the message of a peer served at a moment. The response is offered to the peer.
pub fn serve_peer<'a, S: Service, R: Read, W: Write, C: Clock>(
    clock: &'a C,
    now: Moment,
    service: &mut S,
    peer: Peer<R, W>,
) -> ServedPeer<'a, R, W, C>
    ensures { ServesPeer S.serves service.old (R.remaining peer.reader) (W.contents peer.writer) now
        result.outcome service.new (W.contents result.peer.writer) result.note.has_failed }
{
    let Peer { reader, writer } = peer;
    let time = Duration::from_secs(MESSAGE_SECONDS);
    let mut reader = Timed::new(clock, reader, time);
    let mut writer = Offered::new(Timed::new(clock, writer, time));
    let (mut read_note, mut write_note) = (BufferNote::new(), WriteNote::new());
    let outcome = service.serve(
        now,
        &mut reader,
        &mut read_note,
        &mut writer,
        &mut write_note,
    );
    let (writer, note) = writer.into_parts();
    let peer = Peer {
        reader: reader.into_inner(),
        writer: writer.into_inner(),
    };
    ServedPeer {
        outcome,
        peer,
        note,
    }
}
