//! A writer that offers a response to a peer, who may leave before its end.
ghost use Rattle.std.specs.Prelude.{◌≡◌, ◌++◌, [], IfOk, IsOk, false, true};
ghost use Rattle.std.specs.Io.{WritesAtMost};
ghost use Rattle.std.specs.Io.KnownBytes.{Keeps, WriteAppends, append_known};
ghost use Rattle.cpi_app.specs.LostBytes.{lost_bytes, are_noted};

use crate::offer_note::OfferNote;
use http_server::Log;
use std::io;
use std::io::Write;

/// A writer that takes all bytes. They go on to the writer below until one of its writes fails, or takes nothing, which
/// the note says; from then on they are lost. So the office knows what it carried out, even if the peer doesn't take
/// the response. Only proofs read which bytes were lost: the log of them takes no memory.
#[derive(Drop)]
pub struct Offered<W> {
    writer: W,
    note: OfferNote<W>,
    lost: Log<u8, u8>,
    ghost noted: { are_noted note.has_failed lost.items ≡ true },
}

// Puts bytes into the log of those that were lost.
fn lose(lost: &mut Log<u8, u8>, bytes: &[u8])
    ensures { lost_bytes lost.new.items ≡ lost_bytes lost.old.items ++ bytes.now }
{
    for byte in bytes {
        *lost = lost.and(byte, byte);
    }
}

impl<W: Write> Offered<W> {
    /// Offers to the writer whatever is written.
    pub fn new(writer: W) -> Offered<W>
        ensures writer { result.writer ≡ writer }
        ensures taken { result.note.has_failed ≡ false }
        ensures lost { result.lost.items ≡ [] }
    {
        Offered {
            writer,
            note: OfferNote::new(),
            lost: Log::new(),
        }
    }

    /// The writer below, and the note of writing to it.
    pub fn into_parts(self) -> (W, OfferNote<W>)
        ensures writer { result.0 ≡ self.writer }
        ensures note { result.1 ≡ self.note }
    {
        let Offered {
            writer,
            note,
            lost: _,
        } = self;
        (writer, note)
    }
}

impl<W: Write> Write for Offered<W> {
    ghost contents = { λ it. append_known (W.contents it.writer) (lost_bytes it.lost.items) };

    fn write(&mut self, buf: &[u8]) -> io::Result<usize>
        ensures bound { WritesAtMost result buf.now }
        ensures bytes { WriteAppends (append_known (W.contents self.old.writer) (lost_bytes self.old.lost.items))
            (append_known (W.contents self.new.writer) (lost_bytes self.new.lost.items)) result buf.now }
        ensures takes { IsOk result }
        ensures some { IfOk result (λ n. n ≡ 0 → buf.now ≡ []) }
        ensures goes_on { self.new.note.has_failed ≡ false →
            WriteAppends (W.contents self.old.writer) (W.contents self.new.writer) result buf.now }
        ensures once { self.old.note.has_failed ≡ true →
            (self.new.writer ≡ self.old.writer) × (self.new.note.has_failed ≡ true) }
    {
        if !self.note.has_failed() {
            if let Some(count) = self.note.write_some(&mut self.writer, buf) {
                return Ok(count);
            }
        }
        lose(&mut self.lost, buf);
        Ok(buf.len())
    }

    fn flush(&mut self) -> io::Result<()>
        ensures bytes { Keeps (append_known (W.contents self.old.writer) (lost_bytes self.old.lost.items))
            (append_known (W.contents self.new.writer) (lost_bytes self.new.lost.items)) }
        ensures takes { IsOk result }
        ensures once { self.old.note.has_failed ≡ true → self.new ≡ self.old }
    {
        if !self.note.has_failed() {
            self.note.flush(&mut self.writer);
        }
        Ok(())
    }
}
