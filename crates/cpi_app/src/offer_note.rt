//! Offering bytes to a writer, and whether that has failed.
ghost use Rattle.std.specs.Fmt.{with_newline};
ghost use Rattle.std.specs.Prelude.{◌≡◌, ◌≤◌, ◌⊎◌, [], length, take, IfSome, IsNone, IsErr, IsOk, IsSome, true, false};
ghost use Rattle.std.specs.Io.KnownBytes.{Appends, Keeps};

use std::fmt::Display;
use std::io::Write;
use std::marker::PhantomData;

/// Notes whether a write to a `W` failed, or took nothing. Only [`OfferNote::write_some`], [`OfferNote::write_line`]
/// and [`OfferNote::flush`] change it, and only by writing to a `W`.
#[derive(Drop)]
pub struct OfferNote<W> {
    has_failed: bool,
    of: PhantomData<W>,
}

impl<W: Write> OfferNote<W> {
    /// The note before the first write.
    pub fn new() -> OfferNote<W>
        ensures { result.has_failed ≡ false }
    {
        OfferNote {
            has_failed: false,
            of: PhantomData,
        }
    }

    /// Whether a write failed, or took nothing.
    pub fn has_failed(&self) -> bool
        ensures { result ≡ self.now.has_failed }
    {
        self.has_failed
    }

    /// Writes some first bytes, and answers how many the writer took. `None` if the write failed, or took nothing.
    pub fn write_some(&mut self, writer: &mut W, buf: &[u8]) -> Option<usize>
        ensures bound { IfSome result (λ count. count ≤ length buf.now) }
        ensures some { IfSome result (λ count. count ≡ 0 → buf.now ≡ []) }
        ensures bytes { IfSome result (λ count.
            Appends (W.contents writer.old) (W.contents writer.new) (take count buf.now)) }
        ensures kept { IsSome result → self.new.has_failed ≡ self.old.has_failed }
        ensures none { IsNone result → Keeps (W.contents writer.old) (W.contents writer.new) }
        ensures noted { IsNone result → self.new.has_failed ≡ true }
    {
        match writer.write(buf) {
            Ok(count) if count > 0 || buf.is_empty() => Some(count),
            _ => {
                self.has_failed = true;
                None
            }
        }
    }

    /// Writes a line, with its end. If a write fails, nothing is said of what was written.
    pub fn write_line<D: Display + Drop>(&mut self, writer: &mut W, line: D)
        ensures { (self.new.has_failed ≡ true) ⊎ IfSome (with_newline (D.output line))
            (Appends (W.contents writer.old) (W.contents writer.new)) }
    {
        if writer.writeln(line).is_err() {
            self.has_failed = true;
        }
    }

    /// Flushes the writer.
    pub fn flush(&mut self, writer: &mut W)
        ensures bytes { Keeps (W.contents writer.old) (W.contents writer.new) }
        ensures kept { self.old.has_failed ≡ true → self.new.has_failed ≡ true }
    {
        if writer.flush().is_err() {
            self.has_failed = true;
        }
    }
}
