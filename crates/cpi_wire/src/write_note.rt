//! Writing to a writer, and whether that has failed.
ghost use Rattle.std.specs.Prelude.{◌≡◌, ◌<◌, ℕ, length, take, OnOk, IfErr, true, false};
ghost use Rattle.std.specs.Io.KnownBytes.{Appends};

use crate::failure::Failure;
use crate::fault::WireFault;
use crate::write::write_whole;
use std::io::Write;
use std::marker::PhantomData;

/// Notes whether a text couldn't be written whole to a `W`. Only [`WriteNote::write_whole`] changes it, and only by
/// writing to a `W`.
#[derive(Drop)]
pub struct WriteNote<W> {
    has_failed: bool,
    of: PhantomData<W>,
}

impl<W: Write> WriteNote<W> {
    /// The note before the first write.
    pub fn new() -> WriteNote<W>
        ensures { result.has_failed ≡ false }
    {
        WriteNote {
            has_failed: false,
            of: PhantomData,
        }
    }

    /// Whether a text couldn't be written whole.
    pub fn has_failed(&self) -> bool
        ensures { result ≡ self.now.has_failed }
    {
        self.has_failed
    }

    /// Writes the whole text, as [`write_whole`] does.
    pub fn write_whole(&mut self, writer: &mut W, text: &[u8]) -> Result<(), Failure>
        ensures whole { OnOk result (Appends (W.contents writer.old) (W.contents writer.new) text.now) }
        ensures part { IfErr result (λ e. (e ≡ WireFault.Write) × (count : ℕ) × (count < length text.now)
            × Appends (W.contents writer.old) (W.contents writer.new) (take count text.now)) }
        ensures noted { IfErr result (λ _. self.new.has_failed ≡ true) }
    {
        match write_whole(writer, text) {
            Ok(()) => Ok(()),
            Err(fault) => {
                self.has_failed = true;
                Err(Failure::of(fault))
            }
        }
    }
}
