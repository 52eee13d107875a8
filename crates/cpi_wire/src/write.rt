//! Writing a whole text to any writer.
ghost use Rattle.std.specs.Prelude.{◌≡◌, ◌<◌, ℕ, length, take, OnOk, IfErr};
ghost use Rattle.std.specs.Io.KnownBytes.{Appends};

use crate::fault::WireFault;
use std::io::Write;

/// Writes the whole text. An error of the writer, or a count of 0, is `Write`.
pub fn write_whole<W: Write>(writer: &mut W, text: &[u8]) -> Result<(), WireFault>
    ensures whole { OnOk result (Appends (W.contents writer.old) (W.contents writer.new) text.now) }
    ensures part { IfErr result (λ e. (e ≡ WireFault.Write) × (count : ℕ) × (count < length text.now)
        × Appends (W.contents writer.old) (W.contents writer.new) (take count text.now)) }
{
    let mut at = 0;
    while at < text.len() {
        match writer.write(&text[at..]) {
            Ok(0) => return Err(WireFault::Write),
            Ok(n) => at += n,
            Err(_) => return Err(WireFault::Write),
        }
    }
    Ok(())
}
