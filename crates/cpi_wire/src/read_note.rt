//! Reading a message from a stream that may be interrupted, in a limited number of calls.
ghost use Rattle.std.specs.Prelude.{◌≡◌, ◌≤◌, ◌<◌, length, take, IfOk, IfErr, true, false};
ghost use Rattle.std.specs.Io.KnownBytes.{Consumes, IsAtEnd};

use crate::failure::Failure;
use crate::fault::WireFault;
use crate::limits::MOST_MESSAGE_CALLS;
use std::io::{ErrorKind, Read};
use std::marker::PhantomData;

/// Notes how reading one message from an `R` goes: the calls of `read` that are left, and whether one of them failed or
/// none was left. Only [`ReadNote::read_some`] changes it, and only by reading from an `R`.
#[derive(Drop)]
pub struct ReadNote<R> {
    calls_left: u32,
    has_failed: bool,
    of: PhantomData<R>,
}

impl<R: Read> ReadNote<R> {
    /// The note before the first read. There are `MOST_MESSAGE_CALLS` calls.
    pub fn new() -> ReadNote<R>
        ensures calls { result.calls_left ≡ MOST_MESSAGE_CALLS }
        ensures fresh { result.has_failed ≡ false }
    {
        ReadNote {
            calls_left: MOST_MESSAGE_CALLS,
            has_failed: false,
            of: PhantomData,
        }
    }

    /// Whether a read failed, or no call was left.
    pub fn has_failed(&self) -> bool
        ensures { result ≡ self.now.has_failed }
    {
        self.has_failed
    }

    /// Reads as `read` does, and again if it was interrupted. The failure is `Read`: `read` failed, or no call is left.
    pub fn read_some(&mut self, reader: &mut R, buf: &mut [u8]) -> Result<usize, Failure>
        ensures within { IfOk result (λ n. n ≤ length buf.new) }
        ensures bytes { IfOk result (λ n. Consumes (R.remaining reader.old) (R.remaining reader.new) (take n buf.new)) }
        ensures end { IfOk result (λ n. n ≡ 0 → 0 < length buf.new → IsAtEnd (R.remaining reader.new)) }
        ensures fault { IfErr result (λ e. (e ≡ WireFault.Read) × (self.new.has_failed ≡ true)) }
    {
        while self.calls_left > 0 {
            self.calls_left -= 1;
            match reader.read(buf) {
                Ok(n) => return Ok(n),
                Err(error) => {
                    if error.kind() != ErrorKind::Interrupted {
                        break;
                    }
                }
            }
        }
        self.has_failed = true;
        Err(Failure::of(WireFault::Read))
    }
}
