//! A reader of a limited number of calls.
ghost use Rattle.std.specs.Prelude.{◌≡◌};

use std::io;
use std::io::Read;

/// A reader that returns an error once a number of calls of `read` were made, so that reading ends on every input.
#[derive(Drop)]
pub(crate) struct CallCountingReader<R> {
    inner: R,
    calls_left: u32,
}

impl<R: Read> CallCountingReader<R> {
    /// A reader over `inner` with this number of calls.
    pub(crate) fn new(inner: R, calls: u32) -> CallCountingReader<R>
        ensures inner { result.inner ≡ inner }
        ensures calls { result.calls_left ≡ calls }
    {
        CallCountingReader {
            inner,
            calls_left: calls,
        }
    }
}

impl<R: Read> Read for CallCountingReader<R> {
    ghost remaining = { λ s. R.remaining s.inner };

    fn read(&mut self, buf: &mut [u8]) -> io::Result<usize> {
        if self.calls_left == 0 {
            return Err(io::Error::from(io::ErrorKind::Other));
        }
        self.calls_left -= 1;
        self.inner.read(buf)
    }
}
