//! Ends of connections with a deadline, so that no peer holds the office up.
ghost use Rattle.std.specs.Prelude.{◌≡◌};

use std::io;
use std::io::{ErrorKind, Read, Write};
use std::time::{Clock, Duration, Instant};

/// The end of a connection with a deadline: once `limit` has passed since its first read or write, each further one
/// fails with `TimedOut`, whatever the peer sends or takes meanwhile. Until then it reads and writes as the end does.
#[derive(Drop)]
pub struct Timed<'a, S, C> {
    inner: S,
    clock: &'a C,
    started: Option<Instant>,
    limit: Duration,
}

impl<'a, S, C: Clock> Timed<'a, S, C> {
    /// The end with a deadline, whose time begins with the first read or write.
    pub fn new(clock: &'a C, inner: S, limit: Duration) -> Timed<'a, S, C>
        ensures inner { result.inner ≡ inner }
        ensures limit { result.limit ≡ limit }
    {
        Timed {
            inner,
            clock,
            started: None,
            limit,
        }
    }

    /// The end itself.
    pub fn into_inner(self) -> S
        ensures { result ≡ self.entry.inner }
    {
        let Timed {
            inner,
            clock: _,
            started: _,
            limit: _,
        } = self;
        inner
    }

    // Begins the time with the first call. The error is `TimedOut` once the time is over, or that of the clock if it
    // can't be read.
    fn keep_time(&mut self) -> io::Result<()>
        ensures { self.new.inner ≡ self.old.inner }
    {
        let now = Instant::now(self.clock)?;
        match self.started {
            None => self.started = Some(now),
            Some(started) if now.duration_since(started) > self.limit => {
                return Err(io::Error::from(ErrorKind::TimedOut));
            }
            Some(_) => {}
        }
        Ok(())
    }
}

impl<S: Read, C: Clock> Read for Timed<'_, S, C> {
    ghost remaining = { λ it. S.remaining it.inner };

    fn read(&mut self, buf: &mut [u8]) -> io::Result<usize> {
        self.keep_time()?;
        self.inner.read(buf)
    }
}

impl<S: Write, C: Clock> Write for Timed<'_, S, C> {
    ghost contents = { λ it. S.contents it.inner };

    fn write(&mut self, buf: &[u8]) -> io::Result<usize> {
        self.keep_time()?;
        self.inner.write(buf)
    }

    fn flush(&mut self) -> io::Result<()> {
        self.inner.flush()
    }
}
