//! A listener in memory, over which tests run the loop of connections.

use crate::buffer_note::BufferNote;
use crate::listener::{Listener, NoClock};
use crate::service::Service;
use cpi_codes::Moment;
use cpi_http::Ended;
use cpi_wire::{Failure, WriteNote};

/// A connection that waits to be accepted, or did.
#[derive(Drop)]
pub struct Queued {
    /// Whether it can be accepted.
    pub is_open: bool,
    /// The moment that the clock shows when it comes, if any.
    pub moment: Option<Moment>,
    /// The bytes that its peer sends.
    pub sent: Vec<u8>,
    /// The bytes that were written to its peer.
    pub written: Vec<u8>,
}

/// Connections that come in their order, and none after the last one. Their bytes and moments are known, so a test can
/// compare what each peer gets.
#[derive(Drop)]
pub struct Backlog {
    pub queued: Vec<Queued>,
    /// How many of them came.
    pub taken: usize,
}

impl Listener for Backlog {
    ghost use Rattle.cpi_app.specs.Backlog.{MeetsNext};

    ghost meets = { MeetsNext };

    fn serve_next<S: Service>(
        &mut self,
        service: &mut S,
    ) -> Result<Option<Result<Ended, Failure>>, NoClock> {
        let Some(next) = self.queued.get_mut(self.taken) else {
            return Ok(None);
        };
        self.taken += 1;
        if !next.is_open {
            return Ok(None);
        }
        let Some(now) = next.moment else {
            return Err(NoClock);
        };
        let mut sent = next.sent.as_slice();
        let (mut read_note, mut write_note) = (BufferNote::new(), WriteNote::new());
        let outcome = service.serve(
            now,
            &mut sent,
            &mut read_note,
            &mut next.written,
            &mut write_note,
        );
        Ok(Some(outcome))
    }
}
