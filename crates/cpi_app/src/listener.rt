//! The sources of connections: addresses, and the listeners at them.
ghost use Rattle.std.specs.Prelude.{IfOk, IfErr};
ghost use Rattle.cpi_app.specs.Listener.{Meeting, IsUnheard};
ghost use Rattle.cpi_app.specs.Visits.{IsTurn};

use crate::fault::RunFault;
use crate::service::Service;
use cpi_http::Ended;
use cpi_wire::Failure;

/// The clock shows no moment.
#[derive(Clone, Copy, Debug, PartialEq, Eq)]
pub struct NoClock;

/// Waits for connections, and knows the moment at which each comes.
pub trait Listener {
    /// One wait for a connection: the listener before it, the arrival, and the listener after it.
    ghost meets: { Meeting Self };

    /// Waits for the next connection, has it served at its moment, and closes it. Its peer gets nothing else. `None` if
    /// it couldn't be accepted. If the clock shows no moment, it is closed unserved, and the error is `NoClock`.
    fn serve_next<S: Service>(
        &mut self,
        service: &mut S,
    ) -> Result<Option<Result<Ended, Failure>>, NoClock>
        ensures { IsTurn meets S.serves self.old self.new service.old service.new result };
}

/// An address at which connections can be awaited.
pub trait Address {
    /// A listener there.
    type Open: Listener + Drop;

    /// This one was opened there.
    ghost opens: { Self → Self.Open → Type 0 };

    /// Listens there. The errors are `NoPort`, and `Wire(Write)` if it couldn't write the line that says so to standard
    /// output.
    fn listen(&self) -> Result<Self::Open, RunFault>
        ensures ok { IfOk result (opens self.now) }
        ensures err { IfErr result IsUnheard };
}
