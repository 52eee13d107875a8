//! A port of this machine, over any network that is like that of the machine.
ghost use Rattle.std.specs.Prelude.{◌≡◌, [], ◌∷◌};
ghost use Rattle.std.specs.Net.Addr.{ipv4_octets};
ghost use Rattle.std.specs.Net.Socket.{v4_ip, v4_port};
ghost use Rattle.cpi_app.specs.ServedPeers.{is_response_taken, is_taken};

use crate::fault::RunFault;
use crate::listener::{Address, Listener, NoClock};
use crate::network::Network;
use crate::offer_note::OfferNote;
use crate::peer::{ServedPeer, hang_up, serve_peer};
use crate::service::Service;
use crate::timed::Timed;
use cpi_http::{Ended, Served};
use cpi_wire::{Failure, WireFault};
use std::io::Write;
use std::net::{Ipv4Addr, SocketAddrV4};
use std::time::Clock;

/// A port of this machine, by its number. Only this machine can connect to it.
#[derive(Drop)]
pub struct LocalPort<'a, N> {
    pub rt: &'a N,
    pub number: u16,
}

impl<N> LocalPort<'_, N> {
    /// Its address.
    pub fn address(&self) -> SocketAddrV4
        ensures ip { ipv4_octets (v4_ip result) ≡ 127 ∷ 0 ∷ 0 ∷ 1 ∷ [] }
        ensures port { v4_port result ≡ self.now.number }
    {
        SocketAddrV4::new(Ipv4Addr::new(127, 0, 0, 1), self.number)
    }
}

/// A port of this machine at which the program listens, with the network and the clock of the machine.
#[derive(Drop)]
pub struct OpenPort<'a, N: Network> {
    port: N::Port,
    rt: &'a N,
}

impl<'a, N: Network + Clock> Address for LocalPort<'a, N> {
    ghost use Rattle.std.specs.Prelude.{◌≡◌};
    ghost use Rattle.cpi_app.specs.LocalAddress.{ListensAt};

    type Open = OpenPort<'a, N>;

    ghost opens = { λ local there. (there.rt.now ≡ local.rt.now)
        × ListensAt N.Network local.rt.now local.number there.port };

    // Listens at the port, and says so.
    fn listen(&self) -> Result<OpenPort<'a, N>, RunFault> {
        let (rt, address) = (self.rt, self.address());
        let Ok(port) = rt.listen_at(address) else {
            return Err(RunFault::NoPort);
        };
        match rt.announce(address) {
            Ok(()) => Ok(OpenPort { port, rt }),
            Err(_) => Err(RunFault::Wire(WireFault::Write)),
        }
    }
}

// Whether a message that ended so was answered, and its peer took the whole response.
fn is_response_taken(served: Served, has_failed: bool) -> bool
    ensures { result ≡ is_response_taken served has_failed }
{
    match served {
        Served::Answered(_, _) => !has_failed,
        Served::Cut => false,
    }
}

// The same of a connection, whose note says whether a write to its peer failed.
fn is_taken<W: Write>(outcome: &Result<Ended, Failure>, note: &OfferNote<W>) -> bool
    ensures { result ≡ is_taken outcome.now note.now.has_failed }
{
    match outcome {
        Ok(ended) => is_response_taken(ended.served, note.has_failed()),
        Err(_) => false,
    }
}

/// A peer that sends too slowly is given up with `Read`. What the peer sent after its message is thrown away, and so is
/// what it doesn't take of the response, or takes too slowly: the message was carried out, and that says nothing
/// against the office.
impl<N: Network + Clock> Listener for OpenPort<'_, N> {
    ghost use Rattle.std.specs.Prelude.{◌≡◌};
    ghost use Rattle.cpi_app.specs.MetPeers.{MeetsPeer};

    ghost meets = { λ was arrival is. (is.rt.now ≡ was.rt.now)
        × MeetsPeer N.Network N.Reader.remaining N.Writer.contents was.rt.now was.port arrival is.port };

    fn serve_next<S: Service>(
        &mut self,
        service: &mut S,
    ) -> Result<Option<Result<Ended, Failure>>, NoClock> {
        let rt = self.rt;
        let Some(peer) = rt.accept(&mut self.port) else {
            return Ok(None);
        };
        let Some(now) = rt.moment_of(&peer) else {
            let note: OfferNote<Timed<'_, N::Writer, N>> = OfferNote::new();
            rt.close(&mut self.port, peer, &note);
            return Err(NoClock);
        };
        let ServedPeer {
            outcome,
            peer,
            note,
        } = serve_peer(rt, now, service, peer);
        let left = hang_up(rt, rt, is_taken(&outcome, &note), peer);
        rt.close(&mut self.port, left, &note);
        Ok(Some(outcome))
    }
}
