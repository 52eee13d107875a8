//! A network, at whose ports peers connect.
ghost use Rattle.std.specs.Prelude.{◌≡◌, ℕ, Bool, Option, IfOk, OnOk};
ghost use Rattle.std.specs.declared.net.socket_addr.SocketAddrV4.{SocketAddrV4};
ghost use Rattle.cpi_app.specs.declared.network.Peer.{Peer};

use crate::offer_note::OfferNote;
use crate::timed::Timed;
use cpi_codes::Moment;
use std::io;
use std::io::{Read, Write};
use std::net::SocketAddrV4;
use std::time::{Clock, Duration};

/// A peer, by the two ends of its connection: one gives the bytes that it sends, and the bytes that are written to the
/// other go to it.
#[derive(Drop)]
pub struct Peer<R, W> {
    pub reader: R,
    pub writer: W,
}

/// A network, on which one listens at ports.
pub trait Network {
    /// A port at which one listens.
    type Port: Drop;

    /// What a peer sends.
    type Reader: Read + Drop;

    /// What a peer gets.
    type Writer: Write + Drop;

    /// The port is at this address.
    ghost is_at: { Self.Port → SocketAddrV4 → Type 0 };

    /// It was said that somebody listens at this address.
    ghost announces: { Self → SocketAddrV4 → Type 0 };

    /// One wait at a port: the port before it, the peer that came, if one did, and the port after it.
    ghost accepts: { Self → Self.Port → Option (Peer Self.Reader Self.Writer) → Self.Port → Type 0 };

    /// The clock may show this moment, or none, once this peer has come.
    ghost shows: { Self → Peer Self.Reader Self.Writer → Option ℕ → Type 0 };

    /// The connection of a peer was closed: the port before, the peer as it was left, whether writing to it had failed,
    /// and the port after.
    ghost closes: { Self → Self.Port → Peer Self.Reader Self.Writer → Bool → Self.Port → Type 0 };

    /// Listens at the address.
    fn listen_at(&self, address: SocketAddrV4) -> io::Result<Self::Port>
        ensures { IfOk result (λ port. is_at port address) };

    /// Says that somebody listens at the address.
    fn announce(&self, address: SocketAddrV4) -> io::Result<()>
        ensures { OnOk result (announces self.now address) };

    /// Waits for the next peer. `None` if it couldn't be accepted.
    fn accept(&self, port: &mut Self::Port) -> Option<Peer<Self::Reader, Self::Writer>>
        ensures { accepts self.now port.old result port.new };

    /// The moment at which the peer came. `None` if the clock shows no moment.
    fn moment_of(&self, peer: &Peer<Self::Reader, Self::Writer>) -> Option<Moment>
        ensures { shows self.now peer.now result };

    /// Ends what the peer gets, and waits at most so long for each thing that it still sends.
    fn end(&self, peer: &mut Peer<Self::Reader, Self::Writer>, wait: Duration) -> io::Result<()>
        ensures { Self.Writer.contents peer.new.writer ≡ Self.Writer.contents peer.old.writer };

    /// Closes the connection of the peer. The note says whether writing to it has failed.
    fn close<C: Clock>(
        &self,
        port: &mut Self::Port,
        peer: Peer<Self::Reader, Self::Writer>,
        note: &OfferNote<Timed<'_, Self::Writer, C>>,
    )
        ensures { closes self.now port.old peer note.now.has_failed port.new };
}
