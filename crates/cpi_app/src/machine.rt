//! The network of the machine, with its clock. Nobody knows beforehand which peers come to it, when, and with which
//! bytes, so no contract says it: people read this file, and tests run it.
ghost use Rattle.std.specs.Prelude.{⊤};

use crate::network::{Network, Peer};
use crate::offer_note::OfferNote;
use crate::timed::Timed;
use cpi_codes::Moment;
use std::io;
use std::net::{Shutdown, SocketAddrV4, TcpListener, TcpStream};
use std::time::{Clock, Duration, SystemTime, UNIX_EPOCH};

/// How many seconds a peer may send nothing of its message, or take nothing of the response.
const SILENT_SECONDS: u64 = 5;

// The two ends of a peer's connection. Each wait for the peer is bounded to `SILENT_SECONDS`.
fn ends_of(reader: TcpStream) -> io::Result<Peer<TcpStream, TcpStream>> {
    let time = Duration::from_secs(SILENT_SECONDS);
    reader.set_read_timeout(Some(time))?;
    reader.set_write_timeout(Some(time))?;
    let writer = reader.try_clone()?;
    Ok(Peer { reader, writer })
}

impl Network for HostRuntime {
    type Port = TcpListener;

    type Reader = TcpStream;

    type Writer = TcpStream;

    ghost is_at = { λ _ _. ⊤ };

    ghost announces = { λ _ _. ⊤ };

    ghost accepts = { λ _ _ _ _. ⊤ };

    ghost shows = { λ _ _ _. ⊤ };

    ghost closes = { λ _ _ _ _ _. ⊤ };

    fn listen_at(&self, address: SocketAddrV4) -> io::Result<TcpListener> {
        TcpListener::bind(self, address)
    }

    fn announce(&self, address: SocketAddrV4) -> io::Result<()> {
        println!(self; "cpi: listening on {address}")
    }

    fn accept(&self, port: &mut TcpListener) -> Option<Peer<TcpStream, TcpStream>> {
        let (stream, _) = port.accept().ok()?;
        ends_of(stream).ok()
    }

    fn moment_of(&self, _peer: &Peer<TcpStream, TcpStream>) -> Option<Moment> {
        let now = SystemTime::now(self).ok()?;
        let since = now.duration_since(UNIX_EPOCH).ok()?;
        Moment::new(since.as_secs())
    }

    fn end(&self, peer: &mut Peer<TcpStream, TcpStream>, wait: Duration) -> io::Result<()> {
        peer.writer.shutdown(Shutdown::Write)?;
        peer.reader.set_read_timeout(Some(wait))
    }

    fn close<C: Clock>(
        &self,
        _port: &mut TcpListener,
        peer: Peer<TcpStream, TcpStream>,
        _note: &OfferNote<Timed<'_, TcpStream, C>>,
    )
        ensures { ⊤ }
    {
        drop(peer);
    }
}
