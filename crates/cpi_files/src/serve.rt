//! The job of serving the office of files over HTTP.
ghost use Rattle.std.specs.Prelude.{◌↔◌, IsNone, IfOk, IfErr, IsErrOf};
ghost use Rattle.jiff.specs.Words.{read_whole};
ghost use Rattle.cpi_app.specs.Desk.{HasNoKey};
ghost use Rattle.cpi_app.specs.Listener.{IsUnheard};
ghost use Rattle.cpi_files.specs.Serve.{EndsWithBook, EndsAtDesk, EndsServing, IsListener};

use crate::cabinet::Cabinet;
use crate::job::BookJob;
use crate::taken::job_in_cabinet;
use cpi_app::{Address, Desk, RunFault, desk_of, serve_book};
use cpi_store::Book;
use std::alloc::Global;
use std::io::{Read, Write, empty, sink};

// The rest of serving: the listener, and how many connections are left to serve.
#[derive(Drop)]
struct Rest<L> {
    listener: L,
    left: u32,
}

// Serving up to `limit` connections at an address. It has a listener once an office has been opened.
#[derive(Drop)]
struct Serve<'a, R: Eprint, A: Address> {
    rt: &'a R,
    desk: &'a Desk,
    address: &'a A,
    listener: Option<A::Open>,
    limit: u32,
}

// The listener that there is, or else one that is opened at the address. The error is that of the address.
fn listener_at<A: Address>(address: &A, listener: Option<A::Open>) -> Result<A::Open, RunFault>
    ensures ok { IfOk result (IsListener (A.opens address.now) listener) }
    ensures err { IfErr result (λ why. IsUnheard why × IsNone listener) }
{
    match listener {
        Some(listener) => Ok(listener),
        None => address.listen(),
    }
}

impl<R: Eprint, A: Address> BookJob for Serve<'_, R, A> {
    ghost use Rattle.cpi_files.specs.Serve.{Serves};

    type Told = Result<Rest<A::Open>, RunFault>;

    ghost does = { λ job. Serves A.Open.meets (A.opens job.address.now) job.desk.now job.listener job.limit };

    fn run<B: Book, I: Read, W: Write, E: Write>(
        &mut self,
        alloc: Global,
        book: B,
        _reader: &mut I,
        _out: &mut W,
        _err: &mut E,
    ) -> (B, Result<Rest<A::Open>, RunFault>) {
        if self.listener.is_some() {
            let _ = eprintln!(self.rt; "cpi: the file is open again");
        }
        let mut listener = match listener_at(self.address, self.listener.take()) {
            Ok(listener) => listener,
            Err(fault) => return (book, Err(fault)),
        };
        let (book, served) = serve_book(alloc, self.rt, &mut listener, self.limit, self.desk, book);
        match served {
            Ok(left) => (book, Ok(Rest { listener, left })),
            Err(_) => (book, Err(RunFault::NoClock)),
        }
    }
}

// Serves over the office of the cabinet's files until no connection is left or one of them shakes the book, and closes
// them. If none is left and the close failed, that is the error.
fn serve_in_cabinet<R: Eprint, C: Cabinet, A: Address>(
    alloc: Global,
    cabinet: &mut C,
    job: Serve<'_, R, A>,
) -> Result<Rest<A::Open>, RunFault>
    ensures { EndsWithBook C.Cabinet C.Medium.Disk A.Open.meets (A.opens job.entry.address.now)
        job.entry.desk.now job.entry.listener job.entry.limit cabinet.old cabinet.new result }
{
    let mut job = job;
    let (outcome, closed) = job_in_cabinet(
        alloc,
        cabinet,
        &mut job,
        &mut empty(),
        &mut sink(),
        &mut sink(),
    )?;
    let rest = outcome?;
    if rest.left > 0 {
        return Ok(rest);
    }
    closed?;
    Ok(rest)
}

// Serves over the office of the cabinet's files with the desk. If a connection shakes the book and others are left, the
// files are opened again.
fn serve_at_desk<R: Eprint, C: Cabinet, A: Address>(
    alloc: Global,
    rt: &R,
    cabinet: &mut C,
    address: &A,
    desk: &Desk,
    limit: u32,
) -> Result<(), RunFault>
    ensures { EndsAtDesk C.Cabinet C.Medium.Disk A.Open.meets (A.opens address.now) desk.now limit
        cabinet.old cabinet.new result }
{
    let job = Serve {
        rt,
        desk,
        address,
        listener: None,
        limit,
    };
    let mut rest = serve_in_cabinet(alloc, cabinet, job)?;
    while rest.left > 0 {
        let Rest { listener, left } = rest;
        let job = Serve {
            rt,
            desk,
            address,
            listener: Some(listener),
            limit: left,
        };
        rest = serve_in_cabinet(alloc, cabinet, job)?;
    }
    let _ = eprintln!(rt; "cpi: served as many connections as --limit says");
    Ok(())
}

/// Serves the office of the cabinet's files over HTTP at an address, for `limit` connections one after another, with
/// the desk of the zone and the key. If a connection shakes the book, the files are closed, put back and taken again,
/// and the listener stays. The errors are those of the zone, of the key, of the database and of the address, in this
/// order, and then those of the run. Standard error gets a line when the book is shaken, when the files are open
/// again, and when the limit is reached.
pub fn run_serve<R: Eprint, C: Cabinet, A: Address>(
    alloc: Global,
    rt: &R,
    cabinet: &mut C,
    address: &A,
    key: &str,
    limit: u32,
    zone: &str,
) -> Result<(), RunFault>
    ensures ends { EndsServing C.Cabinet C.Medium.Disk A.Open.meets (A.opens address.now)
        zone.now key.now limit cabinet.old cabinet.new result }
    ensures bad_zone { IsErrOf result RunFault.BadZone ↔ IsNone (read_whole zone.now) }
    ensures bad_key { IsErrOf result RunFault.BadKey ↔ HasNoKey zone.now key.now }
{
    let desk = desk_of(zone, key)?;
    serve_at_desk(alloc, rt, cabinet, address, &desk, limit)
}
