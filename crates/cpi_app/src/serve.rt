//! The loop that serves connections, one after another.
ghost use Rattle.std.specs.Prelude.{◌≡◌};
ghost use Rattle.cpi_app.specs.Connection.{ServesAtDesk};
ghost use Rattle.cpi_app.specs.Visits.{ServesUpTo};

use crate::connection::OfficeAtDesk;
use crate::desk::Desk;
use crate::listener::{Listener, NoClock};
use crate::service::Service;
use crate::shake::{Shake, shake_of};
use cpi_http::Routes;
use cpi_office::Office;
use cpi_store::Book;
use std::alloc::Global;

// Reports on standard error that so many connections are left, if they are 100,000, 10,000 or 1,000.
fn report_left<R: Eprint>(rt: &R, left: u32) {
    if matches!(left, 100_000 | 10_000 | 1000) {
        let _ = eprintln!(rt; "cpi: {left} connections of --limit are left");
    }
}

// Reports on standard error why the book is opened again, or would be if connections were left.
fn report_shake<R: Eprint>(rt: &R, shake: Shake, left: u32) {
    let _ = if left > 0 {
        eprintln!(rt; "cpi: {shake}, opening the file again")
    } else {
        eprintln!(rt; "cpi: {shake}")
    };
}

/// Serves up to `limit` connections one after another, each as it comes, until one of them shakes the book, and answers
/// how many are left. A connection that can't be accepted counts as one. Standard error gets a line that says why the
/// book was shaken, and one as 100,000, 10,000 and 1,000 connections are left. The error is that the machine's clock
/// shows no moment.
pub fn serve_each<R: Eprint, L: Listener, S: Service>(
    rt: &R,
    listener: &mut L,
    limit: u32,
    service: &mut S,
) -> Result<u32, NoClock>
    ensures { ServesUpTo L.meets S.serves limit listener.old listener.new service.old service.new result }
{
    for served in 0..limit {
        let Some(outcome) = listener.serve_next(service)? else {
            continue;
        };
        let left = limit - served - 1;
        report_left(rt, left);
        if let Some(shake) = shake_of(&outcome) {
            report_shake(rt, shake, left);
            return Ok(left);
        }
    }
    Ok(0)
}

/// Serves up to `limit` connections one after another, each at its moment, over the book as it then is, until one of
/// them shakes the book. It hands back the book, with how many connections are left. Standard error gets the lines of
/// `serve_each`, whose error it has.
pub fn serve_book<R: Eprint, L: Listener, B: Book>(
    alloc: Global,
    rt: &R,
    listener: &mut L,
    limit: u32,
    desk: &Desk,
    book: B,
) -> (B, Result<u32, NoClock>)
    ensures { ServesUpTo L.meets (ServesAtDesk B.state desk.now.zone desk.now.key) limit
        listener.old listener.new book result.0 result.1 }
{
    let office = Office::new(alloc, book);
    let mut service = OfficeAtDesk {
        alloc,
        routes: Routes::new(alloc).ok(),
        desk,
        office,
    };
    let left = serve_each(rt, listener, limit, &mut service);
    let OfficeAtDesk {
        alloc: _,
        routes: _,
        desk: _,
        office,
    } = service;
    (office.into_book(), left)
}
