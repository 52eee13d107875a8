//! Input without an end: it is given up after so many calls of its reader.
use crate::records::at;
use cpi_codes::{Key, Zone, zone_of};
use cpi_http::{Served, serve_one};
use cpi_office::Office;
use cpi_store::VecBook;
use cpi_wire::{WireFault, replay};
use http::StatusCode;
use std::alloc::Global;
use std::io;
use std::io::{ErrorKind, Read};
use std::test::Fail;

// A reader of one field that never ends, of one byte a call. It counts its calls.
#[derive(Drop)]
struct Endless<'a> {
    calls: &'a mut u32,
}

impl Read for Endless<'_> {
    fn read(&mut self, buf: &mut [u8]) -> io::Result<usize> {
        if buf.is_empty() {
            return Ok(0);
        }
        *self.calls = self.calls.saturating_add(1);
        buf[0] = b'a';
        Ok(1)
    }
}

#[test]
fn no_record_is_read_for_ever(rt: HostRuntime) -> Result<(), Fail> {
    let alloc = rt.alloc();
    let zone = zone_of("UTC0")?;
    let mut office = Office::new(alloc, VecBook::new(alloc));
    let mut written: Vec<u8> = Vec::new(alloc);
    let mut calls = 0;
    let input = Endless { calls: &mut calls };
    let done = replay(alloc, input, &mut written, &zone, &mut office);
    assert!(rt;
        done == Err(WireFault::Read) && calls == 20_000_000,
        "{calls} calls"
    );
    Ok(())
}

// A reader that gives one byte a call, with an interruption before each, or no byte ever. It counts its calls.
#[derive(Drop)]
struct Interrupted<'a> {
    rest: &'a [u8],
    is_ready: bool,
    calls: u32,
}

impl Read for Interrupted<'_> {
    fn read(&mut self, buf: &mut [u8]) -> io::Result<usize> {
        self.calls = self.calls.saturating_add(1);
        self.is_ready = !self.is_ready && !self.rest.is_empty();
        if !self.is_ready {
            return Err(io::Error::from(ErrorKind::Interrupted));
        }
        let n = self.rest.len().min(buf.len()).min(1);
        buf[..n].copy_from_slice(&self.rest[..n]);
        self.rest = &self.rest[n..];
        Ok(n)
    }
}

const MESSAGE: &[u8] = b"GET /items HTTP/1.1\r\n\r\n";

// How the message of a reader is served, and after how many calls.
fn served(
    alloc: Global,
    zone: &Zone,
    message: &[u8],
) -> Result<(Result<Served, WireFault>, u32), Fail> {
    let mut office = Office::new(alloc, VecBook::new(alloc));
    let mut written: Vec<u8> = Vec::new(alloc);
    let desk_key = Key::parse(b"ddddddddddddddddddddddddddddddde").ok_or("no key")?;
    let mut reader = Interrupted {
        rest: message,
        is_ready: true,
        calls: 0,
    };
    let now = at(1500)?;
    let served = serve_one(
        alloc,
        &mut reader,
        &mut written,
        now,
        zone,
        desk_key,
        &mut office,
    );
    Ok((served, reader.calls))
}

#[test]
fn no_message_is_read_for_ever(rt: HostRuntime) -> Result<(), Fail> {
    let zone = zone_of("UTC0")?;
    let given_up = served(rt.alloc(), &zone, b"")?;
    assert!(rt;
        given_up == (Err(WireFault::Read), 80_000),
        "{} calls",
        given_up.1
    );
    let (answered, _) = served(rt.alloc(), &zone, MESSAGE)?;
    assert!(rt; answered == Ok(Served::Answered(StatusCode::OK, false)));
    Ok(())
}
