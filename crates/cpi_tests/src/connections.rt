//! Connections in memory, served one after another.
use crate::records::{PRICED, at, book_after};
use cpi_app::{Backlog, NoClock, Queued, desk_of, serve_book};
use cpi_store::FailBook;
use std::alloc::Global;
use std::test::Fail;

// A connection: whether it can be accepted, the second that the clock shows then, the bytes that its peer sends, and
// those that its peer gets.
struct Call<'a> {
    is_open: bool,
    second: Option<u64>,
    sent: &'a str,
    told: &'a str,
}

const KEY: &str = "dddddddddddddddddddddddddddddddd";

const FREEZE: &str = "POST /import HTTP/1.1\r\n\
    Authorization: CPI-Key dddddddddddddddddddddddddddddddd\r\n\
    Content-Length: 15\r\n\
    \r\n\
    freeze,2026-01\n";

const DONE: &str = "HTTP/1.1 200 OK\r\n\
    Content-Type: application/json\r\n\
    Content-Length: 25\r\n\
    Connection: close\r\n\
    \r\n\
    {\"rows\":[{\"done\":true}]}\n";

const TABLES: &str = "GET /tables HTTP/1.1\r\n\r\n";

const ONE_TABLE: &str = "HTTP/1.1 200 OK\r\n\
    Content-Type: application/json\r\n\
    Content-Length: 32\r\n\
    Connection: close\r\n\
    \r\n\
    {\"tables\":[[\"2025-12\",1,1000]]}\n";

const TWO_TABLES: &str = "HTTP/1.1 200 OK\r\n\
    Content-Type: application/json\r\n\
    Content-Length: 51\r\n\
    Connection: close\r\n\
    \r\n\
    {\"tables\":[[\"2025-12\",1,1000],[\"2026-01\",1,3000]]}\n";

const UNAVAILABLE: &str = "HTTP/1.1 503 Service Unavailable\r\n\
    Content-Type: application/json\r\n\
    Content-Length: 15\r\n\
    Connection: close\r\n\
    \r\n\
    {\"refused\":90}\n";

// January is frozen, and its table published at 3000.
const PUBLISHED: [Call<'static>; 5] = [
    Call {
        is_open: true,
        second: Some(2000),
        sent: FREEZE,
        told: DONE,
    },
    Call {
        is_open: false,
        second: Some(2001),
        sent: TABLES,
        told: "",
    },
    Call {
        is_open: true,
        second: Some(2999),
        sent: TABLES,
        told: ONE_TABLE,
    },
    Call {
        is_open: true,
        second: Some(3000),
        sent: TABLES,
        told: TWO_TABLES,
    },
    Call {
        is_open: true,
        second: Some(3001),
        sent: TABLES,
        told: "",
    },
];

// The office is unavailable to the first.
const SHAKEN: [Call<'static>; 2] = [
    Call {
        is_open: true,
        second: Some(1500),
        sent: TABLES,
        told: UNAVAILABLE,
    },
    Call {
        is_open: true,
        second: Some(1500),
        sent: TABLES,
        told: "",
    },
];

// The clock shows no moment when the second comes.
const WITHOUT_CLOCK: [Call<'static>; 3] = [
    Call {
        is_open: true,
        second: Some(1500),
        sent: TABLES,
        told: ONE_TABLE,
    },
    Call {
        is_open: true,
        second: None,
        sent: TABLES,
        told: "",
    },
    Call {
        is_open: true,
        second: Some(1500),
        sent: TABLES,
        told: "",
    },
];

fn backlog_of(alloc: Global, calls: &[Call]) -> Result<Backlog, Fail> {
    let mut queued = Vec::new(alloc);
    for call in calls {
        let moment = match call.second {
            Some(second) => Some(at(second)?),
            None => None,
        };
        queued.push(Queued {
            is_open: call.is_open,
            moment,
            sent: call.sent.as_bytes().to_vec(alloc)?,
            written: Vec::new(alloc),
        })?;
    }
    Ok(Backlog { queued, taken: 0 })
}

// Whether each peer got the bytes that it should get, and nothing else.
fn are_told(backlog: &Backlog, calls: &[Call]) -> bool {
    for (place, call) in calls.iter().enumerate() {
        let is_told = match backlog.queued.get(place) {
            Some(queued) => queued.written.as_slice() == call.told.as_bytes(),
            None => false,
        };
        if !is_told {
            return false;
        }
    }
    true
}

// Serves up to so many of the calls over a book whose n-th call fails, or none at 0. Answers how many connections are
// left, and how many of the calls were taken, if each peer got the bytes that it should get.
fn served<R: Eprint>(
    rt: &R,
    alloc: Global,
    calls: &[Call],
    limit: u32,
    nth: u64,
) -> Result<(Result<u32, NoClock>, usize), Fail> {
    let Ok(desk) = desk_of("UTC0", KEY) else {
        return Err("no desk".into());
    };
    let mut backlog = backlog_of(alloc, calls)?;
    let book = FailBook::new(book_after(alloc, &PRICED)?, nth);
    let (_book, left) = serve_book(alloc, rt, &mut backlog, limit, &desk, book);
    if !are_told(&backlog, calls) {
        return Err("a peer was told something else".into());
    }
    Ok((left, backlog.taken))
}

#[test]
fn each_connection_is_answered_at_its_moment(rt: HostRuntime) -> Result<(), Fail> {
    assert!(rt; served(&rt, rt.alloc(), &PUBLISHED, 4, 0)? == (Ok(0), 4));
    Ok(())
}

#[test]
fn serving_ends_with_a_shaken_book_or_without_a_clock(rt: HostRuntime) -> Result<(), Fail> {
    assert!(rt; served(&rt, rt.alloc(), &SHAKEN, 3, 1)? == (Ok(2), 1));
    assert!(rt; served(&rt, rt.alloc(), &WITHOUT_CLOCK, 3, 0)? == (Err(NoClock), 2));
    Ok(())
}
