//! A list of requests, answered by one call.
use crate::records::{JANUARY_CSV, PRICED, asked, book_after, number_of};
use cpi_office::Office;
use std::alloc::Global;
use std::test::Fail;

const RECORDS: [&str; 6] = [
    "1999|desk|freeze|2026-01",
    "2000|desk|freeze|2026-01",
    "2000|desk|freeze|2026-01",
    "2999|public|table|2026-01|csv",
    "3000|public|table|2026-01|csv",
    "3000|public|tables",
];

// A freeze that comes too early is refused, one of a month that is frozen, and a table that isn't published yet.
const NUMBERS: [u16; 6] = [47, 0, 50, 30, 0, 0];

// The numbers of the replies.
fn numbers(alloc: Global) -> Result<Vec<u16>, Fail> {
    let mut asks = Vec::new(alloc);
    for record in RECORDS {
        asks.push(asked(alloc, record)?)?;
    }
    let mut office = Office::new(alloc, book_after(alloc, &PRICED)?);
    let mut numbers = Vec::new(alloc);
    for reply in &office.run(asks)? {
        numbers.push(number_of(reply, JANUARY_CSV))?;
    }
    Ok(numbers)
}

#[test]
fn a_list_of_requests_is_answered_in_order(rt: HostRuntime) -> Result<(), Fail> {
    assert_eq!(rt; numbers(rt.alloc())?.as_slice(), NUMBERS.as_slice());
    Ok(())
}
