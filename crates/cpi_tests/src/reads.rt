//! The reads of a book, each of which is refused in turn. Writes are counted as the office makes them.
use crate::records::{at, frozen, january, rice};
use cpi_codes::{CollectorId, Key, Month, OutletId, Slot};
use cpi_release::{Groups, Revision};
use cpi_store::{Book, FailBook};
use std::test::Fail;

/// How many reads there are.
const READS: usize = 16;

// The place of the first read that is refused, one call each.
fn first_refused<B: Book>(book: &mut B) -> Result<Option<usize>, Fail> {
    let number = CollectorId::new(7).ok_or("no collector")?;
    let key = Key::parse(b"aaaaaaaaaaaaaaaaaaaaaaaaaaaaaaaa").ok_or("no key")?;
    let outlet = OutletId::new(10).ok_or("no outlet")?;
    let slot = Slot::new(1).ok_or("no slot")?;
    let (month, until, rice) = (january()?, at(3000)?, rice()?);
    let refused: [bool; READS] = [
        book.registration_of(key).is_err(),
        book.registration_at(number).is_err(),
        book.collector_of(key).is_err(),
        book.collector_key(number).is_err(),
        book.outlet(outlet).is_err(),
        book.public_part().is_err(),
        book.own(number).is_err(),
        book.parts(number).is_err(),
        book.given(number, slot).is_err(),
        book.frozen_months().is_err(),
        book.month_rows(month).is_err(),
        book.tables_until(until).is_err(),
        book.revision_until(month, until).is_err(),
        book.table(month, Revision::first(), until).is_err(),
        book.rows(2026, month, rice).is_err(),
        book.chained(month, rice).is_err(),
    ];
    Ok(refused.iter().position(|is_refused| *is_refused))
}

// How many rows each read that takes memory finds.
fn found<B: Book>(book: &mut B) -> Result<[usize; 5], Fail> {
    let (month, moment, rice) = (january()?, at(1000)?, rice()?);
    Ok([
        book.frozen_months()?.len(),
        book.month_rows(month)?.len(),
        book.tables_until(moment)?.len(),
        book.rows(2026, Month::new(2026, 2)?, rice)?.len(),
        book.rows(2026, Month::new(2026, 2)?, rice)?.len(),
    ])
}

#[test]
fn each_read_of_a_book_is_refused_in_turn(rt: HostRuntime) -> Result<(), Fail> {
    let alloc = rt.alloc();
    for place in 0..READS {
        let mut book = FailBook::new(frozen(alloc)?, place as u64 + 1);
        if first_refused(&mut book)? != Some(place) {
            return Err(Fail::new(format_args!("another read than that at {place}")));
        }
    }
    let mut book = frozen(alloc)?;
    assert_eq!(rt; first_refused(&mut book)?, None);
    assert_eq!(rt; found(&mut book)?, [2, 4, 1, 3, 3]);
    Ok(())
}
