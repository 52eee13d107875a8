//! An office that is sent records: their fields are parted by bars.
use cpi_codes::{Code, Moment, Month, Year, zone_of};
use cpi_index::FrozenQuote;
use cpi_office::{Ask, Office, Reply};
use cpi_plan::YearPlan;
use cpi_store::{Book, VecBook};
use cpi_wire::{Ask as Record, request_of_record};
use std::alloc::Global;
use std::test::Fail;

// Two items, a collector with four slots, and the plan of 2026.
const DESK: [&str; 11] = [
    "0|desk|item|RICE|Rice|1 kg|500|2000",
    "0|desk|item|FLOUR|Flour, wheat|1 kg|500|2000",
    "0|desk|outlet|10|Corner shop",
    "0|desk|collector|7|aaaaaaaaaaaaaaaaaaaaaaaaaaaaaaaa",
    "0|desk|assign|7|1|10|RICE|2025-12|2026-12",
    "0|desk|assign|7|2|10|RICE|2025-12|2026-12",
    "0|desk|assign|7|3|10|RICE|2025-12|2026-12",
    "0|desk|assign|7|4|10|FLOUR|2025-12|2026-12",
    "0|desk|calendar|2025-12|0|1000|1000",
    "0|desk|calendar|2026-01|1000|2000|3000",
    "0|desk|plan|2026|T,00,All items
T,01,Food and drink
T,01.1,Food
T,01.1.1,Cereals
T,01.1.1.1,Rice
T,01.1.1.1-01,\"Rice, packed\"
T,01.1.1.2,Flour
T,01.1.1.2-01,\"Flour, wheat\"
W,01.1.1.1-01,600000
W,01.1.1.2-01,400000
I,RICE,01.1.1.1-01
I,FLOUR,01.1.1.2-01",
];

// The plan of 2026 with a reference month.
const REFERRED: &str = "0|desk|plan|2026|T,00,All items
T,01,Food and drink
T,01.1,Food
T,01.1.1,Cereals
T,01.1.1.1,Rice
T,01.1.1.1-01,\"Rice, packed\"
T,01.1.1.2,Flour
T,01.1.1.2-01,\"Flour, wheat\"
W,01.1.1.1-01,600000
W,01.1.1.2-01,400000
I,RICE,01.1.1.1-01
I,FLOUR,01.1.1.2-01
R,2025-06";

// The prices of two months, the first of which is frozen.
const PRICES: [&str; 9] = [
    "100|aaaaaaaaaaaaaaaaaaaaaaaaaaaaaaaa|quote|1|2025-12|price|200",
    "100|aaaaaaaaaaaaaaaaaaaaaaaaaaaaaaaa|quote|2|2025-12|price|300",
    "100|aaaaaaaaaaaaaaaaaaaaaaaaaaaaaaaa|quote|3|2025-12|price|500",
    "100|aaaaaaaaaaaaaaaaaaaaaaaaaaaaaaaa|quote|4|2025-12|price|500",
    "1000|desk|freeze|2025-12",
    "1100|aaaaaaaaaaaaaaaaaaaaaaaaaaaaaaaa|quote|1|2026-01|price|210",
    "1100|aaaaaaaaaaaaaaaaaaaaaaaaaaaaaaaa|quote|2|2026-01|price|300",
    "1100|aaaaaaaaaaaaaaaaaaaaaaaaaaaaaaaa|quote|3|2026-01|price|540",
    "1100|aaaaaaaaaaaaaaaaaaaaaaaaaaaaaaaa|quote|4|2026-01|price|490",
];

/// The table of January 2026.
pub(crate) const JANUARY_CSV: &str = "00,1000000,102.200000,102.200000,2.2,,0,All items
01,1000000,102.200000,102.200000,2.2,,0,Food and drink
01.1,1000000,102.200000,102.200000,2.2,,0,Food
01.1.1,1000000,102.200000,102.200000,2.2,,0,Cereals
01.1.1.1,600000,105.000000,105.000000,5.0,,0,Rice
01.1.1.1-01,600000,105.000000,105.000000,5.0,,0,\"Rice, packed\"
01.1.1.2,400000,98.000000,98.000000,-2.0,,0,Flour
01.1.1.2-01,400000,98.000000,98.000000,-2.0,,0,\"Flour, wheat\"
";

/// The number of a reply as it is wanted, below those of all refusals.
pub(crate) const WANTED: u16 = 0;

/// The number of another reply that is no refusal.
pub(crate) const ANOTHER: u16 = 1;

/// What a record asks.
pub(crate) fn asked(alloc: Global, record: &str) -> Result<Ask, Fail> {
    let mut fields = Vec::new(alloc);
    for field in record.split('|') {
        fields.push(field.as_bytes())?;
    }
    match request_of_record(alloc, &zone_of("UTC0")?, &fields)? {
        Record::One(now, caller, request) => Ok(Ask {
            now,
            caller,
            request,
        }),
        _ => Err("no request".into()),
    }
}

/// The number of a reply: a refusal's own; `WANTED` if it is that of an office in which the request is the first of
/// its kind, and the table is the CSV that is given; else `ANOTHER`.
pub(crate) fn number_of(reply: &Reply, csv: &str) -> u16 {
    let wanted = match reply {
        Reply::Refused(refusal) => return refusal.number(),
        Reply::Receipt(receipt) => *receipt == 1,
        Reply::Work(rows) => rows.len() == 1,
        Reply::Quotes(rows) => rows.len() == 1,
        Reply::Items(rows) => rows.len() == 1,
        Reply::Table(printed) => printed.as_bytes() == csv.as_bytes(),
        Reply::Done | Reply::Tables(_) => true,
    };
    if wanted { WANTED } else { ANOTHER }
}

/// The number of the reply to a record.
pub(crate) fn told<B: Book>(
    alloc: Global,
    office: &mut Office<B>,
    record: &str,
    csv: &str,
) -> Result<u16, Fail> {
    let ask = asked(alloc, record)?;
    Ok(number_of(&office.handle(ask.now, ask.caller, ask.request), csv))
}

/// Sends records, each of which is accepted.
pub(crate) fn send<B: Book>(
    alloc: Global,
    office: &mut Office<B>,
    records: &[&str],
) -> Result<(), Fail> {
    for record in records {
        let number = told(alloc, office, record, "")?;
        if number > ANOTHER {
            return Err(Fail::new(number));
        }
    }
    Ok(())
}

/// The book in memory of an office that was sent records, each of which is accepted.
pub(crate) fn book_after(alloc: Global, records: &[&[&str]]) -> Result<VecBook, Fail> {
    let mut office = Office::new(alloc, VecBook::new(alloc));
    for part in records {
        send(alloc, &mut office, part)?;
    }
    Ok(office.into_book())
}

/// The records up to the prices of two months, the first of which is frozen.
pub(crate) const PRICED: [&[&str]; 2] = [&DESK, &PRICES];

/// A book with two frozen months.
pub(crate) fn frozen(alloc: Global) -> Result<VecBook, Fail> {
    book_after(alloc, &[&DESK, &PRICES, &["2000|desk|freeze|2026-01"]])
}

/// What the index of January 2026 is computed from.
#[derive(Drop)]
pub(crate) struct WorkedYear {
    pub(crate) plan: YearPlan,
    pub(crate) december: Vec<FrozenQuote>,
    pub(crate) january: Vec<FrozenQuote>,
}

// A copy of the plan of 2026.
fn plan_of<B: Book>(alloc: Global, book: &mut B) -> Result<YearPlan, Fail> {
    let year = Year::new(2026).ok_or("no year")?;
    match book.public_part()?.plan(year) {
        Some(plan) => Ok(plan.copy(alloc)?),
        None => Err("no plan".into()),
    }
}

// The same, from what a book has.
fn year_of<B: Book>(alloc: Global, book: &mut B) -> Result<WorkedYear, Fail> {
    let (december, january) = (Month::new(2025, 12)?, january()?);
    Ok(WorkedYear {
        december: book.month_rows(december)?,
        january: book.month_rows(january)?,
        plan: plan_of(alloc, book)?,
    })
}

pub(crate) fn two_months(alloc: Global) -> Result<WorkedYear, Fail> {
    year_of(alloc, &mut book_after(alloc, &PRICED)?)
}

/// The plan of 2026 with a reference month.
pub(crate) fn referred_plan(alloc: Global) -> Result<YearPlan, Fail> {
    plan_of(
        alloc,
        &mut book_after(alloc, &[&DESK, &PRICES, &[REFERRED]])?,
    )
}

pub(crate) fn january() -> Result<Month, Fail> {
    Ok(Month::new(2026, 1)?)
}

pub(crate) fn rice() -> Result<Code, Fail> {
    Ok(Code::parse(b"01.1.1.1-01")?)
}

pub(crate) fn at(seconds: u64) -> Result<Moment, Fail> {
    Ok(Moment::new(seconds).ok_or("no moment")?)
}
