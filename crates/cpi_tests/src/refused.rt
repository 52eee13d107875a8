//! Books each of whose calls is refused in turn.
use crate::records::{JANUARY_CSV, PRICED, WANTED, book_after, told};
use cpi_office::Office;
use cpi_store::{Book, FailBook};
use std::alloc::Global;
use std::test::Fail;

/// The number of the refusal if the office is unavailable.
const UNAVAILABLE: u16 = 90;

/// More calls of the book than any row makes.
const MOST_CALLS: u64 = 200;

// What is sent to an office after some records: one request after another, and in the place of each another one of the
// same kind, which would be refused, or have another receipt, had the first been carried out. A table is to be the CSV.
struct Row<'a> {
    before: &'a [&'a [&'a str]],
    requests: &'a [&'a str],
    others: &'a [&'a str],
    csv: &'a str,
}

// Requests of each kind from an empty office on, but those of freezes.
const FIRST: Row<'static> = Row {
    before: &[],
    requests: &[
        "0|desk|item|RICE|Rice|1 kg|700|1500",
        "0|desk|outlet|10|Corner shop",
        "0|desk|collector|7|aaaaaaaaaaaaaaaaaaaaaaaaaaaaaaaa",
        "0|desk|assign|7|1|10|RICE|2025-12|2026-12",
        "0|desk|calendar|2026-01|1000|2000|2000",
        "0|desk|plan|2026|T,00,A
T,01,A
T,01.1,A
T,01.1.1,A
T,01.1.1.1,A
T,01.1.1.1-01,A
W,01.1.1.1-01,1000000",
        "1500|aaaaaaaaaaaaaaaaaaaaaaaaaaaaaaaa|quote|1|2026-01|price|210",
        "1500|aaaaaaaaaaaaaaaaaaaaaaaaaaaaaaaa|work|2026-01",
        "1500|aaaaaaaaaaaaaaaaaaaaaaaaaaaaaaaa|quotes|2026-01|2026-01",
        "1500|aaaaaaaaaaaaaaaaaaaaaaaaaaaaaaaa|items",
        "1500|public|tables",
    ],
    others: &[
        "0|desk|item|RICE|Rice, brown|1 kg|700|1500",
        "0|desk|outlet|10|Market",
        "0|desk|collector|7|bbbbbbbbbbbbbbbbbbbbbbbbbbbbbbbb",
        "0|desk|assign|7|1|10|RICE|2025-12|2026-11",
        "0|desk|calendar|2026-01|1000|3000|3000",
        "0|desk|plan|2026|T,00,B
T,01,B
T,01.1,B
T,01.1.1,B
T,01.1.1.1,B
T,01.1.1.1-01,B
W,01.1.1.1-01,1000000",
        "1500|aaaaaaaaaaaaaaaaaaaaaaaaaaaaaaaa|quote|1|2026-01|price|220",
        "1500|aaaaaaaaaaaaaaaaaaaaaaaaaaaaaaaa|work|2026-01",
        "1500|aaaaaaaaaaaaaaaaaaaaaaaaaaaaaaaa|quotes|2026-01|2026-01",
        "1500|aaaaaaaaaaaaaaaaaaaaaaaaaaaaaaaa|items",
        "1500|public|tables",
    ],
    csv: "",
};

// A collector who takes a series over, in a month of the calendar, and sees it then; or one with another key, another
// moment, and another series for the same slot.
const HAND_OVER: Row<'static> = Row {
    before: &PRICED,
    requests: &[
        "2000|desk|collector|8|bbbbbbbbbbbbbbbbbbbbbbbbbbbbbbbb",
        "2000|desk|calendar|2026-02|2000|3000|3000",
        "2000|desk|handover|7|4|8|1|2026-02",
        "2000|bbbbbbbbbbbbbbbbbbbbbbbbbbbbbbbb|work|2026-02",
    ],
    others: &[
        "2000|desk|collector|8|cccccccccccccccccccccccccccccccc",
        "2000|desk|calendar|2026-02|2000|3000|3001",
        "2000|desk|handover|7|3|8|1|2026-02",
        "2000|bbbbbbbbbbbbbbbbbbbbbbbbbbbbbbbb|work|2026-02",
    ],
    csv: "",
};

// A month is frozen and its table read.
const FREEZE: Row<'static> = Row {
    before: &PRICED,
    requests: &["2000|desk|freeze|2026-01", "3000|public|table|2026-01|csv"],
    others: &["2000|desk|freeze|2026-01", "3000|public|table|2026-01|csv"],
    csv: JANUARY_CSV,
};

// The plan of a year, with some more rows.
macro_rules! plan_of {
    ($year:literal, $rows:literal) => {
        concat!(
            "0|desk|plan|",
            $year,
            "|T,00,A
T,01,A
T,01.1,A
T,01.1.1,A
T,01.1.1.1,A
T,01.1.1.1-01,A
T,01.1.1.2,A
T,01.1.1.2-01,A
W,01.1.1.1-01,600000
W,01.1.1.2-01,400000
I,RICE,01.1.1.1-01
I,FLOUR,01.1.1.2-01",
            $rows,
        )
    };
}

// Two items and their slots, the months, and the plan of the first year.
const YEARS: [&str; 21] = [
    "0|desk|item|RICE|Rice|1 kg|1|10000",
    "0|desk|item|FLOUR|Flour|1 kg|1|10000",
    "0|desk|outlet|10|Shop",
    "0|desk|collector|7|aaaaaaaaaaaaaaaaaaaaaaaaaaaaaaaa",
    "0|desk|assign|7|1|10|RICE|2025-12|2027-12",
    "0|desk|assign|7|2|10|FLOUR|2025-12|2027-12",
    "0|desk|calendar|2025-12|0|1000|1000",
    "0|desk|calendar|2026-01|1000|2000|2000",
    "0|desk|calendar|2026-02|2000|3000|3000",
    "0|desk|calendar|2026-03|3000|4000|4000",
    "0|desk|calendar|2026-04|4000|5000|5000",
    "0|desk|calendar|2026-05|5000|6000|6000",
    "0|desk|calendar|2026-06|6000|7000|7000",
    "0|desk|calendar|2026-07|7000|8000|8000",
    "0|desk|calendar|2026-08|8000|9000|9000",
    "0|desk|calendar|2026-09|9000|10000|10000",
    "0|desk|calendar|2026-10|10000|11000|11000",
    "0|desk|calendar|2026-11|11000|12000|12000",
    "0|desk|calendar|2026-12|12000|13000|13000",
    "0|desk|calendar|2027-01|13000|14000|14000",
    plan_of!("2026", ""),
];

// A year in which rice rises to 105 and flour falls to 98 after its January, and the prices of the January after it.
const YEAR_OF_PRICES: [&str; 21] = [
    "100|aaaaaaaaaaaaaaaaaaaaaaaaaaaaaaaa|quote|1|2025-12|price|2000",
    "100|aaaaaaaaaaaaaaaaaaaaaaaaaaaaaaaa|quote|2|2025-12|price|5000",
    "1000|desk|freeze|2025-12",
    "1100|aaaaaaaaaaaaaaaaaaaaaaaaaaaaaaaa|quote|1|2026-01|price|2000",
    "1100|aaaaaaaaaaaaaaaaaaaaaaaaaaaaaaaa|quote|2|2026-01|price|5000",
    "2000|desk|freeze|2026-01",
    "2100|aaaaaaaaaaaaaaaaaaaaaaaaaaaaaaaa|quote|1|2026-02|price|2100",
    "2100|aaaaaaaaaaaaaaaaaaaaaaaaaaaaaaaa|quote|2|2026-02|price|4900",
    "3000|desk|freeze|2026-02",
    "4000|desk|freeze|2026-03|01.1.1.1-01|01.1.1.2-01",
    "5000|desk|freeze|2026-04|01.1.1.1-01|01.1.1.2-01",
    "6000|desk|freeze|2026-05|01.1.1.1-01|01.1.1.2-01",
    "7000|desk|freeze|2026-06|01.1.1.1-01|01.1.1.2-01",
    "8000|desk|freeze|2026-07|01.1.1.1-01|01.1.1.2-01",
    "9000|desk|freeze|2026-08|01.1.1.1-01|01.1.1.2-01",
    "10000|desk|freeze|2026-09|01.1.1.1-01|01.1.1.2-01",
    "11000|desk|freeze|2026-10|01.1.1.1-01|01.1.1.2-01",
    "12000|desk|freeze|2026-11|01.1.1.1-01|01.1.1.2-01",
    "13000|desk|freeze|2026-12|01.1.1.1-01|01.1.1.2-01",
    "13100|aaaaaaaaaaaaaaaaaaaaaaaaaaaaaaaa|quote|1|2027-01|price|2142",
    "13100|aaaaaaaaaaaaaaaaaaaaaaaaaaaaaaaa|quote|2|2027-01|price|4949",
];

// The plan of the second year, with the weights of the first January.
const MOVED_PLAN: &str = plan_of!("2027", "\nR,2026-01");

const MOVED_JANUARY: &str = "00,1022000,101.616438,103.852000,1.6,3.9,0,A
01,1022000,101.616438,103.852000,1.6,3.9,0,A
01.1,1022000,101.616438,103.852000,1.6,3.9,0,A
01.1.1,1022000,101.616438,103.852000,1.6,3.9,0,A
01.1.1.1,630000,102.000000,107.100000,2.0,7.1,0,A
01.1.1.1-01,630000,102.000000,107.100000,2.0,7.1,0,A
01.1.1.2,392000,101.000000,98.980000,1.0,-1.0,0,A
01.1.1.2-01,392000,101.000000,98.980000,1.0,-1.0,0,A
";

// The same with weights that prices moved from a reference month.
const MOVED: Row<'static> = Row {
    before: &[&YEARS, &YEAR_OF_PRICES, &[MOVED_PLAN]],
    requests: &[
        "14000|desk|freeze|2027-01",
        "14000|public|table|2027-01|csv",
    ],
    others: &[
        "14000|desk|freeze|2027-01",
        "14000|public|table|2027-01|csv",
    ],
    csv: MOVED_JANUARY,
};

// Whether one of the requests is refused as unavailable. It changes nothing then: the other in its place is answered as
// wanted. None if it isn't so, or another one is refused.
fn is_unavailable_once<B: Book>(
    alloc: Global,
    office: &mut Office<B>,
    row: &Row<'_>,
) -> Result<Option<bool>, Fail> {
    for (request, other) in row.requests.iter().zip(row.others) {
        let number = told(alloc, office, request, row.csv)?;
        if number == UNAVAILABLE {
            let again = told(alloc, office, other, row.csv)?;
            return Ok((again == WANTED).then_some(true));
        }
        if number != WANTED {
            return Ok(None);
        }
    }
    Ok(Some(false))
}

// How many calls of the book the requests make, each of which was refused in turn.
fn calls_of(alloc: Global, row: &Row<'_>) -> Result<u64, Fail> {
    for nth in 1..=MOST_CALLS {
        let mut office = Office::new(alloc, FailBook::new(book_after(alloc, row.before)?, nth));
        match is_unavailable_once(alloc, &mut office, row)? {
            Some(true) => {}
            Some(false) => return Ok(nth - 1),
            None => return Err(Fail::new(format_args!("another reply than wanted at call {nth}"))),
        }
    }
    Err(Fail::new("more calls than the most"))
}

// Three calls register a collector, three put a calendar row, eight hand a series over, and two give a work list. Moved
// weights ask for two levels of each aggregate more.
#[test]
fn each_call_of_the_book_is_refused_in_turn(rt: HostRuntime) -> Result<(), Fail> {
    let alloc = rt.alloc();
    let calls = [
        calls_of(alloc, &FIRST)?,
        calls_of(alloc, &FREEZE)?,
        calls_of(alloc, &HAND_OVER)?,
    ];
    assert_eq!(rt; calls, [27, 24, 16]);
    assert!(rt; calls_of(alloc, &MOVED)? >= 24 + 4);
    Ok(())
}
