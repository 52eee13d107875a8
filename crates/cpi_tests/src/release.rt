//! Releases over a history, and their tables.
use crate::records::{JANUARY_CSV, at, january, rice, two_months};
use cpi_codes::Month;
use cpi_index::FrozenQuote;
use cpi_release::{
    Form, Groups, History, HistoryGroups, Level, PrintFault, Release, Revision, printed, table_csv,
    table_text,
};
use cpi_rows::Rows;
use std::alloc::Global;
use std::io;
use std::io::{ErrorKind, Write};
use std::test::Fail;

// The release of a month that is frozen at a moment and published then.
fn release_of(
    alloc: Global,
    history: &History,
    month: Month,
    seconds: u64,
    frozen: Vec<FrozenQuote>,
) -> Result<Release, Fail> {
    let moment = at(seconds)?;
    Ok(Release::compute(
        alloc,
        history,
        month,
        Revision::first(),
        moment,
        moment,
        frozen,
        Vec::new(alloc),
    )?)
}

// The releases of two months.
fn two_releases(alloc: Global) -> Result<History, Fail> {
    let year = two_months(alloc)?;
    let mut history = History {
        plans: Rows::new(alloc),
        releases: Rows::new(alloc),
    };
    history.plans.push(year.plan)?;
    let first = release_of(alloc, &history, Month::new(2025, 12)?, 1000, year.december)?;
    history.releases.push(first)?;
    let second = release_of(alloc, &history, january()?, 2000, year.january)?;
    history.releases.push(second)?;
    Ok(history)
}

// The rows of a sample of February, at the first read and at the second.
fn sample(alloc: Global, history: &History, frozen: &[FrozenQuote]) -> Result<[usize; 2], Fail> {
    let (month, rice) = (Month::new(2026, 2)?, rice()?);
    let mut groups = HistoryGroups::new(alloc, history, frozen);
    groups.chained(january()?, rice)?.ok_or("no level")?;
    Ok([
        groups.rows(2026, month, rice)?.len(),
        groups.rows(2026, month, rice)?.len(),
    ])
}

// Whether the table of January is printed as it is to be: all of its CSV, and the last title of its text.
fn is_printed(alloc: Global, levels: &[Level]) -> Result<bool, Fail> {
    let text = printed(alloc, Form::Text, january()?, Revision::first(), levels)?;
    let csv = printed(alloc, Form::Csv, january()?, Revision::first(), levels)?;
    let is_whole = text.as_bytes().ends_with(b" Flour, wheat\n".as_slice());
    Ok(is_whole && csv.as_bytes() == JANUARY_CSV.as_bytes())
}

// A writer that takes so many bytes, three at a time, and then fails.
#[derive(Drop)]
struct Narrow {
    room: usize,
}

impl Write for Narrow {
    fn write(&mut self, buf: &[u8]) -> io::Result<usize> {
        let n = buf.len().min(3).min(self.room);
        if n == 0 {
            return Err(io::Error::from(ErrorKind::BrokenPipe));
        }
        self.room -= n;
        Ok(n)
    }

    fn flush(&mut self) -> io::Result<()> {
        Ok(())
    }
}

// Whether both forms report that a writer failed which takes so many bytes.
fn is_cut_off(alloc: Global, levels: &[Level], room: usize) -> Result<bool, Fail> {
    let (month, first) = (january()?, Revision::first());
    let text = table_text(alloc, month, first, levels, &mut Narrow { room });
    let csv = table_csv(alloc, levels, &mut Narrow { room });
    Ok(text == Err(PrintFault::Write) && csv == Err(PrintFault::Write))
}

#[test]
fn a_release_is_computed_and_printed(rt: HostRuntime) -> Result<(), Fail> {
    let alloc = rt.alloc();
    let history = two_releases(alloc)?;
    assert_eq!(rt; sample(alloc, &history, &[])?, [3, 3]);
    let release = history.releases.as_slice().last().ok_or("no release")?;
    let levels = release.levels.as_slice();
    let mut holds = is_printed(alloc, levels)?;
    for room in [0, 5, 12, 100] {
        holds &= is_cut_off(alloc, levels, room)?;
    }
    assert!(rt; holds);
    Ok(())
}
