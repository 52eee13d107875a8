//! The job of printing a table of the office of files.
ghost use Rattle.std.specs.Prelude.{◌≡◌, IfOk, IfErr};
ghost use Rattle.cpi_files.specs.Table.{IsPrintedFrom};
ghost use Rattle.cpi_files.specs.Taken.{IsRefusedAs};

use crate::cabinet::Cabinet;
use crate::job::BookJob;
use crate::taken::job_in_cabinet;
use cpi_app::{AskedTable, OfferNote, RunFault, print_table};
use cpi_store::Book;
use std::alloc::Global;
use std::io::{Read, Write, empty};

// Printing a table, as a job over a book.
#[derive(Drop)]
struct Print {
    asked: AskedTable,
}

impl BookJob for Print {
    ghost use Rattle.cpi_files.specs.Table.{Prints};

    // The exit status.
    type Told = u8;

    ghost does = { λ job. Prints job.asked };

    fn run<B: Book, R: Read, W: Write, E: Write>(
        &mut self,
        alloc: Global,
        book: B,
        _reader: &mut R,
        out: &mut W,
        err: &mut E,
    ) -> (B, u8) {
        let mut book = book;
        let mut note = OfferNote::new();
        let status = print_table(alloc, &mut book, self.asked, out, err, &mut note);
        (book, status)
    }
}

/// Prints a table from the office of the cabinet's files, closes them, and returns the exit status. The office doesn't
/// change, so nothing is lost if their log can't be copied. If the files hold no office, nothing is written, they stay
/// as they were, and the error says why.
pub fn table_in_cabinet<C: Cabinet, W: Write, E: Write>(
    alloc: Global,
    cabinet: &mut C,
    asked: AskedTable,
    out: &mut W,
    err: &mut E,
) -> Result<u8, RunFault>
    ensures printed { IfOk result (IsPrintedFrom C.Cabinet C.Medium.Disk cabinet.old cabinet.new asked
        (W.contents out.old) (W.contents out.new)) }
    ensures fault { IfErr result (IsRefusedAs C.Cabinet C.Medium.Disk cabinet.old cabinet.new) }
    ensures untouched { IfErr result (λ _. (out.new ≡ out.old) × (err.new ≡ err.old)) }
{
    let mut job = Print { asked };
    let (status, _) = job_in_cabinet(alloc, cabinet, &mut job, &mut empty(), out, err)?;
    Ok(status)
}
