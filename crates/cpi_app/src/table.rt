//! The job of printing a published table.
ghost use Rattle.std.specs.Prelude.{◌≡◌, ◌↔◌, ℕ, List, Option, Some, Ok};
ghost use Rattle.std.specs.Prelude.{IfOk, OnOk, IfErr, IsErr, IsErrOf, codes};
ghost use Rattle.cpi_codes.specs.Month.{month_of};
ghost use Rattle.cpi_release.specs.PublishedTables.{PublishedTable};
ghost use Rattle.cpi_release.specs.State.{Keeps, StaysClean};
ghost use Rattle.cpi_store.specs.Tables.{table_until};
ghost use Rattle.cpi_office.specs.Answers.{table_bytes};
ghost use Rattle.cpi_app.specs.Fault.{EndsWithLine};
ghost use Rattle.cpi_app.specs.Table.{IsTable, IsWritten, IsNotWritten, IsPrinted, IsTooLate, AsksForNone};

use crate::fault::RunFault;
use crate::offer_note::OfferNote;
use cpi_codes::{Moment, Month};
use cpi_release::{Form, PrintedTable, Revision, printed};
use cpi_store::{Book, OpenFault};
use cpi_wire::{WireFault, write_whole};
use std::alloc::Global;
use std::io::Write;

/// A table that is asked for: of which month, in which revision (`None` is the latest), in which form, and by which
/// moment it is to have been published.
#[derive(Clone, Copy, PartialEq, Eq)]
pub struct AskedTable {
    pub month: Month,
    pub revision: Option<Revision>,
    pub form: Form,
    pub until: Moment,
}

// The revision of the table that is asked for: the one that is named, or the latest. The errors are `NoTable` and
// `Database(Store)`.
fn revision_of<B: Book>(book: &mut B, asked: AskedTable) -> Result<Revision, RunFault>
    ensures keeps { Keeps (B.state book.old) (B.state book.new) }
    ensures stays { OnOk result (StaysClean (B.state book.old) (B.state book.new)) }
    ensures same { (B.state book.new).is_clean → IfOk result (λ revision.
        table_until asked.month (Some revision) asked.until (B.state book.old).held.releases
        ≡ table_until asked.month asked.revision asked.until (B.state book.old).held.releases) }
    ensures fault { (B.state book.new).is_clean → IfErr result (λ fault. (was : Option (List ℕ))
        → IsNotWritten asked (B.state book.old).held was was fault) }
{
    if let Some(revision) = asked.revision {
        return Ok(revision);
    }
    match book.revision_until(asked.month, asked.until) {
        Ok(Some(revision)) => Ok(revision),
        Ok(None) => Err(RunFault::NoTable),
        Err(_) => Err(RunFault::Database(OpenFault::Store)),
    }
}

// The table that is asked for, printed in its form. The errors are those of `write_table`, but for `Wire(Write)`.
fn read_table<B: Book>(
    alloc: Global,
    book: &mut B,
    asked: AskedTable,
) -> Result<PrintedTable, RunFault>
    ensures keeps { Keeps (B.state book.old) (B.state book.new) }
    ensures printed { (B.state book.new).is_clean → IfOk result (λ printed. (table : PublishedTable)
        × IsTable asked (B.state book.old).held table × (printed ≡ table_bytes asked.form asked.month table)) }
    ensures fault { (B.state book.new).is_clean → IfErr result (λ fault. (was : Option (List ℕ))
        → IsNotWritten asked (B.state book.old).held was was fault) }
{
    let AskedTable {
        month,
        form,
        until,
        ..
    } = asked;
    let revision = revision_of(book, asked)?;
    let levels = match book.table(month, revision, until) {
        Ok(Some(levels)) => levels,
        Ok(None) => return Err(RunFault::NoTable),
        Err(_) => return Err(RunFault::Database(OpenFault::Store)),
    };
    match printed(alloc, form, month, revision, levels.as_slice()) {
        Ok(table) => Ok(table),
        Err(_) => Err(RunFault::Wire(WireFault::NoMemory)),
    }
}

/// Writes the table of the month, in the revision that is asked for, as it was published by the moment. The office
/// stays as it is. The errors are `NoTable` if no such table was published by then, `Database(Store)`, and `Wire` with
/// `Write` or `NoMemory`.
pub fn write_table<B: Book, W: Write>(
    alloc: Global,
    book: &mut B,
    asked: AskedTable,
    out: &mut W,
) -> Result<(), RunFault>
    ensures keeps { Keeps (B.state book.old) (B.state book.new) }
    ensures written { (B.state book.new).is_clean → OnOk result
        (IsWritten asked (B.state book.old).held (W.contents out.old) (W.contents out.new)) }
    ensures fault { (B.state book.new).is_clean → IfErr result
        (IsNotWritten asked (B.state book.old).held (W.contents out.old) (W.contents out.new)) }
{
    let table = read_table(alloc, book, asked)?;
    write_whole(out, table.as_bytes())?;
    Ok(())
}

/// Prints the table of the month, in the revision that is asked for, as it was published by the moment, or the line of
/// the error to `err`, and answers the exit status. The note says whether a write of that line failed.
pub fn print_table<B: Book, W: Write, E: Write>(
    alloc: Global,
    book: &mut B,
    asked: AskedTable,
    out: &mut W,
    err: &mut E,
    note: &mut OfferNote<E>,
) -> u8
    ensures keeps { Keeps (B.state book.old) (B.state book.new) }
    ensures printed { (B.state book.new).is_clean →
        IsPrinted asked (B.state book.old).held (W.contents out.old) (W.contents out.new) result }
    ensures reported { EndsWithLine (λ fault. (B.state book.new).is_clean →
        IsNotWritten asked (B.state book.old).held (W.contents out.old) (W.contents out.new) fault)
        result note.new.has_failed (E.contents err.old) (E.contents err.new) }
    ensures quiet { result ≡ 0 → err.new ≡ err.old }
{
    match write_table(alloc, book, asked, out) {
        Ok(()) => 0,
        Err(fault) => {
            note.write_line(err, fault);
            fault.status()
        }
    }
}

/// The table that the arguments ask for. Any form but `csv` means text. `at` is in seconds since 1970 UTC. The errors
/// are `BadMonth` if the month isn't one like `2026-01` from 2000 to 2199, and then `NoTable` if `at` is after
/// `LAST_MOMENT`, as no table is published then.
pub fn asked_table(
    month: &str,
    revision: Option<Revision>,
    form: &str,
    at: u64,
) -> Result<AskedTable, RunFault>
    ensures asked { IfOk result (λ asked. (month_of month.now ≡ Ok asked.month) × (at ≡ asked.until)
        × (asked.revision ≡ revision) × (asked.form ≡ Form.Csv ↔ form.now ≡ codes "csv")) }
    ensures bad_month { IsErrOf result RunFault.BadMonth ↔ IsErr (month_of month.now) }
    ensures no_table { IsErrOf result RunFault.NoTable ↔ IsTooLate month.now at }
    ensures fault { IfErr result (AsksForNone month.now at) }
{
    let Ok(month) = Month::parse(month.as_bytes()) else {
        return Err(RunFault::BadMonth);
    };
    let Some(until) = Moment::new(at) else {
        return Err(RunFault::NoTable);
    };
    let form = if form == "csv" { Form::Csv } else { Form::Text };
    Ok(AskedTable {
        month,
        revision,
        form,
        until,
    })
}
