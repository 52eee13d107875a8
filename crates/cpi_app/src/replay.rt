//! The job of a replay over any reader and writer: the records of an input, answered in an office.
ghost use Rattle.std.specs.Prelude.{◌≡◌, ◌↔◌, IsNone, OnOk, IfErr, IsErrOf};
ghost use Rattle.jiff.specs.Words.{read_whole};
ghost use Rattle.cpi_wire.specs.Records.{AnsweredInput, GaveUp};
ghost use Rattle.cpi_app.specs.Replay.{Replayed, EndedEarly};

use crate::fault::RunFault;
use cpi_codes::{Zone, zone_of};
use cpi_office::Office;
use cpi_store::{Book, VecBook};
use cpi_wire::{Failure, WriteNote, replay_noted};
use std::alloc::{AllocError, Global};
use std::io::{BufReader, Read, Write};

// Answers the records of the reader in an office, as `replay_noted` of `cpi_wire` does, and passes over the causes.
fn replay_over_office<R: Read + Drop, W: Write, B: Book>(
    alloc: Global,
    zone: &Zone,
    office: &mut Office<B>,
    reader: R,
    writer: &mut W,
) -> Result<(), Failure>
    ensures ok { OnOk result (AnsweredInput zone.now B.state (R.remaining reader)
        office.old.book office.new.book (W.contents writer.old) (W.contents writer.new)) }
    ensures err { IfErr result (GaveUp zone.now B.state (R.remaining reader)
        office.old.book office.new.book (W.contents writer.old) (W.contents writer.new)) }
{
    let mut note = WriteNote::new();
    replay_noted(alloc, reader, writer, &mut note, zone, office)?;
    Ok(())
}

/// Answers the records of the reader in the office of a book, each by its line before the next one is carried out. It
/// hands the book back even after an error, and then the book contains all that was carried out. The clock of the zone
/// reads civil times, and a buffer reads the input. The failures are those of the input and of the output, and a lack of
/// memory.
pub fn replay_over_book<R: Read, W: Write, B: Book>(
    alloc: Global,
    zone: &Zone,
    book: B,
    reader: &mut R,
    writer: &mut W,
) -> (B, Result<(), Failure>)
    ensures ok { OnOk result.1 (AnsweredInput zone.now B.state (R.remaining reader.old)
        book result.0 (W.contents writer.old) (W.contents writer.new)) }
    ensures err { IfErr result.1 (GaveUp zone.now B.state (R.remaining reader.old)
        book result.0 (W.contents writer.old) (W.contents writer.new)) }
{
    let Ok(records) = BufReader::new(alloc, reader) else {
        return (book, Err(Failure::from(AllocError)));
    };
    let mut office = Office::new(alloc, book);
    let outcome = replay_over_office(alloc, zone, &mut office, records, writer);
    (office.into_book(), outcome)
}

/// Answers the records of the reader, each by its line before the next one is carried out, in an office that is empty
/// at first and is not kept. The clock of the zone reads civil times, and a buffer reads the input. If the zone is no
/// rule of a clock as POSIX writes it, nothing is read, nothing is written, and the error is `BadZone`. The others are
/// those of `replay_over_book`.
pub fn replay_in_memory<R: Read, W: Write>(
    alloc: Global,
    zone: &str,
    reader: &mut R,
    writer: &mut W,
) -> Result<(), RunFault>
    ensures ok { OnOk result
        (Replayed zone.now (R.remaining reader.old) (W.contents writer.old) (W.contents writer.new)) }
    ensures err { IfErr result
        (EndedEarly zone.now (R.remaining reader.old) (W.contents writer.old) (W.contents writer.new)) }
    ensures bad_zone { IsErrOf result RunFault.BadZone ↔ IsNone (read_whole zone.now) }
    ensures untouched { IsNone (read_whole zone.now) → (reader.new ≡ reader.old) × (writer.new ≡ writer.old) }
{
    let Ok(zone) = zone_of(zone) else {
        return Err(RunFault::BadZone);
    };
    let (_book, outcome) = replay_over_book(alloc, &zone, VecBook::new(alloc), reader, writer);
    outcome?;
    Ok(())
}
