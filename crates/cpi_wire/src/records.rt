//! The loop over the records of an input.
ghost use Rattle.std.specs.Prelude.{◌≡◌, ℕ, List, [], Option, IfOk, OnOk, OnErr, IfErr, true};
ghost use Rattle.csv.specs.Records.{fields_of};
ghost use Rattle.cpi_wire.specs.Answers.{Begins, AnswersWithLine};
ghost use Rattle.cpi_wire.specs.Causes.{IsCaused};
ghost use Rattle.cpi_wire.specs.Input.{IsAt};
ghost use Rattle.cpi_wire.specs.Record.{ask_of};
ghost use Rattle.cpi_wire.specs.Records.{AnsweredInput, CausedInput, GaveUp};

use crate::answers::{AnswerLine, answer_line, first_cause};
use crate::failure::Failure;
use crate::fault::WireFault;
use crate::fields::field_list;
use crate::input::{next_record, record_reader};
use crate::limits::{MOST_CALLS, MOST_RECORDS};
use crate::reader::CallCountingReader;
use crate::record::request_of_record;
use crate::write_note::WriteNote;
use cpi_codes::Zone;
use cpi_office::{Cause, Office};
use cpi_store::Book;
use csv::{ByteRecord, Reader};
use std::alloc::{AllocError, Global};
use std::io::{Read, Write};

// Carries out what the fields of the record ask, and returns its answer. If memory runs out, the record may have been
// begun.
fn answer_row<B: Book>(
    alloc: Global,
    zone: &Zone,
    office: &mut Office<B>,
    row: &ByteRecord,
) -> Result<AnswerLine, AllocError>
    ensures ok { IfOk result (λ answer. AnswersWithLine B.state office.old.book
        (ask_of zone.now (fields_of row.now)) answer.line.items answer.failed office.new.book) }
    ensures caused { IfOk result (λ answer. IsCaused (B.state office.old.book) (B.state office.new.book)
        answer.failed answer.cause) }
    ensures err { OnErr result (Begins B.state office.old.book (ask_of zone.now (fields_of row.now)) office.new.book) }
{
    let fields = field_list(alloc, row)?;
    let ask = request_of_record(alloc, zone, &fields)?;
    answer_line(alloc, office, ask)
}

// Answers the records that the reader has left, one after the other, and returns a cause if a reply is 90. (It is that
// of the first such reply, which no clause says.)
fn answer_records<R: Read, W: Write, B: Book>(
    alloc: Global,
    records: &mut Reader<R>,
    writer: &mut W,
    note: &mut WriteNote<W>,
    zone: &Zone,
    office: &mut Office<B>,
) -> Result<Option<Cause>, Failure>
    ensures ok { (input : Option (List ℕ)) → IsAt R.remaining input [] records.old →
        IfOk result (CausedInput zone.now B.state input
        office.old.book office.new.book (W.contents writer.old) (W.contents writer.new)) }
    ensures err { (input : Option (List ℕ)) → IsAt R.remaining input [] records.old →
        IfErr result (GaveUp zone.now B.state input
        office.old.book office.new.book (W.contents writer.old) (W.contents writer.new)) }
    ensures noted { IfErr result (λ e. e ≡ WireFault.Write → note.new.has_failed ≡ true) }
{
    let mut row = ByteRecord::new(alloc);
    let mut cause = None;
    for _ in 0..MOST_RECORDS {
        if !next_record(records, &mut row)? {
            return Ok(cause);
        }
        let answer = answer_row(alloc, zone, office, &row)?;
        note.write_whole(writer, &answer.line)?;
        cause = first_cause(cause, answer.cause);
    }
    if next_record(records, &mut row)? {
        return Err(Failure::of(WireFault::Read));
    }
    Ok(cause)
}

/// Reads records from the reader, carries each out on the office in turn, and writes the line of its reply whole,
/// before the next record is carried out. Civil times are read by the clock of the zone. The rows of an import are
/// carried out in turn too, and their replies are in the line of the import; if memory runs out, the first rows of it
/// were carried out, and no line is written. A replay takes `MOST_RECORDS` records; one more ends it with `Read`.
pub fn replay<R: Read + Drop, W: Write, B: Book>(
    alloc: Global,
    reader: R,
    writer: &mut W,
    zone: &Zone,
    office: &mut Office<B>,
) -> Result<(), WireFault>
    ensures ok { OnOk result (AnsweredInput zone.now B.state (R.remaining reader)
        office.old.book office.new.book (W.contents writer.old) (W.contents writer.new)) }
    ensures err { IfErr result (GaveUp zone.now B.state (R.remaining reader)
        office.old.book office.new.book (W.contents writer.old) (W.contents writer.new)) }
{
    let mut note = WriteNote::new();
    replay_noted(alloc, reader, writer, &mut note, zone, office)?;
    Ok(())
}

/// Does what [`replay`] does, and says why if anything isn't answered: it returns a cause if a reply is 90, and gives
/// up only by a [`Failure`]. After `Write` the note says that writing failed.
pub fn replay_noted<R: Read + Drop, W: Write, B: Book>(
    alloc: Global,
    reader: R,
    writer: &mut W,
    note: &mut WriteNote<W>,
    zone: &Zone,
    office: &mut Office<B>,
) -> Result<Option<Cause>, Failure>
    ensures ok { IfOk result (CausedInput zone.now B.state (R.remaining reader)
        office.old.book office.new.book (W.contents writer.old) (W.contents writer.new)) }
    ensures err { IfErr result (GaveUp zone.now B.state (R.remaining reader)
        office.old.book office.new.book (W.contents writer.old) (W.contents writer.new)) }
    ensures noted { IfErr result (λ e. e ≡ WireFault.Write → note.new.has_failed ≡ true) }
{
    let mut records = record_reader(alloc, CallCountingReader::new(reader, MOST_CALLS));
    answer_records(alloc, &mut records, writer, note, zone, office)
}
