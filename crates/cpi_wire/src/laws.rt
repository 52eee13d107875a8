//! Theorems about the definitions.
ghost use Rattle.cpi_wire.specs.Laws.{AreRecordsOfARun, RecordsChangeRows};
ghost use Rattle.cpi_wire.specs.Lines.{LinesAreAlike, ReplaysAnswerAlike};
ghost use Rattle.cpi_wire.specs.Printed.{LinesArePrinted};
ghost use Rattle.cpi_wire.specs.TableLines.{TableLinesAreComputed, ReplaysReportTables};

use cpi_store::Book;

/// Records that were answered in turn are a run of the requests in them. The run leaves out the records of no form and
/// the answers to these.
pub fn records_are_a_run<B: Book>()
    ensures { AreRecordsOfARun B.state }
{}

/// Records that were answered in turn changed only rows that their requests asked for, at most one each, of a hand-over
/// two. Each caller's view at each moment is the view before, with what the caller sees of those rows.
///
/// The office is sound, and the store is clean once the records are answered. A request that is answered
/// [`cpi_office::Refusal::Unavailable`] changes nothing.
pub fn records_change_rows<B: Book>()
    ensures { RecordsChangeRows B.state }
{}

/// The line of a record, whoever sends it, is what the replies of the office to its requests print: those of
/// [`cpi_office::main_theorem`], in their order, with a refusal for each row of no form.
///
/// The office is sound, the store is clean once the record is answered, and no reply says that the office is
/// unavailable.
pub fn lines_are_printed<B: Book>()
    ensures { LinesArePrinted B.state }
{}

/// The answer to a record of a collector, or of the public, is the same bytes in two replays under one zone, over books
/// of any two kinds, if both show that caller the same at the record's moment: at the start, including the tables
/// published by then, and of all changes accepted since, including freezes and hand-overs. Nothing else that others
/// send matters: a table that isn't published yet shows nothing.
///
/// Both offices are sound at the start, both stores are clean once the record is answered, and none of its replies says
/// that the office is unavailable. The theorem says nothing about time.
pub fn lines_are_alike<B: Book, C: Book>()
    ensures { LinesAreAlike B.state C.state }
{}

/// The lines to a collector are the same, byte for byte, in two replays under one zone whose records differ only in
/// those of other collectors, whether these are added, dropped, changed or moved.
///
/// No record of either replay asks for a freeze or a hand-over: a published table depends on the prices of all
/// collectors, and a series takes its last price with it. The books, of any two kinds, have the same sound lists at the
/// start, including tables, and are clean at the end, and no reply says that the office is unavailable. The theorem
/// says nothing about time.
pub fn replays_answer_alike<B: Book, C: Book>()
    ensures { ReplaysAnswerAlike B.state C.state }
{}

/// A table that is reported is the one that the definitions of the index give over the quotes and weights that were
/// frozen, printed in the form and the revision that are asked for, or in the latest revision that is published.
///
/// This holds for each record of a replay that asks a sound office for a table and doesn't come with an unknown key. If
/// the store is clean once the record is answered, and the reply doesn't say that the office is unavailable, then its
/// line is that of the printed table, or that of the refusal if there is no such table. The same holds for each reply
/// to such a row of an import.
pub fn tables_are_reported<B: Book>()
    ensures lines { TableLinesAreComputed B.state }
    ensures replies { ReplaysReportTables B.state }
{}
