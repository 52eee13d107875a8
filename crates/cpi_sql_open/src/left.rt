//! An open after a crash finds an office that the book's clauses name.
ghost use Rattle.cpi_sql_open.specs.Left.{FindsWhatIsLeft, LeavesOfficesOnly, TakesAsItIs};

use sqlite::Alter;

/// Whatever a crash leaves of a book, an open of it finds an office that the book may leave: by the clauses of the
/// book's calls that is the office before the last call, or the one after it. An open takes the database of an office
/// as it is. And if the clauses say of some office that a crash can't leave it, a crash leaves no database but that of
/// an office.
pub fn what_is_left_is_found<S: Alter, T: Alter>()
    ensures finds { FindsWhatIsLeft S.Store T.Store }
    ensures takes { TakesAsItIs T.Store }
    ensures only { LeavesOfficesOnly S.Store }
{}
