//! A job over a connection, whatever its store is.
ghost use Rattle.std.specs.Prelude.{◌≡◌, false, IfOk, IfErr};
ghost use Rattle.sqlite.specs.Held.{state};
ghost use Rattle.cpi_sql.specs.Opens.{IsUnopened};
ghost use Rattle.cpi_files.specs.Over.{IsDoneOver};

use crate::job::BookJob;
use cpi_sql::{SqlBook, Unopened};
use cpi_sql_rows::settle;
use sqlite::{Alter, Connection};
use std::alloc::Global;
use std::io::{Read, Write};

/// Does the job in the office that the connection holds, and gives the connection back with the job's report. If the
/// connection holds no office, the job doesn't begin, and the error contains the connection as it was.
pub fn job_over<S: Alter + Drop, J: BookJob, R: Read, W: Write, E: Write>(
    alloc: Global,
    conn: Connection<S>,
    job: &mut J,
    reader: &mut R,
    out: &mut W,
    err: &mut E,
) -> Result<(Connection<S>, J::Told), Unopened<S>>
    requires { (state S.Store conn).in_transaction ≡ false }
    ensures done { IfOk result (λ it. IsDoneOver S.Store conn (J.does job.old) (R.remaining reader.old)
        (W.contents out.old) (W.contents out.new) it.0 it.1) }
    ensures refused { IfErr result (λ e. IsUnopened S.Store conn e.fault e.conn) }
    ensures untouched { IfErr result (λ _. (reader.new ≡ reader.old)
        × (out.new ≡ out.old) × (err.new ≡ err.old)) }
{
    match SqlBook::new(alloc, conn) {
        Ok(book) => {
            let (book, told) = job.run(alloc, book, reader, out, err);
            let conn = book.into_connection();
            settle(&conn);
            Ok((conn, told))
        }
        Err(unopened) => Err(unopened),
    }
}
