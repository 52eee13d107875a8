//! A job in the office of files on any medium: the caller provides the files, and gets them back.
ghost use Rattle.std.specs.Prelude.{◌≡◌, false, IfErr, IfOk, IsTrue};
ghost use Rattle.cpi_files.specs.Files.{IsClosedAs, IsDoneAndClosed, IsRefusedAndClosed};
ghost use Rattle.cpi_files.specs.Files.{IsDoneInFiles, IsRefusedInFiles};

use crate::job::BookJob;
use crate::over::job_over;
use cpi_sql::OpenFault;
use sqlite::{Connection, FileStore, Files, Options};
use sqlite_disk::Disk;
use std::alloc::Global;
use std::io::{Read, Write};

// Copies the log into the database file, closes the connection and gives the files back. The error is `Store`.
fn close<D: Disk + Drop>(conn: Connection<FileStore<D>>) -> (Result<(), OpenFault>, Files<D>)
    ensures { IsClosedAs D.Disk conn result.0 result.1 }
{
    match conn.close_files() {
        Ok(files) => (Ok(()), files),
        Err((_, store)) => (Err(OpenFault::Store), store.close()),
    }
}

// Does the job in the office that the connection holds, closes the connection and gives its files back. The error says
// that the office couldn't be opened.
fn job_in_store<D: Disk + Drop, J: BookJob, R: Read, W: Write, E: Write>(
    alloc: Global,
    conn: Connection<FileStore<D>>,
    job: &mut J,
    reader: &mut R,
    out: &mut W,
    err: &mut E,
) -> (
    Result<(J::Told, Result<(), OpenFault>), OpenFault>,
    Files<D>,
)
    requires { conn.in_transaction ≡ false }
    ensures done { IfOk result.0 (λ it. IsDoneAndClosed D.Disk conn (J.does job.old) (R.remaining reader.old)
        (W.contents out.old) (W.contents out.new) it.0 it.1 result.1) }
    ensures refused { IfErr result.0 (λ fault. IsRefusedAndClosed D.Disk conn fault result.1) }
    ensures untouched { IfErr result.0 (λ _. (reader.new ≡ reader.old)
        × (out.new ≡ out.old) × (err.new ≡ err.old)) }
{
    match job_over(alloc, conn, job, reader, out, err) {
        Ok((conn, told)) => {
            let (closed, files) = close(conn);
            (Ok((told, closed)), files)
        }
        Err(unopened) => {
            let (_, files) = close(unopened.conn);
            (Err(unopened.fault), files)
        }
    }
}

/// Does the job in the office that the files hold, closes it and gives the files back. Empty files get the tables of an
/// empty office. Files with the tables of an office stay as they are, and those of schema 1 are migrated.
/// If the files hold no office, the job doesn't begin, they stay as they were, and the error says why. The result of
/// the close comes beside the job's; each answered command is kept before it.
pub fn job_in_files<D: Disk + Drop, J: BookJob, R: Read, W: Write, E: Write>(
    alloc: Global,
    files: Files<D>,
    options: Options,
    job: &mut J,
    reader: &mut R,
    out: &mut W,
    err: &mut E,
) -> (
    Result<(J::Told, Result<(), OpenFault>), OpenFault>,
    Files<D>,
)
    requires log { IsTrue (D.Disk.is_usable files.log) }
    requires db { IsTrue (D.Disk.is_usable files.db) }
    ensures done { IfOk result.0 (λ it. IsDoneInFiles D.Disk (J.does job.old) (R.remaining reader.old)
        (W.contents out.old) (W.contents out.new) it.0 it.1 files result.1) }
    ensures refused { IfErr result.0 (λ fault. IsRefusedInFiles D.Disk fault files result.1) }
    ensures untouched { IfErr result.0 (λ _. (reader.new ≡ reader.old)
        × (out.new ≡ out.old) × (err.new ≡ err.old)) }
{
    match Connection::open_files(alloc, files, options) {
        Ok(conn) => job_in_store(alloc, conn, job, reader, out, err),
        Err((_, rest)) => (Err(OpenFault::Store), rest.into_files()),
    }
}
