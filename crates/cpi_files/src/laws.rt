//! Theorems about files that are closed and opened again.
ghost use Rattle.cpi_files.specs.OneRun.{ServingIsOneRun};
ghost use Rattle.cpi_files.specs.Reopened.{ClosedIsOpened};

use crate::cabinet::Cabinet;
use cpi_app::{Address, served_is_a_run};
use cpi_sql::SqlBook;
use sqlite::FileStore;
use sqlite_disk::Disk;

/// An office whose files were closed and then opened again is the same: each table has the rows that it had.
///
/// The connection that was closed held the tables of an office, as every book over a database does while it is clean.
/// All that it showed was committed, as it is outside of a transaction (`settle` of `cpi_sql_rows`), and the close
/// succeeded. The files are those that it left, and the book that is opened over them is clean.
pub fn closed_is_opened<D: Disk>()
    ensures { ClosedIsOpened D.Disk }
{}

/// All that is served over the files of a cabinet, over one book and the next, is one run of the office: the requests
/// in the messages of all connections, in their order, except those that were answered 90. So whatever is true of a run
/// is true of it: each reply is the office's, a sound office stays sound, and its tables are the index.
///
/// The cabinet gives back the files that it got. The first office was sound. Each book was clean when it was left, and
/// each close but the last one succeeded.
pub fn serving_is_one_run<C: Cabinet, A: Address>()
    ensures { (address : A) → ServingIsOneRun C.Cabinet C.Medium.Disk A.Open.meets (A.opens address) }
{
    served_is_a_run::<A::Open, SqlBook<FileStore<C::Medium>>>();
    closed_is_opened::<C::Medium>();
}
