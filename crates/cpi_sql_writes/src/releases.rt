//! A release is put: its rows are written in one transaction, all of them or none.
ghost use Rattle.std.specs.Prelude.{◌≡◌};
ghost use Rattle.cpi_store.specs.Office.{Freezes};
ghost use Rattle.cpi_sql_rows.specs.Common.{HasCleanDisk, HasTables, Int, IsCleanBook, IsTrue, OnOk, pos};
ghost use Rattle.cpi_sql_rows.specs.Common.{Some, state};
ghost use Rattle.cpi_sql_rows.specs.Lists.{month_at, office_in, revision_from};
ghost use Rattle.cpi_sql_writes.specs.ReleaseSteps.{FitsTables, IsNewRevision, ListsStand};
ghost use Rattle.cpi_sql_writes.specs.Written.{Written};

use crate::held_row::replace;
use crate::one_change::{OneChange, make_change};
use crate::put_header::add_header;
use crate::release_rows::ReleaseNumbers;
use cpi_release::Release;
use cpi_rows::are_in_order;
use cpi_sql_rows::{Unread, month_number};
use sqlite::{Alter, Connection, Transaction};
use std::alloc::Global;

// The numbers that each row of the release begins with.
fn numbers_of(release: &Release) -> ReleaseNumbers
    ensures month { month_at result.month ≡ Some release.now.month }
    ensures revision { result.revision ≡ release.now.revision }
    ensures range { revision_from (Int (pos result.revision)) ≡ Some release.now.revision }
{
    let revision = release.revision.number();
    ReleaseNumbers {
        month: month_number(release.month),
        revision: u32::from(revision),
    }
}

// Whether the tables can take the release: its lists are strictly in the order of their keys.
fn fits_tables(release: &Release) -> bool
    ensures { IsTrue result → FitsTables release.now }
{
    are_in_order(release.frozen.as_slice())
        && are_in_order(release.carried.as_slice())
        && are_in_order(release.levels.as_slice())
}

impl OneChange for Release {
    ghost change = { Freezes };

    ghost fits = { IsNewRevision };

    ghost leaves = { ListsStand };

    // Writes the header and the lists. It is an error if the tables can't take the release.
    fn write<S: Alter>(&self, tx: &mut Transaction<'_, S>, alloc: Global) -> Result<(), Unread> {
        if !fits_tables(self) {
            return Err(Unread);
        }
        let numbers = numbers_of(self);
        add_header(tx, alloc, numbers, self)?;
        replace(tx, alloc, numbers, self.frozen.as_slice())?;
        replace(tx, alloc, numbers, self.carried.as_slice())?;
        replace(tx, alloc, numbers, self.levels.as_slice())
    }
}

/// Puts a release that isn't there yet: all of its rows, or none. Rows with its number but without a header are
/// dropped. It is an error if the lists aren't in the order of their keys, a transaction is open, the store fails, or
/// memory is refused.
pub fn put_release<S: Alter>(
    conn: &mut Connection<S>,
    alloc: Global,
    release: &Release,
) -> Result<(), Unread>
    ensures written { Written (Freezes release.now) (IsNewRevision release.now)
        (state S.Store conn.old) (state S.Store conn.new) result }
    ensures stand { IsCleanBook (state S.Store conn.new) → HasTables (state S.Store conn.old) →
        IsNewRevision release.now (office_in (state S.Store conn.old).now.trees) →
        OnOk result (ListsStand release.now (state S.Store conn.new).now.trees) }
    ensures open { HasCleanDisk (state S.Store conn.new) → OnOk result (IsTrue (state S.Store conn.new).is_open) }
{
    make_change(conn, alloc, release)
}
