//! A change of the office that is made in one transaction: all of its rows are written, or none.
ghost use Rattle.std.specs.Prelude.{◌≡◌};
ghost use Rattle.sqlite.specs.Tree.{Trees};
ghost use Rattle.cpi_store.specs.Office.{Change, Office};
ghost use Rattle.cpi_sql_rows.specs.Common.{false, HasCleanDisk, HasTables, IsCleanBook, IsTrue, OnErr};
ghost use Rattle.cpi_sql_rows.specs.Common.{OnOk, state, Survives};
ghost use Rattle.cpi_sql_rows.specs.Lists.{office_in};
ghost use Rattle.cpi_sql_writes.specs.Rest.{LeavesOnly, MakesOnly};
ghost use Rattle.cpi_sql_writes.specs.Within.{ChangesOffice, LeavesTables, Within};
ghost use Rattle.cpi_sql_writes.specs.Written.{Written};

use cpi_sql_rows::{Unread, settle};
use sqlite::{Alter, Connection, Transaction};
use std::alloc::Global;

/// A change of the office that is made in one transaction.
pub trait OneChange {
    /// The change of the office.
    ghost change: { Self → Change };

    /// Whether the office can take it.
    ghost fits: { Self → Office → Type 0 };

    /// A fact about the tables afterwards, besides the change of the office.
    ghost leaves: { Self → Trees → Type 0 };

    /// Writes its rows. It is an error if the store fails, the tables can't take a row, or memory is refused.
    fn write<S: Alter>(&self, tx: &mut Transaction<'_, S>, alloc: Global) -> Result<(), Unread>
        ensures same_reference { tx.new.conn.ghost_name ≡ tx.old.conn.ghost_name }
        ensures written { Within (state S.Store tx.old.conn.now) (state S.Store tx.new.conn.now) result
            (λ old new. fits self.now (office_in old.now.trees) → ChangesOffice (change self.now) old new) }
        ensures left { Within (state S.Store tx.old.conn.now) (state S.Store tx.new.conn.now) result
            (λ old new. fits self.now (office_in old.now.trees) → LeavesTables (leaves self.now) old new) };
}

// Makes the change in a transaction, which is rolled back if it fails.
fn in_transaction<S: Alter, C: OneChange>(
    conn: &mut Connection<S>,
    alloc: Global,
    change: &C,
) -> Result<(), Unread>
    requires alone { (state S.Store conn.old).in_transaction ≡ false }
    ensures alone { (state S.Store conn.new).in_transaction ≡ false }
    ensures clean { IsCleanBook (state S.Store conn.new) → IsCleanBook (state S.Store conn.old) }
    ensures open { HasCleanDisk (state S.Store conn.new) → OnOk result (IsTrue (state S.Store conn.new).is_open) }
    ensures done { HasCleanDisk (state S.Store conn.new) → HasTables (state S.Store conn.old) →
        C.fits change.now (office_in (state S.Store conn.old).now.trees) →
        OnOk result (MakesOnly (C.change change.now) (state S.Store conn.old) (state S.Store conn.new)) }
    ensures left { HasCleanDisk (state S.Store conn.new) → HasTables (state S.Store conn.old) →
        C.fits change.now (office_in (state S.Store conn.old).now.trees) →
        OnOk result (C.leaves change.now (state S.Store conn.new).now.trees) }
    ensures undone { HasCleanDisk (state S.Store conn.new) → IsTrue (state S.Store conn.new).is_open →
        OnErr result ((state S.Store conn.new).now ≡ (state S.Store conn.old).now) }
    ensures crash { Survives (state S.Store conn.old) (state S.Store conn.new) (λ db.
        HasTables (state S.Store conn.old) → C.fits change.now (office_in (state S.Store conn.old).now.trees) →
        LeavesOnly (C.change change.now) (state S.Store conn.old).now.trees db) }
{
    settle(conn);
    let mut tx = conn.transaction();
    change.write(&mut tx, alloc)?;
    let done = tx.commit();
    settle(conn);
    match done {
        Ok(()) => Ok(()),
        Err(_) => Err(Unread),
    }
}

/// Makes the change in a transaction of its own. It is an error if a transaction is open already, the store fails, the
/// tables can't take a row, or memory is refused. On an error the rows of a clean store are as before.
pub fn make_change<S: Alter, C: OneChange>(
    conn: &mut Connection<S>,
    alloc: Global,
    change: &C,
) -> Result<(), Unread>
    ensures written { Written (C.change change.now) (C.fits change.now)
        (state S.Store conn.old) (state S.Store conn.new) result }
    ensures left { IsCleanBook (state S.Store conn.new) → HasTables (state S.Store conn.old) →
        C.fits change.now (office_in (state S.Store conn.old).now.trees) →
        OnOk result (C.leaves change.now (state S.Store conn.new).now.trees) }
    ensures open { HasCleanDisk (state S.Store conn.new) → OnOk result (IsTrue (state S.Store conn.new).is_open) }
{
    if !conn.is_autocommit() {
        return Err(Unread);
    }
    in_transaction(conn, alloc, change)
}
