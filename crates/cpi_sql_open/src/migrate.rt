//! The migration of schema 1: its rows are brought into the tables of schema 2 in one transaction.
ghost use Rattle.std.specs.Prelude.{◌≡◌};
ghost use Rattle.cpi_sql_rows.specs.Common.{HasCleanDisk, IsCleanBook, IsTrue, KeepsCommit, OnErr, OnOk, Survives};
ghost use Rattle.cpi_sql_rows.specs.Common.{false, first_schema, state};
ghost use Rattle.cpi_sql_rows.specs.Finding.{HaveFirstRowids, IsMigrated, IsMoved};

use crate::make::{NUMBER, SECOND_TABLES};
use crate::perform::perform_each;
use crate::version::{Version, look};
use cpi_sql_rows::{Unread, settle};
use sqlite::{Alter, Connection, Transaction};

// Copies the rows of each table of schema 1 that schema 2 replaces.
const COPIES: [&str; 6] = [
    "INSERT INTO assignment_2 (collector, slot, outlet, item, first_month, last_month, series_collector, \
     series_slot, copied) SELECT collector, slot, outlet, item, first_month, last_month, collector, slot, \
     NULL FROM assignment",
    "INSERT INTO quote_2 (collector, slot, month, mark, value, receipt) SELECT collector, slot, month, mark, \
     value, receipt FROM quote",
    "INSERT INTO release_2 (month, revision, frozen_at, publishes, carry) SELECT month, 1, frozen_at, \
     publishes, carry FROM release",
    "INSERT INTO frozen_2 (month, revision, collector, slot, item, last_month, mark, value) SELECT month, 1, \
     collector, slot, item, last_month, mark, value FROM frozen",
    "INSERT INTO carried_2 (month, revision, collector, slot, item, last_month, ticks, knum, kden, observed, \
     imputed) SELECT month, 1, collector, slot, item, last_month, ticks, knum, kden, observed, imputed FROM \
     carried",
    "INSERT INTO level_2 (month, revision, code, title, weight, within, chained, month_change, year_change, \
     imputed) SELECT month, 1, code, title, weight, within, chained, month_change, year_change, imputed FROM \
     level",
];

// Clears the tables whose rows were copied, those that refer to others first.
const CLEARS: [&str; 6] = [
    "DELETE FROM level",
    "DELETE FROM carried",
    "DELETE FROM frozen",
    "DELETE FROM release",
    "DELETE FROM quote",
    "DELETE FROM assignment",
];

// The number of schema 2 is put in place of that of schema 1.
const NUMBERS: [&str; 2] = ["DELETE FROM version", NUMBER];

// The new tables, their rows, and the number, once that is seen to be the number of schema 1.
fn move_rows<S: Alter>(tx: &mut Transaction<'_, S>) -> Result<(), Unread>
    ensures same_reference { tx.new.conn.ghost_name ≡ tx.old.conn.ghost_name }
    ensures moved { HasCleanDisk (state S.Store tx.new.conn.now) →
        IsTrue (state S.Store tx.old.conn.now).in_transaction →
        (state S.Store tx.old.conn.now).now.schema ≡ first_schema →
        HaveFirstRowids (state S.Store tx.old.conn.now).now.trees →
        OnOk result (IsMoved (state S.Store tx.old.conn.now) (state S.Store tx.new.conn.now)) }
    ensures kept { HasCleanDisk (state S.Store tx.new.conn.now) →
        IsTrue (state S.Store tx.old.conn.now).in_transaction →
        KeepsCommit (state S.Store tx.old.conn.now) (state S.Store tx.new.conn.now) }
    ensures survives { Survives (state S.Store tx.old.conn.now) (state S.Store tx.new.conn.now) (λ _. ⊥) }
{
    match look(tx)? {
        Version::First => {
            perform_each(tx, &SECOND_TABLES)?;
            perform_each(tx, &COPIES)?;
            perform_each(tx, &CLEARS)?;
            perform_each(tx, &NUMBERS)?;
            Ok(())
        }
        Version::Second | Version::Other => Err(Unread),
    }
}

/// Brings the rows of a file of schema 1 into the tables of schema 2: all of them, or none.
#[tactic(auto, using(crate::proofs::Moved::moved_same, crate::proofs::Moved::unmoved_survives))]
pub fn migrate<S: Alter>(conn: &mut Connection<S>) -> Result<(), Unread>
    requires { (state S.Store conn.old).in_transaction ≡ false }
    ensures alone { (state S.Store conn.new).in_transaction ≡ false }
    ensures clean { IsCleanBook (state S.Store conn.new) → IsCleanBook (state S.Store conn.old) }
    ensures open { HasCleanDisk (state S.Store conn.new) → OnOk result (IsTrue (state S.Store conn.new).is_open) }
    ensures moved { HasCleanDisk (state S.Store conn.new) → (state S.Store conn.old).now.schema ≡ first_schema →
        HaveFirstRowids (state S.Store conn.old).now.trees →
        OnOk result (IsMoved (state S.Store conn.old) (state S.Store conn.new)) }
    ensures undone { HasCleanDisk (state S.Store conn.new) → IsTrue (state S.Store conn.new).is_open →
        OnErr result ((state S.Store conn.new).now ≡ (state S.Store conn.old).now) }
    ensures crash { Survives (state S.Store conn.old) (state S.Store conn.new)
        (λ db. (state S.Store conn.old).now.schema ≡ first_schema →
        HaveFirstRowids (state S.Store conn.old).now.trees → IsMigrated (state S.Store conn.old).now.trees db) }
{
    settle(conn);
    let mut tx = conn.transaction();
    move_rows(&mut tx)?;
    let done = tx.commit();
    settle(conn);
    done?;
    Ok(())
}
