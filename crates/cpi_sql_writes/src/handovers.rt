//! A series is handed over: the former slot's row ends, and the new slot's row is added, both or neither.
ghost use Rattle.std.specs.Prelude.{◌≡◌};
ghost use Rattle.cpi_store.specs.declared.given.Given.{Given};
ghost use Rattle.cpi_store.specs.Office.{HandsOver};
ghost use Rattle.cpi_sql_rows.specs.Common.{⊤, ℕ, HasCleanDisk, IsTrue, OnOk, Some, state};
ghost use Rattle.cpi_sql_rows.specs.Lists.{assignments_in};
ghost use Rattle.cpi_sql_rows.specs.Tables.{table_of_assignments_2};
ghost use Rattle.cpi_sql_writes.specs.GivenColumns.{AddsGiven, CanHandOver, columns_of, given_of, IsNumberFree};
ghost use Rattle.cpi_sql_writes.specs.GivenColumns.{ReplacesGiven};
ghost use Rattle.cpi_sql_writes.specs.Within.{Changes, RanStatement, Within};
ghost use Rattle.cpi_sql_writes.specs.Written.{Written};

use crate::given_columns::{GivenColumns, given_columns};
use crate::inside::run_inside;
use crate::one_change::{OneChange, make_change};
use cpi_sql_rows::Unread;
use cpi_store::SeriesMove;
use sqlite::{Alter, Connection, Transaction};
use std::alloc::Global;

// Runs a statement of the transaction with these columns as its parameters.
fn run_given<S: Alter>(
    tx: &mut Transaction<'_, S>,
    text: &str,
    columns: &GivenColumns,
) -> Result<(), Unread>
    ensures same_reference { tx.new.conn.ghost_name ≡ tx.old.conn.ghost_name }
    ensures ran { Within (state S.Store tx.old.conn.now) (state S.Store tx.new.conn.now) result
        (RanStatement text.now (columns_of columns.now)) }
{
    let row = columns.parameters();
    run_inside(tx, text, &row)
}

const REPLACE_GIVEN: &str =
    "INSERT INTO assignment_2 (collector, slot, outlet, item, first_month, last_month, series_collector, series_slot, \
     copied) VALUES (?1, ?2, ?3, ?4, ?5, ?6, ?7, ?8, ?9) ON CONFLICT (collector, slot) DO UPDATE SET \
     collector = excluded.collector, slot = excluded.slot, outlet = excluded.outlet, item = excluded.item, \
     first_month = excluded.first_month, last_month = excluded.last_month, \
     series_collector = excluded.series_collector, series_slot = excluded.series_slot, copied = excluded.copied";

// Puts the row of a slot in place of the slot's former row, if it has one.
fn replace_given<S: Alter>(
    tx: &mut Transaction<'_, S>,
    columns: &GivenColumns,
) -> Result<(), Unread>
    ensures same_reference { tx.new.conn.ghost_name ≡ tx.old.conn.ghost_name }
    ensures put { Within (state S.Store tx.old.conn.now) (state S.Store tx.new.conn.now) result
        (λ old new. (number : ℕ) (g : Given) → given_of columns.now ≡ Some (number, g)
        → Changes table_of_assignments_2.tree (ReplacesGiven number g) old new) }
{
    run_given(tx, REPLACE_GIVEN, columns)
}

const ADD_GIVEN: &str =
    "INSERT INTO assignment_2 (collector, slot, outlet, item, first_month, last_month, series_collector, series_slot, \
     copied) VALUES (?1, ?2, ?3, ?4, ?5, ?6, ?7, ?8, ?9)";

// Adds the row of a slot that is free. It is an error if the slot has a row.
fn add_given<S: Alter>(tx: &mut Transaction<'_, S>, columns: &GivenColumns) -> Result<(), Unread>
    ensures same_reference { tx.new.conn.ghost_name ≡ tx.old.conn.ghost_name }
    ensures put { Within (state S.Store tx.old.conn.now) (state S.Store tx.new.conn.now) result
        (λ old new. (number : ℕ) (g : Given) → given_of columns.now ≡ Some (number, g)
        → IsNumberFree number g.assignment.slot (assignments_in (old.now.trees table_of_assignments_2.tree))
        → Changes table_of_assignments_2.tree (AddsGiven number g) old new) }
{
    run_given(tx, ADD_GIVEN, columns)
}

impl OneChange for SeriesMove {
    ghost change = { HandsOver };

    ghost fits = { λ handover office. CanHandOver handover office.assignments };

    ghost leaves = { λ _ _. ⊤ };

    // Writes the two rows.
    fn write<S: Alter>(&self, tx: &mut Transaction<'_, S>, alloc: Global) -> Result<(), Unread> {
        let ended = &self.ended;
        let assignment = &self.assigned.assignment;
        let former = given_columns(alloc, self.former.number, &ended.assignment, ended.series)?;
        let new = given_columns(alloc, self.taker.number, assignment, ended.series)?;
        replace_given(tx, &former)?;
        add_given(tx, &new)
    }
}

/// Ends the former assignment, and adds the new one, which has the same series: both, or neither. It is an error if a
/// transaction is open, the store fails, or memory is refused.
pub fn put_handover<S: Alter>(
    conn: &mut Connection<S>,
    alloc: Global,
    handover: &SeriesMove,
) -> Result<(), Unread>
    ensures written { Written (HandsOver handover.now) (λ office. CanHandOver handover.now office.assignments)
        (state S.Store conn.old) (state S.Store conn.new) result }
    ensures open { HasCleanDisk (state S.Store conn.new) → OnOk result (IsTrue (state S.Store conn.new).is_open) }
{
    make_change(conn, alloc, handover)
}
