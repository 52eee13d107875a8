//! A year's plan: its rows replace those of the year's former plan, all of them or none.
ghost use Rattle.std.specs.Prelude.{◌≡◌};
ghost use Rattle.cpi_store.specs.Office.{PutsPlan};
ghost use Rattle.cpi_sql_rows.specs.Common.{⊤, HasCleanDisk, IsTrue, OnOk, state};
ghost use Rattle.cpi_sql_writes.specs.Written.{Written};

use crate::held_row::replace;
use crate::one_change::{OneChange, make_change};
use crate::plan_rows::replace_reference;
use cpi_plan::YearPlan;
use cpi_sql_rows::Unread;
use sqlite::{Alter, Connection, Transaction};
use std::alloc::Global;

impl OneChange for YearPlan {
    ghost change = { PutsPlan };

    ghost fits = { λ _ _. ⊤ };

    ghost leaves = { λ _ _. ⊤ };

    // Puts its rows in place of those of its year.
    fn write<S: Alter>(&self, tx: &mut Transaction<'_, S>, alloc: Global) -> Result<(), Unread> {
        let year = u32::from(self.year());
        replace(tx, alloc, year, self.nodes())?;
        replace(tx, alloc, year, self.places())?;
        replace_reference(tx, year, self.reference())
    }
}

/// Puts a year's plan, in place of the former one if there is one: all of its rows, or none. It is an error if a
/// transaction is open, the store fails, or memory is refused.
pub fn put_plan<S: Alter>(
    conn: &mut Connection<S>,
    alloc: Global,
    plan: &YearPlan,
) -> Result<(), Unread>
    ensures written { Written (PutsPlan plan.now) (λ _. ⊤) (state S.Store conn.old) (state S.Store conn.new) result }
    ensures open { HasCleanDisk (state S.Store conn.new) → OnOk result (IsTrue (state S.Store conn.new).is_open) }
{
    make_change(conn, alloc, plan)
}
