//! The rowids and the years in the tables of plans, which an open tests.
ghost use Rattle.cpi_sql_rows.specs.Common.{[], QueryLeaves, HasCleanDisk, IsCleanBook, IsTrue, OnOk, state};
ghost use Rattle.cpi_sql_rows.specs.Finding.{ArePlanRows, AsksYears, plan_row_from};

use crate::rows::number_at;
use crate::stored::{Stored, Unread, list};
use cpi_codes::Year;
use cpi_rows::Keyed;
use sqlite::{Alter, Connection, Row};
use std::alloc::Global;

/// The rowid of a row of a plan, and the year of that plan.
#[derive(Drop)]
pub struct PlanRow {
    pub number: i64,
    pub year: Year,
}

impl Keyed for PlanRow {
    type Key = i64;

    ghost key = { λ r. r.number };

    fn key(&self) -> i64 {
        self.number
    }
}

impl Stored for PlanRow {
    ghost stands_for = { plan_row_from };

    fn read(alloc: Global, row: &Row) -> Option<PlanRow> {
        let number: i64 = row.get(0).ok()?;
        let year = u16::try_from(number_at(row, 1)?).ok()?;
        Some(PlanRow {
            number,
            year: Year::new(year)?,
        })
    }
}

/// Reads the rowids and the years of a table of plans. It is an error if the rowids aren't numbers that rise, or if a
/// year isn't 2000 to 2199.
pub fn scan_plans<S: Alter>(
    conn: &mut Connection<S>,
    alloc: Global,
    text: &str,
) -> Result<(), Unread>
    ensures asked { QueryLeaves text.now [] (state S.Store conn.old) (state S.Store conn.new) }
    ensures found { IsCleanBook (state S.Store conn.new)
        → OnOk result ((tree place : _) → AsksYears (state S.Store conn.old).now.schema text.now tree place
        → ArePlanRows place ((state S.Store conn.old).now.trees tree)) }
    ensures open { HasCleanDisk (state S.Store conn.new) → OnOk result (IsTrue (state S.Store conn.new).is_open) }
{
    let _rows = list::<S, PlanRow>(conn, alloc, text, &[])?;
    Ok(())
}
