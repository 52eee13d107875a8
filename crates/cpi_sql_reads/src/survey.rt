//! An office but for its releases, read whole from the tables.
ghost use Rattle.std.specs.Prelude.{◌≡◌};
ghost use Rattle.cpi_store.specs.Office.{public_part};
ghost use Rattle.cpi_sql_rows.specs.Common.{state, ArePlansTaken, IsSurveyOf, Looks};
ghost use Rattle.cpi_sql_rows.specs.Lists.{office_in};
ghost use Rattle.cpi_sql_reads.specs.Tells.{Tells};

use crate::years::plans;
use cpi_plan::Item;
use cpi_sql_rows::{Unread, all_quotes, by_key, read_all};
use cpi_store::{Outlet, Survey};
use cpi_survey::Public;
use sqlite::{Alter, Connection};
use std::alloc::Global;

// The public part of an office: items, plans and calendar.
fn read_public<S: Alter>(conn: &mut Connection<S>, alloc: Global) -> Result<Public, Unread>
    ensures look { Looks (state S.Store conn.old) (state S.Store conn.new) result }
    ensures read { Tells S.Store conn.old conn.new result (λ trees public. public ≡ public_part (office_in trees)) }
    ensures taken { Tells S.Store conn.old conn.new result (λ trees _. ArePlansTaken trees) }
{
    let read: Vec<Item> = read_all(conn, alloc)?;
    let items = by_key(alloc, read)?;
    let plans = plans(conn, alloc, &items)?;
    let rows = read_all(conn, alloc)?;
    Ok(Public::from_parts(items, plans, rows))
}

/// An office but for its releases, read from the tables. For n rows it takes O(n log n) steps. It is an error if the
/// store fails, the types refuse a row, or memory is refused.
pub fn read_survey<S: Alter>(conn: &mut Connection<S>, alloc: Global) -> Result<Survey, Unread>
    ensures look { Looks (state S.Store conn.old) (state S.Store conn.new) result }
    ensures read { Tells S.Store conn.old conn.new result IsSurveyOf }
{
    let public = read_public(conn, alloc)?;
    let registrations = read_all(conn, alloc)?;
    let read: Vec<Outlet> = read_all(conn, alloc)?;
    let outlets = by_key(alloc, read)?;
    let given = read_all(conn, alloc)?;
    let quotes = all_quotes(conn, alloc)?;
    match Survey::from_rows(alloc, public, registrations, outlets, &given, &quotes) {
        Some(survey) => Ok(survey),
        None => Err(Unread),
    }
}
