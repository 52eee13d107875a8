//! A statement of a transaction.
ghost use Rattle.std.specs.Prelude.{◌≡◌};
ghost use Rattle.cpi_sql_rows.specs.Common.{bound, state};
ghost use Rattle.cpi_sql_writes.specs.Within.{RanStatement, Within};

use cpi_sql_rows::Unread;
use sqlite::{Alter, Transaction};
use sqlite_value::value::ValueRef;

/// Runs a statement of the transaction. It is an error if the store fails.
pub fn run_inside<S: Alter>(
    tx: &mut Transaction<'_, S>,
    text: &str,
    params: &[ValueRef<'_>],
) -> Result<(), Unread>
    ensures same_reference { tx.new.conn.ghost_name ≡ tx.old.conn.ghost_name }
    ensures ran { Within (state S.Store tx.old.conn.now) (state S.Store tx.new.conn.now) result
        (RanStatement text.now (bound params.now)) }
{
    let _count = tx.execute(text, params)?;
    Ok(())
}
