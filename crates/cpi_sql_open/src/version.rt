//! The number of the schema, which is in the one row of `version`.
ghost use Rattle.std.specs.Prelude.{◌≡◌};
ghost use Rattle.cpi_sql_rows.specs.Common.{[], HasCleanDisk, IfOk, IsCleanBook, IsTrue, KeepsCommit, Shown};
ghost use Rattle.cpi_sql_rows.specs.Common.{Survives, false, office_schema, state};
ghost use Rattle.cpi_sql_rows.specs.Numbered.{IsVersion, version_text};
ghost use Rattle.cpi_sql_rows.specs.Tables.{table_of_version};
ghost use Rattle.cpi_sql_open.specs.declared.version.Version.TheVariants.{Second};
ghost use Rattle.cpi_sql_open.specs.Said.{SaysVersion, ShowsVersion};

use cpi_sql_rows::settle;
use sqlite::{Alter, Connection, Error, Row, Transaction};
use sqlite_value::value::ValueRef;

/// What `version` shows.
#[derive(Clone, Copy, PartialEq, Eq)]
pub enum Version {
    /// One row, which is 1.
    First,
    /// One row, which is 2.
    Second,
    /// Other rows.
    Other,
}

const VERSION: &str = "SELECT number FROM version";

// The number of the schema that the rows of `version` are.
fn said(rows: &[Row]) -> Version
    ensures { SaysVersion result rows.now }
{
    let [row] = rows else {
        return Version::Other;
    };
    match row.get_ref(0) {
        Ok(ValueRef::Int(1)) => Version::First,
        Ok(ValueRef::Int(2)) => Version::Second,
        _ => Version::Other,
    }
}

/// The number of the schema, within a transaction and under any schema.
pub fn look<S: Alter>(tx: &mut Transaction<'_, S>) -> Result<Version, Error>
    ensures same_reference { tx.new.conn.ghost_name ≡ tx.old.conn.ghost_name }
    ensures shown { HasCleanDisk (state S.Store tx.new.conn.now) → IfOk result (λ v. (rows : _) ×
        Shown version_text [] (state S.Store tx.old.conn.now) (state S.Store tx.new.conn.now) rows × SaysVersion
        v rows) }
    ensures kept { HasCleanDisk (state S.Store tx.new.conn.now) →
        IsTrue (state S.Store tx.old.conn.now).in_transaction →
        KeepsCommit (state S.Store tx.old.conn.now) (state S.Store tx.new.conn.now) }
    ensures survives { Survives (state S.Store tx.old.conn.now) (state S.Store tx.new.conn.now) (λ _. ⊥) }
{
    let rows = tx.query_all(VERSION, &[])?;
    Ok(said(&rows))
}

/// The number of the schema, under any schema. Whatever the text means there is undone.
pub fn read_version<S: Alter>(conn: &mut Connection<S>) -> Result<Version, Error>
    requires { (state S.Store conn.old).in_transaction ≡ false }
    ensures alone { (state S.Store conn.new).in_transaction ≡ false }
    ensures clean { IsCleanBook (state S.Store conn.new) → IsCleanBook (state S.Store conn.old) }
    ensures undone { HasCleanDisk (state S.Store conn.new) → IsTrue (state S.Store conn.new).is_open →
        (state S.Store conn.new).now ≡ (state S.Store conn.old).now }
    ensures second { HasCleanDisk (state S.Store conn.new) → IfOk result (λ v. v ≡ Second →
        (state S.Store conn.old).now.schema ≡ office_schema →
        IsVersion 2 ((state S.Store conn.old).now.trees table_of_version.tree)) }
    ensures shown { HasCleanDisk (state S.Store conn.new) → IfOk result (ShowsVersion S.Store conn.old) }
    ensures survives { Survives (state S.Store conn.old) (state S.Store conn.new) (λ _. ⊥) }
{
    settle(conn);
    let mut tx = conn.transaction();
    let found = look(&mut tx);
    tx.rollback();
    found
}
