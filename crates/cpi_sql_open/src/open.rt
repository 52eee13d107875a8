//! An open: it makes the tables of an empty database, tests those of an office, and migrates those of schema 1.
ghost use Rattle.std.specs.Prelude.{◌≡◌};
ghost use Rattle.cpi_sql_rows.specs.Common.{AreWhole, Err, HasCleanDisk, HasTables, IsCleanBook, IsKept, IsLive};
ghost use Rattle.cpi_sql_rows.specs.Common.{IsTrue};
ghost use Rattle.cpi_sql_rows.specs.Common.{OnErr, OnOk, StaysOpen, Survives, false, first_schema, state};
ghost use Rattle.cpi_sql_rows.specs.Finding.{HavePlanYears, IsMigrated, IsOpened, MayBeMade};
ghost use Rattle.cpi_sql_rows.specs.Making.{IsOfficeDatabase};
ghost use Rattle.cpi_sql_rows.specs.Numbered.{ShowsOther};
ghost use Rattle.cpi_store.specs.declared.open_fault.OpenFault.TheVariants.{UnknownSchema};

use crate::inspect::{test_first, test_second};
use crate::make::{is_blank, make_tables};
use crate::migrate::migrate;
use crate::version::{Version, read_version};
use cpi_sql_rows::Unread;
use cpi_store::OpenFault;
use sqlite::{Alter, Connection};
use std::alloc::Global;

// Does nothing: it is called for the proof, which learns that the connection is live.
fn know_live<S: Alter>(conn: &Connection<S>)
    ensures { IsLive (state S.Store conn.now) }
{
    let _schema = conn.schema();
}

// Tests the tables of schema 1, and migrates them.
fn migrate_first<S: Alter>(conn: &mut Connection<S>, alloc: Global) -> Result<(), Unread>
    requires { (state S.Store conn.old).in_transaction ≡ false }
    ensures clean { IsCleanBook (state S.Store conn.new) → IsCleanBook (state S.Store conn.old) }
    ensures kept { IsCleanBook (state S.Store conn.new) →
        OnErr result (IsKept (state S.Store conn.old) (state S.Store conn.new)) }
    ensures ready { IsCleanBook (state S.Store conn.new) → OnOk result (HasTables (state S.Store conn.new)) }
    ensures whole { IsCleanBook (state S.Store conn.new) → OnOk result (AreWhole (state S.Store conn.new).now.trees) }
    ensures migrated { IsCleanBook (state S.Store conn.new) → OnOk result (
        ((state S.Store conn.old).now.schema ≡ first_schema)
        × IsMigrated (state S.Store conn.old).now.trees (state S.Store conn.new).now.trees) }
    ensures years { IsCleanBook (state S.Store conn.new) →
        OnOk result (HavePlanYears (state S.Store conn.new).now.trees) }
    ensures open { HasCleanDisk (state S.Store conn.new) → OnOk result (IsTrue (state S.Store conn.new).is_open) }
    ensures crash { Survives (state S.Store conn.old) (state S.Store conn.new) (λ db.
        IsCleanBook (state S.Store conn.old)
        × (IsOfficeDatabase db × (((state S.Store conn.old).now.schema ≡ first_schema)
        × IsMigrated (state S.Store conn.old).now.trees db))) }
{
    test_first(conn, alloc)?;
    if !conn.is_autocommit() {
        return Err(Unread);
    }
    migrate(conn)?;
    know_live(conn);
    Ok(())
}

/// Makes the tables of an empty database, or tests those that are there. Those of schema 2 are then as they were, and
/// those of schema 1 are migrated.
pub fn open_office<S: Alter>(conn: &mut Connection<S>, alloc: Global) -> Result<(), OpenFault>
    requires { (state S.Store conn.old).in_transaction ≡ false }
    ensures kept { IsCleanBook (state S.Store conn.new) →
        OnErr result (IsKept (state S.Store conn.old) (state S.Store conn.new)) }
    ensures ready { IsCleanBook (state S.Store conn.new) → OnOk result (HasTables (state S.Store conn.new)) }
    ensures whole { IsCleanBook (state S.Store conn.new) → OnOk result (AreWhole (state S.Store conn.new).now.trees) }
    ensures years { IsCleanBook (state S.Store conn.new) →
        OnOk result (HavePlanYears (state S.Store conn.new).now.trees) }
    ensures opened { IsCleanBook (state S.Store conn.new) →
        OnOk result (IsOpened (state S.Store conn.old) (state S.Store conn.new)) }
    ensures stays { OnOk result (StaysOpen (state S.Store conn.old) (state S.Store conn.new)) }
    ensures unknown { IsCleanBook (state S.Store conn.new) →
        result ≡ Err UnknownSchema → ShowsOther S.Store conn.old }
    ensures crash { Survives (state S.Store conn.old) (state S.Store conn.new) (MayBeMade (state S.Store conn.old)) }
{
    if is_blank(conn) {
        return make_tables(conn).map_err(|_| OpenFault::Store);
    }
    match read_version(conn) {
        Ok(Version::Second) => test_second(conn, alloc).map_err(|_| OpenFault::Store),
        Ok(Version::First) => migrate_first(conn, alloc).map_err(|_| OpenFault::Store),
        Ok(Version::Other) => Err(OpenFault::UnknownSchema),
        Err(_) => Err(OpenFault::Store),
    }
}
