//! The tables of an empty database, and those that schema 2 adds.
ghost use Rattle.std.specs.Prelude.{◌≡◌, ◌≢◌};
ghost use Rattle.cpi_sql_rows.specs.Common.{HasCleanDisk, IsTrue, KeepsCommit, OnErr, OnOk, Survives, false};
ghost use Rattle.cpi_sql_rows.specs.Common.{first_schema, map, state};
ghost use Rattle.cpi_sql_rows.specs.Making.{IsBlank, IsNewDatabase, no_schema};
ghost use Rattle.cpi_sql_open.specs.Making.{MakeEach};

use crate::perform::perform_each;
use cpi_sql_rows::settle;
use sqlite::{Alter, Connection, Error, Transaction};

// The tables of schema 1, in the order in which they are made.
const FIRST_TABLES: [&str; 13] = [
    "CREATE TABLE version (number INTEGER PRIMARY KEY) STRICT",
    "CREATE TABLE collector (number INTEGER PRIMARY KEY, key TEXT NOT NULL UNIQUE) STRICT",
    "CREATE TABLE outlet (number INTEGER PRIMARY KEY, name TEXT NOT NULL) STRICT",
    "CREATE TABLE item (code TEXT NOT NULL PRIMARY KEY, text TEXT NOT NULL, unit TEXT NOT NULL, low INTEGER NOT \
     NULL, high INTEGER NOT NULL) STRICT",
    "CREATE TABLE node (year INTEGER NOT NULL, code TEXT NOT NULL, title TEXT NOT NULL, weight INTEGER NOT NULL, \
     PRIMARY KEY (year, code)) STRICT",
    "CREATE TABLE plan_item (year INTEGER NOT NULL, item TEXT NOT NULL REFERENCES item (code), code TEXT NOT \
     NULL, PRIMARY KEY (year, item)) STRICT",
    "CREATE TABLE calendar (month INTEGER PRIMARY KEY, opens INTEGER NOT NULL, closes INTEGER NOT NULL, publishes \
     INTEGER NOT NULL) STRICT",
    "CREATE TABLE assignment (collector INTEGER NOT NULL REFERENCES collector (number), slot INTEGER NOT NULL, \
     outlet INTEGER NOT NULL REFERENCES outlet (number), item TEXT NOT NULL REFERENCES item (code), first_month \
     INTEGER NOT NULL, last_month INTEGER NOT NULL, PRIMARY KEY (collector, slot)) STRICT",
    "CREATE TABLE quote (collector INTEGER NOT NULL, slot INTEGER NOT NULL, month INTEGER NOT NULL, mark TEXT NOT \
     NULL, value INTEGER NOT NULL, receipt INTEGER NOT NULL, PRIMARY KEY (collector, slot, month), FOREIGN KEY \
     (collector, slot) REFERENCES assignment (collector, slot)) STRICT",
    "CREATE TABLE release (month INTEGER PRIMARY KEY, frozen_at INTEGER NOT NULL, publishes INTEGER NOT NULL, \
     carry TEXT NOT NULL) STRICT",
    "CREATE TABLE frozen (month INTEGER NOT NULL REFERENCES release (month), collector INTEGER NOT NULL, slot \
     INTEGER NOT NULL, item TEXT NOT NULL, last_month INTEGER NOT NULL, mark TEXT NOT NULL, value INTEGER NOT \
     NULL, PRIMARY KEY (month, collector, slot)) STRICT",
    "CREATE TABLE carried (month INTEGER NOT NULL REFERENCES release (month), collector INTEGER NOT NULL, slot \
     INTEGER NOT NULL, item TEXT NOT NULL, last_month INTEGER NOT NULL, ticks INTEGER NOT NULL, knum INTEGER NOT \
     NULL, kden INTEGER NOT NULL, observed INTEGER NOT NULL, imputed INTEGER NOT NULL, PRIMARY KEY (month, \
     collector, slot)) STRICT",
    "CREATE TABLE level (month INTEGER NOT NULL REFERENCES release (month), code TEXT NOT NULL, title TEXT NOT \
     NULL, weight INTEGER NOT NULL, within INTEGER NOT NULL, chained INTEGER NOT NULL, month_change INTEGER NOT \
     NULL, year_change INTEGER, imputed INTEGER NOT NULL, PRIMARY KEY (month, code)) STRICT",
];

/// The tables that schema 2 adds, after those of schema 1.
pub const SECOND_TABLES: [&str; 7] = [
    "CREATE TABLE assignment_2 (collector INTEGER NOT NULL REFERENCES collector (number), slot INTEGER NOT NULL, \
     outlet INTEGER NOT NULL REFERENCES outlet (number), item TEXT NOT NULL REFERENCES item (code), first_month \
     INTEGER NOT NULL, last_month INTEGER NOT NULL, series_collector INTEGER NOT NULL, series_slot INTEGER NOT \
     NULL, copied INTEGER, PRIMARY KEY (collector, slot)) STRICT",
    "CREATE TABLE quote_2 (collector INTEGER NOT NULL, slot INTEGER NOT NULL, month INTEGER NOT NULL, mark TEXT \
     NOT NULL, value INTEGER NOT NULL, receipt INTEGER NOT NULL, PRIMARY KEY (collector, slot, month), FOREIGN \
     KEY (collector, slot) REFERENCES assignment_2 (collector, slot)) STRICT",
    "CREATE TABLE release_2 (month INTEGER NOT NULL, revision INTEGER NOT NULL, frozen_at INTEGER NOT NULL, \
     publishes INTEGER NOT NULL, carry TEXT NOT NULL, PRIMARY KEY (month, revision)) STRICT",
    "CREATE TABLE frozen_2 (month INTEGER NOT NULL, revision INTEGER NOT NULL, collector INTEGER NOT NULL, slot \
     INTEGER NOT NULL, item TEXT NOT NULL, last_month INTEGER NOT NULL, mark TEXT NOT NULL, value INTEGER NOT \
     NULL, PRIMARY KEY (month, revision, collector, slot), FOREIGN KEY (month, revision) REFERENCES release_2 \
     (month, revision)) STRICT",
    "CREATE TABLE carried_2 (month INTEGER NOT NULL, revision INTEGER NOT NULL, collector INTEGER NOT NULL, slot \
     INTEGER NOT NULL, item TEXT NOT NULL, last_month INTEGER NOT NULL, ticks INTEGER NOT NULL, knum INTEGER NOT \
     NULL, kden INTEGER NOT NULL, observed INTEGER NOT NULL, imputed INTEGER NOT NULL, PRIMARY KEY (month, \
     revision, collector, slot), FOREIGN KEY (month, revision) REFERENCES release_2 (month, revision)) STRICT",
    "CREATE TABLE level_2 (month INTEGER NOT NULL, revision INTEGER NOT NULL, code TEXT NOT NULL, title TEXT NOT \
     NULL, weight INTEGER NOT NULL, within INTEGER NOT NULL, chained INTEGER NOT NULL, month_change INTEGER NOT \
     NULL, year_change INTEGER, imputed INTEGER NOT NULL, PRIMARY KEY (month, revision, code), FOREIGN KEY \
     (month, revision) REFERENCES release_2 (month, revision)) STRICT",
    "CREATE TABLE plan_ref (year INTEGER PRIMARY KEY, month INTEGER NOT NULL) STRICT",
];

/// The statement that writes the number of schema 2.
pub const NUMBER: &str = "INSERT INTO version (number) VALUES (2)";

// Makes the tables of both schemas, and writes the number of schema 2.
fn make_all<S: Alter>(tx: &mut Transaction<'_, S>) -> Result<(), Error>
    ensures same_reference { tx.new.conn.ghost_name ≡ tx.old.conn.ghost_name }
    ensures made { HasCleanDisk (state S.Store tx.new.conn.now) → IsTrue (state S.Store tx.old.conn.now).in_transaction
        → (state S.Store tx.old.conn.now).now.schema ≡ no_schema
        → OnOk result (IsBlank (state S.Store tx.new.conn.now)) }
    ensures kept { HasCleanDisk (state S.Store tx.new.conn.now)
        → KeepsCommit (state S.Store tx.old.conn.now) (state S.Store tx.new.conn.now) }
    ensures survives { Survives (state S.Store tx.old.conn.now) (state S.Store tx.new.conn.now) (λ _. ⊥) }
{
    perform_each(tx, &FIRST_TABLES)?;
    perform_each(tx, &SECOND_TABLES)?;
    perform_each(tx, &[NUMBER])
}

/// Makes the tables of an empty database, all or none.
#[tactic(auto, using(crate::proofs::MakeLemmas::made_survives, crate::proofs::MakeLemmas::unmade_survives))]
pub fn make_tables<S: Alter>(conn: &mut Connection<S>) -> Result<(), Error>
    requires { (state S.Store conn.old).in_transaction ≡ false }
    ensures alone { (state S.Store conn.new).in_transaction ≡ false }
    ensures made { HasCleanDisk (state S.Store conn.new) → (state S.Store conn.old).now.schema ≡ no_schema
        → OnOk result (IsBlank (state S.Store conn.new)) }
    ensures open { HasCleanDisk (state S.Store conn.new) → OnOk result (IsTrue (state S.Store conn.new).is_open) }
    ensures undone { HasCleanDisk (state S.Store conn.new) → IsTrue (state S.Store conn.new).is_open
        → OnErr result ((state S.Store conn.new).now ≡ (state S.Store conn.old).now) }
    ensures crash { Survives (state S.Store conn.old) (state S.Store conn.new)
        (λ db. (state S.Store conn.old).now.schema ≡ no_schema → IsNewDatabase db) }
{
    settle(conn);
    let mut tx = conn.transaction();
    make_all(&mut tx)?;
    let done = tx.commit();
    settle(conn);
    done
}

/// Makes the tables of schema 1 in an empty database, and after them those of the texts, without a number.
pub fn make_unnumbered<S: Alter>(conn: &mut Connection<S>, more: &[&str]) -> Result<(), Error>
    requires { (state S.Store conn.old).in_transaction ≡ false }
    ensures { HasCleanDisk (state S.Store conn.new) → (state S.Store conn.old).now.schema ≡ no_schema
        → (tables : _) (to : _) → MakeEach (map (λ t. t.now) more.now) tables first_schema to
        → OnOk result ((state S.Store conn.new).now.schema ≡ to) }
{
    let mut tx = conn.transaction();
    perform_each(&mut tx, &FIRST_TABLES)?;
    perform_each(&mut tx, more)?;
    tx.commit()
}

/// Whether the database has nothing in it.
pub fn is_blank<S: Alter>(conn: &Connection<S>) -> bool
    ensures blank { IsTrue result → (state S.Store conn.now).now.schema ≡ no_schema }
    ensures filled { result ≡ false → (state S.Store conn.now).now.schema ≢ no_schema }
{
    let schema = conn.schema();
    schema.tables.is_empty() && schema.indexes.is_empty() && schema.views.is_empty()
}
