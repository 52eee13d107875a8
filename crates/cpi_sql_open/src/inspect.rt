//! The tests of the tables that an open finds.
ghost use Rattle.std.specs.Prelude.{◌≡◌};
ghost use Rattle.std.specs.List.{AllByRecursion};
ghost use Rattle.sqlite.specs.Steps.{over_memory};
ghost use Rattle.cpi_sql_rows.specs.Common.{ℕ, AreWhole, HasCleanDisk, HasRowids, IfOk, IsCleanBook, IsLive};
ghost use Rattle.cpi_sql_rows.specs.Common.{IsOfOffice, IsTrue, List, LooksOver, OnOk, StaysOpen, false, first_schema};
ghost use Rattle.cpi_sql_rows.specs.Common.{map, state};
ghost use Rattle.cpi_sql_rows.specs.Finding.{ArePlanRows};
ghost use Rattle.cpi_sql_open.specs.Looks.{AreTestsOf, AskEach, AskEachYear, Finds, FindsOffice, IsTest, first_wanted};
ghost use Rattle.cpi_sql_open.specs.Making.{MakeEach};

use crate::make::{SECOND_TABLES, make_unnumbered};
use crate::same::Same;
use cpi_plan::{CalendarRow, Item};
use cpi_sql_rows::{Unread, read_all, scan, scan_plans};
use cpi_store::{Outlet, Registration};
use sqlite::{Alter, Connection, Error};
use sqlite_trees::memory::MemStore;
use std::alloc::Global;

// The tables of schema 1 and those that follow, made in memory by the statements that make them in a file.
fn model(alloc: Global, more: &[&str]) -> Result<Connection<MemStore>, Error>
    ensures { (tables : _) (to : _) → MakeEach (map (λ t. t.now) more.now) tables first_schema to
        → IfOk result (λ c. (state over_memory c).now.schema ≡ to) }
{
    let mut conn = Connection::open_in_memory(alloc)?;
    make_unnumbered(&mut conn, more)?;
    Ok(conn)
}

// Whether the tables are those of schema 1 and, after them, those that the texts make. Their rows obey them.
fn has_tables<S: Alter>(conn: &Connection<S>, alloc: Global, more: &[&str]) -> Result<bool, Error>
    ensures same { (tables : _) (to : _) → MakeEach (map (λ t. t.now) more.now) tables first_schema to
        → IfOk result (λ b. IsTrue b → (state S.Store conn.now).now.schema ≡ to) }
    ensures live { IsLive (state S.Store conn.now) }
{
    let schema = conn.schema();
    let model = model(alloc, more)?;
    Ok(schema.same(model.schema()))
}

const SECOND_SCANS: [&str; 7] = [
    "SELECT rowid FROM calendar ORDER BY rowid",
    "SELECT rowid FROM assignment_2 ORDER BY rowid",
    "SELECT rowid FROM quote_2 ORDER BY rowid",
    "SELECT rowid FROM release_2 ORDER BY rowid",
    "SELECT rowid FROM frozen_2 ORDER BY rowid",
    "SELECT rowid FROM carried_2 ORDER BY rowid",
    "SELECT rowid FROM level_2 ORDER BY rowid",
];

const FIRST_SCANS: [&str; 7] = [
    "SELECT rowid FROM calendar ORDER BY rowid",
    "SELECT rowid FROM assignment ORDER BY rowid",
    "SELECT rowid FROM quote ORDER BY rowid",
    "SELECT rowid FROM release ORDER BY rowid",
    "SELECT rowid FROM frozen ORDER BY rowid",
    "SELECT rowid FROM carried ORDER BY rowid",
    "SELECT rowid FROM level ORDER BY rowid",
];

// The years of plans are asked for too: no other read finds a row of a year that an office can't have.
const SECOND_PLANS: [&str; 3] = [
    "SELECT rowid, year FROM node ORDER BY rowid",
    "SELECT rowid, year FROM plan_item ORDER BY rowid",
    "SELECT rowid, year FROM plan_ref ORDER BY rowid",
];

const FIRST_PLANS: [&str; 2] = [
    "SELECT rowid, year FROM node ORDER BY rowid",
    "SELECT rowid, year FROM plan_item ORDER BY rowid",
];

// Tests the rowids that each of the texts asks for.
fn scan_each<S: Alter>(
    conn: &mut Connection<S>,
    alloc: Global,
    texts: &[&str],
) -> Result<(), Unread>
    ensures look { (trees : List ℕ) → LooksOver (AskEach (map (λ t. t.now) texts.now) trees)
        (state S.Store conn.old) (state S.Store conn.new) }
    ensures stays { OnOk result (StaysOpen (state S.Store conn.old) (state S.Store conn.new)) }
    ensures rise { OnOk result (IsCleanBook (state S.Store conn.new) → (state S.Store conn.old).in_transaction ≡ false
        → (trees : List ℕ) → AskEach (map (λ t. t.now) texts.now) trees (state S.Store conn.old).now.schema
        → AllByRecursion (λ tree. HasRowids ((state S.Store conn.old).now.trees tree)) trees) }
{
    let [text, later @ ..] = texts else {
        return Ok(());
    };
    scan(conn, alloc, text)?;
    scan_each(conn, alloc, later)
}

// Tests the rowids and the years of plans that each of the texts asks for.
fn scan_each_plan<S: Alter>(
    conn: &mut Connection<S>,
    alloc: Global,
    texts: &[&str],
) -> Result<(), Unread>
    ensures look { (plans : _) → LooksOver (AskEachYear (map (λ t. t.now) texts.now) plans)
        (state S.Store conn.old) (state S.Store conn.new) }
    ensures stays { OnOk result (StaysOpen (state S.Store conn.old) (state S.Store conn.new)) }
    ensures years { OnOk result (IsCleanBook (state S.Store conn.new) → (state S.Store conn.old).in_transaction ≡ false
        → (plans : _) → AskEachYear (map (λ t. t.now) texts.now) plans (state S.Store conn.old).now.schema
        → AllByRecursion (λ plan. ArePlanRows plan.1 ((state S.Store conn.old).now.trees plan.0)) plans) }
{
    let [text, later @ ..] = texts else {
        return Ok(());
    };
    scan_plans(conn, alloc, text)?;
    scan_each_plan(conn, alloc, later)
}

// Reads the small tables that both schemas have.
fn read_all_small<S: Alter>(conn: &mut Connection<S>, alloc: Global) -> Result<(), Unread>
    ensures look { LooksOver IsOfOffice (state S.Store conn.old) (state S.Store conn.new) }
    ensures whole { IsCleanBook (state S.Store conn.new) → (state S.Store conn.old).in_transaction ≡ false
        → IsOfOffice (state S.Store conn.old).now.schema → OnOk result (AreWhole (state S.Store conn.old).now.trees) }
    ensures open { HasCleanDisk (state S.Store conn.new) → OnOk result (IsTrue (state S.Store conn.new).is_open) }
{
    let _registrations = read_all::<S, Registration>(conn, alloc)?;
    let _outlets = read_all::<S, Outlet>(conn, alloc)?;
    let _items = read_all::<S, Item>(conn, alloc)?;
    let _calendar = read_all::<S, CalendarRow>(conn, alloc)?;
    Ok(())
}

// Tests that the tables are those of schema 1 and, after them, those that the texts make, and tests their rows. It
// changes none of them.
fn test_tables<S: Alter>(
    conn: &mut Connection<S>,
    alloc: Global,
    more: &[&str],
    scans: &[&str],
    plans: &[&str],
) -> Result<(), Unread>
    requires { (state S.Store conn.old).in_transaction ≡ false }
    ensures test { (wanted : _) → AreTestsOf wanted (map (λ t. t.now) more.now) (map (λ t. t.now) scans.now)
        (map (λ t. t.now) plans.now) → IsTest (state S.Store conn.old) (state S.Store conn.new) }
    ensures found { (wanted : _) → AreTestsOf wanted (map (λ t. t.now) more.now) (map (λ t. t.now) scans.now)
        (map (λ t. t.now) plans.now)
        → OnOk result (Finds wanted (state S.Store conn.old) (state S.Store conn.new)) }
{
    if !has_tables(conn, alloc, more)? {
        return Err(Unread);
    }
    read_all_small(conn, alloc)?;
    scan_each_plan(conn, alloc, plans)?;
    scan_each(conn, alloc, scans)
}

/// Tests the tables of schema 2, and changes none of them.
pub fn test_second<S: Alter>(conn: &mut Connection<S>, alloc: Global) -> Result<(), Unread>
    requires { (state S.Store conn.old).in_transaction ≡ false }
    ensures test { IsTest (state S.Store conn.old) (state S.Store conn.new) }
    ensures found { OnOk result (FindsOffice (state S.Store conn.old) (state S.Store conn.new)) }
{
    test_tables(conn, alloc, &SECOND_TABLES, &SECOND_SCANS, &SECOND_PLANS)
}

/// Tests the tables of schema 1, and changes none of them.
pub fn test_first<S: Alter>(conn: &mut Connection<S>, alloc: Global) -> Result<(), Unread>
    requires { (state S.Store conn.old).in_transaction ≡ false }
    ensures test { IsTest (state S.Store conn.old) (state S.Store conn.new) }
    ensures found { OnOk result (Finds first_wanted (state S.Store conn.old) (state S.Store conn.new)) }
{
    test_tables(conn, alloc, &[], &FIRST_SCANS, &FIRST_PLANS)
}
