//! The rowids of tables, which an open tests.
ghost use Rattle.sqlite.specs.Program.{overlay};
ghost use Rattle.cpi_sql_rows.specs.Common.{[], QueryLeaves, HasCleanDisk, HasRowids, IsCleanBook, IsTrue, OnOk};
ghost use Rattle.cpi_sql_rows.specs.Common.{column};
ghost use Rattle.cpi_sql_rows.specs.Common.{state};
ghost use Rattle.cpi_sql_rows.specs.Finding.{AsksRowids, rowid_from};

use crate::stored::{Stored, Unread, list};
use cpi_rows::Keyed;
use sqlite::{Alter, Connection, Row};
use std::alloc::Global;

/// The rowid of a row.
#[derive(Drop)]
pub struct Rowid {
    pub number: i64,
}

impl Keyed for Rowid {
    type Key = i64;

    ghost key = { λ r. r.number };

    fn key(&self) -> i64 {
        self.number
    }
}

impl Stored for Rowid {
    ghost stands_for = { λ x. rowid_from (column x 0) };

    fn read(alloc: Global, row: &Row) -> Option<Rowid> {
        let number: i64 = row.get(0).ok()?;
        Some(Rowid { number })
    }
}

/// Reads the rowids of a table. It is an error if they aren't numbers that rise.
pub fn scan<S: Alter>(conn: &mut Connection<S>, alloc: Global, text: &str) -> Result<(), Unread>
    ensures asked { QueryLeaves text.now [] (state S.Store conn.old) (state S.Store conn.new) }
    ensures rise { IsCleanBook (state S.Store conn.new)
        → OnOk result ((tree : _) → AsksRowids (state S.Store conn.old).now.schema text.now tree
        → HasRowids (overlay (state S.Store conn.old).now.trees [] tree)) }
    ensures open { HasCleanDisk (state S.Store conn.new) → OnOk result (IsTrue (state S.Store conn.new).is_open) }
{
    let _ids = list::<S, Rowid>(conn, alloc, text, &[])?;
    Ok(())
}
