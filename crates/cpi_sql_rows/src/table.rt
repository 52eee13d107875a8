//! A table that is read whole, by one statement.
ghost use Rattle.std.specs.Prelude.{◌≡◌};
ghost use Rattle.cpi_sql_rows.specs.Common.{HasCleanDisk, HasTables, IfOk, IsCleanBook, IsInOrder, IsOfOffice};
ghost use Rattle.cpi_sql_rows.specs.Common.{IsTrue, IsWhole, Looks, LooksOver, OnOk, Row as SqlRow, Schema, column};
ghost use Rattle.cpi_sql_rows.specs.Common.{rows_in_key_order, map, state};
ghost use Rattle.cpi_sql_rows.specs.WholeTables.{WholeTable};

use crate::stored::{Stored, Unread, list};
use sqlite::{Alter, Connection};
use std::alloc::Global;

/// A value that the rows of one table stand for.
pub trait Table: Stored {
    /// The schemas that have the table: both, by default.
    ghost is_in: { Schema → Type 0 } = { IsOfOffice };

    /// The table, and the statement that asks for all its rows, in the order of their keys.
    ghost table: { WholeTable Self is_in };

    /// The text of the statement.
    fn text() -> &'static str
        ensures { result.now ≡ table.text };

    /// The columns that are read stand for the value that the whole row stands for.
    ghost same: { (row : SqlRow) → Self.stands_for (map (column row) table.shown) ≡ table.entry row };
}

/// All rows of a table, by their keys. Of a table that an open has yet to test, it says too that each row stands for a
/// value, and that no two rows have one key.
pub fn read_all<S: Alter, T: Table>(
    conn: &mut Connection<S>,
    alloc: Global,
) -> Result<Vec<T>, Unread>
    ensures look { Looks (state S.Store conn.old) (state S.Store conn.new) result }
    ensures read { IsCleanBook (state S.Store conn.new) → HasTables (state S.Store conn.old) →
        IfOk result (λ xs. xs.items
        ≡ rows_in_key_order T.Key.cmp T.key T.table.entry ((state S.Store conn.old).now.trees T.table.tree)) }
    ensures order { IfOk result (λ xs. IsInOrder T.Key.cmp T.key xs.items) }
    ensures whole { IsCleanBook (state S.Store conn.new) → T.is_in (state S.Store conn.old).now.schema →
        OnOk result (IsWhole T.Key.cmp T.key T.table.entry ((state S.Store conn.old).now.trees T.table.tree)) }
    ensures found { LooksOver T.is_in (state S.Store conn.old) (state S.Store conn.new) }
    ensures open { HasCleanDisk (state S.Store conn.new) → OnOk result (IsTrue (state S.Store conn.new).is_open) }
{
    list(conn, alloc, T::text(), &[])
}
