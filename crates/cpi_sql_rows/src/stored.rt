//! The values that the rows of an answer stand for.
ghost use Rattle.std.specs.Prelude.{◌≡◌};
ghost use Rattle.cpi_sql_rows.specs.Common.{QueryLeaves, HasCleanDisk, IfOk, IfSome, IsInOrder, IsTrue, OnOk, Option};
ghost use Rattle.cpi_sql_rows.specs.Common.{Row as SqlRow, ShowsAll, Some, bound, state};

use crate::ask::settle;
use cpi_rows::{Keyed, RowsByKey, are_in_order};
use sqlite::{Alter, Connection, Error, Row};
use sqlite_value::value::ValueRef;
use std::alloc::Global;

/// Why there is no answer: the store failed, memory was refused, or a row is outside the limits of its type.
#[derive(Clone, Copy, Debug)]
pub struct Unread;

impl From<Error> for Unread {
    fn from(_: Error) -> Unread {
        Unread
    }
}

/// A value that a row of an answer can stand for.
pub trait Stored: Keyed + Drop {
    ghost stands_for: { SqlRow → Option Self };

    /// The value of the row; none if the row is outside the limits of the type, or if memory was refused.
    fn read(alloc: Global, row: &Row) -> Option<Self>
        ensures { IfSome result (λ x. stands_for row.now ≡ Some x) };
}

/// The rows that were read, if their keys rise. The error says that they don't.
pub fn in_order<T: Stored>(read: Vec<T>) -> Result<Vec<T>, Unread>
    ensures same { IfOk result (λ xs. xs.items ≡ read.items) }
    ensures order { IfOk result (λ xs. IsInOrder T.Key.cmp T.key xs.items) }
{
    if are_in_order(&read) {
        Ok(read)
    } else {
        Err(Unread)
    }
}

/// The values of an answer's rows, in the order of the rows. Each row is dropped before the next is read.
pub fn gather<S: Alter, T: Stored>(
    conn: &mut Connection<S>,
    alloc: Global,
    text: &str,
    params: &[ValueRef<'_>],
) -> Result<Vec<T>, Unread>
    ensures asked { QueryLeaves text.now (bound params.now) (state S.Store conn.old) (state S.Store conn.new) }
    ensures read { HasCleanDisk (state S.Store conn.new) → IfOk result (λ xs.
        ShowsAll T.stands_for text.now (bound params.now) (state S.Store conn.old) (state S.Store conn.new) xs.items) }
    ensures open { HasCleanDisk (state S.Store conn.new) → OnOk result (IsTrue (state S.Store conn.new).is_open) }
{
    settle(conn);
    let mut read = Vec::new(alloc);
    let mut rows = conn.query(text, params)?;
    'rows: for _ in 0..u64::MAX {
        let Some(row) = rows.next()? else {
            return Ok(read);
        };
        let x = T::read(alloc, row).ok_or(Unread)?;
        read.push(x).map_err(|_| Unread)?;
    }
    Err(Unread)
}

/// The values of an answer's rows, in the order of the rows. It is an error if their keys don't rise.
pub fn list<S: Alter, T: Stored>(
    conn: &mut Connection<S>,
    alloc: Global,
    text: &str,
    params: &[ValueRef<'_>],
) -> Result<Vec<T>, Unread>
    ensures asked { QueryLeaves text.now (bound params.now) (state S.Store conn.old) (state S.Store conn.new) }
    ensures read { HasCleanDisk (state S.Store conn.new) → IfOk result (λ xs.
        ShowsAll T.stands_for text.now (bound params.now) (state S.Store conn.old) (state S.Store conn.new) xs.items) }
    ensures order { IfOk result (λ xs. IsInOrder T.Key.cmp T.key xs.items) }
    ensures open { HasCleanDisk (state S.Store conn.new) → OnOk result (IsTrue (state S.Store conn.new).is_open) }
{
    let read = gather(conn, alloc, text, params)?;
    in_order(read)
}

/// The rows, to be found by their keys. The error says that memory was refused.
pub fn by_key<T: Keyed + Drop>(alloc: Global, rows: Vec<T>) -> Result<RowsByKey<T>, Unread>
    requires { IsInOrder T.Key.cmp T.key rows.items }
    ensures { IfOk result (λ found. found ≡ rows.items) }
{
    let mut found = RowsByKey::new(alloc);
    'rows: for row in rows {
        found.put(row).map_err(|_| Unread)?;
    }
    Ok(found)
}
