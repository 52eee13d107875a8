//! A table has a list of rows for each of its holders, a release or a year. Within a transaction, a holder's list is
//! put in place of the rows that the holder has.
ghost use Rattle.std.specs.Prelude.{◌<◌, ◌≡◌, ◌≤◌};
ghost use Rattle.sqlite.specs.Table.{Table};
ghost use Rattle.cpi_sql_rows.specs.Common.{ℕ, Bool, bound, IfOk, length, OnOk, Option, Row, state};
ghost use Rattle.cpi_sql_writes.specs.Columns.{AreColumnsOf, AreTextsOf, IsInsertOf, PutsColumns, rows_at_once};
ghost use Rattle.cpi_sql_writes.specs.Within.{AddsTo, Changes, Drops, Replaces, Within};

use crate::inside::run_inside;
use cpi_sql_rows::Unread;
use sqlite::types::ValueRef;
use sqlite::{Alter, Transaction};
use std::alloc::Global;

// How many rows one statement adds, if so many are left.
const AT_ONCE: usize = 32;

// How many columns thirty-two rows of the widest table have. The columns of a statement are given this room at once.
const ROOM: usize = AT_ONCE * 11;

// The text of the INSERT of thirty-two rows, or of one. It begins with one row; each `twice` makes them twice as many.
macro_rules! insert_text {
    ($many:expr, $table:literal, $row:literal) => {
        if $many {
            insert_text!(@ twice twice twice twice twice; $table; $row)
        } else {
            insert_text!(@; $table; $row)
        }
    };
    (@ twice $($twice:ident)*; $table:literal; $($row:literal),+) => {
        insert_text!(@ $($twice)*; $table; $($row),+, $($row),+)
    };
    (@; $table:literal; $row:literal $(, $more:literal)*) => {
        concat!("INSERT INTO ", $table, " VALUES ", $row $(, ", ", $more)*)
    };
}

pub(crate) use insert_text;

/// A row of a list of which a table has one for each holder.
pub trait HeldRow {
    /// The columns that the rows of one list begin with.
    type Holder: Copy;

    /// The texts among the row's columns that are made of its codes.
    type Texts: Drop;

    /// The table.
    ghost table: { Table };

    /// The value that a row of the table stands for, with the number of its holder.
    ghost entry: { Row → Option (ℕ × Self) };

    /// Whether a row is the holder's.
    ghost is_of: { Self.Holder → Row → Bool };

    /// Whether the holder goes by the number.
    ghost goes_by: { Self.Holder → ℕ → Type 0 };

    /// Whether the texts are the row's.
    ghost spells: { Self → Self.Texts → Type 0 };

    /// Drops the rows of the holder. It is an error if the store fails.
    fn drop_of<S: Alter>(tx: &mut Transaction<'_, S>, holder: Self::Holder) -> Result<(), Unread>
        ensures same_reference { tx.new.conn.ghost_name ≡ tx.old.conn.ghost_name }
        ensures dropped { Within (state S.Store tx.old.conn.now) (state S.Store tx.new.conn.now) result
            (Changes table.tree (Drops (is_of holder))) };

    /// The texts of the row. It is an error if memory is refused.
    fn texts(&self, alloc: Global) -> Result<Self::Texts, Unread>
        ensures { IfOk result (λ texts. spells self.now texts) };

    /// Adds the columns of the row in the holder's list after the others. It is an error if a column can't have its
    /// value, or memory is refused.
    fn put_columns<'a>(
        &'a self,
        holder: Self::Holder,
        texts: &'a Self::Texts,
        all: &mut Vec<ValueRef<'a>>,
    ) -> Result<(), Unread>
        requires { spells self.now texts.now }
        ensures { OnOk result
            (PutsColumns table entry (goes_by holder) self.now (bound all.old.items) (bound all.new.items)) };

    /// The text of the INSERT of thirty-two rows if there are `many`, or of one. Its parameters are the columns of the
    /// rows.
    fn insert_text(many: bool) -> &'static str
        ensures { IsInsertOf table (rows_at_once many) result.now };
}

// The texts of each row. It is an error if memory is refused.
fn texts_of<T: HeldRow>(alloc: Global, rows: &[T]) -> Result<Vec<T::Texts>, Unread>
    ensures { IfOk result (λ all. AreTextsOf T.spells rows.now all.items) }
{
    let mut all = Vec::with_capacity(alloc, rows.len()).map_err(|_| Unread)?;
    'all: for row in rows {
        let texts = row.texts(alloc)?;
        all.push(texts).map_err(|_| Unread)?;
    }
    Ok(all)
}

// The columns of the rows, one row after the other. It is an error if a column can't have its value, or memory is
// refused.
fn columns_of<'a, T: HeldRow>(
    alloc: Global,
    holder: T::Holder,
    rows: &'a [T],
    texts: &'a [T::Texts],
) -> Result<Vec<ValueRef<'a>>, Unread>
    requires { AreTextsOf T.spells rows.now texts.now }
    ensures { IfOk result (λ all. AreColumnsOf T.table T.entry (T.goes_by holder) rows.now (bound all.items)) }
{
    let mut all = Vec::with_capacity(alloc, ROOM).map_err(|_| Unread)?;
    'all: for i in 0..rows.len() {
        rows[i].put_columns(holder, &texts[i], &mut all)?;
    }
    Ok(all)
}

// Adds the rows to those of the holder by one statement: thirty-two rows if there are `many`, or one.
fn add_at_once<S: Alter, T: HeldRow>(
    tx: &mut Transaction<'_, S>,
    alloc: Global,
    holder: T::Holder,
    rows: &[T],
    many: bool,
) -> Result<(), Unread>
    requires at_once { length rows.now ≡ rows_at_once many }
    ensures same_reference { tx.new.conn.ghost_name ≡ tx.old.conn.ghost_name }
    ensures added { Within (state S.Store tx.old.conn.now) (state S.Store tx.new.conn.now) result
        (Changes T.table.tree (AddsTo T.entry (T.goes_by holder) rows.now)) }
{
    let texts = texts_of(alloc, rows)?;
    let columns = columns_of(alloc, holder, rows, &texts)?;
    run_inside(tx, T::insert_text(many), &columns)
}

// Adds the rows to those of the holder, thirty-two at a time while so many are left, and then one by one.
fn add_all<S: Alter, T: HeldRow>(
    tx: &mut Transaction<'_, S>,
    alloc: Global,
    holder: T::Holder,
    rows: &[T],
) -> Result<(), Unread>
    ensures same_reference { tx.new.conn.ghost_name ≡ tx.old.conn.ghost_name }
    ensures added { Within (state S.Store tx.old.conn.now) (state S.Store tx.new.conn.now) result
        (Changes T.table.tree (AddsTo T.entry (T.goes_by holder) rows.now)) }
{
    let mut at = 0;
    'all: while at < rows.len() {
        if rows.len() - at >= AT_ONCE {
            add_at_once(tx, alloc, holder, &rows[at..at + AT_ONCE], true)?;
            at += AT_ONCE;
        } else {
            add_at_once(tx, alloc, holder, &rows[at..at + 1], false)?;
            at += 1;
        }
    }
    Ok(())
}

/// Puts the list of the holder in place of the rows that the holder has. It is an error if the store fails, a column
/// can't have its value, or memory is refused.
pub fn replace<S: Alter, T: HeldRow>(
    tx: &mut Transaction<'_, S>,
    alloc: Global,
    holder: T::Holder,
    rows: &[T],
) -> Result<(), Unread>
    ensures same_reference { tx.new.conn.ghost_name ≡ tx.old.conn.ghost_name }
    ensures replaced { Within (state S.Store tx.old.conn.now) (state S.Store tx.new.conn.now) result
        (Changes T.table.tree (Replaces T.entry (T.is_of holder) (T.goes_by holder) rows.now)) }
{
    T::drop_of(tx, holder)?;
    add_all(tx, alloc, holder, rows)
}
