//! The lists of releases, taken out of the cache or read: of a release, or of a month's latest one.
ghost use Rattle.std.specs.Prelude.{◌≡◌};
ghost use Rattle.cpi_sql_rows.specs.Common.{state, IfOk, IfSome, Looks, OnOk};
ghost use Rattle.cpi_sql_reads.specs.ReleaseLists.{AreListsOf, IsListOfRelease, IsLatest, IsListOf};
ghost use Rattle.cpi_sql_reads.specs.Tells.{KnowsBy};

use crate::cached_list::{CachedList, take_list};
use crate::headers::{has_release, header_of};
use crate::releases::{ReleaseRow, rows_of_release};
use cpi_codes::Month;
use cpi_release::Revision;
use cpi_rows::Rows;
use cpi_sql_rows::{Header, Unread};
use sqlite::{Alter, Connection};
use std::alloc::Global;

/// The list of a release, taken out of the cache or read; none if there is no such release. `headers` are those of all
/// releases. It is an error if the store fails, the types refuse a row, or memory is refused.
pub fn list_at<S: Alter, T: ReleaseRow>(
    conn: &mut Connection<S>,
    alloc: Global,
    headers: &[Header],
    lists: &mut Vec<CachedList<T>>,
    month: Month,
    revision: Revision,
) -> Result<Option<CachedList<T>>, Unread>
    ensures look { Looks (state S.Store conn.old) (state S.Store conn.new) result }
    ensures asked { IfOk result (IsListOfRelease (month, revision) headers.now) }
    ensures left { (trees : _) → AreListsOf T.table T.listed_by trees lists.old.items →
        AreListsOf T.table T.listed_by trees lists.new.items }
    ensures read { KnowsBy headers.now S.Store conn.old conn.new (λ trees.
        AreListsOf T.table T.listed_by trees lists.old.items →
        IfOk result (λ found. IfSome found (IsListOf T.table T.listed_by trees))) }
{
    if let Some(list) = take_list(lists, month, revision) {
        return Ok(Some(list));
    }
    if !has_release(headers, month, revision) {
        return Ok(None);
    }
    let rows = rows_of_release(conn, alloc, month, revision)?;
    Ok(Some(CachedList::new(month, revision, Rows::of(rows))))
}

/// The list of the month's latest release, taken out of the cache or read; none if the month has no release. Rows of a
/// release without a header don't count. It is an error if the store fails, the types refuse a row, or memory is
/// refused.
pub fn latest_list<S: Alter, T: ReleaseRow>(
    conn: &mut Connection<S>,
    alloc: Global,
    headers: &[Header],
    lists: &mut Vec<CachedList<T>>,
    month: Month,
) -> Result<Option<CachedList<T>>, Unread>
    ensures look { Looks (state S.Store conn.old) (state S.Store conn.new) result }
    ensures left { (trees : _) → AreListsOf T.table T.listed_by trees lists.old.items →
        AreListsOf T.table T.listed_by trees lists.new.items }
    ensures read { KnowsBy headers.now S.Store conn.old conn.new (λ trees.
        AreListsOf T.table T.listed_by trees lists.old.items →
        IfOk result (IsLatest T.table T.listed_by trees month)) }
{
    match header_of(headers, month) {
        Some(header) => list_at(conn, alloc, headers, lists, month, header.revision),
        None => Ok(None),
    }
}
