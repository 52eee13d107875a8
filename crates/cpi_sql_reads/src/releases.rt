//! The releases, read from the tables: their headers, and the rows of their lists.
ghost use Rattle.std.specs.Prelude.{◌≡◌};
ghost use Rattle.cpi_release.specs.FrozenMonths.{release_cmp};
ghost use Rattle.cpi_release.specs.declared.release.Release.{Release as Released};
ghost use Rattle.cpi_sql_rows.specs.Common.{List, held_by, held_cmp, held_key, state, AllStandOf, HasCleanDisk};
ghost use Rattle.cpi_sql_rows.specs.Common.{HasTables, IfOk, IsInOrder, IsTrue, Looks, OnOk, Survives, refl};
ghost use Rattle.cpi_sql_rows.specs.HeldTables.{HeldTable, OfReleases, row_with_holder, release_in};
ghost use Rattle.cpi_sql_rows.specs.HeldTables.{carried_table, frozen_table, level_table};
ghost use Rattle.cpi_sql_rows.specs.Lists.{header_key, rows_in_key_order, release_number};
ghost use Rattle.cpi_sql_rows.specs.Texts.{is_release};
ghost use Rattle.cpi_sql_reads.specs.Headers.{AreHeadersOf};
ghost use Rattle.cpi_sql_reads.specs.Tells.{Tells};

use cpi_codes::Month;
use cpi_index::{CarriedPrice, FrozenQuote};
use cpi_release::{Level, Revision};
use cpi_sql_rows::{Header, Stored, Unread, list, month_number, read_all};
use sqlite::{Alter, Connection, params};
use std::alloc::Global;

/// The header of each release, which has all but its lists, by month and revision. It is an error if the store fails,
/// the types refuse a row, or memory is refused.
pub fn read_headers<S: Alter>(
    conn: &mut Connection<S>,
    alloc: Global,
) -> Result<Vec<Header>, Unread>
    ensures look { Looks (state S.Store conn.old) (state S.Store conn.new) result }
    ensures read { Tells S.Store conn.old conn.new result (λ trees hs. AreHeadersOf trees hs.items) }
    ensures order { IfOk result (λ hs. IsInOrder release_cmp header_key hs.items) }
    ensures open { HasCleanDisk (state S.Store conn.new) → OnOk result (IsTrue (state S.Store conn.new).is_open) }
    ensures crash { Survives (state S.Store conn.old) (state S.Store conn.new)
        (λ _. HasTables (state S.Store conn.old) → ⊥) }
{
    read_all(conn, alloc)
}

/// A row of a list that a table keeps for each release.
pub trait ReleaseRow: Stored {
    /// The table, and the statement that asks for the rows of a release, by their keys.
    ghost table: { HeldTable Self is_release };

    /// What a release lists of such rows.
    ghost listed_by: { Released → List Self };

    /// The SELECT that asks for the rows of a release, by their keys.
    fn text() -> &'static str
        ensures { result.now ≡ table.text };

    /// The statement's answers stand for the same as the rows, and are what a release lists.
    ghost of_releases: { OfReleases Self.Key.cmp Self.key Self.stands_for table listed_by };
}

impl ReleaseRow for FrozenQuote {
    ghost table = { frozen_table };

    ghost listed_by = { λ r. r.frozen };

    ghost of_releases = { record {
      holds = record { same = λ _. refl; keyed = λ _ plans releases. releases.frozen };
      lists = λ _ _. refl;
    } };

    fn text() -> &'static str {
        "SELECT month, revision, collector, slot, item, last_month, mark, value FROM frozen_2 \
        WHERE month = ?1 AND revision = ?2 ORDER BY month, revision, collector, slot"
    }
}

impl ReleaseRow for CarriedPrice {
    ghost table = { carried_table };

    ghost listed_by = { λ r. r.carried };

    ghost of_releases = { record {
      holds = record { same = λ _. refl; keyed = λ _ plans releases. releases.carried };
      lists = λ _ _. refl;
    } };

    fn text() -> &'static str {
        "SELECT month, revision, collector, slot, item, last_month, ticks, knum, kden, observed, imputed \
        FROM carried_2 WHERE month = ?1 AND revision = ?2 ORDER BY month, revision, collector, slot"
    }
}

impl ReleaseRow for Level {
    ghost table = { level_table };

    ghost listed_by = { λ r. r.levels };

    ghost of_releases = { record {
      holds = record { same = λ _. refl; keyed = λ _ plans releases. releases.levels };
      lists = λ _ _. refl;
    } };

    fn text() -> &'static str {
        "SELECT month, revision, code, title, weight, within, chained, month_change, year_change, imputed \
        FROM level_2 WHERE month = ?1 AND revision = ?2 ORDER BY month, revision, code"
    }
}

/// The rows of a release, by their keys. It is an error if the store fails, the types refuse a row, or memory is
/// refused.
pub fn rows_of_release<S: Alter, T: ReleaseRow>(
    conn: &mut Connection<S>,
    alloc: Global,
    month: Month,
    revision: Revision,
) -> Result<Vec<T>, Unread>
    ensures look { Looks (state S.Store conn.old) (state S.Store conn.new) result }
    ensures read { Tells S.Store conn.old conn.new result (λ trees xs.
        xs.items ≡ held_by (release_number month revision)
        (rows_in_key_order (held_cmp T.Key.cmp) (held_key T.key)
        (row_with_holder release_in T.table.after) (trees T.table.tree))) }
    ensures stand { Tells S.Store conn.old conn.new result (λ trees _.
        AllStandOf (row_with_holder release_in T.table.after) (release_number month revision) (trees T.table.tree)) }
    ensures order { IfOk result (λ xs. IsInOrder T.Key.cmp T.key xs.items) }
{
    let month = month_number(month);
    let revision = u32::from(revision.number());
    list(conn, alloc, T::text(), params![month, revision])
}
