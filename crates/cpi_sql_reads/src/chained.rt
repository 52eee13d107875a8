//! The chained levels of earlier months, read a table at a time.
ghost use Rattle.std.specs.Prelude.{◌≡◌};
ghost use Rattle.cpi_release.specs.FrozenMonths.{release_cmp};
ghost use Rattle.cpi_release.specs.Releases.{level_at_month};
ghost use Rattle.cpi_sql_rows.specs.Common.{row_at, state, IfOk, IsSome, IsTrue, Looks, OnOk};
ghost use Rattle.cpi_sql_rows.specs.Lists.{level_in_row, releases_in};
ghost use Rattle.cpi_sql_rows.specs.Tables.{table_of_levels_2};
ghost use Rattle.cpi_sql_reads.specs.Headers.{LatestStands, holds_release};
ghost use Rattle.cpi_sql_reads.specs.CachedLists.{AreListsCached};
ghost use Rattle.cpi_sql_reads.specs.ReleaseLists.{list_key};
ghost use Rattle.cpi_sql_reads.specs.Tells.{KnowsBy};

use crate::cached_list::{cache_found, rows_in};
use crate::cached_lists::{CachedLists, MOST_TABLES};
use crate::earlier::{latest_list, list_at};
use cpi_codes::{Code, Month};
use cpi_index::ChainedLevel;
use cpi_release::Revision;
use cpi_rows::find_row;
use cpi_sql_rows::{Header, Unread};
use sqlite::{Alter, Connection};
use std::alloc::Global;

/// Reads the table of a release into the cache, unless it is there or there is no such release. `headers` are those of
/// all releases. It is an error if the store fails, the types refuse a row, or memory is refused.
pub fn ready_table<S: Alter>(
    conn: &mut Connection<S>,
    alloc: Global,
    headers: &[Header],
    lists: &mut CachedLists,
    month: Month,
    revision: Revision,
) -> Result<(), Unread>
    ensures look { Looks (state S.Store conn.old) (state S.Store conn.new) result }
    ensures cached { KnowsBy headers.now S.Store conn.old conn.new (λ trees.
        AreListsCached trees lists.old → AreListsCached trees lists.new) }
    ensures ready { OnOk result (IsTrue (holds_release month revision headers.now) →
        IsSome (row_at release_cmp list_key (month, revision) lists.new.levels.items)) }
{
    let found = list_at(conn, alloc, headers, &mut lists.levels, month, revision)?;
    cache_found(&mut lists.levels, found, MOST_TABLES)
}

/// The chained level of a code in the table of a month's latest release, if it has a row there; the table is cached
/// from then on. `headers` are those of all releases. For n releases and the m rows of a cached table it takes O(n +
/// log m) steps. It is an error if the store fails, the types refuse a row, or memory is refused.
pub fn chained_level<S: Alter>(
    conn: &mut Connection<S>,
    alloc: Global,
    headers: &[Header],
    lists: &mut CachedLists,
    month: Month,
    code: Code,
) -> Result<Option<ChainedLevel>, Unread>
    ensures look { Looks (state S.Store conn.old) (state S.Store conn.new) result }
    ensures cached { KnowsBy headers.now S.Store conn.old conn.new (λ trees.
        AreListsCached trees lists.old → AreListsCached trees lists.new) }
    ensures read { KnowsBy headers.now S.Store conn.old conn.new (λ trees. AreListsCached trees lists.old →
        IfOk result (λ level. level ≡ level_at_month (releases_in trees) month code)) }
    ensures taken { KnowsBy headers.now S.Store conn.old conn.new (λ trees. AreListsCached trees lists.old →
        OnOk result (LatestStands level_in_row table_of_levels_2.tree month trees)) }
{
    let found = latest_list(conn, alloc, headers, &mut lists.levels, month)?;
    let level = find_row(rows_in(&found), &code).map(|level| level.chained);
    cache_found(&mut lists.levels, found, MOST_TABLES)?;
    Ok(level)
}
