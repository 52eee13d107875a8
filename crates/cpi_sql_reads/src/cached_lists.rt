//! The cached lists of releases: those of earlier months that a freeze reads, and the tables that requests ask for.
ghost use Rattle.std.specs.Prelude.{◌≡◌};
ghost use Rattle.std.specs.Option.{option_copied};
ghost use Rattle.cpi_release.specs.FrozenMonths.{release_cmp};
ghost use Rattle.cpi_sql_rows.specs.Common.{IfOk, option_map, row_at};
ghost use Rattle.cpi_sql_reads.specs.CachedLists.{AreListsCached, IsThere};
ghost use Rattle.cpi_sql_reads.specs.ReleaseLists.{list_key};

use crate::cached_list::{CachedList, cache_list, lent_list};
use crate::releases::ReleaseRow;
use cpi_codes::Month;
use cpi_index::{CarriedPrice, FrozenQuote};
use cpi_release::{Level, Release, Revision};
use cpi_rows::{Rows, are_in_order};
use cpi_sql_rows::Unread;
use std::alloc::Global;

// The most cached lists of a kind. A freeze reads the frozen quotes of the link month, and the carried prices of that
// month and of the month before. The list of the release that it puts replaces the one used longest ago.
pub(crate) const MOST_LISTS: usize = 2;

// The most cached tables. A freeze asks for the levels of at most four earlier months: the link month, the month
// before, the month twelve months before, and the reference month of the plan's weights.
pub(crate) const MOST_TABLES: usize = 4;

/// The cached lists of releases, by kind.
#[derive(Drop)]
pub struct CachedLists {
    /// Frozen quotes.
    pub(crate) frozen: Vec<CachedList<FrozenQuote>>,
    /// Carried prices.
    pub(crate) carried: Vec<CachedList<CarriedPrice>>,
    /// The rows of tables.
    pub(crate) levels: Vec<CachedList<Level>>,
}

impl CachedLists {
    /// An empty cache. It takes no memory until it has its first list.
    pub fn none(alloc: Global) -> CachedLists
        ensures { (trees : _) → AreListsCached trees result }
    {
        CachedLists {
            frozen: Vec::new(alloc),
            carried: Vec::new(alloc),
            levels: Vec::new(alloc),
        }
    }

    /// The table of a release, if the cache has it.
    pub fn table(&self, month: Month, revision: Revision) -> Option<&Rows<Level>>
        ensures { option_copied result
            ≡ option_map (λ l. l.rows) (row_at release_cmp list_key (month, revision) self.now.levels.items) }
    {
        lent_list(&self.levels, month, revision)
    }
}

// The list of a release, to be cached. It is an error if the rows aren't in the order of their keys, as stored rows
// are.
fn cached_rows<T: ReleaseRow>(
    month: Month,
    revision: Revision,
    rows: Rows<T>,
) -> Result<CachedList<T>, Unread>
    ensures { IfOk result (λ l. l ≡ record { month = month; revision = revision; rows = rows }) }
{
    if !are_in_order(rows.as_slice()) {
        return Err(Unread);
    }
    Ok(CachedList::new(month, revision, rows))
}

// Caches the three lists of the release. If memory is refused, that is an error, and the lists before it are cached.
fn cache_each(lists: &mut CachedLists, release: Release) -> Result<(), Unread>
    ensures { (trees : _) → AreListsCached trees lists.old → IsThere trees release → AreListsCached trees lists.new }
{
    let frozen = cached_rows(release.month, release.revision, release.frozen)?;
    cache_list(&mut lists.frozen, frozen, MOST_LISTS)?;
    let carried = cached_rows(release.month, release.revision, release.carried)?;
    cache_list(&mut lists.carried, carried, MOST_LISTS)?;
    let levels = cached_rows(release.month, release.revision, release.levels)?;
    cache_list(&mut lists.levels, levels, MOST_TABLES)
}

/// Caches the lists of a release that was stored, or fewer of them if memory is refused.
pub fn follow_release(lists: &mut CachedLists, release: Release)
    ensures { (trees : _) → AreListsCached trees lists.old → IsThere trees release → AreListsCached trees lists.new }
{
    let _cached = cache_each(lists, release);
}
