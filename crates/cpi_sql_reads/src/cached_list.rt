//! A cached list of a release, and what takes lists out of a cache and puts them in.
ghost use Rattle.std.specs.Prelude.{◌≡◌, ◌<◌};
ghost use Rattle.std.specs.Option.{option_copied, option_map_or};
ghost use Rattle.cpi_release.specs.FrozenMonths.{release_cmp};
ghost use Rattle.cpi_sql_rows.specs.Common.{[], length, option_map, row_at, slice_index_or};
ghost use Rattle.cpi_sql_rows.specs.Common.{IfSome, IsInOrder, IsSome, OnOk};
ghost use Rattle.cpi_sql_reads.specs.ReleaseLists.{AreListsOf, IsListOf, ReleaseList, list_key};

use crate::releases::ReleaseRow;
use cpi_codes::Month;
use cpi_release::Revision;
use cpi_rows::Rows;
use cpi_sql_rows::Unread;
use std::marker::Model;

/// The rows of a list of a release, by their keys.
#[derive(Drop)]
pub struct CachedList<T: ReleaseRow> {
    month: Month,
    revision: Revision,
    rows: Rows<T>,
}

impl<T: ReleaseRow> Model for CachedList<T> {
    ghost Value = { ReleaseList T };

    ghost view = { λ l. record { month = l.month; revision = l.revision; rows = l.rows } };

    ghost invariant = { λ l. IsInOrder T.Key.cmp T.key l.rows };
}

impl<T: ReleaseRow> CachedList<T> {
    /// The list of a release from its rows, which are in the order of their keys.
    pub fn new(month: Month, revision: Revision, rows: Rows<T>) -> CachedList<T>
        requires { IsInOrder T.Key.cmp T.key rows }
        ensures { result ≡ record { month = month; revision = revision; rows = rows } }
    {
        CachedList {
            month,
            revision,
            rows,
        }
    }
}

// The place of a release's list in the cache.
fn place_of<T: ReleaseRow>(
    lists: &[CachedList<T>],
    month: Month,
    revision: Revision,
) -> Option<usize>
    ensures inside { IfSome result (λ i. i < length lists.now) }
    ensures found { (d : ReleaseList T) → row_at release_cmp list_key (month, revision) lists.now
        ≡ option_map (λ i. slice_index_or lists.now i d) result }
{
    for i in 0..lists.len() {
        let list = &lists[i];
        if list.month == month && list.revision == revision {
            return Some(i);
        }
    }
    None
}

/// Takes the list of a release out of the cache.
#[tactic(auto, using(crate::proofs::OneLess::all_less))]
pub fn take_list<T: ReleaseRow>(
    lists: &mut Vec<CachedList<T>>,
    month: Month,
    revision: Revision,
) -> Option<CachedList<T>>
    ensures taken { result ≡ row_at release_cmp list_key (month, revision) lists.old.items }
    ensures left { (trees : _) → AreListsOf T.table T.listed_by trees lists.old.items →
        AreListsOf T.table T.listed_by trees lists.new.items }
{
    let place = place_of(lists, month, revision)?;
    Some(lists.remove(place))
}

/// Adds the list at the end of the cache. If the cache has `most` lists, the first is dropped, which was used longest
/// ago. If memory is refused, that is an error.
#[tactic(auto, using(crate::proofs::OneLess::all_less, crate::proofs::HeaderLists::behind_found))]
pub fn cache_list<T: ReleaseRow>(
    lists: &mut Vec<CachedList<T>>,
    list: CachedList<T>,
    most: usize,
) -> Result<(), Unread>
    ensures cached { (trees : _) → AreListsOf T.table T.listed_by trees lists.old.items →
        IsListOf T.table T.listed_by trees list → AreListsOf T.table T.listed_by trees lists.new.items }
    ensures there { OnOk result (IsSome (row_at release_cmp list_key (list_key list) lists.new.items)) }
{
    if !lists.is_empty() && most <= lists.len() {
        let _first = lists.remove(0);
    }
    lists.push(list).map_err(|_| Unread)
}

/// Adds the list that was found, if there is one, at the end of the cache.
pub fn cache_found<T: ReleaseRow>(
    lists: &mut Vec<CachedList<T>>,
    found: Option<CachedList<T>>,
    most: usize,
) -> Result<(), Unread>
    ensures cached { (trees : _) → AreListsOf T.table T.listed_by trees lists.old.items →
        IfSome found (IsListOf T.table T.listed_by trees) → AreListsOf T.table T.listed_by trees lists.new.items }
    ensures there { OnOk result
        (IfSome found (λ l. IsSome (row_at release_cmp list_key (list_key l) lists.new.items))) }
{
    match found {
        Some(list) => cache_list(lists, list, most),
        None => Ok(()),
    }
}

/// The rows of the list that was found; no rows if there is none.
pub fn rows_in<T: ReleaseRow>(found: &Option<CachedList<T>>) -> &[T]
    ensures rows { result.now ≡ option_map_or (λ l. l.rows) found.now [] }
    ensures order { IsInOrder T.Key.cmp T.key result.now }
{
    match found {
        Some(list) => list.rows.as_slice(),
        None => &[],
    }
}

/// The rows of a release's list, if the cache has it.
pub fn lent_list<T: ReleaseRow>(
    lists: &[CachedList<T>],
    month: Month,
    revision: Revision,
) -> Option<&Rows<T>>
    ensures { option_copied result
        ≡ option_map (λ l. l.rows) (row_at release_cmp list_key (month, revision) lists.now) }
{
    let place = place_of(lists, month, revision)?;
    let list = &lists[place];
    Some(&list.rows)
}
