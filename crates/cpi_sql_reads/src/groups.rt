//! The samples of a month, made at once from the tables, cached, and handed out one by one.
ghost use Rattle.std.specs.Prelude.{◌≡◌, ◌≤◌, ◌-◌, ◌==◌, if◌then◌else◌};
ghost use Rattle.cpi_codes.specs.Month.{year_of};
ghost use Rattle.cpi_release.specs.GroupCalls.{group_of};
ghost use Rattle.cpi_release.specs.CachedSamples.{AreGroupsOf, IsFit};
ghost use Rattle.cpi_release.specs.Releases.{link_month};
ghost use Rattle.cpi_store.specs.Sources.{office_sources};
ghost use Rattle.cpi_sql_rows.specs.Common.{row_by_number, state, survey_of, IfOk, Looks, OnOk, Some};
ghost use Rattle.cpi_sql_rows.specs.Lists.{office_in};
ghost use Rattle.cpi_sql_reads.specs.Earlier.{AreEarlier, IsBefore, rows_of_list};
ghost use Rattle.cpi_sql_reads.specs.CachedLists.{AreListsCached};
ghost use Rattle.cpi_sql_reads.specs.Samples.{AreSamplesOf, SamplesStand, SamplesTaken};
ghost use Rattle.cpi_sql_reads.specs.Tells.{KnowsBy};

use crate::cached_list::{CachedList, cache_found, rows_in};
use crate::cached_lists::{CachedLists, MOST_LISTS};
use crate::earlier::latest_list;
use cpi_codes::{Code, Month};
use cpi_index::{CarriedPrice, FrozenQuote, GroupRow};
use cpi_plan::YearPlan;
use cpi_release::{CachedSamples, groups_after};
use cpi_sql_rows::{Header, Unread};
use cpi_store::Survey;
use sqlite::{Alter, Connection};
use std::alloc::Global;

/// The lists of earlier months that a month's samples are made from.
#[derive(Drop)]
pub struct EarlierLists {
    // of the link month
    link_carried: Option<CachedList<CarriedPrice>>,
    // of the link month
    link_frozen: Option<CachedList<FrozenQuote>>,
    // of the month before; none if that is the link month
    last_carried: Option<CachedList<CarriedPrice>>,
}

// The carried prices of the month before, unless that is the link month.
fn carried_before<S: Alter>(
    conn: &mut Connection<S>,
    alloc: Global,
    headers: &[Header],
    lists: &mut CachedLists,
    link: Month,
    last: Month,
) -> Result<Option<CachedList<CarriedPrice>>, Unread>
    ensures look { Looks (state S.Store conn.old) (state S.Store conn.new) result }
    ensures left { (trees : _) → AreListsCached trees lists.old → AreListsCached trees lists.new }
    ensures read { KnowsBy headers.now S.Store conn.old conn.new (λ trees. AreListsCached trees lists.old →
        IfOk result (IsBefore trees link last)) }
{
    if last != link {
        return latest_list(conn, alloc, headers, &mut lists.carried, last);
    }
    Ok(None)
}

// The lists of the link month, and the carried prices of the month before, taken out of the cache or read.
fn earlier_lists<S: Alter>(
    conn: &mut Connection<S>,
    alloc: Global,
    headers: &[Header],
    lists: &mut CachedLists,
    link: Month,
    last: Month,
) -> Result<EarlierLists, Unread>
    ensures look { Looks (state S.Store conn.old) (state S.Store conn.new) result }
    ensures left { (trees : _) → AreListsCached trees lists.old → AreListsCached trees lists.new }
    ensures read { KnowsBy headers.now S.Store conn.old conn.new (λ trees. AreListsCached trees lists.old →
        IfOk result (AreEarlier trees link last)) }
{
    let last_carried = carried_before(conn, alloc, headers, lists, link, last)?;
    let link_carried = latest_list(conn, alloc, headers, &mut lists.carried, link)?;
    let link_frozen = latest_list(conn, alloc, headers, &mut lists.frozen, link)?;
    Ok(EarlierLists {
        link_carried,
        link_frozen,
        last_carried,
    })
}

// Caches the lists: those of the month before first, and then those of the link month.
fn cache_earlier(lists: &mut CachedLists, earlier: EarlierLists) -> Result<(), Unread>
    ensures { (trees link last : _) → AreListsCached trees lists.old → AreEarlier trees link last earlier →
        AreListsCached trees lists.new }
{
    cache_found(&mut lists.carried, earlier.last_carried, MOST_LISTS)?;
    cache_found(&mut lists.carried, earlier.link_carried, MOST_LISTS)?;
    cache_found(&mut lists.frozen, earlier.link_frozen, MOST_LISTS)
}

// The carried prices of the month before.
fn rows_before(earlier: &EarlierLists, link: Month, last: Month) -> &[CarriedPrice]
    ensures { result.now ≡
        rows_of_list (if last == link then earlier.now.link_carried else earlier.now.last_carried) }
{
    if last == link {
        rows_in(&earlier.link_carried)
    } else {
        rows_in(&earlier.last_carried)
    }
}

// The samples of a month by the plan of its year, from its own quotes, the lists of its link month, and the carried
// prices of the month before, which is the link month in January. The lists are cached from then on.
fn samples<S: Alter>(
    conn: &mut Connection<S>,
    alloc: Global,
    headers: &[Header],
    lists: &mut CachedLists,
    plan: &YearPlan,
    link: Month,
    last: Month,
    month: Month,
    quotes: &[FrozenQuote],
) -> Result<Vec<Vec<GroupRow>>, Unread>
    ensures look { Looks (state S.Store conn.old) (state S.Store conn.new) result }
    ensures cached { KnowsBy headers.now S.Store conn.old conn.new (λ trees.
        AreListsCached trees lists.old → AreListsCached trees lists.new) }
    ensures read { KnowsBy headers.now S.Store conn.old conn.new (λ trees. AreListsCached trees lists.old →
        let sources = office_sources (office_in trees) in
        row_by_number (λ p. p.year) (year_of month) sources.plans ≡ Some plan.now →
        link ≡ link_month month → last ≡ month - 1 →
        (IsFit sources → quotes.now ≡ sources.quotes month) → IfOk result (λ v. AreGroupsOf sources month v.items)) }
    ensures stand { KnowsBy headers.now S.Store conn.old conn.new (λ trees. AreListsCached trees lists.old →
        link ≡ link_month month → last ≡ month - 1 → OnOk result (SamplesStand month trees)) }
{
    let earlier = earlier_lists(conn, alloc, headers, lists, link, last)?;
    let made = groups_after(
        alloc,
        plan,
        rows_in(&earlier.link_carried),
        rows_in(&earlier.link_frozen),
        rows_before(&earlier, link, last),
        month,
        quotes,
    );
    cache_earlier(lists, earlier)?;
    made.map_err(|_| Unread)
}

// The samples of a month, one list for each weight of the plan of its year. There are none if the year has no plan, or
// if no month comes before.
fn month_samples<S: Alter>(
    conn: &mut Connection<S>,
    alloc: Global,
    headers: &[Header],
    lists: &mut CachedLists,
    survey: &Survey,
    month: Month,
) -> Result<Vec<Vec<GroupRow>>, Unread>
    ensures look { Looks (state S.Store conn.old) (state S.Store conn.new) result }
    ensures cached { KnowsBy headers.now S.Store conn.old conn.new (λ trees.
        AreListsCached trees lists.old → AreListsCached trees lists.new) }
    ensures read { KnowsBy headers.now S.Store conn.old conn.new (λ trees. AreListsCached trees lists.old →
        survey.now ≡ survey_of (office_in trees) →
        IfOk result (λ v. AreGroupsOf (office_sources (office_in trees)) month v.items)) }
    ensures taken { KnowsBy headers.now S.Store conn.old conn.new (λ trees. AreListsCached trees lists.old →
        survey.now ≡ survey_of (office_in trees) → OnOk result (SamplesTaken month trees)) }
{
    let (Some(plan), Some(link), Some(last)) = (survey.plan_of(month), month.link(), month.prev())
    else {
        return Ok(Vec::new(alloc));
    };
    let quotes = survey.month_rows(month).map_err(|_| Unread)?;
    samples(
        conn, alloc, headers, lists, plan, link, last, month, &quotes,
    )
}

/// The rows of one aggregate of a month. The month's samples are cached from then on, and so are the lists that they
/// are made from. `headers` are those of all releases, and `survey` is the rest of the office. It is an error if the
/// store fails, the types refuse a row, or memory is refused.
pub fn sample_of<S: Alter>(
    conn: &mut Connection<S>,
    alloc: Global,
    headers: &[Header],
    lists: &mut CachedLists,
    survey: &Survey,
    samples: &mut CachedSamples,
    month: Month,
    code: Code,
) -> Result<Vec<GroupRow>, Unread>
    ensures look { Looks (state S.Store conn.old) (state S.Store conn.new) result }
    ensures lists { KnowsBy headers.now S.Store conn.old conn.new (λ trees.
        AreListsCached trees lists.old → AreListsCached trees lists.new) }
    ensures cached { KnowsBy headers.now S.Store conn.old conn.new (λ trees. AreListsCached trees lists.old →
        survey.now ≡ survey_of (office_in trees) → AreSamplesOf trees samples.old → AreSamplesOf trees samples.new) }
    ensures read { KnowsBy headers.now S.Store conn.old conn.new (λ trees. AreListsCached trees lists.old →
        let sources = office_sources (office_in trees) in
        survey.now ≡ survey_of (office_in trees) → AreSamplesOf trees samples.old → IsFit sources → 12 ≤ month →
        IfOk result (λ v. v.items ≡ group_of sources month code)) }
    ensures taken { KnowsBy headers.now S.Store conn.old conn.new (λ trees. AreListsCached trees lists.old →
        survey.now ≡ survey_of (office_in trees) → AreSamplesOf trees samples.old →
        OnOk result (SamplesTaken month trees)) }
{
    let plan = survey.plan_of(month);
    let cached = match samples.rows(alloc, plan, month, code) {
        Ok(cached) => cached,
        Err(_) => return Err(Unread),
    };
    if let Some(rows) = cached {
        return Ok(rows);
    }
    let groups = month_samples(conn, alloc, headers, lists, survey, month)?;
    match samples.keep(alloc, plan, month, groups, code) {
        Ok(rows) => Ok(rows),
        Err(_) => Err(Unread),
    }
}
