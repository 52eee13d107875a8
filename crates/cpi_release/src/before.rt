//! The levels that a node's level is linked to and compared with.
ghost use Rattle.std.specs.Prelude.{◌≡◌, ◌≤◌, ◌-◌, SomeIff};
ghost use Rattle.cpi_release.specs.Releases.{link_of, month_before, year_before};
ghost use Rattle.cpi_release.specs.State.{Reads};

use crate::group_fault::GroupFault;
use crate::groups::Groups;
use cpi_codes::{Code, Month};
use cpi_index::ChainedLevel;

const DECEMBER: u8 = 12;

const JANUARY: u8 = 1;

// The link level, the level that the monthly change is from, and the one that the annual change is from, if there is
// one.
#[derive(Clone, Copy)]
pub(crate) struct Before {
    pub(crate) link: ChainedLevel,
    pub(crate) month: ChainedLevel,
    pub(crate) year: Option<ChainedLevel>,
}

// The same month of the year before.
fn year_ago(month: Month) -> Option<Month>
    ensures { SomeIff result (12 ≤ month) (month - 12) }
{
    match Month::new(month.year() - 1, month.month()) {
        Ok(earlier) => Some(earlier),
        Err(_) => None,
    }
}

// The link level of a node.
fn link_before<G: Groups>(
    groups: &mut G,
    month: Month,
    code: Code,
) -> Result<ChainedLevel, GroupFault>
    ensures { Reads (G.holds groups.old) (G.holds groups.new) result (λ level.
        G.is_sound (G.holds groups.old).held → 12 ≤ month →
        level ≡ link_of (G.sources (G.holds groups.old).held).releases month code) }
{
    let Some(december) = month.link() else {
        return Ok(ChainedLevel::hundred());
    };
    let level = groups.chained(december, code)?;
    Ok(level.unwrap_or(ChainedLevel::hundred()))
}

// The level that the monthly change is from.
fn last_before<G: Groups>(
    groups: &mut G,
    month: Month,
    code: Code,
    link: ChainedLevel,
) -> Result<ChainedLevel, GroupFault>
    ensures { Reads (G.holds groups.old) (G.holds groups.new) result (λ level.
        G.is_sound (G.holds groups.old).held → 12 ≤ month →
        link ≡ link_of (G.sources (G.holds groups.old).held).releases month code →
        level ≡ month_before (G.sources (G.holds groups.old).held).releases month code) }
{
    if month.month() == JANUARY {
        return Ok(link);
    }
    let Some(prev) = month.prev() else {
        return Ok(link);
    };
    let level = groups.chained(prev, code)?;
    Ok(level.unwrap_or(link))
}

// The level that the annual change is from.
fn annual_before<G: Groups>(
    groups: &mut G,
    month: Month,
    code: Code,
    link: ChainedLevel,
) -> Result<Option<ChainedLevel>, GroupFault>
    ensures { Reads (G.holds groups.old) (G.holds groups.new) result (λ level.
        G.is_sound (G.holds groups.old).held → 12 ≤ month →
        link ≡ link_of (G.sources (G.holds groups.old).held).releases month code →
        level ≡ year_before (G.sources (G.holds groups.old).held).releases month code) }
{
    if month.month() == DECEMBER {
        return Ok(Some(link));
    }
    match year_ago(month) {
        Some(earlier) => groups.chained(earlier, code),
        None => Ok(None),
    }
}

// The levels that a node's level of a month is linked to and compared with.
pub(crate) fn levels_before<G: Groups>(
    groups: &mut G,
    month: Month,
    code: Code,
) -> Result<Before, GroupFault>
    ensures { Reads (G.holds groups.old) (G.holds groups.new) result (λ b.
        G.is_sound (G.holds groups.old).held → 12 ≤ month →
        (b.link ≡ link_of (G.sources (G.holds groups.old).held).releases month code)
        × (b.month ≡ month_before (G.sources (G.holds groups.old).held).releases month code)
        × (b.year ≡ year_before (G.sources (G.holds groups.old).held).releases month code)) }
{
    let link = link_before(groups, month, code)?;
    let last = last_before(groups, month, code, link)?;
    let year = annual_before(groups, month, code, link)?;
    Ok(Before {
        link,
        month: last,
        year,
    })
}
