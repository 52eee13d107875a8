//! The quotes that a freeze of a month takes.
ghost use Rattle.std.specs.Prelude.{◌≡◌, ◌++◌, true, IfOk, OnOk, max, option_map};
ghost use Rattle.std.specs.BTreeSet.{contains};
ghost use Rattle.std.specs.Option.{option_copied};
ghost use Rattle.cpi_codes.specs.declared.series.SeriesId.{SeriesId};
ghost use Rattle.cpi_rows.specs.Held.{held_cmp};
ghost use Rattle.cpi_rows.specs.Keyed.{IsInOrder};
ghost use Rattle.std.specs.Ordering.{nat_cmp};
ghost use Rattle.cpi_index.specs.Series.{are_by_series, frozen_serial};
ghost use Rattle.cpi_store.specs.Office.{stored_rows};
ghost use Rattle.cpi_store.specs.Series.{by_series, is_handed_over, last_handed_over, last_known};
ghost use Rattle.cpi_store.specs.Holders.{all_given, quotes_of_holders, own_given, own_rows, quote_of_series};
ghost use Rattle.cpi_store.specs.Holders.{rows_of_holders};

use crate::holder::Holder;
use crate::series_ends::SeriesEnds;
use crate::sorting::sort_by_series;
use crate::taken_slots::{TakenSlots, series_in};
use cpi_codes::{CollectorId, Month, SeriesId, Slot};
use cpi_index::FrozenQuote;
use cpi_survey::{Assignment, Quote};
use std::alloc::{AllocError, Global};
use std::collections::BTreeSet;

/// The stored quotes of the month, by series, if no series has two in the month.
pub fn month_rows(
    alloc: Global,
    month: Month,
    taken: &TakenSlots,
    holders: &[Holder],
) -> Result<Vec<FrozenQuote>, AllocError>
    requires order { IsInOrder nat_cmp (λ h. h.number) holders.now }
    ensures { let given = all_given taken.now holders.now in
        let rows = by_series (stored_rows month (quotes_of_holders holders.now) given) in
        IfOk result (λ found. are_by_series frozen_serial rows ≡ true → found.items ≡ rows) }
{
    let ends = series_ends(alloc, taken, holders)?;
    let mut found = rows_of(alloc, month, taken, holders, &ends)?;
    sort_by_series(&mut found)?;
    Ok(found)
}

// The last month of each series that a slot took over: holder by holder, and slot by slot. Any other series has only
// the assignment of the slot that names it, so nothing is gathered if no slot took a series over.
fn series_ends(
    alloc: Global,
    taken: &TakenSlots,
    holders: &[Holder],
) -> Result<SeriesEnds, AllocError>
    ensures { IfOk result (λ ends. (s : SeriesId) →
        last_known ends s ≡ last_handed_over taken.now s (all_given taken.now holders.now)) }
{
    let mut ends = SeriesEnds::new(alloc);
    if taken.is_empty() {
        return Ok(ends);
    }
    let handed_over = series_handed_over(alloc, taken)?;
    for holder in holders {
        put_ends(&mut ends, taken, &handed_over, holder)?;
    }
    Ok(ends)
}

// The series that slots took over.
fn series_handed_over(
    alloc: Global,
    taken: &TakenSlots,
) -> Result<BTreeSet<(CollectorId, Slot)>, AllocError>
    ensures { IfOk result (λ found. (s : SeriesId) →
        contains (held_cmp nat_cmp) found (s.collector, s.slot) ≡ is_handed_over taken.now s) }
{
    let mut found = BTreeSet::new(alloc);
    for over in taken.iter() {
        found.insert((over.series.collector, over.series.slot))?;
    }
    Ok(found)
}

// Puts the last months of those of a collector's assignments whose series were handed over.
fn put_ends(
    ends: &mut SeriesEnds,
    taken: &TakenSlots,
    handed_over: &BTreeSet<(CollectorId, Slot)>,
    holder: &Holder,
) -> Result<(), AllocError>
    requires handed_over { (s : SeriesId) →
        contains (held_cmp nat_cmp) handed_over.now (s.collector, s.slot) ≡ is_handed_over taken.now s }
    ensures { OnOk result ((s : SeriesId) → last_known ends.new s ≡
        max (last_known ends.old s) (last_handed_over taken.now s (own_given taken.now holder.now))) }
{
    for assigned in holder.own.assignments() {
        let series = series_in(taken, holder.number, assigned.assignment.slot);
        if handed_over.contains(&(series.collector, series.slot)) {
            ends.put(series, assigned.assignment.last_month)?;
        }
    }
    Ok(())
}

// The stored quotes of the month: holder by holder, and slot by slot.
fn rows_of(
    alloc: Global,
    month: Month,
    taken: &TakenSlots,
    holders: &[Holder],
    ends: &SeriesEnds,
) -> Result<Vec<FrozenQuote>, AllocError>
    ensures { IfOk result (λ found. found.items ≡ rows_of_holders month ends.now taken.now holders.now) }
{
    let mut found = Vec::new(alloc);
    for holder in holders {
        push_rows(&mut found, month, taken, holder, ends)?;
    }
    Ok(found)
}

// Appends a collector's stored quotes of the month, by slot.
fn push_rows(
    found: &mut Vec<FrozenQuote>,
    month: Month,
    taken: &TakenSlots,
    holder: &Holder,
    ends: &SeriesEnds,
) -> Result<(), AllocError>
    ensures { OnOk result (found.new.items ≡ found.old.items ++ own_rows month ends.now taken.now holder.now) }
{
    for assigned in holder.own.assignments() {
        let slot = assigned.assignment.slot;
        let series = series_in(taken, holder.number, slot);
        let quote = holder.own.quote(slot, month);
        if let Some(row) = row_of(&assigned.assignment, series, quote, ends) {
            found.push(row)?;
        }
    }
    Ok(())
}

// A stored quote with its series, and with that series' item and last month.
fn row_of(
    assignment: &Assignment,
    series: SeriesId,
    quote: Option<&Quote>,
    ends: &SeriesEnds,
) -> Option<FrozenQuote>
    ensures { result ≡ option_map (quote_of_series ends.now assignment.now series) (option_copied quote.entry) }
{
    let mark = quote?.mark;
    let last_month = ends.latest(series, assignment.last_month);
    Some(FrozenQuote {
        series,
        item: assignment.item,
        last_month,
        mark,
    })
}
