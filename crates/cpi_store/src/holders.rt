//! Rows put among those of all collectors.
ghost use Rattle.std.specs.Prelude.{◌≡◌, ◌<◌, List, map, OnOk, OnErr, IsOk, IsSome, None, Some};
ghost use Rattle.std.specs.BTreeMap.{IsUnchanged, Updates};
ghost use Rattle.std.specs.Ordering.{nat_cmp};
ghost use Rattle.cpi_rows.specs.Keyed.{row_at, row_by_number, with_row, put_by, IsInOrder};
ghost use Rattle.cpi_rows.specs.Held.{held_by, held_cmp, held_key};
ghost use Rattle.cpi_survey.specs.Quote.{greatest_receipt, quote_cmp, quote_key};
ghost use Rattle.cpi_store.specs.Office.{put_quote};
ghost use Rattle.cpi_store.specs.Outlet.{with_name};
ghost use Rattle.cpi_store.specs.declared.outlet.Outlet.{Outlet};
ghost use Rattle.cpi_store.specs.Holders.{collectors_of, all_assignments, quotes_of_holders};
ghost use Rattle.cpi_store.specs.Holders.{assignment_until};
ghost use Rattle.cpi_store.specs.Holders.{named_by, ArePlaced};

use crate::holder::Holder;
use crate::registration::Registration;
use crate::series_move::SeriesMove;
use cpi_codes::{CollectorId, Key, Month, Slot};
use cpi_rows::place_of;
use cpi_survey::{Assigned, Quote};
use std::alloc::AllocError;
use std::collections::BTreeMap;

/// Puts a quote of a collector among the quotes of all.
pub fn put_quote_of(
    holders: &mut Vec<Holder>,
    collector: CollectorId,
    quote: Quote,
) -> Result<(), AllocError>
    requires order { IsInOrder nat_cmp (λ h. h.number) holders.old.items }
    requires known { IsSome (row_at nat_cmp (λ h. h.number) collector holders.old.items) }
    requires receipt { greatest_receipt (held_by collector (quotes_of_holders holders.old.items)) < quote.receipt }
    ensures ok { OnOk result (quotes_of_holders holders.new.items ≡
        put_quote collector quote (quotes_of_holders holders.old.items)) }
    ensures err { OnErr result (holders.new.items ≡ holders.old.items) }
    ensures replaced { IsSome (row_at quote_cmp quote_key (quote.slot, quote.month)
        (held_by collector (quotes_of_holders holders.old.items)))
        → IsOk result }
    ensures collectors { collectors_of holders.new.items ≡ collectors_of holders.old.items }
    ensures assignments { all_assignments holders.new.items ≡ all_assignments holders.old.items }
    ensures order { IsInOrder nat_cmp (λ h. h.number) holders.new.items }
    ensures own_assignments { map (λ h. h.own.assignments) holders.new.items ≡
        map (λ h. h.own.assignments) holders.old.items }
{
    match place_of(holders, &collector) {
        Ok(at) => {
            let holder = &mut holders[at];
            holder.own.put_quote(quote)
        }
        Err(_) => unreachable!(),
    }
}

/// Puts an assignment of a collector among the assignments of all.
pub fn put_assignment_of(
    holders: &mut Vec<Holder>,
    collector: CollectorId,
    assigned: Assigned,
) -> Result<(), AllocError>
    requires order { IsInOrder nat_cmp (λ h. h.number) holders.old.items }
    requires known { IsSome (row_at nat_cmp (λ h. h.number) collector holders.old.items) }
    ensures ok { OnOk result (all_assignments holders.new.items ≡
        with_row (held_cmp nat_cmp) (held_key (λ a. a.slot)) (collector, assigned.assignment)
        (all_assignments holders.old.items)) }
    ensures err { OnErr result (holders.new.items ≡ holders.old.items) }
    ensures collectors { collectors_of holders.new.items ≡ collectors_of holders.old.items }
    ensures quotes { quotes_of_holders holders.new.items ≡ quotes_of_holders holders.old.items }
    ensures order { IsInOrder nat_cmp (λ h. h.number) holders.new.items }
    ensures placed { (outlets : List Outlet) → IsSome
        (row_by_number (λ u. u.number) assigned.assignment.outlet outlets) →
        ArePlaced outlets (map (λ h. h.own.assignments) holders.old.items) →
        ArePlaced outlets (map (λ h. h.own.assignments) holders.new.items) }
    ensures names { (outlets : List Outlet) → assigned ≡ with_name outlets assigned.assignment →
        named_by outlets (map (λ h. h.own.assignments) holders.old.items)
        ≡ map (λ h. h.own.assignments) holders.old.items →
        named_by outlets (map (λ h. h.own.assignments) holders.new.items)
        ≡ map (λ h. h.own.assignments) holders.new.items }
{
    match place_of(holders, &collector) {
        Ok(at) => {
            let holder = &mut holders[at];
            holder.own.put_assignment(assigned)
        }
        Err(_) => unreachable!(),
    }
}

// Ends the assignment of a collector's slot with this month.
fn end_assignment_of(
    holders: &mut Vec<Holder>,
    collector: CollectorId,
    slot: Slot,
    last_month: Month,
)
    requires order { IsInOrder nat_cmp (λ h. h.number) holders.old.items }
    ensures assignments { all_assignments holders.new.items ≡
        map (assignment_until collector slot last_month) (all_assignments holders.old.items) }
    ensures collectors { collectors_of holders.new.items ≡ collectors_of holders.old.items }
    ensures quotes { quotes_of_holders holders.new.items ≡ quotes_of_holders holders.old.items }
    ensures order { IsInOrder nat_cmp (λ h. h.number) holders.new.items }
    ensures placed { (outlets : List Outlet) →
        ArePlaced outlets (map (λ h. h.own.assignments) holders.old.items) →
        ArePlaced outlets (map (λ h. h.own.assignments) holders.new.items) }
    ensures names { (outlets : List Outlet) →
        named_by outlets (map (λ h. h.own.assignments) holders.old.items)
        ≡ map (λ h. h.own.assignments) holders.old.items →
        named_by outlets (map (λ h. h.own.assignments) holders.new.items)
        ≡ map (λ h. h.own.assignments) holders.new.items }
{
    if let Ok(at) = place_of(holders, &collector) {
        let holder = &mut holders[at];
        holder.own.end_assignment(slot, last_month);
    }
}

/// Puts the new assignment of a handover, and ends the former one. If memory is refused, nothing changes.
pub(crate) fn pass_on(holders: &mut Vec<Holder>, handover: SeriesMove) -> Result<(), AllocError>
    requires order { IsInOrder nat_cmp (λ h. h.number) holders.old.items }
    requires known { IsSome (row_at nat_cmp (λ h. h.number) handover.taker.number holders.old.items) }
    ensures ok { OnOk result (all_assignments holders.new.items ≡
        map (assignment_until handover.former.number handover.ended.assignment.slot
        handover.ended.assignment.last_month)
        (with_row (held_cmp nat_cmp) (held_key (λ a. a.slot)) (handover.taker.number, handover.assigned.assignment)
        (all_assignments holders.old.items))) }
    ensures err { OnErr result (holders.new.items ≡ holders.old.items) }
    ensures collectors { collectors_of holders.new.items ≡ collectors_of holders.old.items }
    ensures quotes { quotes_of_holders holders.new.items ≡ quotes_of_holders holders.old.items }
    ensures order { IsInOrder nat_cmp (λ h. h.number) holders.new.items }
    ensures placed { (outlets : List Outlet) → IsSome
        (row_by_number (λ u. u.number) handover.assigned.assignment.outlet outlets) →
        ArePlaced outlets (map (λ h. h.own.assignments) holders.old.items) →
        ArePlaced outlets (map (λ h. h.own.assignments) holders.new.items) }
    ensures names { (outlets : List Outlet) → handover.assigned ≡ with_name outlets handover.assigned.assignment →
        named_by outlets (map (λ h. h.own.assignments) holders.old.items)
        ≡ map (λ h. h.own.assignments) holders.old.items →
        named_by outlets (map (λ h. h.own.assignments) holders.new.items)
        ≡ map (λ h. h.own.assignments) holders.new.items }
{
    let slot = handover.ended.assignment.slot;
    let last_month = handover.ended.assignment.last_month;
    let former = handover.former.number;
    put_assignment_of(holders, handover.taker.number, handover.assigned)?;
    end_assignment_of(holders, former, slot, last_month);
    Ok(())
}

/// Puts a new holder among the holders, and the holder's registration under the holder's key. If memory is refused,
/// neither changes.
pub fn put_holder(
    holders: &mut Vec<Holder>,
    registrations: &mut BTreeMap<Key, Registration>,
    holder: Holder,
) -> Result<(), AllocError>
    requires order { IsInOrder nat_cmp (λ h. h.number) holders.old.items }
    requires new { row_by_number (λ h. h.number) holder.number holders.old.items ≡ None }
    ensures holders { OnOk result (holders.new.items ≡ put_by (λ h. h.number) holder holders.old.items) }
    ensures registrations { OnOk result (Updates nat_cmp registrations.old registrations.new holder.key
        (Some (record { number = holder.number; key = holder.key }))) }
    ensures err_holders { OnErr result (holders.new.items ≡ holders.old.items) }
    ensures err_registrations { OnErr result (IsUnchanged registrations.old registrations.new) }
{
    let registration = Registration {
        number: holder.number,
        key: holder.key,
    };
    match place_of(holders, &holder.number) {
        Ok(_) => unreachable!(),
        Err(at) => {
            holders.reserve(1)?;
            registrations.insert(holder.key, registration)?;
            Ok(holders.insert(at, holder)?)
        }
    }
}
