//! The slots that took a series over, in a map.
ghost use Rattle.std.specs.Prelude.{◌≡◌, ◌==◌, [], List, map, length, OnOk, OnErr, IfOk, IsSome, None};
ghost use Rattle.std.specs.List.{AllByRecursion};
ghost use Rattle.std.specs.Map.Iter.{ShowsInOrder, deref};
ghost use Rattle.std.specs.Option.{option_copied};
ghost use Rattle.std.specs.Ordering.{nat_cmp};
ghost use Rattle.cpi_rows.specs.Held.{held_by, held_cmp};
ghost use Rattle.cpi_rows.specs.Keyed.{IsInOrder, row_at, row_by_number, with_row};
ghost use Rattle.cpi_store.specs.Holders.{ArePlaced, IsGiven, all_assignments, all_given, collectors_of, named_by};
ghost use Rattle.cpi_store.specs.Holders.{quotes_of_holders};
ghost use Rattle.cpi_store.specs.Office.{hand_over};
ghost use Rattle.cpi_store.specs.Outlet.{with_name};
ghost use Rattle.cpi_store.specs.Series.{series_named_in};
ghost use Rattle.cpi_store.specs.declared.outlet.Outlet.{Outlet};
ghost use Rattle.cpi_store.specs.declared.taken_over.TakenOver.{TakenOver};

use crate::holder::Holder;
use crate::holders::pass_on;
use crate::series_move::SeriesMove;
use crate::taken_over::TakenOver;
use cpi_codes::{CollectorId, SeriesId, Slot};
use cpi_rows::Keyed;
use std::alloc::{AllocError, Global};
use std::collections::BTreeMap;
use std::collections::btree_map::Values;
use std::marker::Model;

/// Slots that took a series over, each with that series, by collector and slot. Contracts see only the rows.
///
/// For n rows a look-up and a put cost O(log n), in whatever order the rows come.
#[derive(Drop)]
pub struct TakenSlots {
    rows: BTreeMap<(CollectorId, Slot), TakenOver>,
}

impl Model for TakenSlots {
    ghost use Rattle.std.specs.Prelude.{List};
    ghost use Rattle.std.specs.BTreeMap.{values};
    ghost use Rattle.std.specs.Ordering.{nat_cmp};
    ghost use Rattle.cpi_rows.specs.ByKey.{AreUnderKeys};
    ghost use Rattle.cpi_rows.specs.Held.{held_cmp};
    ghost use Rattle.cpi_rows.specs.Keyed.{IsInOrder};
    ghost use Rattle.cpi_store.specs.declared.taken_over.TakenOver.{TakenOver};

    ghost Value = { List TakenOver };

    ghost view = { λ s. values s.rows };

    ghost invariant = { λ s. record {
      under : AreUnderKeys (held_cmp nat_cmp) (λ t. (t.collector, t.slot)) s.rows.entries;
      order : IsInOrder (held_cmp nat_cmp) (λ t. (t.collector, t.slot)) (values s.rows);
    } };
}

impl TakenSlots {
    /// No slots. They take no memory until the first is put.
    pub fn new(alloc: Global) -> TakenSlots
        ensures { result ≡ [] }
    {
        TakenSlots {
            rows: BTreeMap::new(alloc),
        }
    }

    /// The slots of these rows, which the caller owes in their order. The error says that memory was refused.
    pub fn of(alloc: Global, rows: &[TakenOver]) -> Result<TakenSlots, AllocError>
        requires { IsInOrder (held_cmp nat_cmp) (λ t. (t.collector, t.slot)) rows.now }
        ensures { IfOk result (λ taken. taken ≡ rows.now) }
    {
        let mut taken = TakenSlots::new(alloc);
        for over in rows {
            taken.put(*over)?;
        }
        Ok(taken)
    }

    /// Whether no slot took a series over.
    pub fn is_empty(&self) -> bool
        ensures { result ≡ (length self.now == 0) }
    {
        self.rows.len() == 0
    }

    // The row of a slot, if it took a series over.
    fn find(&self, key: &(CollectorId, Slot)) -> Option<&TakenOver>
        ensures { option_copied result ≡ row_at (held_cmp nat_cmp) (λ t. (t.collector, t.slot)) key.now self.now }
    {
        self.rows.get(key)
    }

    // Puts a slot in its place. An `Err` says that there is no memory for one more; the rows are as before then.
    fn put(&mut self, over: TakenOver) -> Result<(), AllocError>
        ensures ok { OnOk result (self.new ≡ with_row (held_cmp nat_cmp) (λ t. (t.collector, t.slot)) over self.old) }
        ensures err { OnErr result (self.new ≡ self.old) }
    {
        self.rows.insert(over.key(), over)?;
        Ok(())
    }

    /// An iterator over the rows, in the order of their keys.
    pub fn iter(&self) -> Values<'_, (CollectorId, Slot), TakenOver>
        ensures rows { result ≡ self.now }
        ensures runs { ShowsInOrder (deref {X = TakenOver}) }
    {
        self.rows.values()
    }

    /// Hands a series over: puts the new assignment with the series that it takes over, and ends the former one. If
    /// memory is refused, nothing changes.
    pub fn hand_over(
        &mut self,
        holders: &mut Vec<Holder>,
        handover: SeriesMove,
    ) -> Result<(), AllocError>
        requires order { IsInOrder nat_cmp (λ h. h.number) holders.old.items }
        requires given { AllByRecursion (IsGiven (all_assignments holders.old.items)) self.old }
        requires known { IsSome (row_at nat_cmp (λ h. h.number) handover.taker.number holders.old.items) }
        requires stands { IsSome (row_by_number (λ a. a.slot) handover.ended.assignment.slot
            (held_by handover.former.number (all_assignments holders.old.items))) }
        requires new { row_by_number (λ a. a.slot) handover.assigned.assignment.slot
            (held_by handover.taker.number (all_assignments holders.old.items)) ≡ None }
        ensures ok { OnOk result (all_given self.new holders.new.items ≡
            hand_over handover (all_given self.old holders.old.items)) }
        ensures err_holders { OnErr result (holders.new.items ≡ holders.old.items) }
        ensures err_taken { OnErr result (self.new ≡ self.old) }
        ensures collectors { collectors_of holders.new.items ≡ collectors_of holders.old.items }
        ensures quotes { quotes_of_holders holders.new.items ≡ quotes_of_holders holders.old.items }
        ensures order { IsInOrder nat_cmp (λ h. h.number) holders.new.items }
        ensures given { AllByRecursion (IsGiven (all_assignments holders.new.items)) self.new }
        ensures placed { (outlets : List Outlet) → IsSome
            (row_by_number (λ u. u.number) handover.assigned.assignment.outlet outlets) →
            ArePlaced outlets (map (λ h. h.own.assignments) holders.old.items) →
            ArePlaced outlets (map (λ h. h.own.assignments) holders.new.items) }
        ensures names { (outlets : List Outlet) →
            handover.assigned ≡ with_name outlets handover.assigned.assignment →
            named_by outlets (map (λ h. h.own.assignments) holders.old.items)
            ≡ map (λ h. h.own.assignments) holders.old.items →
            named_by outlets (map (λ h. h.own.assignments) holders.new.items)
            ≡ map (λ h. h.own.assignments) holders.new.items }
    {
        let over = TakenOver::of(&handover);
        let key = over.key();
        self.rows.insert(key, over)?;
        match pass_on(holders, handover) {
            Ok(()) => Ok(()),
            Err(refused) => {
                let _ = self.rows.remove(&key);
                Err(refused)
            }
        }
    }
}

/// The series of a slot: the one that it took over, or else the one that is named by this collector and slot.
pub fn series_in(taken: &TakenSlots, collector: CollectorId, slot: Slot) -> SeriesId
    ensures { result ≡ series_named_in taken.now collector slot }
{
    match taken.find(&(collector, slot)) {
        Some(found) => found.series,
        None => SeriesId { collector, slot },
    }
}
