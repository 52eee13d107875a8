//! A book: one interface to the lists of an office, whatever they are stored in.
ghost use Rattle.std.specs.Prelude.{◌≡◌, ◌<◌, ◌≤◌, IsOk, IsSome, None, Some, false, true, map, option_map};
ghost use Rattle.std.specs.Option.{option_copied};

use crate::given::Given;
use crate::outlet::Outlet;
use crate::registration::Registration;
use crate::series_move::SeriesMove;
use cpi_codes::{CollectorId, Key, Moment, Month, OutletId, Slot};
use cpi_index::FrozenQuote;
use cpi_plan::{CalendarRow, Item, YearPlan};
use cpi_release::{FrozenMonth, Groups, Level, Release, Revision};
use cpi_rows::Rows;
use cpi_survey::{Assigned, Own, Public, Quote};

/// The store failed during a call: memory was refused, or what keeps the rows failed. The office is as it was before.
#[derive(Clone, Copy, Debug, PartialEq, Eq)]
pub struct StoreFault;

/// The public specification and what one collector has, lent at once: an entry is judged by both.
#[derive(Drop)]
pub struct Parts<'a> {
    /// What everybody may see.
    pub public: &'a Public,
    /// What the collector has.
    pub own: &'a Own,
}

/// An office in some store, in memory or in a file. It lists items by code, plans by year, calendar rows by month,
/// collectors by number, outlets by number, assignments by collector and slot, quotes by collector, slot and month,
/// and releases by month and revision.
///
/// The samples of a month come from the same office (`Groups`). A call answers a `StoreFault` only if the count of
/// failures rose during the call, and then the office is as it was. A read changes nothing and lends what it shows; it
/// hands out only a collector's number or key, the quotes that a freeze takes, and lists of months. A clause about the
/// office holds if the store is clean when the call ends. The caller of a write owes the conditions under which the
/// office accepts the row.
pub trait Book: Groups {
    ghost use Rattle.std.specs.Borrow.{sem};
    ghost use Rattle.cpi_survey.specs.Quote.{greatest_receipt};
    ghost use Rattle.cpi_store.specs.Outlet.{with_name};
    ghost use Rattle.cpi_store.specs.Office.{Office, public_part, own_part, office_with, PutsItem, PutsPlan};
    ghost use Rattle.cpi_store.specs.Office.{PutsCalendar, Registers, PutsOutlet, Assigns, HandsOver, Quotes, Freezes};
    ghost use Rattle.cpi_store.specs.Office.{quotes_of_month, given_until};
    ghost use Rattle.cpi_store.specs.Registration.{registration_of, collector_of, collector_key};
    ghost use Rattle.cpi_release.specs.State.{State, Keeps, Reads};
    ghost use Rattle.cpi_store.specs.Calls.{Writes, IsOffice, EndsAs};
    ghost use Rattle.cpi_store.specs.Sources.{office_sources};
    ghost use Rattle.cpi_store.specs.Tables.{table_until};
    ghost use Rattle.cpi_release.specs.CachedSamples.{IsFit};
    ghost use Rattle.cpi_index.specs.Series.{are_by_series, frozen_serial};
    ghost use Rattle.cpi_plan.specs.Plan.{has_unknown_item};
    ghost use Rattle.cpi_rows.specs.Held.{held_by};
    ghost use Rattle.cpi_rows.specs.Keyed.{IsInOrder, row_by_number, row_at};
    ghost use Rattle.cpi_release.specs.FrozenMonths.{frozen_months, release_cmp, release_key};
    ghost use Rattle.cpi_release.specs.PublishedTables.{frozen_month_of, published_until};

    /// The office's lists, each in the order of its key; how many calls have failed; whether the store has kept what
    /// was written, and whether it is clean; and which lists a crash at this moment may leave.
    ghost state: { Self → State Office };

    /// That look-ups, and reads that lend what they show, never fail.
    ghost finds_always: { Type 0 };

    /// The collector with the key; none if nobody has it.
    fn registration_of(&mut self, key: Key) -> Result<Option<Registration>, StoreFault>
        ensures reads { Reads (state self.old) (state self.new) result (λ found.
            found ≡ registration_of key (state self.old).held.collectors) }
        ensures always { finds_always → IsOk result };

    /// The collector with the number; none if the number isn't registered.
    fn registration_at(&mut self, number: CollectorId) -> Result<Option<Registration>, StoreFault>
        ensures reads { Reads (state self.old) (state self.new) result (λ found.
            found ≡ row_by_number (λ b. b.number) number (state self.old).held.collectors) }
        ensures always { finds_always → IsOk result };

    /// The number of the collector with the key; none if nobody has it. `cpi` doesn't call it: it looks for the whole
    /// registration.
    fn collector_of(&mut self, key: Key) -> Result<Option<CollectorId>, StoreFault>
        ensures reads { Reads (state self.old) (state self.new) result (λ found.
            found ≡ collector_of key (state self.old).held.collectors) }
        ensures always { finds_always → IsOk result };

    /// The key of the collector with the number; none if the number isn't registered. `cpi` doesn't call it: it looks
    /// for the whole registration.
    fn collector_key(&mut self, number: CollectorId) -> Result<Option<Key>, StoreFault>
        ensures reads { Reads (state self.old) (state self.new) result (λ found.
            found ≡ collector_key number (state self.old).held.collectors) }
        ensures always { finds_always → IsOk result };

    /// The outlet with the number; none if there is no such outlet.
    fn outlet(&mut self, number: OutletId) -> Result<Option<&Outlet>, StoreFault>
        ensures* reads { sem 𝓛 (EndsAs Self.row self.entry (λ book.
            Reads (state self.old) (state book) result (λ found.
            option_copied found ≡ row_by_number (λ u. u.number) number (state self.old).held.outlets))) }
        ensures always { finds_always → IsOk result };

    /// The public specification: items by code, plans by year, and calendar rows by month.
    fn public_part(&mut self) -> Result<&Public, StoreFault>
        ensures* reads { sem 𝓛 (EndsAs Self.row self.entry (λ book.
            Reads (state self.old) (state book) result (λ public.
            public.now ≡ public_part (state self.old).held))) }
        ensures always { finds_always → IsOk result };

    /// What a collector has: assignments by slot, and quotes by slot and month. A number that nobody has, has nothing.
    fn own(&mut self, collector: CollectorId) -> Result<&Own, StoreFault>
        ensures* reads { sem 𝓛 (EndsAs Self.row self.entry (λ book.
            Reads (state self.old) (state book) result (λ own.
            own.now ≡ own_part collector (state self.old).held))) }
        ensures always { finds_always → IsOk result };

    /// The public specification, and what a collector has; a number that nobody has, has nothing.
    fn parts(&mut self, collector: CollectorId) -> Result<Parts<'_>, StoreFault>
        ensures* reads { sem 𝓛 (EndsAs Self.row self.entry (λ book.
            Reads (state self.old) (state book) result (λ parts.
            (parts.public.now ≡ public_part (state self.old).held)
            × (parts.own.now ≡ own_part collector (state self.old).held)))) }
        ensures always { finds_always → IsOk result };

    /// What the collector's slot was given, with its series; none if the collector has no such slot.
    fn given(&mut self, collector: CollectorId, slot: Slot) -> Result<Option<Given>, StoreFault>
        ensures reads { Reads (state self.old) (state self.new) result (λ found.
            found ≡ row_by_number (λ g. g.assignment.slot) slot (held_by collector (state self.old).held.assignments)) }
        ensures always { finds_always → IsOk result };

    /// The frozen months in each of their revisions, with the moment at which its table is published, by month and
    /// revision.
    fn frozen_months(&mut self) -> Result<Vec<FrozenMonth>, StoreFault>
        ensures reads { Reads (state self.old) (state self.new) result (λ found.
            found.items ≡ frozen_months (state self.old).held.releases) };

    /// The stored quotes of the month by series, each with the item and the last month of its series, if no series has
    /// two in the month.
    fn month_rows(&mut self, month: Month) -> Result<Vec<FrozenQuote>, StoreFault>
        ensures reads { Reads (state self.old) (state self.new) result (λ found.
            are_by_series frozen_serial (quotes_of_month month (state self.old).held) ≡ true →
            found.items ≡ quotes_of_month month (state self.old).held) };

    /// The months and revisions whose tables are published by the moment, each with its moment of publishing, by month
    /// and revision.
    fn tables_until(&mut self, until: Moment) -> Result<Vec<FrozenMonth>, StoreFault>
        ensures reads { Reads (state self.old) (state self.new) result (λ found.
            found.items ≡ map frozen_month_of (published_until until (state self.old).held.releases)) };

    /// The latest revision of the month whose table is published by the moment; none if there is no such table.
    fn revision_until(
        &mut self,
        month: Month,
        until: Moment,
    ) -> Result<Option<Revision>, StoreFault>
        ensures reads { Reads (state self.old) (state self.new) result (λ found.
            found ≡ option_map (λ t. t.revision) (table_until month None until (state self.old).held.releases)) }
        ensures always { finds_always → IsOk result };

    /// The rows of the month's table in the revision, by code, if it is published by the moment; none if there is no
    /// such table.
    fn table(
        &mut self,
        month: Month,
        revision: Revision,
        until: Moment,
    ) -> Result<Option<&Rows<Level>>, StoreFault>
        ensures* reads { sem 𝓛 (EndsAs Self.row self.entry (λ book.
            Reads (state self.old) (state book) result (λ found.
            option_copied found
            ≡ option_map (λ t. t.levels) (table_until month (Some revision) until (state self.old).held.releases)))) }
        ensures always { finds_always → IsOk result };

    /// Puts a new item. The caller owes that no item has its code.
    fn put_item(&mut self, item: Item) -> Result<(), StoreFault>
        requires new { (state self.old).is_clean → row_by_number (λ i. i.code) item.code
            (state self.old).held.items ≡ None }
        ensures writes { Writes (state self.old) (state self.new) result
            (office_with (PutsItem item) (state self.old).held) };

    /// Puts a year's plan, in place of the one that the year has, if any. The caller owes that the office has the
    /// plan's items.
    fn put_plan(&mut self, plan: YearPlan) -> Result<(), StoreFault>
        requires known { (state self.old).is_clean → has_unknown_item (state self.old).held.items plan.places ≡ false }
        ensures writes { Writes (state self.old) (state self.new) result
            (office_with (PutsPlan plan) (state self.old).held) };

    /// Puts a month's calendar row, in place of the one that the month has, if any.
    fn put_calendar(&mut self, row: CalendarRow) -> Result<(), StoreFault>
        ensures writes { Writes (state self.old) (state self.new) result
            (office_with (PutsCalendar row) (state self.old).held) };

    /// Puts a new collector, who has nothing yet. The caller owes that nobody has the number, and that nobody has the
    /// key.
    fn put_collector(&mut self, registration: Registration) -> Result<(), StoreFault>
        requires number { (state self.old).is_clean →
            row_by_number (λ b. b.number) registration.number (state self.old).held.collectors ≡ None }
        requires key { (state self.old).is_clean → registration_of registration.key
            (state self.old).held.collectors ≡ None }
        ensures writes { Writes (state self.old) (state self.new) result
            (office_with (Registers registration) (state self.old).held) };

    /// Puts a new outlet. The caller owes that no outlet has its number.
    fn put_outlet(&mut self, outlet: Outlet) -> Result<(), StoreFault>
        requires new { (state self.old).is_clean →
            row_by_number (λ u. u.number) outlet.number (state self.old).held.outlets ≡ None }
        ensures writes { Writes (state self.old) (state self.new) result
            (office_with (PutsOutlet outlet) (state self.old).held) };

    /// Puts a new assignment of the collector, as a series of its own, with the name of its outlet. The caller owes
    /// that the collector is registered with this key, that the collector's slot is free, that the first month isn't
    /// after the last, that the office has the item and the outlet, and that the name is the outlet's.
    fn put_assignment(
        &mut self,
        registration: Registration,
        assigned: Assigned,
    ) -> Result<(), StoreFault>
        requires known { (state self.old).is_clean →
            row_by_number (λ b. b.number) registration.number (state self.old).held.collectors ≡ Some registration }
        requires new { (state self.old).is_clean →
            row_by_number (λ g. g.assignment.slot) assigned.assignment.slot
            (held_by registration.number (state self.old).held.assignments) ≡ None }
        requires months { (state self.old).is_clean → assigned.assignment.first_month ≤ assigned.assignment.last_month }
        requires item { (state self.old).is_clean →
            IsSome (row_by_number (λ i. i.code) assigned.assignment.item (state self.old).held.items) }
        requires outlet { (state self.old).is_clean →
            IsSome (row_by_number (λ u. u.number) assigned.assignment.outlet (state self.old).held.outlets) }
        requires name { (state self.old).is_clean →
            assigned ≡ with_name (state self.old).held.outlets assigned.assignment }
        ensures writes { Writes (state self.old) (state self.new) result
            (office_with (Assigns registration assigned) (state self.old).held) };

    /// Ends an assignment of one collector, and gives its series to a new slot of another collector or of the same one:
    /// both or neither. The caller owes that both collectors are registered with these keys, that the former assignment
    /// is the one named here in all but its last month, that the new slot is free, that the office has the outlet, and
    /// that the name is the outlet's.
    fn put_handover(&mut self, handover: SeriesMove) -> Result<(), StoreFault>
        requires former { (state self.old).is_clean →
            row_by_number (λ b. b.number) handover.former.number (state self.old).held.collectors ≡ Some
            handover.former }
        requires taker { (state self.old).is_clean →
            row_by_number (λ b. b.number) handover.taker.number (state self.old).held.collectors ≡ Some handover.taker }
        requires stands { (state self.old).is_clean →
            option_map (given_until handover.ended.assignment.last_month) (row_by_number (λ g. g.assignment.slot)
            handover.ended.assignment.slot (held_by handover.former.number (state self.old).held.assignments))
            ≡ Some handover.ended }
        requires new { (state self.old).is_clean → row_by_number (λ g. g.assignment.slot)
            handover.assigned.assignment.slot
            (held_by handover.taker.number (state self.old).held.assignments) ≡ None }
        requires outlet { (state self.old).is_clean →
            IsSome (row_by_number (λ u. u.number) handover.assigned.assignment.outlet (state self.old).held.outlets) }
        requires name { (state self.old).is_clean →
            handover.assigned ≡ with_name (state self.old).held.outlets handover.assigned.assignment }
        ensures writes { Writes (state self.old) (state self.new) result
            (office_with (HandsOver handover) (state self.old).held) };

    /// Puts a quote of the collector, in place of the one of its slot and month, if any. The caller owes that the
    /// collector is registered and has the slot, and that the receipt is above all others of the collector.
    fn put_quote(&mut self, registration: Registration, quote: Quote) -> Result<(), StoreFault>
        requires known { (state self.old).is_clean →
            IsSome (row_by_number (λ b. b.number) registration.number (state self.old).held.collectors) }
        requires slot { (state self.old).is_clean →
            IsSome (row_by_number (λ a. a.assignment.slot) quote.slot
            (own_part registration.number (state self.old).held).assignments) }
        requires receipt { (state self.old).is_clean →
            greatest_receipt (held_by registration.number (state self.old).held.quotes) < quote.receipt }
        ensures writes { Writes (state self.old) (state self.new) result
            (office_with (Quotes registration quote) (state self.old).held) };

    /// Puts a release. The caller owes that there is none of its month and revision, if the releases are in order.
    fn put_release(&mut self, release: Release) -> Result<(), StoreFault>
        requires new { (state self.old).is_clean →
            IsInOrder release_cmp release_key (state self.old).held.releases →
            row_at release_cmp release_key (release.month, release.revision) (state self.old).held.releases ≡ None }
        ensures writes { Writes (state self.old) (state self.new) result
            (office_with (Freezes release) (state self.old).held) };

    // the groups fail as often as the office; they are kept if it is, and clean if and only if it is
    ghost groups_are: { (b : Self) → IsOffice (Self.holds b) (state b) };

    // a call that keeps the groups keeps the office
    ghost groups_keep: { (a b : Self) → Keeps (Self.holds a) (Self.holds b) → Keeps (state a) (state b) };

    // groups are read from the office
    ghost sources_are: { (b : Self) → Self.sources (Self.holds b).held ≡ office_sources (state b).held };

    // groups are read soundly from an office whose releases are sound
    ghost sound_is: { (b : Self) → IsFit (office_sources (state b).held) → Self.is_sound (Self.holds b).held };
}
