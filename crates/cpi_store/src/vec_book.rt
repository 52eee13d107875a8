//! The office in memory: its survey and its releases.
use crate::book::{Book, Parts, StoreFault};
use crate::given::Given;
use crate::outlet::Outlet;
use crate::registration::Registration;
use crate::releases::{frozen_months, published_months, revision_until, table_until};
use crate::series_move::SeriesMove;
use crate::survey::Survey;
use cpi_codes::{Code, CollectorId, Key, Moment, Month, OutletId, Slot, Year};
use cpi_index::{ChainedLevel, FrozenQuote, GroupRow};
use cpi_plan::{CalendarRow, Item, YearPlan};
use cpi_release::{
    CachedSamples, Failures, FrozenMonth, GroupFault, Groups, Level, Release, Revision, level_in,
    month_groups,
};
use cpi_rows::{Rows, put_row};
use cpi_survey::{Assigned, Own, Public, Quote};
use std::alloc::{AllocError, Global};
use std::marker::Model;

/// An office in memory: a survey and its releases. A call fails only if memory was refused. A read that lends what it
/// shows takes none, and neither does a write that replaces a row. `Survey` says what a call costs; a new release
/// shifts those after it.
#[derive(Drop)]
pub struct VecBook {
    survey: Survey,
    // by month and revision
    releases: Vec<Release>,
    failed: Failures,
    // a cache of the samples of the month that is being frozen; empty after any write
    samples: CachedSamples,
    alloc: Global,
}

impl Model for VecBook {
    ghost use Rattle.cpi_rows.specs.Keyed.{IsInOrder};
    ghost use Rattle.cpi_release.specs.FrozenMonths.{release_cmp, release_key};
    ghost use Rattle.cpi_release.specs.CachedSamples.{AreSamplesCached};
    ghost use Rattle.cpi_store.specs.Office.{with_releases};
    ghost use Rattle.cpi_store.specs.Holders.{Kept};
    ghost use Rattle.cpi_store.specs.Sources.{office_sources};

    ghost Value = { Kept };

    ghost view = { λ b. record { office = with_releases b.releases.items b.survey; failures = b.failed.count } };

    ghost invariant = { λ b. record {
      releases : IsInOrder release_cmp release_key b.releases.items;
      kept : AreSamplesCached (office_sources (with_releases b.releases.items b.survey)) b.samples;
    } };
}

impl VecBook {
    ghost use Rattle.std.specs.Prelude.{◌≡◌};
    ghost use Rattle.cpi_store.specs.Office.{empty_office};

    /// An empty office, which takes no memory yet. Its calls take their memory from this allocator.
    pub fn new(alloc: Global) -> VecBook
        ensures { result ≡ record { office = empty_office; failures = 0 } }
    {
        VecBook {
            survey: Survey::new(alloc),
            releases: Vec::new(alloc),
            failed: Failures::none(),
            samples: CachedSamples::none(),
            alloc,
        }
    }
}

impl VecBook {
    ghost use Rattle.std.specs.Prelude.{◌≡◌, ◌≤◌, true, IfOk};
    ghost use Rattle.cpi_index.specs.Series.{are_by_series, frozen_serial};
    ghost use Rattle.cpi_release.specs.CachedSamples.{IsFit};
    ghost use Rattle.cpi_release.specs.GroupCalls.{group_of};
    ghost use Rattle.cpi_store.specs.Office.{quotes_of_month};
    ghost use Rattle.cpi_store.specs.Sources.{office_sources};

    // The rows of one aggregate; the month's samples are cached from then on.
    fn read_rows(&mut self, month: Month, code: Code) -> Result<Vec<GroupRow>, AllocError>
        ensures same { self.new ≡ self.old }
        ensures shown { IfOk result (λ v.
            let s = office_sources self.old.office in IsFit s → 12 ≤ month → v.items ≡ group_of s month code) }
    {
        let plan = self.survey.plan_of(month);
        if let Some(rows) = self.samples.rows(self.alloc, plan, month, code)? {
            return Ok(rows);
        }
        let frozen = self.survey.month_rows(month)?;
        let groups = month_groups(self.alloc, plan, &self.releases, month, &frozen)?;
        let rows = self.samples.keep(self.alloc, plan, month, groups, code)?;
        Ok(rows)
    }

    // The stored quotes of a month. Its samples are made of them, since a freeze reads both; if memory is refused for
    // the samples, they are made when they are read.
    fn read_month(&mut self, month: Month) -> Result<Vec<FrozenQuote>, AllocError>
        ensures same { self.new ≡ self.old }
        ensures shown { IfOk result (λ found.
            are_by_series frozen_serial (quotes_of_month month self.old.office) ≡ true →
            found.items ≡ quotes_of_month month self.old.office) }
    {
        let plan = self.survey.plan_of(month);
        let frozen = self.survey.month_rows(month)?;
        let Ok(groups) = month_groups(self.alloc, plan, &self.releases, month, &frozen) else {
            return Ok(frozen);
        };
        self.samples.put(month, groups);
        Ok(frozen)
    }
}

impl Groups for VecBook {
    ghost use Rattle.cpi_store.specs.Office.{Office};
    ghost use Rattle.cpi_store.specs.Sources.{office_sources};
    ghost use Rattle.cpi_store.specs.Holders.{kept_state};
    ghost use Rattle.cpi_release.specs.CachedSamples.{IsFit};

    ghost Held = { Office };

    ghost holds = { kept_state };

    ghost sources = { office_sources };

    ghost is_sound = { λ o. IsFit (office_sources o) };

    ghost has_sound = { λ o s. s.0 };

    fn rows(&mut self, _year: u16, month: Month, code: Code) -> Result<Vec<GroupRow>, GroupFault> {
        match self.read_rows(month, code) {
            Ok(rows) => Ok(rows),
            Err(_) => Err(self.failed.counted(GroupFault)),
        }
    }

    fn chained(&mut self, month: Month, code: Code) -> Result<Option<ChainedLevel>, GroupFault> {
        Ok(level_in(&self.releases, month, code))
    }
}

impl Book for VecBook {
    ghost use Rattle.std.specs.Prelude.{◌≡◌, ◌<◌, ⊤, refl, IsOk, IsSome};
    ghost use Rattle.cpi_rows.specs.Keyed.{row_at, row_by_number};
    ghost use Rattle.cpi_rows.specs.Held.{held_by};
    ghost use Rattle.cpi_survey.specs.Quote.{greatest_receipt, quote_cmp, quote_key};
    ghost use Rattle.cpi_store.specs.Office.{office_with, PutsPlan, PutsCalendar, Quotes};
    ghost use Rattle.cpi_store.specs.Registration.{registration_of, collector_of, collector_key};
    ghost use Rattle.cpi_release.specs.State.{Reads};
    ghost use Rattle.cpi_store.specs.Calls.{Writes};
    ghost use Rattle.cpi_store.specs.Holders.{kept_state};

    ghost state = { kept_state };

    ghost finds_always = { ⊤ };

    ghost groups_are = { λ b. record { failures = refl; kept = λ x. x; clean = λ x. x; is_clean = λ x. x } };

    ghost groups_keep = { λ a b keeps. keeps };

    ghost sources_are = { λ b. refl };

    ghost sound_is = { λ b s. s };

    fn registration_of(&mut self, key: Key) -> Result<Option<Registration>, StoreFault>
        ensures reads { Reads (kept_state self.old) (kept_state self.new) result (λ found.
            found ≡ registration_of key self.old.office.collectors) }
        ensures always { IsOk result }
    {
        Ok(self.survey.registration_of(key))
    }

    fn registration_at(&mut self, number: CollectorId) -> Result<Option<Registration>, StoreFault>
        ensures reads { Reads (kept_state self.old) (kept_state self.new) result (λ found.
            found ≡ row_by_number (λ b. b.number) number self.old.office.collectors) }
        ensures always { IsOk result }
    {
        Ok(self.survey.registration_at(number))
    }

    fn collector_of(&mut self, key: Key) -> Result<Option<CollectorId>, StoreFault>
        ensures reads { Reads (kept_state self.old) (kept_state self.new) result (λ found.
            found ≡ collector_of key self.old.office.collectors) }
        ensures always { IsOk result }
    {
        Ok(self.survey.registration_of(key).map(|found| found.number))
    }

    fn collector_key(&mut self, number: CollectorId) -> Result<Option<Key>, StoreFault>
        ensures reads { Reads (kept_state self.old) (kept_state self.new) result (λ found.
            found ≡ collector_key number self.old.office.collectors) }
        ensures always { IsOk result }
    {
        Ok(self.survey.registration_at(number).map(|found| found.key))
    }

    fn outlet(&mut self, number: OutletId) -> Result<Option<&Outlet>, StoreFault> {
        Ok(self.survey.outlet(number))
    }

    fn public_part(&mut self) -> Result<&Public, StoreFault> {
        Ok(self.survey.public())
    }

    fn own(&mut self, collector: CollectorId) -> Result<&Own, StoreFault> {
        Ok(self.survey.own(collector))
    }

    fn parts(&mut self, collector: CollectorId) -> Result<Parts<'_>, StoreFault> {
        Ok(self.survey.parts(collector))
    }

    fn given(&mut self, collector: CollectorId, slot: Slot) -> Result<Option<Given>, StoreFault> {
        Ok(self.survey.given(collector, slot))
    }

    fn frozen_months(&mut self) -> Result<Vec<FrozenMonth>, StoreFault> {
        match frozen_months(self.alloc, &self.releases) {
            Ok(found) => Ok(found),
            Err(_) => Err(self.failed.counted(StoreFault)),
        }
    }

    fn month_rows(&mut self, month: Month) -> Result<Vec<FrozenQuote>, StoreFault> {
        match self.read_month(month) {
            Ok(found) => Ok(found),
            Err(_) => Err(self.failed.counted(StoreFault)),
        }
    }

    fn tables_until(&mut self, until: Moment) -> Result<Vec<FrozenMonth>, StoreFault> {
        match published_months(self.alloc, until, &self.releases) {
            Ok(found) => Ok(found),
            Err(_) => Err(self.failed.counted(StoreFault)),
        }
    }

    fn revision_until(
        &mut self,
        month: Month,
        until: Moment,
    ) -> Result<Option<Revision>, StoreFault> {
        Ok(revision_until(&self.releases, month, until))
    }

    fn table(
        &mut self,
        month: Month,
        revision: Revision,
        until: Moment,
    ) -> Result<Option<&Rows<Level>>, StoreFault> {
        Ok(table_until(&self.releases, month, revision, until))
    }

    fn put_item(&mut self, item: Item) -> Result<(), StoreFault> {
        self.samples.clear();
        match self.survey.put_item(item) {
            Ok(()) => Ok(()),
            Err(_) => Err(self.failed.counted(StoreFault)),
        }
    }

    fn put_plan(&mut self, plan: YearPlan) -> Result<(), StoreFault>
        ensures writes { Writes (kept_state self.old) (kept_state self.new) result
            (office_with (PutsPlan plan) self.old.office) }
        ensures replaced { IsSome (row_by_number (λ y. y.year) plan.year self.old.office.plans) → IsOk result }
    {
        self.samples.clear();
        match self.survey.put_plan(plan) {
            Ok(()) => Ok(()),
            Err(_) => Err(self.failed.counted(StoreFault)),
        }
    }

    fn put_calendar(&mut self, row: CalendarRow) -> Result<(), StoreFault>
        ensures writes { Writes (kept_state self.old) (kept_state self.new) result
            (office_with (PutsCalendar row) self.old.office) }
        ensures replaced { IsSome (row_by_number (λ r. r.month) row.month self.old.office.calendar) → IsOk result }
    {
        self.samples.clear();
        match self.survey.put_calendar(row) {
            Ok(()) => Ok(()),
            Err(_) => Err(self.failed.counted(StoreFault)),
        }
    }

    fn put_collector(&mut self, registration: Registration) -> Result<(), StoreFault> {
        self.samples.clear();
        match self.survey.put_collector(registration) {
            Ok(()) => Ok(()),
            Err(_) => Err(self.failed.counted(StoreFault)),
        }
    }

    fn put_outlet(&mut self, outlet: Outlet) -> Result<(), StoreFault> {
        self.samples.clear();
        match self.survey.put_outlet(outlet) {
            Ok(()) => Ok(()),
            Err(_) => Err(self.failed.counted(StoreFault)),
        }
    }

    fn put_assignment(
        &mut self,
        registration: Registration,
        assigned: Assigned,
    ) -> Result<(), StoreFault> {
        self.samples.clear();
        match self.survey.put_assignment(registration, assigned) {
            Ok(()) => Ok(()),
            Err(_) => Err(self.failed.counted(StoreFault)),
        }
    }

    fn put_handover(&mut self, handover: SeriesMove) -> Result<(), StoreFault> {
        self.samples.clear();
        match self.survey.put_handover(handover) {
            Ok(()) => Ok(()),
            Err(_) => Err(self.failed.counted(StoreFault)),
        }
    }

    fn put_quote(&mut self, registration: Registration, quote: Quote) -> Result<(), StoreFault>
        requires known { IsSome (row_by_number (λ b. b.number) registration.number self.old.office.collectors) }
        requires receipt { greatest_receipt (held_by registration.number self.old.office.quotes) < quote.receipt }
        ensures writes { Writes (kept_state self.old) (kept_state self.new) result
            (office_with (Quotes registration quote) self.old.office) }
        ensures replaced { IsSome (row_at quote_cmp quote_key (quote.slot, quote.month)
            (held_by registration.number self.old.office.quotes)) →
            IsOk result }
    {
        self.samples.clear();
        match self.survey.put_quote(registration, quote) {
            Ok(()) => Ok(()),
            Err(_) => Err(self.failed.counted(StoreFault)),
        }
    }

    fn put_release(&mut self, release: Release) -> Result<(), StoreFault> {
        self.samples.clear();
        match put_row(&mut self.releases, release) {
            Ok(()) => Ok(()),
            Err(_) => Err(self.failed.counted(StoreFault)),
        }
    }
}
