//! A book whose n-th call fails.
use crate::book::{Book, Parts, StoreFault};
use crate::given::Given;
use crate::outlet::Outlet;
use crate::registration::Registration;
use crate::series_move::SeriesMove;
use cpi_codes::{Code, CollectorId, Key, Moment, Month, OutletId, Slot};
use cpi_index::{ChainedLevel, FrozenQuote, GroupRow};
use cpi_plan::{CalendarRow, Item, YearPlan};
use cpi_release::{Failures, FrozenMonth, GroupFault, Groups, Level, Release, Revision};
use cpi_rows::Rows;
use cpi_survey::{Assigned, Own, Public, Quote};

/// A book that passes each call on to another book, except the n-th, which fails without being passed on. Tests see by
/// it what the callers of a book do when the store fails.
#[derive(Drop)]
pub struct FailBook<B: Book> {
    inner: B,
    // the calls up to the one that fails, including that one; 0 if none will
    left: u64,
    own_failures: Failures,
}

impl<B: Book> FailBook<B> {
    ghost use Rattle.std.specs.Prelude.{◌≡◌, ◌-◌, ◌+◌, ◌↔◌, IsErr, is_err, if◌then◌else◌};

    /// A book that fails the n-th of its calls, reads and writes alike, counted from 1; none at 0.
    pub fn new(inner: B, nth: u64) -> FailBook<B>
        ensures inner { result.inner ≡ inner }
        ensures left { result.left ≡ nth }
        ensures failed { result.own_failures.count ≡ 0 }
    {
        FailBook {
            inner,
            left: nth,
            own_failures: Failures::none(),
        }
    }

    // Counts a call, and fails the n-th.
    fn count(&mut self) -> Result<(), StoreFault>
        ensures nth { IsErr result ↔ (self.old.left ≡ 1) }
        ensures left { self.new.left ≡ self.old.left - 1 }
        ensures inner { self.new.inner ≡ self.old.inner }
        ensures failed { self.new.own_failures.count ≡ self.old.own_failures.count + (if is_err result then 1 else 0) }
    {
        match self.left {
            0 => Ok(()),
            1 => {
                self.left = 0;
                Err(self.own_failures.counted(StoreFault))
            }
            left => {
                self.left = left - 1;
                Ok(())
            }
        }
    }
}

impl<B: Book> Groups for FailBook<B> {
    ghost use Rattle.std.specs.Prelude.{◌+◌};

    ghost Held = { B.Held };

    ghost holds = { λ f. let h = B.holds f.inner in record {
      held = h.held;
      failures = h.failures + f.own_failures.count;
      is_kept = h.is_kept;
      is_clean = h.is_clean;
      clean_is_kept = h.clean_is_kept;
      may_leave = h.may_leave;
    } };

    ghost sources = { B.sources };

    ghost is_sound = { B.is_sound };

    ghost has_sound = { λ h s. B.has_sound h s };

    fn rows(&mut self, year: u16, month: Month, code: Code) -> Result<Vec<GroupRow>, GroupFault> {
        match self.count() {
            Ok(()) => self.inner.rows(year, month, code),
            Err(_) => Err(GroupFault),
        }
    }

    fn chained(&mut self, month: Month, code: Code) -> Result<Option<ChainedLevel>, GroupFault> {
        match self.count() {
            Ok(()) => self.inner.chained(month, code),
            Err(_) => Err(GroupFault),
        }
    }
}

impl<B: Book> Book for FailBook<B> {
    ghost use Rattle.std.specs.Prelude.{◌+◌};

    ghost state = { λ f. let s = B.state f.inner in record {
      held = s.held;
      failures = s.failures + f.own_failures.count;
      is_kept = s.is_kept;
      is_clean = s.is_clean;
      clean_is_kept = s.clean_is_kept;
      may_leave = s.may_leave;
    } };

    ghost finds_always = { ⊥ };

    ghost groups_are = { λ f. let inner = B.groups_are f.inner in record {
      failures = λ i. inner.failures i + f.own_failures.count;
      kept = inner.kept;
      clean = inner.clean;
      is_clean = inner.is_clean;
    } };

    ghost groups_keep = { λ a b keeps. let kept = B.groups_keep a.inner b.inner (record {
      was_kept = keeps.was_kept;
      was_clean = keeps.was_clean;
      kept = keeps.kept;
      crash = keeps.crash;
    }) in record {
      was_kept = kept.was_kept;
      was_clean = kept.was_clean;
      kept = kept.kept;
      crash = kept.crash;
    } };

    ghost sources_are = { λ f. B.sources_are f.inner };

    ghost sound_is = { λ f s. B.sound_is f.inner s };

    fn registration_of(&mut self, key: Key) -> Result<Option<Registration>, StoreFault> {
        self.count()?;
        self.inner.registration_of(key)
    }

    fn registration_at(&mut self, number: CollectorId) -> Result<Option<Registration>, StoreFault> {
        self.count()?;
        self.inner.registration_at(number)
    }

    fn collector_of(&mut self, key: Key) -> Result<Option<CollectorId>, StoreFault> {
        self.count()?;
        self.inner.collector_of(key)
    }

    fn collector_key(&mut self, number: CollectorId) -> Result<Option<Key>, StoreFault> {
        self.count()?;
        self.inner.collector_key(number)
    }

    fn outlet(&mut self, number: OutletId) -> Result<Option<&Outlet>, StoreFault> {
        self.count()?;
        self.inner.outlet(number)
    }

    fn public_part(&mut self) -> Result<&Public, StoreFault> {
        self.count()?;
        self.inner.public_part()
    }

    fn own(&mut self, collector: CollectorId) -> Result<&Own, StoreFault> {
        self.count()?;
        self.inner.own(collector)
    }

    fn parts(&mut self, collector: CollectorId) -> Result<Parts<'_>, StoreFault> {
        self.count()?;
        self.inner.parts(collector)
    }

    fn given(&mut self, collector: CollectorId, slot: Slot) -> Result<Option<Given>, StoreFault> {
        self.count()?;
        self.inner.given(collector, slot)
    }

    fn frozen_months(&mut self) -> Result<Vec<FrozenMonth>, StoreFault> {
        self.count()?;
        self.inner.frozen_months()
    }

    fn month_rows(&mut self, month: Month) -> Result<Vec<FrozenQuote>, StoreFault> {
        self.count()?;
        self.inner.month_rows(month)
    }

    fn tables_until(&mut self, until: Moment) -> Result<Vec<FrozenMonth>, StoreFault> {
        self.count()?;
        self.inner.tables_until(until)
    }

    fn revision_until(
        &mut self,
        month: Month,
        until: Moment,
    ) -> Result<Option<Revision>, StoreFault> {
        self.count()?;
        self.inner.revision_until(month, until)
    }

    fn table(
        &mut self,
        month: Month,
        revision: Revision,
        until: Moment,
    ) -> Result<Option<&Rows<Level>>, StoreFault> {
        self.count()?;
        self.inner.table(month, revision, until)
    }

    fn put_item(&mut self, item: Item) -> Result<(), StoreFault> {
        self.count()?;
        self.inner.put_item(item)
    }

    fn put_plan(&mut self, plan: YearPlan) -> Result<(), StoreFault> {
        self.count()?;
        self.inner.put_plan(plan)
    }

    fn put_calendar(&mut self, row: CalendarRow) -> Result<(), StoreFault> {
        self.count()?;
        self.inner.put_calendar(row)
    }

    fn put_collector(&mut self, registration: Registration) -> Result<(), StoreFault> {
        self.count()?;
        self.inner.put_collector(registration)
    }

    fn put_outlet(&mut self, outlet: Outlet) -> Result<(), StoreFault> {
        self.count()?;
        self.inner.put_outlet(outlet)
    }

    fn put_assignment(
        &mut self,
        registration: Registration,
        assigned: Assigned,
    ) -> Result<(), StoreFault> {
        self.count()?;
        self.inner.put_assignment(registration, assigned)
    }

    fn put_handover(&mut self, handover: SeriesMove) -> Result<(), StoreFault> {
        self.count()?;
        self.inner.put_handover(handover)
    }

    fn put_quote(&mut self, registration: Registration, quote: Quote) -> Result<(), StoreFault> {
        self.count()?;
        self.inner.put_quote(registration, quote)
    }

    fn put_release(&mut self, release: Release) -> Result<(), StoreFault> {
        self.count()?;
        self.inner.put_release(release)
    }
}
