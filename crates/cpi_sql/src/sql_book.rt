//! The office in a database: a book whose survey is read once and cached, and whose releases stay in the tables.
ghost use Rattle.std.specs.Borrow.{sem};
ghost use Rattle.std.specs.Option.{option_copied};
ghost use Rattle.std.specs.Prelude.{◌≡◌, MatchResult};
ghost use Rattle.cpi_codes.specs.Month.{year_of};
ghost use Rattle.cpi_rows.specs.Keyed.{IsInOrder, row_at};
ghost use Rattle.cpi_index.specs.Series.{frozen_serial, are_by_series};
ghost use Rattle.cpi_release.specs.FrozenMonths.{frozen_months, release_cmp, release_key};
ghost use Rattle.cpi_release.specs.GroupCalls.{IsAfterFrozen, group_of};
ghost use Rattle.cpi_release.specs.CachedSamples.{IsFit};
ghost use Rattle.cpi_release.specs.PublishedTables.{frozen_month_of, published_until};
ghost use Rattle.cpi_release.specs.Releases.{level_at_month};
ghost use Rattle.cpi_store.specs.Calls.{EndsAs};
ghost use Rattle.cpi_store.specs.Registration.{registration_of, collector_key, collector_of};
ghost use Rattle.cpi_store.specs.Office.{Assigns, Freezes, HandsOver, Office, PutsCalendar, PutsItem, PutsOutlet};
ghost use Rattle.cpi_store.specs.Office.{PutsPlan, Quotes, Registers, given_until, own_part, public_part};
ghost use Rattle.cpi_store.specs.Office.{quotes_of_month};
ghost use Rattle.cpi_store.specs.Sources.{office_sources};
ghost use Rattle.cpi_store.specs.Tables.{table_until};
ghost use Rattle.cpi_sql_rows.specs.Common.{⊤, AreTaken, HasTables, IsCleanBook, IsTrue, None, OnErr, OnOk};
ghost use Rattle.cpi_sql_rows.specs.Common.{book_state, false, row_by_number};
ghost use Rattle.cpi_sql_rows.specs.Common.{held_by, map, option_map, refl, state, true, Some};
ghost use Rattle.cpi_sql_rows.specs.Finding.{IsSettled};
ghost use Rattle.cpi_sql_rows.specs.Lists.{level_in_row};
ghost use Rattle.cpi_sql_rows.specs.Tables.{table_of_levels_2};
ghost use Rattle.cpi_sql_reads.specs.Headers.{LatestStands};
ghost use Rattle.cpi_sql_reads.specs.Samples.{SamplesTaken};
ghost use Rattle.cpi_sql.specs.Calls.{Finds, HeadersTaken, IsCounted, IsTableTaken, KeepsRows, Owes, ReadsOffice};
ghost use Rattle.cpi_sql.specs.Calls.{RestsOn, WritesOffice, WritesRows};
ghost use Rattle.cpi_sql.specs.Opens.{IsOpenedOffice, IsUnopened};
ghost use Rattle.cpi_sql.specs.contracts.sql_book.SqlBook.{the_row};

use cpi_codes::{Code, CollectorId, Key, Moment, Month, OutletId, Slot};
use cpi_index::{ChainedLevel, FrozenQuote, GroupRow};
use cpi_plan::{CalendarRow, Item, YearPlan};
use cpi_release::{
    CachedSamples, Failures, FrozenMonth, GroupFault, Groups, Level, Release, Revision,
};
use cpi_rows::Rows;
use cpi_sql_open::open_office;
use cpi_sql_reads::{
    CachedLists, chained_level, follow_assignment, follow_calendar, follow_collector,
    follow_handover, follow_item, follow_outlet, follow_plan, follow_quote, follow_release,
    frozen_months, is_there, published_months, read_headers, read_survey, ready_table,
    revision_published, sample_of,
};
use cpi_sql_rows::{Header, Unread, settle};
use cpi_sql_writes::{
    put_assignment, put_calendar, put_collector, put_handover, put_item, put_outlet, put_plan,
    put_quote, put_release,
};
use cpi_store::{
    Book, Given, OpenFault, Outlet, Parts, Registration, SeriesMove, StoreFault, Survey,
};
use cpi_survey::{Assigned, Own, Public, Quote};
use sqlite::{Alter, Connection};
use std::alloc::Global;
use std::marker::Model;

/// An office in a database, over the tables of schema 2, which contain each revision of each month. The first request
/// that needs the survey reads it, and it is cached from then on. The headers of the releases are cached too, and the
/// samples of the month that is being frozen. Of the lists of releases the cache has the few that were used or put
/// last: tables, and the frozen quotes and carried prices that the next freeze begins with. Each write changes the
/// caches, or drops the parts that are out of date.
#[derive(Drop)]
pub struct SqlBook<S: Alter> {
    conn: Connection<S>,
    // the office but for its releases, once it is read
    survey: Survey,
    // whether the survey is read
    is_read: bool,
    // of all releases, by month and revision, once they are read
    headers: Vec<Header>,
    // whether the headers are read
    has_headers: bool,
    // lists of earlier releases: those that a freeze read or put, and the tables that requests asked for
    lists: CachedLists,
    // the samples of the month that is being frozen; none after a write
    samples: CachedSamples,
    // how many calls have failed
    failed: Failures,
    alloc: Global,
}

impl<S: Alter> Model for SqlBook<S> {
    ghost use Rattle.sqlite.specs.Held.{state};
    ghost use Rattle.cpi_sql_rows.specs.Shelf.{Shelf, shelf_code};
    ghost use Rattle.cpi_sql.specs.Caches.{AreCachesSound};

    ghost Value = { Shelf S };

    ghost coded = { shelf_code S.code };

    ghost view = { λ b. record {
      held = b.conn;
      is_read = b.is_read;
      has_headers = b.has_headers;
      failures = b.failed.count;
    } };

    ghost invariant = { λ b. AreCachesSound (state S.Store b.conn) (record {
      is_read = b.is_read;
      survey = b.survey;
      has_headers = b.has_headers;
      headers = b.headers.items;
      lists = b.lists;
      samples = b.samples;
    }) };
}

/// A database that couldn't be opened as an office, and its connection.
#[derive(Drop)]
pub struct Unopened<S: Alter> {
    /// Why it couldn't be opened.
    pub fault: OpenFault,
    /// The connection, which shows what it showed.
    pub conn: Connection<S>,
}

impl<S: Alter + Drop> SqlBook<S> {
    /// The office in the database. If the database has no table, the tables are made, all or none. Otherwise they have
    /// to be those of the office with the row 2 in `version`, and no row changes, or those of schema 1 with the row 1,
    /// which are migrated, all or none. After that a crash leaves what is there. On a fault the database is as it was;
    /// the fault is that of an unknown schema only if `version` can be read and has another number. The fault comes
    /// with the connection: no contract can say what a connection holds once it is dropped. A caller that wants only
    /// the fault writes `map_err(|unopened| unopened.fault)`.
    pub fn new(alloc: Global, conn: Connection<S>) -> Result<SqlBook<S>, Unopened<S>>
        requires { (state S.Store conn).in_transaction ≡ false }
        ensures { MatchResult result (IsOpenedOffice S.Store conn) (λ e. IsUnopened S.Store conn e.fault e.conn) }
    {
        let mut conn = conn;
        let found = open_office(&mut conn, alloc);
        settle(&conn);
        match found {
            Ok(()) => Ok(SqlBook {
                conn,
                survey: Survey::new(alloc),
                is_read: false,
                headers: Vec::new(alloc),
                has_headers: false,
                lists: CachedLists::none(alloc),
                samples: CachedSamples::none(),
                failed: Failures::none(),
                alloc,
            }),
            Err(fault) => Err(Unopened { fault, conn }),
        }
    }

    /// The connection, given back. While it is clean, it holds the tables of an office.
    pub fn into_connection(self) -> Connection<S>
        ensures held { result ≡ self.held }
        ensures tables { IsCleanBook (state S.Store self.held) → HasTables (state S.Store self.held) }
    {
        self.conn
    }
}

// The answer that was found, or this fault. A fault is one more failure, and is counted.
fn counted<T, E: Drop, F: Drop>(
    failed: &mut Failures,
    found: Result<T, E>,
    fault: F,
) -> Result<T, F>
    ensures { IsCounted found result failed.old.count failed.new.count }
{
    match found {
        Ok(answer) => Ok(answer),
        Err(_) => Err(failed.counted(fault)),
    }
}

// The answer to a write. Rows that are stored endure, and the samples that were made before are dropped. If the write
// failed, that is a fault, and one more failure is counted.
fn stored<S: Alter>(
    put: Result<(), Unread>,
    conn: &Connection<S>,
    samples: &mut CachedSamples,
    failed: &mut Failures,
) -> Result<(), StoreFault>
    ensures counted { IsCounted put result failed.old.count failed.new.count }
    ensures settled { OnOk result (IsTrue (state S.Store conn.now).is_open
        → (state S.Store conn.now).in_transaction ≡ false → IsSettled (state S.Store conn.now)) }
    ensures cleared { OnOk result (samples.new ≡ None) }
    ensures kept { OnErr result (samples.new ≡ samples.old) }
{
    counted(failed, put, StoreFault)?;
    settle(conn);
    samples.clear();
    Ok(())
}

impl<S: Alter> SqlBook<S> {
    // Reads the survey, unless it is cached. It is a fault if the store fails, a row can't be read, or memory is
    // refused.
    fn ready_survey(&mut self) -> Result<(), StoreFault>
        ensures reads { ReadsOffice S.Store self.old self.new result (λ _ _. ⊤) }
        ensures now { KeepsRows S.Store self.old self.new }
        ensures ready { OnOk result (IsTrue self.new.is_read) }
        ensures taken { RestsOn S.Store self.old self.new result AreTaken }
        ensures kept { self.new.has_headers ≡ self.old.has_headers }
    {
        if self.is_read {
            return Ok(());
        }
        match read_survey(&mut self.conn, self.alloc) {
            Ok(survey) => {
                self.survey = survey;
                self.is_read = true;
                Ok(())
            }
            Err(_) => Err(self.failed.counted(StoreFault)),
        }
    }

    // Reads the headers of the releases, unless they are cached. It is a fault if the store fails, a row can't be read,
    // or memory is refused.
    fn ready_headers(&mut self) -> Result<(), StoreFault>
        ensures reads { ReadsOffice S.Store self.old self.new result (λ _ _. ⊤) }
        ensures now { KeepsRows S.Store self.old self.new }
        ensures ready { OnOk result (IsTrue self.new.has_headers) }
        ensures headers { RestsOn S.Store self.old self.new result HeadersTaken }
        ensures kept { self.new.is_read ≡ self.old.is_read }
    {
        if self.has_headers {
            return Ok(());
        }
        match read_headers(&mut self.conn, self.alloc) {
            Ok(headers) => {
                self.headers = headers;
                self.has_headers = true;
                Ok(())
            }
            Err(_) => Err(self.failed.counted(StoreFault)),
        }
    }
}

impl<S: Alter> Groups for SqlBook<S> {
    ghost Held = { Office };

    ghost holds = { book_state S.Store };

    ghost sources = { office_sources };

    ghost is_sound = { λ o. IsFit (office_sources o) };

    ghost has_sound = { λ o s. s.0 };

    fn rows(&mut self, _year: u16, month: Month, code: Code) -> Result<Vec<GroupRow>, GroupFault>
        ensures reads { ReadsOffice S.Store self.old self.new result (λ office rows.
            IsFit (office_sources office) → _year ≡ year_of month → IsAfterFrozen (office_sources office) month →
            rows.items ≡ group_of (office_sources office) month code) }
        ensures now { KeepsRows S.Store self.old self.new }
        ensures taken { RestsOn S.Store self.old self.new result AreTaken }
        ensures headers { RestsOn S.Store self.old self.new result HeadersTaken }
        ensures lists { RestsOn S.Store self.old self.new result (SamplesTaken month) }
    {
        self.ready_headers().map_err(|_| GroupFault)?;
        self.ready_survey().map_err(|_| GroupFault)?;
        let found = sample_of(
            &mut self.conn,
            self.alloc,
            &self.headers,
            &mut self.lists,
            &self.survey,
            &mut self.samples,
            month,
            code,
        );
        counted(&mut self.failed, found, GroupFault)
    }

    fn chained(&mut self, month: Month, code: Code) -> Result<Option<ChainedLevel>, GroupFault>
        ensures reads { ReadsOffice S.Store self.old self.new result (λ office level.
            IsFit (office_sources office) → level ≡ level_at_month (office_sources office).releases month code) }
        ensures now { KeepsRows S.Store self.old self.new }
        ensures headers { RestsOn S.Store self.old self.new result HeadersTaken }
        ensures rows { RestsOn S.Store self.old self.new result
            (LatestStands level_in_row table_of_levels_2.tree month) }
    {
        self.ready_headers().map_err(|_| GroupFault)?;
        let found = chained_level(
            &mut self.conn,
            self.alloc,
            &self.headers,
            &mut self.lists,
            month,
            code,
        );
        counted(&mut self.failed, found, GroupFault)
    }
}

impl<S: Alter> Book for SqlBook<S> {
    ghost state = { book_state S.Store };

    ghost finds_always = { ⊥ };

    ghost groups_are = { λ b. record { failures = refl; kept = λ x. x; clean = λ x. x; is_clean = λ x. x } };

    ghost groups_keep = { λ a b keeps. keeps };

    ghost sources_are = { λ b. refl };

    ghost sound_is = { λ b s. s };

    fn registration_of(&mut self, key: Key) -> Result<Option<Registration>, StoreFault>
        ensures reads { Finds S.Store self.old self.new result (λ office. registration_of key office.collectors) }
        ensures now { KeepsRows S.Store self.old self.new }
        ensures taken { RestsOn S.Store self.old self.new result AreTaken }
    {
        self.ready_survey()?;
        Ok(self.survey.registration_of(key))
    }

    fn registration_at(&mut self, number: CollectorId) -> Result<Option<Registration>, StoreFault>
        ensures reads { Finds S.Store self.old self.new result
            (λ office. row_by_number (λ b. b.number) number office.collectors) }
        ensures now { KeepsRows S.Store self.old self.new }
        ensures taken { RestsOn S.Store self.old self.new result AreTaken }
    {
        self.ready_survey()?;
        Ok(self.survey.registration_at(number))
    }

    fn collector_of(&mut self, key: Key) -> Result<Option<CollectorId>, StoreFault>
        ensures reads { Finds S.Store self.old self.new result (λ office. collector_of key office.collectors) }
        ensures now { KeepsRows S.Store self.old self.new }
        ensures taken { RestsOn S.Store self.old self.new result AreTaken }
    {
        self.ready_survey()?;
        Ok(
            self.survey
                .registration_of(key)
                .map(|registration| registration.number),
        )
    }

    fn collector_key(&mut self, number: CollectorId) -> Result<Option<Key>, StoreFault>
        ensures reads { Finds S.Store self.old self.new result (λ office. collector_key number office.collectors) }
        ensures now { KeepsRows S.Store self.old self.new }
        ensures taken { RestsOn S.Store self.old self.new result AreTaken }
    {
        self.ready_survey()?;
        Ok(
            self.survey
                .registration_at(number)
                .map(|registration| registration.key),
        )
    }

    fn outlet(&mut self, number: OutletId) -> Result<Option<&Outlet>, StoreFault>
        ensures* reads { sem 𝓛 (EndsAs (the_row S.row S.Store) self.entry (λ book.
            ReadsOffice S.Store self.old book result (λ office found.
            option_copied found ≡ row_by_number (λ u. u.number) number office.outlets)
            × KeepsRows S.Store self.old book × RestsOn S.Store self.old book result AreTaken)) }
    {
        self.ready_survey()?;
        Ok(self.survey.outlet(number))
    }

    fn public_part(&mut self) -> Result<&Public, StoreFault>
        ensures* reads { sem 𝓛 (EndsAs (the_row S.row S.Store) self.entry (λ book.
            ReadsOffice S.Store self.old book result (λ office public. public.now ≡ public_part office)
            × KeepsRows S.Store self.old book × RestsOn S.Store self.old book result AreTaken)) }
    {
        self.ready_survey()?;
        Ok(self.survey.public())
    }

    fn own(&mut self, collector: CollectorId) -> Result<&Own, StoreFault>
        ensures* reads { sem 𝓛 (EndsAs (the_row S.row S.Store) self.entry (λ book.
            ReadsOffice S.Store self.old book result (λ office own. own.now ≡ own_part collector office)
            × KeepsRows S.Store self.old book × RestsOn S.Store self.old book result AreTaken)) }
    {
        self.ready_survey()?;
        Ok(self.survey.own(collector))
    }

    fn parts(&mut self, collector: CollectorId) -> Result<Parts<'_>, StoreFault>
        ensures* reads { sem 𝓛 (EndsAs (the_row S.row S.Store) self.entry (λ book.
            ReadsOffice S.Store self.old book result (λ office parts.
            (parts.public.now ≡ public_part office) × (parts.own.now ≡ own_part collector office))
            × KeepsRows S.Store self.old book × RestsOn S.Store self.old book result AreTaken)) }
    {
        self.ready_survey()?;
        Ok(self.survey.parts(collector))
    }

    fn given(&mut self, collector: CollectorId, slot: Slot) -> Result<Option<Given>, StoreFault>
        ensures reads { Finds S.Store self.old self.new result (λ office.
            row_by_number (λ g. g.assignment.slot) slot (held_by collector office.assignments)) }
        ensures now { KeepsRows S.Store self.old self.new }
        ensures taken { RestsOn S.Store self.old self.new result AreTaken }
    {
        self.ready_survey()?;
        Ok(self.survey.given(collector, slot))
    }

    fn frozen_months(&mut self) -> Result<Vec<FrozenMonth>, StoreFault>
        ensures reads { ReadsOffice S.Store self.old self.new result (λ office found.
            found.items ≡ frozen_months office.releases) }
        ensures now { KeepsRows S.Store self.old self.new }
        ensures headers { RestsOn S.Store self.old self.new result HeadersTaken }
    {
        self.ready_headers()?;
        let found = frozen_months(self.alloc, &self.headers);
        counted(&mut self.failed, found, StoreFault)
    }

    fn month_rows(&mut self, month: Month) -> Result<Vec<FrozenQuote>, StoreFault>
        ensures reads { ReadsOffice S.Store self.old self.new result (λ office found.
            are_by_series frozen_serial (quotes_of_month month office) ≡ true →
            found.items ≡ quotes_of_month month office) }
        ensures now { KeepsRows S.Store self.old self.new }
        ensures taken { RestsOn S.Store self.old self.new result AreTaken }
    {
        self.ready_survey()?;
        let found = self.survey.month_rows(month);
        counted(&mut self.failed, found, StoreFault)
    }

    fn tables_until(&mut self, until: Moment) -> Result<Vec<FrozenMonth>, StoreFault>
        ensures reads { ReadsOffice S.Store self.old self.new result (λ office found.
            found.items ≡ map frozen_month_of (published_until until office.releases)) }
        ensures now { KeepsRows S.Store self.old self.new }
        ensures headers { RestsOn S.Store self.old self.new result HeadersTaken }
    {
        self.ready_headers()?;
        let found = published_months(self.alloc, until, &self.headers);
        counted(&mut self.failed, found, StoreFault)
    }

    fn revision_until(
        &mut self,
        month: Month,
        until: Moment,
    ) -> Result<Option<Revision>, StoreFault>
        ensures reads { Finds S.Store self.old self.new result (λ office.
            option_map (λ t. t.revision) (table_until month None until office.releases)) }
        ensures now { KeepsRows S.Store self.old self.new }
        ensures headers { RestsOn S.Store self.old self.new result HeadersTaken }
    {
        self.ready_headers()?;
        Ok(revision_published(&self.headers, month, until))
    }

    fn table(
        &mut self,
        month: Month,
        revision: Revision,
        until: Moment,
    ) -> Result<Option<&Rows<Level>>, StoreFault>
        ensures* reads { sem 𝓛 (EndsAs (the_row S.row S.Store) self.entry (λ book.
            ReadsOffice S.Store self.old book result (λ office found.
            option_copied found ≡ option_map (λ t. t.levels) (table_until month (Some revision) until office.releases))
            × KeepsRows S.Store self.old book
            × RestsOn S.Store self.old book result (IsTableTaken month revision until))) }
    {
        self.ready_headers()?;
        if !is_there(&self.headers, month, revision, until) {
            return Ok(None);
        }
        let read = ready_table(
            &mut self.conn,
            self.alloc,
            &self.headers,
            &mut self.lists,
            month,
            revision,
        );
        counted(&mut self.failed, read, StoreFault)?;
        Ok(self.lists.table(month, revision))
    }

    fn put_item(&mut self, item: Item) -> Result<(), StoreFault>
        requires new { Owes S.Store self.old (λ office. row_by_number (λ i. i.code) item.code office.items ≡ None) }
        ensures writes { WritesOffice S.Store self.old self.new result (PutsItem item) }
        ensures rows { WritesRows S.Store self.old self.new result (PutsItem item) }
    {
        let put = put_item(&mut self.conn, self.alloc, &item);
        stored(put, &self.conn, &mut self.samples, &mut self.failed)?;
        follow_item(&mut self.survey, &mut self.is_read, item);
        Ok(())
    }

    fn put_plan(&mut self, plan: YearPlan) -> Result<(), StoreFault>
        ensures writes { WritesOffice S.Store self.old self.new result (PutsPlan plan) }
        ensures rows { WritesRows S.Store self.old self.new result (PutsPlan plan) }
    {
        let put = put_plan(&mut self.conn, self.alloc, &plan);
        stored(put, &self.conn, &mut self.samples, &mut self.failed)?;
        follow_plan(&mut self.survey, &mut self.is_read, plan);
        Ok(())
    }

    fn put_calendar(&mut self, row: CalendarRow) -> Result<(), StoreFault>
        ensures writes { WritesOffice S.Store self.old self.new result (PutsCalendar row) }
        ensures rows { WritesRows S.Store self.old self.new result (PutsCalendar row) }
    {
        let put = put_calendar(&mut self.conn, row);
        stored(put, &self.conn, &mut self.samples, &mut self.failed)?;
        follow_calendar(&mut self.survey, &mut self.is_read, row);
        Ok(())
    }

    fn put_collector(&mut self, registration: Registration) -> Result<(), StoreFault>
        requires number { Owes S.Store self.old (λ office.
            row_by_number (λ b. b.number) registration.number office.collectors ≡ None) }
        ensures writes { WritesOffice S.Store self.old self.new result (Registers registration) }
        ensures rows { WritesRows S.Store self.old self.new result (Registers registration) }
    {
        // the borrow checker follows a struct that is passed by value once, so the second call takes a copy
        let copy = registration;
        let put = put_collector(&mut self.conn, self.alloc, registration);
        stored(put, &self.conn, &mut self.samples, &mut self.failed)?;
        follow_collector(&mut self.survey, &mut self.is_read, copy);
        Ok(())
    }

    fn put_outlet(&mut self, outlet: Outlet) -> Result<(), StoreFault>
        requires new { Owes S.Store self.old (λ office. row_by_number (λ u. u.number) outlet.number office.outlets ≡ None) }
        ensures writes { WritesOffice S.Store self.old self.new result (PutsOutlet outlet) }
        ensures rows { WritesRows S.Store self.old self.new result (PutsOutlet outlet) }
    {
        let put = put_outlet(&mut self.conn, &outlet);
        stored(put, &self.conn, &mut self.samples, &mut self.failed)?;
        follow_outlet(&mut self.survey, &mut self.is_read, outlet);
        Ok(())
    }

    fn put_assignment(
        &mut self,
        registration: Registration,
        assigned: Assigned,
    ) -> Result<(), StoreFault>
        requires new { Owes S.Store self.old (λ office. row_by_number (λ g. g.assignment.slot) assigned.assignment.slot
            (held_by registration.number office.assignments) ≡ None) }
        ensures writes { WritesOffice S.Store self.old self.new result (Assigns registration assigned) }
        ensures rows { WritesRows S.Store self.old self.new result (Assigns registration assigned) }
    {
        // the borrow checker follows a struct that is passed by value once, so the second call takes a copy
        let copy = registration;
        let put = put_assignment(&mut self.conn, self.alloc, registration, &assigned);
        stored(put, &self.conn, &mut self.samples, &mut self.failed)?;
        follow_assignment(&mut self.survey, &mut self.is_read, copy, assigned);
        Ok(())
    }

    fn put_handover(&mut self, handover: SeriesMove) -> Result<(), StoreFault>
        requires stands { Owes S.Store self.old (λ office. option_map (given_until handover.ended.assignment.last_month)
            (row_by_number (λ g. g.assignment.slot) handover.ended.assignment.slot
            (held_by handover.former.number office.assignments)) ≡ Some handover.ended) }
        requires new { Owes S.Store self.old (λ office. row_by_number (λ g. g.assignment.slot)
            handover.assigned.assignment.slot (held_by handover.taker.number office.assignments) ≡ None) }
        ensures writes { WritesOffice S.Store self.old self.new result (HandsOver handover) }
        ensures rows { WritesRows S.Store self.old self.new result (HandsOver handover) }
    {
        let put = put_handover(&mut self.conn, self.alloc, &handover);
        stored(put, &self.conn, &mut self.samples, &mut self.failed)?;
        follow_handover(&mut self.survey, &mut self.is_read, handover);
        Ok(())
    }

    fn put_quote(&mut self, registration: Registration, quote: Quote) -> Result<(), StoreFault>
        ensures writes { WritesOffice S.Store self.old self.new result (Quotes registration quote) }
        ensures rows { WritesRows S.Store self.old self.new result (Quotes registration quote) }
    {
        // the borrow checker follows a struct that is passed by value once, so the second call takes a copy
        let copy = registration;
        let put = put_quote(&mut self.conn, registration, quote);
        stored(put, &self.conn, &mut self.samples, &mut self.failed)?;
        follow_quote(&mut self.survey, &mut self.is_read, copy, quote);
        Ok(())
    }

    fn put_release(&mut self, release: Release) -> Result<(), StoreFault>
        requires new { Owes S.Store self.old (λ office. IsInOrder release_cmp release_key office.releases →
            row_at release_cmp release_key (release.month, release.revision) office.releases ≡ None) }
        ensures writes { WritesOffice S.Store self.old self.new result (Freezes release) }
        ensures rows { WritesRows S.Store self.old self.new result (Freezes release) }
    {
        let put = put_release(&mut self.conn, self.alloc, &release);
        stored(put, &self.conn, &mut self.samples, &mut self.failed)?;
        self.has_headers = false;
        follow_release(&mut self.lists, release);
        Ok(())
    }
}
