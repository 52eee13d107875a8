//! What a function that answers a collector or the public may look at: what the caller sees, and no more.
//!
//! Such a function has no book. It has a [`Sight`], a [`Present`] and, for a collector, a [`Bearer`]. Only `callers.rt`
//! makes the last two. So the function can ask for no other collector's rows and for no table under embargo, whatever it
//! answers.
use crate::callers::{Bearer, Present};
use cpi_codes::Month;
use cpi_release::{FrozenMonth, Level, Revision};
use cpi_rows::Rows;
use cpi_store::{Book, Parts, StoreFault};
use cpi_survey::{Public, Quote};

/// What a caller sees of an office: the public specification, the tables that are published at the moment of the
/// request and, with the collector whose key was sent, what that collector has.
///
/// A call answers a `StoreFault` only if the count of failures rose during the call. Each book is a sight, by its own
/// calls.
pub trait Sight {
    ghost use Rattle.std.specs.Prelude.{◌≡◌, ◌<◌, IsOk, IsSome, Some, None, map, option_map};
    ghost use Rattle.std.specs.Borrow.{sem};
    ghost use Rattle.std.specs.Option.{option_copied};
    ghost use Rattle.cpi_rows.specs.Held.{held_by};
    ghost use Rattle.cpi_rows.specs.Keyed.{row_by_number};
    ghost use Rattle.cpi_survey.specs.Quote.{greatest_receipt};
    ghost use Rattle.cpi_release.specs.State.{State, Reads};
    ghost use Rattle.cpi_release.specs.PublishedTables.{frozen_month_of, published_until};
    ghost use Rattle.cpi_store.specs.Calls.{Writes, EndsAs};
    ghost use Rattle.cpi_store.specs.Office.{Office, public_part, own_part, office_with, Quotes};
    ghost use Rattle.cpi_store.specs.Tables.{table_until};

    /// The office of which a part is seen, as of a book.
    ghost state: { Self → State Office };

    /// That reads that lend what they show never fail.
    ghost finds_always: { Type 0 };

    /// The public specification: items by code, plans by year, and calendar rows by month.
    fn public(&mut self) -> Result<&Public, StoreFault>
        ensures* reads { sem 𝓛 (EndsAs Self.row self.entry (λ sight.
            Reads (state self.old) (state sight) result (λ public.
            public.now ≡ public_part (state self.old).held))) }
        ensures always { finds_always → IsOk result };

    /// The public specification, and what the collector has whose key was sent.
    fn own_parts(&mut self, bearer: Bearer) -> Result<Parts<'_>, StoreFault>
        ensures* reads { sem 𝓛 (EndsAs Self.row self.entry (λ sight.
            Reads (state self.old) (state sight) result (λ parts.
            (parts.public.now ≡ public_part (state self.old).held)
            × (parts.own.now ≡ own_part bearer.number (state self.old).held)))) }
        ensures always { finds_always → IsOk result };

    /// The months and revisions whose tables are published at the moment of the request, by month and revision.
    fn published(&mut self, present: Present) -> Result<Vec<FrozenMonth>, StoreFault>
        ensures reads { Reads (state self.old) (state self.new) result (λ found.
            found.items ≡ map frozen_month_of (published_until present (state self.old).held.releases)) };

    /// The latest revision of the month whose table is published at the moment of the request; none if there is no
    /// such table.
    fn latest_published(
        &mut self,
        present: Present,
        month: Month,
    ) -> Result<Option<Revision>, StoreFault>
        ensures reads { Reads (state self.old) (state self.new) result (λ found.
            found ≡ option_map (λ t. t.revision)
            (table_until month None present (state self.old).held.releases)) }
        ensures always { finds_always → IsOk result };

    /// The rows of the month's table in the revision, by code, if it is published at the moment of the request; none
    /// if there is no such table.
    fn published_table(
        &mut self,
        present: Present,
        month: Month,
        revision: Revision,
    ) -> Result<Option<&Rows<Level>>, StoreFault>
        ensures* reads { sem 𝓛 (EndsAs Self.row self.entry (λ sight.
            Reads (state self.old) (state sight) result (λ found.
            option_copied found ≡ option_map (λ t. t.levels)
            (table_until month (Some revision) present (state self.old).held.releases)))) }
        ensures always { finds_always → IsOk result };

    /// Puts a quote of the collector whose key was sent, in place of the one of its slot and month, if any. The caller
    /// owes that the collector is registered and has the slot, and that the receipt is above all others of the
    /// collector.
    fn put_own_quote(&mut self, bearer: Bearer, quote: Quote) -> Result<(), StoreFault>
        requires known { (state self.old).is_clean →
            IsSome (row_by_number (λ b. b.number) bearer.number (state self.old).held.collectors) }
        requires slot { (state self.old).is_clean →
            IsSome (row_by_number (λ a. a.assignment.slot) quote.slot
            (own_part bearer.number (state self.old).held).assignments) }
        requires receipt { (state self.old).is_clean →
            greatest_receipt (held_by bearer.number (state self.old).held.quotes) < quote.receipt }
        ensures writes { Writes (state self.old) (state self.new) result
            (office_with (Quotes bearer quote) (state self.old).held) };
}

impl<B: Book> Sight for B {
    ghost state = { B.state };

    ghost finds_always = { B.finds_always };

    fn public(&mut self) -> Result<&Public, StoreFault> {
        self.public_part()
    }

    fn own_parts(&mut self, bearer: Bearer) -> Result<Parts<'_>, StoreFault> {
        self.parts(bearer.number())
    }

    fn published(&mut self, present: Present) -> Result<Vec<FrozenMonth>, StoreFault> {
        self.tables_until(present.moment())
    }

    fn latest_published(
        &mut self,
        present: Present,
        month: Month,
    ) -> Result<Option<Revision>, StoreFault> {
        self.revision_until(month, present.moment())
    }

    fn published_table(
        &mut self,
        present: Present,
        month: Month,
        revision: Revision,
    ) -> Result<Option<&Rows<Level>>, StoreFault> {
        self.table(month, revision, present.moment())
    }

    fn put_own_quote(&mut self, bearer: Bearer, quote: Quote) -> Result<(), StoreFault> {
        self.put_quote(bearer.registration(), quote)
    }
}
