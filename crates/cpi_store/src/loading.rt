//! A survey made of rows that were read in their order.
ghost use Rattle.std.specs.Prelude.{◌≡◌, ℕ, [], IfOk, IfSome};
ghost use Rattle.std.specs.BTreeMap.{get};
ghost use Rattle.std.specs.Ordering.{nat_cmp};
ghost use Rattle.cpi_rows.specs.Keyed.{IsInOrder};
ghost use Rattle.cpi_rows.specs.Held.{held_cmp, held_key};
ghost use Rattle.cpi_survey.specs.Quote.{quote_cmp, quote_key};
ghost use Rattle.cpi_store.specs.Registration.{registration_of};
ghost use Rattle.cpi_store.specs.Loading.{HaveRows, taken_row, taken_rows};

use crate::held::{HeldGiven, HeldQuote};
use crate::holder::Holder;
use crate::outlet::Outlet;
use crate::own_rows::own_of;
use crate::registration::Registration;
use crate::runs::{given_from, quotes_from};
use crate::survey::Survey;
use crate::taken_over::TakenOver;
use crate::taken_slots::TakenSlots;
use cpi_codes::Key;
use cpi_rows::RowsByKey;
use cpi_survey::{Own, Public};
use std::alloc::{AllocError, Global};
use std::collections::BTreeMap;

impl Survey {
    /// The survey that the rows make up. The caller owes them in the order of their keys: collectors by number, what
    /// slots were given by collector and slot, quotes by collector, slot and month.
    ///
    /// None if two collectors have one key, if a row has a number that is nobody's, if an outlet is missing, or if
    /// memory was refused. Each row is read once, and put in O(log n) steps for n rows at most.
    pub fn from_rows(
        alloc: Global,
        public: Public,
        registrations: Vec<Registration>,
        outlets: RowsByKey<Outlet>,
        given: &[HeldGiven],
        quotes: &[HeldQuote],
    ) -> Option<Survey>
        requires registrations { IsInOrder nat_cmp (λ b. b.number) registrations.items }
        requires given { IsInOrder (held_cmp nat_cmp) (held_key (λ g. g.assignment.slot)) given.now }
        requires quotes { IsInOrder (held_cmp quote_cmp) (held_key quote_key) quotes.now }
        ensures { IfSome result (λ s. s ≡ record {
          items = public.items;
          plans = public.plans;
          calendar = public.calendar;
          collectors = registrations.items;
          outlets = outlets;
          assignments = given.now;
          quotes = quotes.now;
          releases = [];
        }) }
    {
        let by_key = by_key(alloc, &registrations)?;
        let overs = taken_of(alloc, given).ok()?;
        let taken = TakenSlots::of(alloc, &overs).ok()?;
        let holders = holders_of(alloc, &outlets, &registrations, given, quotes)?;
        Some(Survey {
            public,
            holders,
            taken,
            outlets,
            registrations: by_key,
            nobody: Own::new(alloc),
            alloc,
        })
    }
}

// The collectors by their keys; none if two have one key, or if memory was refused.
fn by_key(alloc: Global, registrations: &[Registration]) -> Option<BTreeMap<Key, Registration>>
    ensures { IfSome result (λ found. (key : ℕ) → get nat_cmp found key ≡ registration_of key registrations.now) }
{
    let mut found = BTreeMap::new(alloc);
    'registrations: for registration in registrations {
        if found.contains_key(&registration.key) {
            return None;
        }
        found.insert(registration.key, *registration).ok()?;
    }
    Some(found)
}

// The slots that took a series over, each with that series.
fn taken_of(alloc: Global, given: &[HeldGiven]) -> Result<Vec<TakenOver>, AllocError>
    ensures { IfOk result (λ taken. taken.items ≡ taken_rows given.now) }
{
    given.iter().filter_map(|row| taken_one(row)).collect(alloc)
}

// The slot with its series, unless it names the series itself.
fn taken_one(row: &HeldGiven) -> Option<TakenOver>
    ensures { result ≡ taken_row row.now }
{
    let over = TakenOver {
        collector: row.collector,
        slot: row.given.assignment.slot,
        series: row.given.series,
    };
    if over.series.collector == over.collector && over.series.slot == over.slot {
        None
    } else {
        Some(over)
    }
}

// The collectors, each with its own rows; none if a row belongs to none of them, if an outlet is missing, or if memory
// was refused.
fn holders_of(
    alloc: Global,
    outlets: &RowsByKey<Outlet>,
    registrations: &[Registration],
    given: &[HeldGiven],
    quotes: &[HeldQuote],
) -> Option<Vec<Holder>>
    requires given { IsInOrder (held_cmp nat_cmp) (held_key (λ g. g.assignment.slot)) given.now }
    requires quotes { IsInOrder (held_cmp quote_cmp) (held_key quote_key) quotes.now }
    ensures { IfSome result (λ holders. HaveRows outlets.now registrations.now given.now quotes.now holders.items) }
{
    let mut holders = Vec::new(alloc);
    let mut given_at = 0;
    let mut quotes_at = 0;
    'registrations: for registration in registrations {
        let own_given = given_from(alloc, given, given_at, registration.number)?;
        let own_quotes = quotes_from(alloc, quotes, quotes_at, registration.number)?;
        given_at += own_given.len();
        quotes_at += own_quotes.len();
        let own = own_of(alloc, outlets, &own_given, own_quotes)?;
        holders
            .push(Holder {
                number: registration.number,
                key: registration.key,
                own,
            })
            .ok()?;
    }
    if given_at == given.len() && quotes_at == quotes.len() {
        Some(holders)
    } else {
        None
    }
}
