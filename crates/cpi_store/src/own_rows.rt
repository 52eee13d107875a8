//! A collector's own part, made of the collector's rows.
ghost use Rattle.std.specs.Prelude.{◌≡◌, IfSome, map};
ghost use Rattle.std.specs.List.{AllByRecursion};
ghost use Rattle.std.specs.Ordering.{nat_cmp};
ghost use Rattle.cpi_rows.specs.Keyed.{IsInOrder};
ghost use Rattle.cpi_survey.specs.Quote.{greatest_receipt, quote_cmp, quote_key};
ghost use Rattle.cpi_store.specs.Holders.{HasOutlet};
ghost use Rattle.cpi_store.specs.Loading.{own_made};
ghost use Rattle.cpi_store.specs.Outlet.{with_name};

use crate::given::Given;
use crate::outlet::Outlet;
use cpi_rows::RowsByKey;
use cpi_survey::{Assigned, Assignment, Own, Quote};
use std::alloc::Global;

/// The part that the rows make up; none if an outlet is missing, or if memory was refused.
pub fn own_of(
    alloc: Global,
    outlets: &RowsByKey<Outlet>,
    given: &[Given],
    quotes: Vec<Quote>,
) -> Option<Own>
    requires given { IsInOrder nat_cmp (λ g. g.assignment.slot) given.now }
    requires quotes { IsInOrder quote_cmp quote_key quotes.items }
    ensures own { IfSome result (λ own. own ≡ own_made outlets.now given.now quotes.items) }
    ensures placed { IfSome result (λ own. AllByRecursion (HasOutlet outlets.now) own.assignments) }
{
    let named = name_all(alloc, outlets, given)?;
    let most = greatest(&quotes);
    Own::from_parts(alloc, named, quotes, most).ok()
}

// The assignments with the names of their outlets; none if an outlet is missing, or if memory was refused.
fn name_all(alloc: Global, outlets: &RowsByKey<Outlet>, given: &[Given]) -> Option<Vec<Assigned>>
    requires { IsInOrder nat_cmp (λ g. g.assignment.slot) given.now }
    ensures named { IfSome result (λ xs. xs.items ≡ map (with_name outlets.now) (map (λ g. g.assignment) given.now)) }
    ensures placed { IfSome result (λ xs. AllByRecursion (HasOutlet outlets.now) xs.items) }
    ensures order { IfSome result (λ xs. IsInOrder nat_cmp (λ a. a.assignment.slot) xs.items) }
{
    let mut named = Vec::new(alloc);
    'all: for row in given {
        let one = name_one(alloc, outlets, &row.assignment)?;
        named.push(one).ok()?;
    }
    Some(named)
}

// The assignment with the name of its outlet; none if there is no such outlet, or if memory was refused.
fn name_one(alloc: Global, outlets: &RowsByKey<Outlet>, assignment: &Assignment) -> Option<Assigned>
    ensures named { IfSome result (λ a. a ≡ with_name outlets.now assignment.now) }
    ensures placed { IfSome result (HasOutlet outlets.now) }
{
    match outlets.find(&assignment.outlet) {
        Some(outlet) => {
            let outlet_name = outlet.name.copy(alloc).ok()?;
            Some(Assigned {
                assignment: *assignment,
                outlet_name,
            })
        }
        None => None,
    }
}

// The greatest receipt, or 0.
fn greatest(quotes: &[Quote]) -> u32
    ensures { result ≡ greatest_receipt quotes.now }
{
    let mut most = 0;
    'all: for quote in quotes {
        if most < quote.receipt {
            most = quote.receipt;
        }
    }
    most
}
