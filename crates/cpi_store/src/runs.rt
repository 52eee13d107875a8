//! The rows of one collector, which are consecutive in a list by collector.
ghost use Rattle.std.specs.Prelude.{◌≡◌, ◌+◌, ◌≤◌, IfSome, drop, length, take, vec_len};
ghost use Rattle.std.specs.Ordering.{nat_cmp};
ghost use Rattle.cpi_rows.specs.Keyed.{IsInOrder};
ghost use Rattle.cpi_rows.specs.Held.{held_cmp, held_key};
ghost use Rattle.cpi_survey.specs.Quote.{quote_cmp, quote_key};
ghost use Rattle.cpi_store.specs.Loading.{rows_with_number};

use crate::given::Given;
use crate::held::{HeldGiven, HeldQuote};
use cpi_codes::CollectorId;
use cpi_survey::Quote;
use std::alloc::Global;

/// What the collector's slots were given, whose rows begin at this index; none if memory was refused.
pub fn given_from(
    alloc: Global,
    rows: &[HeldGiven],
    from: usize,
    collector: CollectorId,
) -> Option<Vec<Given>>
    requires place { from ≤ length rows.now }
    requires order { IsInOrder (held_cmp nat_cmp) (held_key (λ g. g.assignment.slot)) rows.now }
    ensures rows { IfSome result (λ own. rows_with_number collector own.items ≡ take (vec_len own)
        (drop from rows.now)) }
    ensures within { IfSome result (λ own. from + vec_len own ≤ length rows.now) }
    ensures order { IfSome result (λ own. IsInOrder nat_cmp (λ g. g.assignment.slot) own.items) }
{
    let mut own = Vec::new(alloc);
    let next = &rows[from..];
    'rows: for row in next {
        if row.collector != collector {
            return Some(own);
        }
        own.push(row.given).ok()?;
    }
    Some(own)
}

/// The collector's quotes, which begin at this index; none if memory was refused.
pub fn quotes_from(
    alloc: Global,
    rows: &[HeldQuote],
    from: usize,
    collector: CollectorId,
) -> Option<Vec<Quote>>
    requires place { from ≤ length rows.now }
    requires order { IsInOrder (held_cmp quote_cmp) (held_key quote_key) rows.now }
    ensures rows { IfSome result (λ own. rows_with_number collector own.items ≡ take (vec_len own)
        (drop from rows.now)) }
    ensures within { IfSome result (λ own. from + vec_len own ≤ length rows.now) }
    ensures order { IfSome result (λ own. IsInOrder quote_cmp quote_key own.items) }
{
    let mut own = Vec::new(alloc);
    let next = &rows[from..];
    'rows: for stored in next {
        if stored.collector != collector {
            return Some(own);
        }
        own.push(stored.quote).ok()?;
    }
    Some(own)
}
