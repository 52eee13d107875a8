//! Quotes in the order of their series.
ghost use Rattle.std.specs.Prelude.{◌≡◌, true, IfOk};
ghost use Rattle.cpi_index.specs.Series.{are_by_series, frozen_serial};
ghost use Rattle.cpi_store.specs.Series.{by_series};

use cpi_index::FrozenQuote;
use std::alloc::AllocError;

/// Sorts quotes by series, if no series comes twice: O(n log n) for n quotes. The error says that memory was refused.
pub fn sort_by_series(quotes: &mut Vec<FrozenQuote>) -> Result<(), AllocError>
    ensures { IfOk result (λ _. are_by_series frozen_serial (by_series quotes.old.items) ≡ true →
        quotes.new.items ≡ by_series quotes.old.items) }
{
    quotes.sort_by_key(|quote| (quote.series.collector, quote.series.slot))?;
    Ok(())
}
