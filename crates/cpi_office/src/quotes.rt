//! A collector lists the own quotes.
ghost use Rattle.std.specs.Prelude.{◌≡◌, IfOk};
ghost use Rattle.cpi_rows.specs.Held.{held_by};
ghost use Rattle.cpi_release.specs.State.{Reads};
ghost use Rattle.cpi_store.specs.Office.{Quotes};
ghost use Rattle.cpi_survey.specs.Within.{quotes_within};
ghost use Rattle.cpi_office.specs.Calls.{Answers};

use crate::callers::Bearer;
use crate::cause::Cause;
use crate::reply::Reply;
use crate::sight::Sight;
use cpi_codes::Month;
use cpi_rows::Rows;
use cpi_store::StoreFault;
use cpi_survey::Quote;
use std::alloc::{AllocError, Global};

/// Lists the collector's quotes of the months from the first to the last, by month, and then by slot.
pub fn quotes<S: Sight>(
    alloc: Global,
    sight: &mut S,
    bearer: Bearer,
    first: Month,
    last: Month,
) -> Result<Reply, Cause>
    ensures { Answers (S.state sight.old) (S.state sight.new) result
        (Reply.Quotes (quotes_within first last (held_by bearer.number (S.state sight.old).held.quotes)))
        (S.state sight.old).held }
{
    let quotes = read_quotes(alloc, sight, bearer, first, last)??;
    Ok(Reply::Quotes(Rows::of(quotes)))
}

// A copy of these quotes. Fails, inside, if there is no memory.
fn read_quotes<S: Sight>(
    alloc: Global,
    sight: &mut S,
    bearer: Bearer,
    first: Month,
    last: Month,
) -> Result<Result<Vec<Quote>, AllocError>, StoreFault>
    ensures { Reads (S.state sight.old) (S.state sight.new) result (λ found.
        IfOk found (λ quotes.
        quotes.items ≡ quotes_within first last (held_by bearer.number (S.state sight.old).held.quotes))) }
{
    let parts = sight.own_parts(bearer)?;
    Ok(parts.own.quotes(alloc, first, last))
}
