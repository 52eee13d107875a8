//! A collector enters a quote: the entry is decided, and a new quote is stored.
ghost use Rattle.std.specs.Prelude.{◌≡◌, ◌<◌, IsSome};
ghost use Rattle.cpi_rows.specs.Keyed.{row_by_number};
ghost use Rattle.cpi_rows.specs.Held.{held_by};
ghost use Rattle.cpi_release.specs.State.{Reads};
ghost use Rattle.cpi_store.specs.Office.{public_part, own_part, office_with, Quotes};
ghost use Rattle.cpi_survey.specs.Decision.{entry_decision};
ghost use Rattle.cpi_survey.specs.Quote.{greatest_receipt};
ghost use Rattle.cpi_office.specs.Answers.{decision_reply};
ghost use Rattle.cpi_office.specs.Entries.{decision_verdict};
ghost use Rattle.cpi_office.specs.Verdicts.{with_verdict};
ghost use Rattle.cpi_office.specs.Receipts.{IsNewReceipt, office_with_quote};
ghost use Rattle.cpi_office.specs.Calls.{Answers};

use crate::callers::{Bearer, Present};
use crate::cause::Cause;
use crate::refusal::Refusal;
use crate::reply::Reply;
use crate::sight::Sight;
use cpi_store::StoreFault;
use cpi_survey::{Decision, Entry, Quote};

/// Answers an entry of a collector at the moment of the request.
pub fn enter<S: Sight>(
    sight: &mut S,
    present: Present,
    bearer: Bearer,
    entry: Entry,
) -> Result<Reply, Cause>
    requires known { (S.state sight.old).is_clean →
        IsSome (row_by_number (λ b. b.number) bearer.number (S.state sight.old).held.collectors) }
    ensures { let o = (S.state sight.old).held in
        let decision = entry_decision present entry (public_part o) (own_part bearer.number o) in
        Answers (S.state sight.old) (S.state sight.new) result
        (decision_reply decision) (with_verdict (decision_verdict bearer entry decision) o) }
{
    let decision = decide(sight, present, bearer, entry)?;
    carry_out(sight, bearer, &decision)
}

// Decides an entry of a collector by the public part and the collector's own.
fn decide<S: Sight>(
    sight: &mut S,
    present: Present,
    bearer: Bearer,
    entry: Entry,
) -> Result<Result<Decision, cpi_survey::Refusal>, StoreFault>
    ensures { Reads (S.state sight.old) (S.state sight.new) result (λ decision.
        let o = (S.state sight.old).held in
        decision ≡ entry_decision present entry (public_part o) (own_part bearer.number o)) }
{
    let parts = sight.own_parts(bearer)?;
    Ok(parts.own.submit(parts.public, present.moment(), entry))
}

// Answers a decision, and stores its new quote, if it has one.
fn carry_out<S: Sight>(
    sight: &mut S,
    bearer: Bearer,
    decision: &Result<Decision, cpi_survey::Refusal>,
) -> Result<Reply, Cause>
    requires known { (S.state sight.old).is_clean →
        IsSome (row_by_number (λ b. b.number) bearer.number (S.state sight.old).held.collectors) }
    requires new { (S.state sight.old).is_clean →
        IsNewReceipt decision.now (own_part bearer.number (S.state sight.old).held) }
    ensures { Answers (S.state sight.old) (S.state sight.new) result
        (decision_reply decision.now) (office_with_quote bearer decision.now (S.state sight.old).held) }
{
    match decision {
        Err(refusal) => Ok(Reply::Refused(Refusal::of_survey(refusal))),
        Ok(Decision::Again(receipt)) => Ok(Reply::Receipt(*receipt)),
        Ok(Decision::Put(quote)) => store_quote(sight, bearer, *quote),
    }
}

// Stores a new quote, and answers its receipt.
fn store_quote<S: Sight>(sight: &mut S, bearer: Bearer, quote: Quote) -> Result<Reply, Cause>
    requires known { (S.state sight.old).is_clean →
        IsSome (row_by_number (λ b. b.number) bearer.number (S.state sight.old).held.collectors) }
    requires slot { (S.state sight.old).is_clean →
        IsSome (row_by_number (λ a. a.assignment.slot) quote.slot
        (own_part bearer.number (S.state sight.old).held).assignments) }
    requires receipt { (S.state sight.old).is_clean →
        greatest_receipt (held_by bearer.number (S.state sight.old).held.quotes) < quote.receipt }
    ensures { Answers (S.state sight.old) (S.state sight.new) result
        (Reply.Receipt quote.receipt) (office_with (Quotes bearer quote) (S.state sight.old).held) }
{
    let receipt = quote.receipt();
    sight.put_own_quote(bearer, quote)?;
    Ok(Reply::Receipt(receipt))
}
