//! The desk puts the plan of a year: titles, weights, places of items and references.
ghost use Rattle.std.specs.Prelude.{◌≡◌, IfOk, false};
ghost use Rattle.std.specs.Option.{option_copied};
ghost use Rattle.cpi_release.specs.State.{Reads};
ghost use Rattle.cpi_store.specs.Office.{PutsPlan};
ghost use Rattle.cpi_plan.specs.Plan.{has_unknown_item};
ghost use Rattle.cpi_plan.specs.Planned.{plan_or_fault};
ghost use Rattle.cpi_plan.specs.SamePlan.{same_plan};
ghost use Rattle.cpi_office.specs.Standing.{standing};
ghost use Rattle.cpi_office.specs.Replacing.{sent_body, body_judged, planned_in, unless_frozen};
ghost use Rattle.cpi_release.specs.FrozenMonths.{frozen_months, has_year_frozen};
ghost use Rattle.cpi_office.specs.Verdicts.{with_verdict, verdict_reply};
ghost use Rattle.cpi_office.specs.Calls.{Answers};

use crate::cause::Cause;
use crate::months::is_year_frozen;
use crate::refusal::Refusal;
use crate::reply::Reply;
use crate::standing::Standing;
use cpi_codes::Year;
use cpi_plan::{Item, PlanBody, PlanFault, YearPlan};
use cpi_rows::RowsByKey;
use cpi_store::{Book, StoreFault};
use std::alloc::{AllocError, Global};

/// Puts the plan of a year, in place of the year's plan if there is one. A plan of a year with a frozen month is
/// [`Refusal::PlanFrozen`].
pub fn put_plan<B: Book>(
    alloc: Global,
    book: &mut B,
    year: Year,
    body: PlanBody,
) -> Result<Reply, Cause>
    ensures { let o = (B.state book.old).held in let v = planned_in year body o in
        Answers (B.state book.old) (B.state book.new) result (verdict_reply v) (with_verdict v o) }
{
    match find_plan(alloc, book, year, body)?? {
        Err(fault) => Ok(Reply::Refused(Refusal::PlanFault(fault))),
        Ok((_, Standing::Same)) => Ok(Reply::Done),
        Ok((plan, _)) => store_plan(book, plan),
    }
}

// Builds the plan, or its first fault, and compares it with the year's plan. Fails, inside, if there is no memory.
fn find_plan<B: Book>(
    alloc: Global,
    book: &mut B,
    year: Year,
    body: PlanBody,
) -> Result<Result<Result<(YearPlan, Standing), PlanFault>, AllocError>, StoreFault>
    ensures { Reads (B.state book.old) (B.state book.new) result (λ found.
        IfOk found (λ judged. judged ≡ body_judged year body (B.state book.old).held)) }
{
    let public = book.public_part()?;
    match build(alloc, year, public.items(), body) {
        Err(AllocError) => Ok(Err(AllocError)),
        Ok(Err(fault)) => Ok(Ok(Err(fault))),
        Ok(Ok(plan)) => {
            let standing = standing_plan(&plan, public.plan(year));
            Ok(Ok(Ok((plan, standing))))
        }
    }
}

// Builds the plan, or its first fault. Fails if there is no memory.
fn build(
    alloc: Global,
    year: Year,
    known: &RowsByKey<Item>,
    body: PlanBody,
) -> Result<Result<YearPlan, PlanFault>, AllocError>
    ensures { IfOk result (λ built. built ≡ plan_or_fault year (sent_body known.now body)) }
{
    let titles = body.titles.into_vec();
    let weights = body.weights.into_vec();
    let places = body.places.into_vec();
    let references = body.references.into_vec();
    match YearPlan::build(
        alloc,
        year.number(),
        known,
        titles,
        weights,
        places,
        references,
    ) {
        Ok(plan) => Ok(Ok(plan)),
        Err(PlanFault::NoMemory) => Err(AllocError),
        Err(fault) => Ok(Err(fault)),
    }
}

// Compares a plan with the one of its year.
fn standing_plan(plan: &YearPlan, old: Option<&YearPlan>) -> Standing
    ensures { result ≡ standing same_plan plan.now (option_copied old.entry) }
{
    match old {
        None => Standing::Free,
        Some(old) => {
            if old.is_same(plan) {
                Standing::Same
            } else {
                Standing::Other
            }
        }
    }
}

// Stores a plan, unless a month of its year is frozen.
fn store_plan<B: Book>(book: &mut B, plan: YearPlan) -> Result<Reply, Cause>
    requires known { (B.state book.old).is_clean → has_unknown_item (B.state book.old).held.items plan.places ≡ false }
    ensures { let o = (B.state book.old).held in
        let frozen = has_year_frozen plan.year (frozen_months o.releases) in
        let v = unless_frozen frozen Refusal.PlanFrozen (PutsPlan plan) in
        Answers (B.state book.old) (B.state book.new) result (verdict_reply v) (with_verdict v o) }
{
    if is_year_frozen(book, plan.year())? {
        Ok(Reply::Refused(Refusal::PlanFrozen))
    } else {
        book.put_plan(plan)?;
        Ok(Reply::Done)
    }
}
