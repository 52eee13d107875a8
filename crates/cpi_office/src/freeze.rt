//! The desk freezes a month: the freeze is judged, and the month's release is computed and stored.
ghost use Rattle.std.specs.Prelude.{◌≡◌, ◌≢◌, ◌≤◌, ◌<◌, true, Ok, Err, IfOk, IfErr, IfSome, MatchResult};
ghost use Rattle.std.specs.Prelude.{option_map};
ghost use Rattle.std.specs.Option.{option_copied};
ghost use Rattle.cpi_codes.specs.Month.{year_of};
ghost use Rattle.cpi_rows.specs.Keyed.{row_by_number};
ghost use Rattle.cpi_release.specs.FrozenMonths.{frozen_months, revision_to_give};
ghost use Rattle.cpi_release.specs.FrozenMonths.{is_next_month, is_past_first_month};
ghost use Rattle.cpi_release.specs.FrozenMonths.{plan_for};
ghost use Rattle.cpi_release.specs.declared.freeze_fault.FreezeFault.TheVariants.{Group};
ghost use Rattle.cpi_release.specs.State.{Reads, Keeps, StaysClean};
ghost use Rattle.cpi_office.specs.Freezing.{verdict_of_freeze, freeze_judged, freeze_judged_in, plan_judged};
ghost use Rattle.cpi_office.specs.Freezing.{carry_judged};
ghost use Rattle.cpi_office.specs.Freezing.{may_be_weighed, has_unweighed};
ghost use Rattle.cpi_office.specs.Freezing.{judged_release, release_verdict, IsMade, fault_refusal};
ghost use Rattle.cpi_store.specs.Sound.{IsSound};
ghost use Rattle.cpi_office.specs.declared.refusal.Refusal.TheVariants.{Unavailable};
ghost use Rattle.cpi_office.specs.Verdicts.{with_verdict, verdict_reply};
ghost use Rattle.cpi_office.specs.Calls.{AnswersWhere, reply_of};

use crate::cause::Cause;
use crate::months::{last, stays_frozen};
use crate::refusal::Refusal;
use crate::reply::Reply;
use cpi_codes::{Code, Moment, Month, Year};
use cpi_index::IndexFault;
use cpi_plan::{CalendarRow, PlanFault, YearPlan};
use cpi_release::{FreezeFault, FrozenMonth, Release, Revision};
use cpi_rows::{Rows, find_row};
use cpi_store::{Book, StoreFault};
use cpi_survey::Public;
use std::alloc::{AllocError, Global};

/// Freezes a month: computes its release, with the aggregates whose prices may be carried, and stores it.
///
/// The refusals come in this order: [`Refusal::MonthFrozen`], [`Refusal::FreezeOrder`], [`Refusal::UnknownMonth`],
/// [`Refusal::FreezeTooEarly`], [`Refusal::NoPlan`], [`Refusal::PlanFault`] of a carried code without weight, and
/// [`Refusal::Index`].
pub fn freeze<B: Book>(
    alloc: Global,
    book: &mut B,
    now: Moment,
    month: Month,
    carry: Rows<Code>,
) -> Result<Reply, Cause>
    ensures { let o = (B.state book.old).held in let v = verdict_of_freeze now month carry o in
        AnswersWhere (B.state book.old) (B.state book.new) (IsSound o) result
        (verdict_reply v) (with_verdict v o) }
{
    match judge(alloc, book, now, month, carry.as_slice())? {
        Err(refusal) => Ok(Reply::Refused(refusal)),
        Ok(accepted) => release(alloc, book, now, accepted, carry),
    }
}

// A month that may be frozen: its calendar row, and the basis of its release; none if there is no memory for it.
#[derive(Drop)]
struct Accepted {
    row: CalendarRow,
    basis: Option<Basis>,
}

// The basis of a month's release: a copy of the plan of its year, none for the first release, and the revision that
// follows. The plan is copied, since a book lends its public part only until its next call.
#[derive(Drop)]
struct Basis {
    plan: Option<YearPlan>,
    revision: Revision,
}

// The month, if it may be frozen, or the refusal.
fn judge<B: Book>(
    alloc: Global,
    book: &mut B,
    now: Moment,
    month: Month,
    carry: &[Code],
) -> Result<Result<Accepted, Refusal>, StoreFault>
    ensures { let o = (B.state book.old).held in let frozen = frozen_months o.releases in
        Reads (B.state book.old) (B.state book.new) result (λ judged.
        MatchResult judged (λ accepted. (freeze_judged_in now month carry.now o ≡ Ok accepted.row)
        × IfSome accepted.basis (λ basis. (basis.plan ≡ plan_for o.plans frozen accepted.row.month)
        × (revision_to_give accepted.row.month frozen ≤ 9 →
        basis.revision ≡ revision_to_give accepted.row.month frozen)))
        (λ refusal. freeze_judged_in now month carry.now o ≡ Err refusal)) }
{
    let frozen = book.frozen_months()?;
    let public = book.public_part()?;
    match judge_month(now, month, carry, &frozen, public) {
        Err(refusal) => Ok(Err(refusal)),
        Ok(row) => Ok(Ok(Accepted {
            row,
            basis: basis_in(alloc, &frozen, public, row.month()),
        })),
    }
}

// The calendar row of a month that may be frozen, or the refusal, from the frozen months and the public part.
fn judge_month(
    now: Moment,
    month: Month,
    carry: &[Code],
    frozen: &[FrozenMonth],
    public: &Public,
) -> Result<CalendarRow, Refusal>
    ensures { let row = row_by_number (λ r. r.month) month public.now.calendar in
        result ≡ freeze_judged now month carry.now frozen.now row public.now.plans }
{
    let row = public.calendar_row(month);
    if stays_frozen(frozen, month, publishes_of(row)) {
        return Err(Refusal::MonthFrozen);
    }
    if !is_next(frozen, month) {
        return Err(Refusal::FreezeOrder);
    }
    match row {
        None => Err(Refusal::UnknownMonth),
        Some(row) => {
            if now < row.closes() {
                Err(Refusal::FreezeTooEarly)
            } else {
                judge_plan(carry, frozen, public, *row)
            }
        }
    }
}

// The publishing moment of a month's table, in seconds since 1970 UTC, if the month has a row.
fn publishes_of(row: Option<&CalendarRow>) -> Option<Moment>
    ensures { result ≡ option_map (λ r. r.publishes) (option_copied row.entry) }
{
    match row {
        Some(row) => Some(row.publishes()),
        None => None,
    }
}

// Accepts the row if there is a plan of the month's year and each carried code has weight in it. The first release has
// no plan.
fn judge_plan(
    carry: &[Code],
    frozen: &[FrozenMonth],
    public: &Public,
    row: CalendarRow,
) -> Result<CalendarRow, Refusal>
    ensures { result ≡ plan_judged public.now.plans frozen.now carry.now row }
{
    if !is_after_first(frozen, row.month()) {
        return judge_carry(carry, None, row);
    }
    match year_plan(public, row.month()) {
        None => Err(Refusal::NoPlan),
        Some(plan) => judge_carry(carry, Some(plan), row),
    }
}

// Accepts the row if each carried code has weight in the plan.
fn judge_carry(
    carry: &[Code],
    plan: Option<&YearPlan>,
    row: CalendarRow,
) -> Result<CalendarRow, Refusal>
    ensures { result ≡ carry_judged carry.now (option_copied plan.entry) row }
{
    if has_weightless(carry, plan) {
        Err(Refusal::PlanFault(PlanFault::UnknownAggregate))
    } else {
        Ok(row)
    }
}

// Whether a carried code has no weight in the plan.
fn has_weightless(carry: &[Code], plan: Option<&YearPlan>) -> bool
    ensures { result ≡ has_unweighed (option_copied plan.entry) carry.now }
{
    carry.iter().any(|code| !has_weight(plan, code))
}

// Whether the code has weight in the plan.
fn has_weight(plan: Option<&YearPlan>, code: &Code) -> bool
    ensures { result ≡ may_be_weighed (option_copied plan.entry) code.now }
{
    match plan {
        None => false,
        Some(plan) => find_row(plan.weights(), code).is_some(),
    }
}

// The plan of the month's year.
fn year_plan(public: &Public, month: Month) -> Option<&YearPlan>
    ensures { option_copied result ≡ row_by_number (λ y. y.year) (year_of month) public.now.plans }
{
    match Year::new(month.year()) {
        Some(year) => public.plan(year),
        None => unreachable!(),
    }
}

// Whether a month before this one is frozen.
fn is_after_first(frozen: &[FrozenMonth], month: Month) -> bool
    ensures { result ≡ is_past_first_month month frozen.now }
{
    frozen.iter().any(|frozen_month| frozen_month.month < month)
}

// Whether the month is the last frozen one or the one after it, or, if none is frozen, a December: the first link
// month (CPI Manual, chapter 9).
fn is_next(frozen: &[FrozenMonth], month: Month) -> bool
    ensures { result ≡ is_next_month month frozen.now }
{
    match last(frozen) {
        None => month.index() % 12 == 11,
        Some(last) => last.month == month || month.index() == last.month.index() + 1,
    }
}

// The revision in which such a month is frozen, if it has fewer than nine.
fn next_revision(frozen: &[FrozenMonth], month: Month) -> Revision
    ensures { revision_to_give month frozen.now ≤ 9 → result ≡ revision_to_give month frozen.now }
{
    match last(frozen) {
        Some(last) if last.month == month => last.revision.next().unwrap_or(Revision::first()),
        _ => Revision::first(),
    }
}

// Computes the release of a month that may be frozen, and stores it.
fn release<B: Book>(
    alloc: Global,
    book: &mut B,
    now: Moment,
    accepted: Accepted,
    carry: Rows<Code>,
) -> Result<Reply, Cause>
    requires next { (B.state book.old).is_clean →
        is_next_month accepted.row.month (frozen_months (B.state book.old).held.releases) ≡ true }
    requires basis { let o = (B.state book.old).held in let frozen = frozen_months o.releases in
        (B.state book.old).is_clean → IfSome accepted.basis (λ basis.
        (basis.plan ≡ plan_for o.plans frozen accepted.row.month)
        × (basis.revision ≡ revision_to_give accepted.row.month frozen)) }
    ensures { let o = (B.state book.old).held in let v = release_verdict (judged_release now carry o accepted.row) in
        AnswersWhere (B.state book.old) (B.state book.new) (IsSound o) result
        (verdict_reply v) (with_verdict v o) }
{
    match make(alloc, book, now, accepted, carry) {
        Err(fault) => answer_fault(fault),
        Ok(release) => {
            book.put_release(release)?;
            Ok(Reply::Done)
        }
    }
}

// The answer for a release that can't be computed: its refusal, or the cause, if memory was refused or the store failed.
fn answer_fault(fault: FreezeFault) -> Result<Reply, Cause>
    ensures reply { reply_of result ≡ Reply.Refused (fault_refusal fault) }
    ensures answered { IfOk result (λ reply. fault_refusal fault ≢ Unavailable) }
    ensures cause { IfErr result (λ cause. cause.is_store ≡ true → fault ≡ Group) }
{
    match fault {
        FreezeFault::Group => Err(Cause::from(StoreFault)),
        FreezeFault::Index(IndexFault::NoMemory) => Err(Cause::from(AllocError)),
        FreezeFault::Index(fault) => Ok(Reply::Refused(Refusal::Index(fault))),
    }
}

// Computes the release of the row's month, or its first fault, from a book that is read one aggregate at a time. From a
// sound office the release is the one that the definitions give.
fn make<B: Book>(
    alloc: Global,
    book: &mut B,
    now: Moment,
    accepted: Accepted,
    carry: Rows<Code>,
) -> Result<Release, FreezeFault>
    requires next { (B.state book.old).is_clean →
        is_next_month accepted.row.month (frozen_months (B.state book.old).held.releases) ≡ true }
    requires basis { let o = (B.state book.old).held in let frozen = frozen_months o.releases in
        (B.state book.old).is_clean → IfSome accepted.basis (λ basis.
        (basis.plan ≡ plan_for o.plans frozen accepted.row.month)
        × (basis.revision ≡ revision_to_give accepted.row.month frozen)) }
    ensures keeps { Keeps (B.state book.old) (B.state book.new) }
    ensures stays { result ≢ Err Group → StaysClean (B.state book.old) (B.state book.new) }
    ensures count { (B.state book.old).failures ≤ (B.state book.new).failures }
    ensures group { IfErr result (λ f. f ≡ Group → (B.state book.old).failures < (B.state book.new).failures) }
    ensures made { let o = (B.state book.old).held in (B.state book.new).is_clean → IsSound o →
        IsMade (judged_release now carry o accepted.row) result }
    ensures month { IfOk result (λ release. release.month ≡ accepted.row.month) }
    ensures revision { (B.state book.new).is_clean → IfOk result (λ release.
        release.revision ≡ revision_to_give accepted.row.month (frozen_months (B.state book.old).held.releases)) }
{
    let Accepted { row, basis } = accepted;
    let Some(basis) = basis else {
        return Err(FreezeFault::Index(IndexFault::NoMemory));
    };
    let month = row.month();
    let publishes = row.publishes();
    let Ok(rows) = book.month_rows(month) else {
        return Err(FreezeFault::Group);
    };
    let carry = carry.into_vec();
    Release::compute_by_group(
        alloc,
        book,
        basis.plan.as_ref(),
        month,
        basis.revision,
        now,
        publishes,
        rows,
        carry,
    )
}

// The basis of a month's release, from the frozen months and the public part; none if there is no memory for the copy.
fn basis_in(alloc: Global, frozen: &[FrozenMonth], public: &Public, month: Month) -> Option<Basis>
    ensures { IfSome result (λ basis. (basis.plan ≡ plan_for public.now.plans frozen.now month)
        × (revision_to_give month frozen.now ≤ 9 →
        basis.revision ≡ revision_to_give month frozen.now)) }
{
    let Ok(plan) = copy_plan(alloc, frozen, public, month) else {
        return None;
    };
    Some(Basis {
        plan,
        revision: next_revision(frozen, month),
    })
}

// A copy of the plan of the month's year; none for the first release.
fn copy_plan(
    alloc: Global,
    frozen: &[FrozenMonth],
    public: &Public,
    month: Month,
) -> Result<Option<YearPlan>, AllocError>
    ensures { IfOk result (λ plan. plan ≡ plan_for public.now.plans frozen.now month) }
{
    if !is_after_first(frozen, month) {
        return Ok(None);
    }
    match year_plan(public, month) {
        None => Ok(None),
        Some(plan) => Ok(Some(plan.copy(alloc)?)),
    }
}
