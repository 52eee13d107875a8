//! The desk hands a series over from one slot to another.
ghost use Rattle.std.specs.Prelude.{◌≡◌, ◌-◌, Some, None, Ok, IsSome, MatchOption, option_map, if◌then◌else◌};
ghost use Rattle.std.specs.Option.{option_copied};
ghost use Rattle.cpi_rows.specs.Keyed.{row_by_number};
ghost use Rattle.cpi_rows.specs.Held.{held_by};
ghost use Rattle.cpi_release.specs.State.{Reads};
ghost use Rattle.cpi_release.specs.FrozenMonths.{frozen_months};
ghost use Rattle.cpi_store.specs.Sound.{IsSound};
ghost use Rattle.cpi_store.specs.Outlet.{with_name};
ghost use Rattle.cpi_store.specs.Office.{office_with, HandsOver, given_until};
ghost use Rattle.cpi_office.specs.HandingOver.{handed_over, over_collectors, over_slots, over_free, over_judged};
ghost use Rattle.cpi_office.specs.HandingOver.{judged_over, is_takeable, is_handed_within, is_not_after, taken_on};
ghost use Rattle.cpi_office.specs.HandingOver.{stands_over, AreRegistered, AreThere, IsSlotFree};
ghost use Rattle.cpi_office.specs.Verdicts.{with_verdict, verdict_reply};
ghost use Rattle.cpi_office.specs.Calls.{Answers, AnswersWhere};

use crate::assign::name_outlet;
use crate::cause::Cause;
use crate::months::last;
use crate::refusal::Refusal;
use crate::reply::Reply;
use crate::request::HandOver;
use cpi_codes::{CollectorId, GREATEST_SLOT, Month};
use cpi_release::FrozenMonth;
use cpi_store::{Book, Given, Registration, SeriesMove, StoreFault};
use cpi_survey::{Assignment, Own};
use std::alloc::Global;

/// Hands a series over from a slot of one collector to a free slot of another, who may be the same. The new slot gets
/// the former one's last price. A hand-over that was done before is [`Reply::Done`].
pub fn hand_over<B: Book>(alloc: Global, book: &mut B, what: HandOver) -> Result<Reply, Cause>
    ensures { let o = (B.state book.old).held in let v = handed_over what o in
        AnswersWhere (B.state book.old) (B.state book.new) (IsSound o) result (verdict_reply v) (with_verdict v o) }
{
    if can_take(&what) {
        hand_over_between(alloc, book, what)
    } else {
        Ok(Reply::Refused(Refusal::BadRequest))
    }
}

// Whether the new collector's number and slot are within their limits, as they are by their types.
fn can_take(what: &HandOver) -> bool
    ensures { result ≡ is_takeable what.now }
{
    let number = what.to.number();
    let slot = what.new_slot.number();
    1 <= number && 1 <= slot && u64::from(slot) <= GREATEST_SLOT
}

// Hands a series over, if both collectors are registered.
fn hand_over_between<B: Book>(alloc: Global, book: &mut B, what: HandOver) -> Result<Reply, Cause>
    ensures { let o = (B.state book.old).held in
        let v = over_collectors what o (row_by_number (λ b. b.number) what.from o.collectors)
        (row_by_number (λ b. b.number) what.to o.collectors) in
        AnswersWhere (B.state book.old) (B.state book.new) (IsSound o) result (verdict_reply v) (with_verdict v o) }
{
    let (former, taker) = find_both(book, what.from, what.to)?;
    let Some(former) = former else {
        return Ok(Reply::Refused(Refusal::UnknownCollector));
    };
    let Some(taker) = taker else {
        return Ok(Reply::Refused(Refusal::UnknownCollector));
    };
    hand_over_slot(alloc, book, what, former, taker)
}

// The registrations of both collectors.
fn find_both<B: Book>(
    book: &mut B,
    from: CollectorId,
    to: CollectorId,
) -> Result<(Option<Registration>, Option<Registration>), StoreFault>
    ensures { Reads (B.state book.old) (B.state book.new) result (λ found.
        (found.0 ≡ row_by_number (λ b. b.number) from (B.state book.old).held.collectors)
        × (found.1 ≡ row_by_number (λ b. b.number) to (B.state book.old).held.collectors)) }
{
    let former = book.registration_at(from)?;
    let taker = book.registration_at(to)?;
    Ok((former, taker))
}

// Hands a series over between registered collectors, if the former one has the slot and the new slot is free.
fn hand_over_slot<B: Book>(
    alloc: Global,
    book: &mut B,
    what: HandOver,
    former: Registration,
    taker: Registration,
) -> Result<Reply, Cause>
    requires registered { (B.state book.old).is_clean → AreRegistered former taker (B.state book.old).held }
    ensures { let o = (B.state book.old).held in
        let v = over_slots what o former taker
        (row_by_number (λ g. g.assignment.slot) what.slot (held_by former.number o.assignments))
        (row_by_number (λ g. g.assignment.slot) what.new_slot (held_by taker.number o.assignments)) in
        AnswersWhere (B.state book.old) (B.state book.new) (IsSound o) result (verdict_reply v) (with_verdict v o) }
{
    match find_slots(book, &what, former.number, taker.number)? {
        None => Ok(Reply::Refused(Refusal::UnknownSlot)),
        Some((given, new)) => match new {
            None => hand_over_free(alloc, book, what, former, taker, given),
            Some(new) => Ok(answer_standing(what, &given, &new)),
        },
    }
}

// What the former slot was given, and what the new one was; nothing if the former slot was given nothing. The new slot
// is read only after the former one is found.
fn find_slots<B: Book>(
    book: &mut B,
    what: &HandOver,
    former: CollectorId,
    taker: CollectorId,
) -> Result<Option<(Given, Option<Given>)>, StoreFault>
    ensures { let rows = (B.state book.old).held.assignments in
        let former_row = row_by_number (λ g. g.assignment.slot) what.now.slot (held_by former rows) in
        Reads (B.state book.old) (B.state book.new) result (λ found.
        MatchOption found (former_row ≡ None) (λ slots. (former_row ≡ Some slots.0)
        × (slots.1 ≡ row_by_number (λ g. g.assignment.slot) what.now.new_slot (held_by taker rows)))) }
{
    let Some(given) = book.given(former, what.slot)? else {
        return Ok(None);
    };
    let new = book.given(taker, what.new_slot)?;
    Ok(Some((given, new)))
}

// Answers a hand-over whose new slot isn't free: done, if that slot took over this series in this month.
fn answer_standing(what: HandOver, given: &Given, new: &Given) -> Reply
    ensures { result ≡ (if stands_over what given.now new.now then Reply.Done else Reply.Refused Refusal.Taken) }
{
    if took_over(what, given, new) {
        Reply::Done
    } else {
        Reply::Refused(Refusal::Taken)
    }
}

// Whether the new slot took this series over in this month, and the former one ended with the month before.
fn took_over(what: HandOver, given: &Given, new: &Given) -> bool
    ensures { result ≡ stands_over what given.now new.now }
{
    new.series.collector == given.series.collector
        && new.series.slot == given.series.slot
        && new.assignment.first_month == what.month
        && given.assignment.last_month.next() == Some(what.month)
}

// Hands a series over to a slot that is free.
fn hand_over_free<B: Book>(
    alloc: Global,
    book: &mut B,
    what: HandOver,
    former: Registration,
    taker: Registration,
    given: Given,
) -> Result<Reply, Cause>
    requires there { (B.state book.old).is_clean → AreThere what former taker given (B.state book.old).held }
    requires free { (B.state book.old).is_clean → IsSlotFree what taker (B.state book.old).held }
    ensures { let o = (B.state book.old).held in let v = over_free what o former taker given in
        AnswersWhere (B.state book.old) (B.state book.new) (IsSound o) result (verdict_reply v) (with_verdict v o) }
{
    match judge(book, &what, former.number, &given)? {
        Err(refusal) => Ok(Reply::Refused(refusal)),
        Ok(assignment) => put_over(alloc, book, &what, former, taker, given, assignment),
    }
}

// The new assignment, or the refusal: by the assignment's months, by the frozen months, and by the slot's quotes.
fn judge<B: Book>(
    book: &mut B,
    what: &HandOver,
    from: CollectorId,
    former: &Given,
) -> Result<Result<Assignment, Refusal>, StoreFault>
    ensures { Reads (B.state book.old) (B.state book.new) result (λ judged.
        let o = (B.state book.old).held in
        judged ≡ judged_over what.now former.now.assignment (frozen_months o.releases) (held_by from o.quotes)) }
{
    let frozen = book.frozen_months()?;
    let own = book.own(from)?;
    Ok(judge_by(what, former, &frozen, own))
}

// The same, from the frozen months and the former collector's own part.
fn judge_by(
    what: &HandOver,
    former: &Given,
    frozen: &[FrozenMonth],
    own: &Own,
) -> Result<Assignment, Refusal>
    ensures { result ≡ judged_over what.now former.now.assignment frozen.now own.now.quotes }
{
    if !is_within(what, former) {
        Err(Refusal::NotActive)
    } else if comes_late(what.month, last(frozen)) {
        Err(Refusal::MonthFrozen)
    } else if own.has_quotes_since(what.slot, what.month) {
        Err(Refusal::QuotesStand)
    } else {
        Ok(take_on(what, former, own))
    }
}

// Whether the month is after the former slot's first month, and not after its last.
fn is_within(what: &HandOver, former: &Given) -> bool
    ensures { result ≡ is_handed_within what.now former.now.assignment }
{
    former.assignment.first_month < what.month && what.month <= former.assignment.last_month
}

// Whether the month comes too late: it isn't after the last frozen one.
fn comes_late(month: Month, last: Option<&FrozenMonth>) -> bool
    ensures { result ≡ is_not_after month (option_copied last.entry) }
{
    match last {
        None => false,
        Some(last) => month <= last.month,
    }
}

// The new assignment: the former one from this month on, with the former one's last price.
fn take_on(what: &HandOver, former: &Given, own: &Own) -> Assignment
    ensures { result ≡ taken_on what.now former.now.assignment own.now.quotes }
{
    let former = &former.assignment;
    Assignment {
        slot: what.new_slot,
        outlet: former.outlet,
        item: former.item,
        first_month: what.month,
        last_month: former.last_month,
        copied: own.last_price(former, what.month),
    }
}

// Ends the former assignment with the month before, names the new one's outlet, and stores both. A sound office has the
// outlet of each assignment, so no outlet is unknown.
fn put_over<B: Book>(
    alloc: Global,
    book: &mut B,
    what: &HandOver,
    former: Registration,
    taker: Registration,
    given: Given,
    assignment: Assignment,
) -> Result<Reply, Cause>
    requires there { (B.state book.old).is_clean → AreThere what.now former taker given (B.state book.old).held }
    requires free { (B.state book.old).is_clean → IsSlotFree what.now taker (B.state book.old).held }
    requires judged { (B.state book.old).is_clean → let o = (B.state book.old).held in
        judged_over what.now given.assignment (frozen_months o.releases) (held_by former.number o.quotes)
        ≡ Ok assignment }
    ensures { let o = (B.state book.old).held in let v = over_judged what.now o former taker given (Ok assignment) in
        AnswersWhere (B.state book.old) (B.state book.new) (IsSound o) result (verdict_reply v) (with_verdict v o) }
{
    let last_month = month_before(what.month);
    match name_outlet(alloc, book, assignment)?? {
        Some(assigned) => {
            let ended = end_given(given, last_month);
            let handover = SeriesMove {
                former,
                ended,
                taker,
                assigned,
            };
            store_both(book, handover)
        }
        None => Ok(Reply::Refused(Refusal::UnknownOutlet)),
    }
}

// The month before; the first month for itself.
fn month_before(month: Month) -> Month
    ensures { result ≡ month - 1 }
{
    match month.prev() {
        Some(before) => before,
        None => month,
    }
}

// Stores both assignments as one change.
fn store_both<B: Book>(book: &mut B, handover: SeriesMove) -> Result<Reply, Cause>
    requires former { (B.state book.old).is_clean →
        row_by_number (λ b. b.number) handover.former.number (B.state book.old).held.collectors ≡ Some handover.former }
    requires taker { (B.state book.old).is_clean →
        row_by_number (λ b. b.number) handover.taker.number (B.state book.old).held.collectors ≡ Some handover.taker }
    requires stands { (B.state book.old).is_clean →
        option_map (given_until handover.ended.assignment.last_month)
        (row_by_number (λ g. g.assignment.slot) handover.ended.assignment.slot
        (held_by handover.former.number (B.state book.old).held.assignments)) ≡ Some handover.ended }
    requires new { (B.state book.old).is_clean →
        row_by_number (λ g. g.assignment.slot) handover.assigned.assignment.slot
        (held_by handover.taker.number (B.state book.old).held.assignments) ≡ None }
    requires outlet { (B.state book.old).is_clean →
        IsSome (row_by_number (λ u. u.number) handover.assigned.assignment.outlet (B.state book.old).held.outlets) }
    requires name { (B.state book.old).is_clean →
        handover.assigned ≡ with_name (B.state book.old).held.outlets handover.assigned.assignment }
    ensures { Answers (B.state book.old) (B.state book.new) result
        Reply.Done (office_with (HandsOver handover) (B.state book.old).held) }
{
    book.put_handover(handover)?;
    Ok(Reply::Done)
}

// The former slot's assignment and series, with this last month.
fn end_given(given: Given, last_month: Month) -> Given
    ensures { result ≡ given_until last_month given }
{
    let mut ended = given;
    ended.assignment.last_month = last_month;
    ended
}
