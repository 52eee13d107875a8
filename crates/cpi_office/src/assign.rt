//! The desk gives a collector's slot an assignment, as a series of its own.
ghost use Rattle.std.specs.Prelude.{◌≡◌, Some, None, IsSome, IfOk, is_none, option_map};
ghost use Rattle.std.specs.Option.{option_copied};
ghost use Rattle.cpi_rows.specs.Keyed.{row_by_number};
ghost use Rattle.cpi_rows.specs.Held.{held_by};
ghost use Rattle.cpi_release.specs.State.{Reads};
ghost use Rattle.cpi_store.specs.Outlet.{with_name};
ghost use Rattle.cpi_store.specs.Sound.{IsWellMade};
ghost use Rattle.cpi_office.specs.Standing.{standing};
ghost use Rattle.cpi_office.specs.Assigning.{assigned_in, slot_given, to_collector, outlet_judged};
ghost use Rattle.cpi_office.specs.Assigning.{may_be_assigned, assignment_sent};
ghost use Rattle.cpi_office.specs.Verdicts.{with_verdict, verdict_reply};
ghost use Rattle.cpi_office.specs.Named.{slot_standing, again_reply, is_first_series, same_assigned, IsNamed};
ghost use Rattle.cpi_office.specs.Calls.{Answers};

use crate::cause::Cause;
use crate::refusal::Refusal;
use crate::reply::Reply;
use crate::request::NewAssignment;
use crate::standing::Standing;
use cpi_codes::{CollectorId, GREATEST_SLOT, Slot};
use cpi_store::{Book, Outlet, StoreFault};
use cpi_survey::{Assigned, Assignment};
use std::alloc::{AllocError, Global};

/// Gives a slot of a collector an assignment, as a series of its own.
///
/// A first month after the last is [`Refusal::BadRequest`]. A slot that has the same assignment already is
/// [`Reply::Done`], unless it took its series over; any other assignment in the slot is [`Refusal::Taken`].
pub fn assign<B: Book>(
    alloc: Global,
    book: &mut B,
    collector: CollectorId,
    new_assignment: NewAssignment,
) -> Result<Reply, Cause>
    ensures { let o = (B.state book.old).held in let v = assigned_in collector new_assignment o in
        Answers (B.state book.old) (B.state book.new) result (verdict_reply v) (with_verdict v o) }
{
    if is_assignable(collector, &new_assignment) {
        assign_slot(alloc, book, collector, assignment_of(new_assignment))
    } else {
        Ok(Reply::Refused(Refusal::BadRequest))
    }
}

// Whether the first month isn't after the last. Number and slot are within their limits by their types.
fn is_assignable(collector: CollectorId, new_assignment: &NewAssignment) -> bool
    ensures { result ≡ may_be_assigned collector new_assignment.now }
{
    let number = collector.number();
    let slot = new_assignment.slot.number();
    new_assignment.first_month <= new_assignment.last_month
        && 1 <= number
        && 1 <= slot
        && u64::from(slot) <= GREATEST_SLOT
}

// The assignment of the request. No price is copied, since the series is new.
fn assignment_of(new_assignment: NewAssignment) -> Assignment
    ensures { result ≡ assignment_sent new_assignment }
{
    Assignment {
        slot: new_assignment.slot,
        outlet: new_assignment.outlet,
        item: new_assignment.item,
        first_month: new_assignment.first_month,
        last_month: new_assignment.last_month,
        copied: None,
    }
}

// Decides by the slot and the item: a free slot is given the assignment.
fn assign_slot<B: Book>(
    alloc: Global,
    book: &mut B,
    collector: CollectorId,
    assignment: Assignment,
) -> Result<Reply, Cause>
    requires made { IsWellMade (collector, assignment) }
    ensures { let o = (B.state book.old).held in let v = slot_given collector assignment o in
        Answers (B.state book.old) (B.state book.new) result (verdict_reply v) (with_verdict v o) }
{
    match find_slot(book, collector, &assignment)? {
        (Standing::Other, _) => Ok(Reply::Refused(Refusal::Taken)),
        (Standing::Same, _) => assign_again(book, collector, assignment.slot),
        (Standing::Free, true) => Ok(Reply::Refused(Refusal::UnknownItem)),
        (Standing::Free, false) => assign_new(alloc, book, collector, assignment),
    }
}

// Whether the slot is free or has the same or another assignment, and whether the item is unknown.
fn find_slot<B: Book>(
    book: &mut B,
    collector: CollectorId,
    assignment: &Assignment,
) -> Result<(Standing, bool), StoreFault>
    ensures { Reads (B.state book.old) (B.state book.new) result (λ found.
        (found.0 ≡ slot_standing collector assignment.now (B.state book.old).held)
        × (found.1 ≡ is_none (row_by_number (λ i. i.code) assignment.now.item (B.state book.old).held.items))) }
{
    let parts = book.parts(collector)?;
    let standing = standing_assignment(assignment, parts.own.assigned(assignment.slot));
    Ok((standing, parts.public.item(assignment.item).is_none()))
}

// Compares an assignment with the one of the slot.
fn standing_assignment(assignment: &Assignment, old: Option<&Assigned>) -> Standing
    ensures { result ≡ standing same_assigned assignment.now (option_copied old.entry) }
{
    match old {
        None => Standing::Free,
        Some(old) => {
            if old.assignment.is_same(assignment) {
                Standing::Same
            } else {
                Standing::Other
            }
        }
    }
}

// Answers an assignment that the slot has already: done, if the slot began its series and the collector is registered.
fn assign_again<B: Book>(book: &mut B, collector: CollectorId, slot: Slot) -> Result<Reply, Cause>
    ensures { let o = (B.state book.old).held in
        let first = is_first_series collector slot
        (row_by_number (λ g. g.assignment.slot) slot (held_by collector o.assignments)) in
        Answers (B.state book.old) (B.state book.new) result
        (again_reply first (row_by_number (λ b. b.number) collector o.collectors)) o }
{
    if !names_series(book, collector, slot)? {
        return Ok(Reply::Refused(Refusal::Taken));
    }
    match book.registration_at(collector)? {
        None => Ok(Reply::Refused(Refusal::Taken)),
        Some(_) => Ok(Reply::Done),
    }
}

// Whether the slot began the series that it prices, so that the series has its name.
fn names_series<B: Book>(
    book: &mut B,
    collector: CollectorId,
    slot: Slot,
) -> Result<bool, StoreFault>
    ensures { Reads (B.state book.old) (B.state book.new) result (λ found.
        found ≡ is_first_series collector slot
        (row_by_number (λ g. g.assignment.slot) slot (held_by collector (B.state book.old).held.assignments))) }
{
    match book.given(collector, slot)? {
        None => Ok(false),
        Some(given) => Ok(given.series.collector == collector && given.series.slot == slot),
    }
}

// Puts a new assignment, if its outlet is known and the collector is registered.
fn assign_new<B: Book>(
    alloc: Global,
    book: &mut B,
    collector: CollectorId,
    assignment: Assignment,
) -> Result<Reply, Cause>
    requires made { IsWellMade (collector, assignment) }
    requires free { (B.state book.old).is_clean →
        row_by_number (λ g. g.assignment.slot) assignment.slot
        (held_by collector (B.state book.old).held.assignments) ≡ None }
    requires item { (B.state book.old).is_clean →
        IsSome (row_by_number (λ i. i.code) assignment.item (B.state book.old).held.items) }
    ensures { let o = (B.state book.old).held in
        let outlet = row_by_number (λ u. u.number) assignment.outlet o.outlets in
        let registration = row_by_number (λ b. b.number) collector o.collectors in
        let v = outlet_judged (with_name o.outlets assignment) outlet registration in
        Answers (B.state book.old) (B.state book.new) result (verdict_reply v) (with_verdict v o) }
{
    match name_outlet(alloc, book, assignment)?? {
        Some(assigned) => assign_to(book, collector, assigned),
        None => Ok(Reply::Refused(Refusal::UnknownOutlet)),
    }
}

/// The assignment with its outlet's name, if the outlet is known.
///
/// # Errors
///
/// The store failed, or, inside, there is no memory for the name.
pub fn name_outlet<B: Book>(
    alloc: Global,
    book: &mut B,
    assignment: Assignment,
) -> Result<Result<Option<Assigned>, AllocError>, StoreFault>
    ensures { Reads (B.state book.old) (B.state book.new) result (λ found.
        IfOk found (λ named. IsNamed (B.state book.old).held.outlets assignment named)) }
{
    let outlet = book.outlet(assignment.outlet)?;
    Ok(with_name(alloc, assignment, outlet))
}

// The assignment with a copy of the name of its outlet, if there is one. Fails if there is no memory.
fn with_name(
    alloc: Global,
    assignment: Assignment,
    outlet: Option<&Outlet>,
) -> Result<Option<Assigned>, AllocError>
    ensures { IfOk result (λ named.
        named
        ≡ option_map (λ u. record { assignment = assignment; outlet_name = u.name }) (option_copied outlet.entry)) }
{
    match outlet {
        None => Ok(None),
        Some(outlet) => Ok(Some(Assigned {
            assignment,
            outlet_name: outlet.name.copy(alloc)?,
        })),
    }
}

// Puts a new assignment, if the collector is registered.
fn assign_to<B: Book>(
    book: &mut B,
    collector: CollectorId,
    assigned: Assigned,
) -> Result<Reply, Cause>
    requires made { (B.state book.old).is_clean → IsWellMade (collector, assigned.assignment) }
    requires free { (B.state book.old).is_clean →
        row_by_number (λ g. g.assignment.slot) assigned.assignment.slot
        (held_by collector (B.state book.old).held.assignments) ≡ None }
    requires item { (B.state book.old).is_clean →
        IsSome (row_by_number (λ i. i.code) assigned.assignment.item (B.state book.old).held.items) }
    requires outlet { (B.state book.old).is_clean →
        IsSome (row_by_number (λ u. u.number) assigned.assignment.outlet (B.state book.old).held.outlets) }
    requires name { (B.state book.old).is_clean →
        assigned ≡ with_name (B.state book.old).held.outlets assigned.assignment }
    ensures { let o = (B.state book.old).held in
        let v = to_collector assigned (row_by_number (λ b. b.number) collector o.collectors) in
        Answers (B.state book.old) (B.state book.new) result (verdict_reply v) (with_verdict v o) }
{
    match book.registration_at(collector)? {
        None => Ok(Reply::Refused(Refusal::UnknownCollector)),
        Some(registration) => {
            book.put_assignment(registration, assigned)?;
            Ok(Reply::Done)
        }
    }
}
