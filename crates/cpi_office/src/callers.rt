//! Authentication and authorization: whose request it is, and what the function that answers it may look at.
ghost use Rattle.std.specs.Prelude.{◌≡◌, ◌<◌, IfErr, IsTrue, Some, None, IsSome, true};
ghost use Rattle.cpi_rows.specs.Keyed.{row_by_number};
ghost use Rattle.cpi_store.specs.Office.{Quotes};
ghost use Rattle.cpi_store.specs.Registration.{registration_of};
ghost use Rattle.cpi_office.specs.Authentication.{collector_reply, collector_after};
ghost use Rattle.cpi_office.specs.Runs.{reply_to, after_one};
ghost use Rattle.cpi_office.specs.declared.caller.Caller.{Caller};
ghost use Rattle.cpi_office.specs.Calls.{Answers, AnswersWhere, reply_of};
ghost use Rattle.cpi_store.specs.Sound.{IsSound};
ghost use Rattle.cpi_office.specs.Authorization.{TurnsAway, is_turned_away};

use crate::answers::{answer_collector, answer_public};
use crate::assign::assign;
use crate::calendar::put_calendar;
use crate::cause::Cause;
use crate::collectors::register;
use crate::freeze::freeze;
use crate::handover::hand_over;
use crate::items::{items, put_item};
use crate::outlets::put_outlet;
use crate::plans::put_plan;
use crate::refusal::Refusal;
use crate::reply::Reply;
use crate::request::Request;
use crate::tables::{table, tables};
use cpi_codes::{CollectorId, Key, Moment};
use cpi_store::{Book, Registration};
use std::alloc::Global;
use std::marker::Model;

/// The moment of a request, by which its caller sees the published tables. Only this file makes one. The logic sees
/// the number of seconds.
#[derive(Clone, Copy)]
pub struct Present {
    moment: Moment,
}

impl Model for Present {
    ghost use Rattle.std.specs.Prelude.{ℕ};

    ghost Value = { ℕ };

    ghost view = { λ p. p.moment };

    ghost inverse = { λ m. record { moment = m } };
}

impl Present {
    /// The moment, in seconds since 1970 UTC.
    pub fn moment(self) -> Moment
        ensures { result ≡ self }
    {
        self.moment
    }
}

/// The collector whose key came with the request. Only this file makes one. The logic sees the registration.
#[derive(Clone, Copy)]
pub struct Bearer {
    registration: Registration,
}

impl Model for Bearer {
    ghost use Rattle.cpi_store.specs.declared.registration.Registration.{Registration as TheRegistration};

    ghost Value = { TheRegistration };

    ghost view = { λ b. b.registration };

    ghost inverse = { λ r. record { registration = r } };
}

impl Bearer {
    /// The number and the key.
    pub fn registration(self) -> Registration
        ensures { result ≡ self }
    {
        self.registration
    }

    /// The collector's number.
    pub fn number(self) -> CollectorId
        ensures { result ≡ self.number }
    {
        self.registration.number
    }
}

/// Answers the public by what it sees at the moment.
pub fn serve_public<B: Book>(
    alloc: Global,
    book: &mut B,
    now: Moment,
    request: Request,
) -> Result<Reply, Cause>
    ensures serves { let o = (B.state book.old).held in
        Answers (B.state book.old) (B.state book.new) result
        (reply_to now Caller.Public request o) (after_one now Caller.Public request o) }
    ensures turns { TurnsAway B.state B.finds_always book.old book.new Caller.Public (reply_of result)
        (reply_to now Caller.Public request (B.state book.old).held) }
{
    answer_public(alloc, book, Present { moment: now }, request)
}

/// Answers a caller who sends a key: the collector whose key it is, or else [`Refusal::UnknownKey`].
pub fn serve_collector<B: Book>(
    alloc: Global,
    book: &mut B,
    now: Moment,
    key: Key,
    request: Request,
) -> Result<Reply, Cause>
    ensures serves { let o = (B.state book.old).held in
        Answers (B.state book.old) (B.state book.new) result
        (reply_to now (Caller.Collector key) request o) (after_one now (Caller.Collector key) request o) }
    ensures turns { TurnsAway B.state B.finds_always book.old book.new (Caller.Collector key) (reply_of result)
        (reply_to now (Caller.Collector key) request (B.state book.old).held) }
{
    match book.registration_of(key)? {
        None => Ok(Reply::Refused(Refusal::UnknownKey)),
        Some(registration) => {
            answer_collector(
                alloc,
                book,
                Present { moment: now },
                Bearer { registration },
                request,
            )
        }
    }
}

/// Answers the desk, which may do all but a collector's own requests.
pub fn serve_desk<B: Book>(
    alloc: Global,
    book: &mut B,
    now: Moment,
    request: Request,
) -> Result<Reply, Cause>
    ensures serves { let o = (B.state book.old).held in
        AnswersWhere (B.state book.old) (B.state book.new) (IsSound o) result
        (reply_to now Caller.Desk request o) (after_one now Caller.Desk request o) }
    ensures turns { TurnsAway B.state B.finds_always book.old book.new Caller.Desk (reply_of result)
        (reply_to now Caller.Desk request (B.state book.old).held) }
{
    match request {
        Request::Items => items(alloc, book),
        Request::Tables => tables(book, Present { moment: now }),
        Request::Table(month, form, edition) => {
            table(alloc, book, Present { moment: now }, month, form, edition)
        }
        Request::PutItem(item) => put_item(book, item),
        Request::PutPlan(year, body) => put_plan(alloc, book, year, body),
        Request::PutCalendar(row) => put_calendar(book, row),
        Request::Register(registration) => register(book, registration),
        Request::PutOutlet(outlet) => put_outlet(book, outlet),
        Request::Assign(collector, new_assignment) => assign(
            alloc,
            book,
            collector,
            new_assignment,
        ),
        Request::HandOver(what) => hand_over(alloc, book, what),
        Request::Freeze(month, carry) => freeze(alloc, book, now, month, carry),
        Request::Work(_) | Request::Quotes(_, _) | Request::Submit(_) => {
            Ok(Reply::Refused(Refusal::NotForCaller))
        }
    }
}
