//! The requests of the public and of a collector, each answered from what the caller sees.
ghost use Rattle.std.specs.Prelude.{◌≡◌, IsTrue, Some, IsSome, Ok};
ghost use Rattle.cpi_rows.specs.Keyed.{row_by_number};
ghost use Rattle.cpi_office.specs.Authentication.{collector_reply, collector_after};
ghost use Rattle.cpi_office.specs.Runs.{reply_to, after_one};
ghost use Rattle.cpi_office.specs.declared.caller.Caller.{Caller};
ghost use Rattle.cpi_office.specs.Calls.{Answers, reply_of};
ghost use Rattle.cpi_office.specs.Authorization.{TurnsAway, is_turned_away};

use crate::callers::{Bearer, Present};
use crate::cause::Cause;
use crate::items::items;
use crate::quotes::quotes;
use crate::refusal::Refusal;
use crate::reply::Reply;
use crate::request::Request;
use crate::sight::Sight;
use crate::submit::enter;
use crate::tables::{table, tables};
use crate::work::work;
use std::alloc::Global;

/// Answers the public, which may list items and tables and read a table.
pub fn answer_public<S: Sight>(
    alloc: Global,
    sight: &mut S,
    present: Present,
    request: Request,
) -> Result<Reply, Cause>
    ensures serves { let o = (S.state sight.old).held in
        Answers (S.state sight.old) (S.state sight.new) result
        (reply_to present Caller.Public request o) (after_one present Caller.Public request o) }
    ensures turns { TurnsAway S.state S.finds_always sight.old sight.new Caller.Public (reply_of result)
        (reply_to present Caller.Public request (S.state sight.old).held) }
{
    match request {
        Request::Items => items(alloc, sight),
        Request::Tables => tables(sight, present),
        Request::Table(month, form, edition) => {
            table(alloc, sight, present, month, form, edition)
        }
        _ => Ok(Reply::Refused(Refusal::NotForCaller)),
    }
}

/// Answers the collector whose key was sent.
pub fn answer_collector<S: Sight>(
    alloc: Global,
    sight: &mut S,
    present: Present,
    bearer: Bearer,
    request: Request,
) -> Result<Reply, Cause>
    requires known { (S.state sight.old).is_clean →
        IsSome (row_by_number (λ b. b.number) bearer.number (S.state sight.old).held.collectors) }
    ensures serves { let o = (S.state sight.old).held in
        Answers (S.state sight.old) (S.state sight.new) result
        (collector_reply present request o (Some bearer))
        (collector_after bearer.key present request o (Some bearer)) }
    ensures turns { let o = (S.state sight.old).held in
        let wanted = collector_reply present request o (Some bearer) in
        IsTrue (is_turned_away wanted) → result ≡ Ok wanted }
{
    match request {
        Request::Items => items(alloc, sight),
        Request::Tables => tables(sight, present),
        Request::Table(month, form, edition) => {
            table(alloc, sight, present, month, form, edition)
        }
        Request::Submit(entry) => enter(sight, present, bearer, entry),
        Request::Work(month) => work(alloc, sight, bearer, month),
        Request::Quotes(first, last) => quotes(alloc, sight, bearer, first, last),
        _ => Ok(Reply::Refused(Refusal::NotForCaller)),
    }
}
