//! A collector reads the own work list of a month.
ghost use Rattle.std.specs.Prelude.{◌≡◌, IfOk};
ghost use Rattle.cpi_release.specs.State.{Reads};
ghost use Rattle.cpi_store.specs.Office.{own_part, public_part};
ghost use Rattle.cpi_survey.specs.Work.{work};
ghost use Rattle.cpi_office.specs.Answers.{work_reply};
ghost use Rattle.cpi_office.specs.Calls.{Answers};

use crate::callers::Bearer;
use crate::cause::Cause;
use crate::refusal::Refusal;
use crate::reply::Reply;
use crate::sight::Sight;
use cpi_codes::Month;
use cpi_rows::Rows;
use cpi_store::StoreFault;
use cpi_survey::WorkRow;
use std::alloc::{AllocError, Global};

/// Lists the collector's slots that are to be priced in the month.
pub fn work<S: Sight>(
    alloc: Global,
    sight: &mut S,
    bearer: Bearer,
    month: Month,
) -> Result<Reply, Cause>
    ensures { let o = (S.state sight.old).held in
        Answers (S.state sight.old) (S.state sight.new) result
        (work_reply (work month (public_part o) (own_part bearer.number o))) o }
{
    let answer = read_work(alloc, sight, bearer, month)??;
    Ok(work_reply(answer))
}

// The work list, or its refusal. Fails, inside, if there is no memory.
fn read_work<S: Sight>(
    alloc: Global,
    sight: &mut S,
    bearer: Bearer,
    month: Month,
) -> Result<Result<Result<Rows<WorkRow>, cpi_survey::Refusal>, AllocError>, StoreFault>
    ensures { Reads (S.state sight.old) (S.state sight.new) result (λ found.
        IfOk found (λ answer.
        answer ≡ work month (public_part (S.state sight.old).held) (own_part bearer.number (S.state sight.old).held))) }
{
    let parts = sight.own_parts(bearer)?;
    Ok(parts.own.work(alloc, parts.public, month))
}

// The reply with a work list, or with its refusal.
fn work_reply(answer: Result<Rows<WorkRow>, cpi_survey::Refusal>) -> Reply
    ensures { result ≡ work_reply answer }
{
    match answer {
        Ok(rows) => Reply::Work(rows),
        Err(refusal) => Reply::Refused(Refusal::of_survey(&refusal)),
    }
}
