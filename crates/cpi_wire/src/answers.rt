//! Carrying out the request of a record, and the line of its answer.
ghost use Rattle.std.specs.Prelude.{◌≡◌, ◌++◌, List, IfOk, OnOk, OnErr};
ghost use Rattle.cpi_office.specs.Calls.{is_failure_of};
ghost use Rattle.cpi_office.specs.declared.reply.Reply.{Reply};
ghost use Rattle.cpi_wire.specs.Answers.{Begins, FirstRowsAnswer, RowAnswers, RowsAnswer, AnswersWithLine, some_fails};
ghost use Rattle.cpi_wire.specs.Answers.{IsServed};
ghost use Rattle.cpi_wire.specs.Causes.{IsCaused, first_cause};
ghost use Rattle.cpi_wire.specs.Line.{line_of_reply};
ghost use Rattle.cpi_wire.specs.Rows.{added_text, rows_line};

use crate::asks::Ask;
use crate::line::reply_line;
use crate::requests::ImportRows;
use crate::rows::{add_reply, begin_rows, end_rows};
use cpi_codes::Moment;
use cpi_office::{Caller, Cause, Office, Refusal, Reply, Request};
use cpi_store::Book;
use std::alloc::{AllocError, Global};

/// The reply to a request, and its cause if the office gave no answer.
#[derive(Drop)]
pub struct CausedReply {
    pub reply: Reply,
    pub cause: Option<Cause>,
}

/// The answer to an import.
#[derive(Drop)]
pub struct ImportAnswer {
    /// The line of the replies to its rows.
    pub line: Vec<u8>,
    /// Whether one of the replies says that the office is unavailable.
    pub failed: bool,
    /// A cause, if one says so.
    pub cause: Option<Cause>,
}

/// The answer to a record.
#[derive(Drop)]
pub(crate) struct AnswerLine {
    /// Its line.
    pub(crate) line: Vec<u8>,
    /// Whether one of its replies says that the office is unavailable.
    pub(crate) failed: bool,
    /// A cause, if one says so.
    pub(crate) cause: Option<Cause>,
}

// The end of a row of an import: whether its reply says that the office is unavailable, and the cause.
#[derive(Clone, Copy)]
struct RowEnd {
    fails: bool,
    cause: Option<Cause>,
}

/// Whether a reply says that the office is unavailable.
pub fn is_failure(reply: &Reply) -> bool
    ensures { result ≡ is_failure_of reply.now }
{
    matches!(reply, Reply::Refused(Refusal::Unavailable))
}

/// Carries out a request. Its reply says that the office is unavailable only if the office gave a cause in place of an
/// answer, and then the cause is there.
pub fn answer_one<B: Book>(
    office: &mut Office<B>,
    now: Moment,
    caller: Caller,
    request: Request,
) -> CausedReply
    ensures serves { IsServed B.state now caller office.old.book request result.reply office.new.book }
    ensures caused { IsCaused (B.state office.old.book) (B.state office.new.book)
        (is_failure_of result.reply) result.cause }
{
    match office.answer(now, caller, request) {
        Ok(reply) => CausedReply { reply, cause: None },
        Err(cause) => CausedReply {
            reply: Reply::Refused(Refusal::Unavailable),
            cause: Some(cause),
        },
    }
}

/// The first of two causes.
pub(crate) fn first_cause(cause: Option<Cause>, other: Option<Cause>) -> Option<Cause>
    ensures { result ≡ first_cause cause other }
{
    match cause {
        Some(cause) => Some(cause),
        None => other,
    }
}

// Carries out one row of an import; a row of no form is a bad request.
fn answer_request<B: Book>(
    office: &mut Office<B>,
    now: Moment,
    caller: &Caller,
    row: Option<Request>,
) -> CausedReply
    ensures answers { RowAnswers B.state now caller.now office.old.book row result.reply office.new.book }
    ensures caused { IsCaused (B.state office.old.book) (B.state office.new.book)
        (is_failure_of result.reply) result.cause }
{
    match row {
        None => CausedReply {
            reply: Reply::Refused(Refusal::BadRequest),
            cause: None,
        },
        Some(request) => answer_one(office, now, *caller, request),
    }
}

// Carries out one row of an import, adds its reply to the line, and returns whether the office was unavailable.
fn answer_import_row<B: Book>(
    alloc: Global,
    office: &mut Office<B>,
    now: Moment,
    caller: &Caller,
    row: Option<Request>,
    line: &mut Vec<u8>,
    is_first: bool,
) -> Result<RowEnd, AllocError>
    ensures row { (reply : Reply) × RowAnswers B.state now caller.now office.old.book row reply office.new.book
        × OnOk result (line.new.items ≡ line.old.items ++ added_text is_first reply)
        × IfOk result (λ end. end.fails ≡ is_failure_of reply) }
    ensures caused { IfOk result (λ end. IsCaused (B.state office.old.book) (B.state office.new.book)
        end.fails end.cause) }
{
    let answered = answer_request(office, now, caller, row);
    add_reply(alloc, line, is_first, &answered.reply)?;
    Ok(RowEnd {
        fails: is_failure(&answered.reply),
        cause: answered.cause,
    })
}

/// Carries out the rows of an import in their order, and writes each reply into the line before the next row is carried
/// out. If memory runs out, the first rows were carried out, up to some row, and no others.
pub fn answer_rows<B: Book>(
    alloc: Global,
    office: &mut Office<B>,
    now: Moment,
    caller: &Caller,
    rows: ImportRows,
) -> Result<ImportAnswer, AllocError>
    ensures ok { IfOk result (λ answer. (replies : List Reply)
        × RowsAnswer B.state now caller.now office.old.book rows replies office.new.book
        × (answer.line.items ≡ rows_line replies) × (answer.failed ≡ some_fails replies)) }
    ensures caused { IfOk result (λ answer. IsCaused (B.state office.old.book) (B.state office.new.book)
        answer.failed answer.cause) }
    ensures err { OnErr result (FirstRowsAnswer B.state now caller.now office.old.book rows office.new.book) }
{
    let mut line = begin_rows(alloc)?;
    let mut is_first = true;
    let mut failed = false;
    let mut cause = None;
    let mut rest = rows.rows.into_iter();
    while let Some(row) = rest.next() {
        let end = answer_import_row(alloc, office, now, caller, row, &mut line, is_first)?;
        failed |= end.fails;
        cause = first_cause(cause, end.cause);
        is_first = false;
    }
    end_rows(&mut line)?;
    Ok(ImportAnswer {
        line,
        failed,
        cause,
    })
}

// The line of a reply, with the cause of the reply.
fn line_with_cause(
    alloc: Global,
    reply: &Reply,
    cause: Option<Cause>,
) -> Result<AnswerLine, AllocError>
    ensures line { IfOk result (λ answer. answer.line.items ≡ line_of_reply reply.now) }
    ensures failed { IfOk result (λ answer. answer.failed ≡ is_failure_of reply.now) }
    ensures cause { IfOk result (λ answer. answer.cause ≡ cause) }
{
    Ok(AnswerLine {
        line: reply_line(alloc, reply)?,
        failed: is_failure(reply),
        cause,
    })
}

/// Carries out what a record asks, and returns its answer. If memory runs out, the record may have been begun.
pub(crate) fn answer_line<B: Book>(
    alloc: Global,
    office: &mut Office<B>,
    ask: Ask,
) -> Result<AnswerLine, AllocError>
    ensures ok { IfOk result (λ answer.
        AnswersWithLine B.state office.old.book ask answer.line.items answer.failed office.new.book) }
    ensures caused { IfOk result (λ answer. IsCaused (B.state office.old.book) (B.state office.new.book)
        answer.failed answer.cause) }
    ensures err { OnErr result (Begins B.state office.old.book ask office.new.book) }
{
    match ask {
        Ask::Bad => line_with_cause(alloc, &Reply::Refused(Refusal::BadRequest), None),
        Ask::One(now, caller, request) => {
            let answered = answer_one(office, now, caller, request);
            line_with_cause(alloc, &answered.reply, answered.cause)
        }
        Ask::Import(now, caller, rows) => {
            let ImportAnswer {
                line,
                failed,
                cause,
            } = answer_rows(alloc, office, now, &caller, rows)?;
            Ok(AnswerLine {
                line,
                failed,
                cause,
            })
        }
    }
}
