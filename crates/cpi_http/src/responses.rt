//! Carrying out the request of a message, and its response.
ghost use Rattle.std.specs.Prelude.{◌≡◌, false, Some, None, Ok, IfOk, OnErr};
ghost use Rattle.cpi_office.specs.Calls.{is_failure_of};
ghost use Rattle.cpi_office.specs.declared.refusal.Refusal.TheVariants.{BadRequest};
ghost use Rattle.cpi_office.specs.declared.reply.Reply.TheVariants.{Refused};
ghost use Rattle.cpi_wire.specs.Answers.{Begins};
ghost use Rattle.cpi_wire.specs.Causes.{IsCaused};
ghost use Rattle.cpi_wire.specs.Line.{line_of_reply};
ghost use Rattle.cpi_http.specs.Response.{SaysResponse, IsCarriedOut, in_json, as_printed, content_of, form_asked};
ghost use Rattle.cpi_http.specs.Response.{said_of};

use crate::bytes::Content;
use crate::statuses::status_of_reply;
use cpi_office::{Cause, Office, Refusal, Reply, Request};
use cpi_release::{Form, PrintedTable};
use cpi_store::Book;
use cpi_wire::{Ask, ImportAnswer, answer_one, answer_rows, is_failure, reply_line};
use http::StatusCode;
use std::alloc::{AllocError, Global};

/// A response, before it is put into bytes.
#[derive(Drop)]
pub(crate) struct Response {
    pub(crate) status: StatusCode,
    pub(crate) content: Content,
    pub(crate) body: Vec<u8>,
    /// Whether one of the replies says that the office is unavailable.
    pub(crate) failed: bool,
    /// The cause of the first reply that says so.
    pub(crate) cause: Option<Cause>,
}

// The response whose body is the line of a reply, in JSON, with the cause of the reply.
fn line_response(
    alloc: Global,
    status: StatusCode,
    reply: &Reply,
    cause: Option<Cause>,
) -> Result<Response, AllocError>
    ensures says { IfOk result (SaysResponse (in_json status (line_of_reply reply.now)) (is_failure_of reply.now)) }
    ensures cause { IfOk result (λ response. response.cause ≡ cause) }
{
    Ok(Response {
        status,
        content: Content::Json,
        body: reply_line(alloc, reply)?,
        failed: is_failure(reply),
        cause,
    })
}

/// The response to a message of which no request was made.
pub(crate) fn refusal(alloc: Global, status: StatusCode) -> Result<Response, AllocError>
    ensures says { IfOk result (SaysResponse (in_json status (line_of_reply (Refused BadRequest))) false) }
    ensures cause { IfOk result (λ response. response.cause ≡ None) }
{
    line_response(alloc, status, &Reply::Refused(Refusal::BadRequest), None)
}

// The format of a table in a form.
fn content_of(form: Form) -> Content
    ensures { result ≡ content_of form }
{
    match form {
        Form::Text => Content::Text,
        Form::Csv => Content::Csv,
    }
}

// The response whose body is a printed table, with the cause of the reply.
fn table_response(
    alloc: Global,
    form: Form,
    printed: &PrintedTable,
    cause: Option<Cause>,
) -> Result<Response, AllocError>
    ensures says { IfOk result (SaysResponse (as_printed form printed.now) false) }
    ensures cause { IfOk result (λ response. response.cause ≡ cause) }
{
    Ok(Response {
        status: StatusCode::OK,
        content: content_of(form),
        body: Vec::from_slice(alloc, printed.as_bytes())?,
        failed: false,
        cause,
    })
}

// The response to a request for a table in a form: the table, or the line of the refusal.
fn form_response(
    alloc: Global,
    form: Form,
    reply: &Reply,
    cause: Option<Cause>,
) -> Result<Response, AllocError>
    ensures says { IfOk result (SaysResponse (said_of (Some form) reply.now) (is_failure_of reply.now)) }
    ensures cause { IfOk result (λ response. response.cause ≡ cause) }
{
    match reply {
        Reply::Table(printed) => table_response(alloc, form, printed, cause),
        other => line_response(alloc, status_of_reply(other), other, cause),
    }
}

// The response of a reply, with its cause; the form is that of the table, if the request asks for one.
fn reply_response(
    alloc: Global,
    form: Option<Form>,
    reply: &Reply,
    cause: Option<Cause>,
) -> Result<Response, AllocError>
    ensures says { IfOk result (SaysResponse (said_of form reply.now) (is_failure_of reply.now)) }
    ensures cause { IfOk result (λ response. response.cause ≡ cause) }
{
    match form {
        Some(form) => form_response(alloc, form, reply, cause),
        None => line_response(alloc, status_of_reply(reply), reply, cause),
    }
}

// The form of the table that a request asks for; none for other requests.
fn form_asked(request: &Request) -> Option<Form>
    ensures { result ≡ form_asked request.now }
{
    match request {
        Request::Table(_, form, _) => Some(*form),
        _ => None,
    }
}

/// Carries out what a message asks. If memory runs out, the message may have been begun.
pub(crate) fn respond<B: Book>(
    alloc: Global,
    office: &mut Office<B>,
    ask: Ask,
) -> Result<Response, AllocError>
    ensures ok { IfOk result (IsCarriedOut B.state (Ok ask) office.old.book office.new.book) }
    ensures caused { IfOk result (λ response. IsCaused (B.state office.old.book) (B.state office.new.book)
        response.failed response.cause) }
    ensures err { OnErr result (Begins B.state office.old.book ask office.new.book) }
{
    match ask {
        Ask::Bad => refusal(alloc, StatusCode::BAD_REQUEST),
        Ask::One(now, caller, request) => {
            let form = form_asked(&request);
            let answered = answer_one(office, now, caller, request);
            reply_response(alloc, form, &answered.reply, answered.cause)
        }
        Ask::Import(now, caller, rows) => {
            let ImportAnswer {
                line,
                failed,
                cause,
            } = answer_rows(alloc, office, now, &caller, rows)?;
            Ok(Response {
                status: StatusCode::OK,
                content: Content::Json,
                body: line,
                failed,
                cause,
            })
        }
    }
}
