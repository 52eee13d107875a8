//! The status of a reply (RFC 9110, section 15).
ghost use Rattle.std.specs.Prelude.{◌≡◌};
ghost use Rattle.cpi_http.specs.Statuses.{status_of_reply, status_of_refusal};

use cpi_office::{Refusal, Reply};
use http::StatusCode;

// The status of a refusal: 409 if the request conflicts with what the office has stored.
fn status_of_refusal(refusal: &Refusal) -> StatusCode
    ensures { result ≡ status_of_refusal refusal.now }
{
    match refusal {
        Refusal::BadRequest => StatusCode::BAD_REQUEST,
        Refusal::UnknownKey => StatusCode::UNAUTHORIZED,
        Refusal::NotForCaller => StatusCode::FORBIDDEN,
        Refusal::UnknownSlot | Refusal::UnknownMonth | Refusal::NoTable => StatusCode::NOT_FOUND,
        Refusal::Unavailable => StatusCode::SERVICE_UNAVAILABLE,
        _ => StatusCode::CONFLICT,
    }
}

/// The status of a reply: 200 if it is no refusal.
pub(crate) fn status_of_reply(reply: &Reply) -> StatusCode
    ensures { result ≡ status_of_reply reply.now }
{
    match reply {
        Reply::Refused(refusal) => status_of_refusal(refusal),
        _ => StatusCode::OK,
    }
}
