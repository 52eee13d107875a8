//! The request that a message asks for.
ghost use Rattle.std.specs.Prelude.{◌≡◌, IfOk};
ghost use Rattle.cpi_http.specs.Message.{asked_by};

use crate::route_asks::ask_of_route;
use crate::routes::Route;
use cpi_codes::{Moment, Zone};
use cpi_office::Caller;
use cpi_wire::Ask;
use http::StatusCode;
use std::alloc::{AllocError, Global};

/// What a route asks with its caller, its path and its body; or the status that refuses the message: that of the head,
/// or 400 if the arguments make no record.
pub(crate) fn asked_by(
    alloc: Global,
    now: Moment,
    zone: &Zone,
    called: Result<(Route, Caller), StatusCode>,
    path: &[u8],
    body: &[u8],
) -> Result<Result<Ask, StatusCode>, AllocError>
    ensures { IfOk result (λ asked. asked ≡ asked_by now zone.now called path.now body.now) }
{
    match called {
        Err(status) => Ok(Err(status)),
        Ok((route, caller)) => match ask_of_route(alloc, zone, now, caller, route, path, body)? {
            Some(ask) => Ok(Ok(ask)),
            None => Ok(Err(StatusCode::BAD_REQUEST)),
        },
    }
}
