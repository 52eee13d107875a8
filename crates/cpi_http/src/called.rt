//! The route of a request and its caller.
ghost use Rattle.std.specs.Prelude.{◌≡◌, length, map, All, IsUtf8};
ghost use Rattle.httparse.specs.Spans.{IsHeaderWithin, header_bytes};
ghost use Rattle.cpi_http.specs.Called.{called_of};

use crate::callers::caller_in_fields;
use crate::routes::{Route, Routes};
use cpi_codes::Key;
use cpi_office::Caller;
use http::StatusCode;
use httparse::spans::HeaderSpan;

/// The route and the caller of a head, or the status that refuses it: 404 without a route, then 400 without a caller.
pub(crate) fn called_of(
    routes: &Routes,
    desk_key: Key,
    buf: &[u8],
    fields: &[HeaderSpan],
    method: &[u8],
    path: &[u8],
) -> Result<(Route, Caller), StatusCode>
    requires within { All (IsHeaderWithin (length buf.now)) fields.now }
    requires text { IsUtf8 path.now }
    ensures { result ≡ called_of desk_key (map (header_bytes buf.now) fields.now) method.now path.now }
{
    let Some(route) = routes.route_of(method, path) else {
        return Err(StatusCode::NOT_FOUND);
    };
    match caller_in_fields(desk_key, buf, fields) {
        Some(caller) => Ok((route, caller)),
        None => Err(StatusCode::BAD_REQUEST),
    }
}
