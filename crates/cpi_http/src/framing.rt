//! How many bytes of body follow a head (RFC 9112, section 6).
ghost use Rattle.std.specs.Prelude.{◌≡◌, length, map, All, codes};
ghost use Rattle.httparse.specs.Spans.{IsHeaderWithin, header_bytes};
ghost use Rattle.cpi_http.specs.Fields.{values_named};
ghost use Rattle.cpi_http.specs.Framing.{length_of_value, body_length, framing_of};

use crate::fields::{Named, find};
use crate::limits::MOST_BODY_BYTES;
use http::StatusCode;
use httparse::spans::HeaderSpan;

// The length in bytes that a value states: one or more digits, up to `MOST_BODY_BYTES`.
fn length_of_value(value: &[u8]) -> Result<usize, StatusCode>
    ensures { result ≡ length_of_value value.now }
{
    if value.is_empty() {
        return Err(StatusCode::BAD_REQUEST);
    }
    let mut length = 0;
    for digit in value {
        if !digit.is_ascii_digit() {
            return Err(StatusCode::BAD_REQUEST);
        }
        length = (length * 10 + usize::from(*digit - b'0')).min(MOST_BODY_BYTES + 1);
    }
    if length > MOST_BODY_BYTES {
        return Err(StatusCode::PAYLOAD_TOO_LARGE);
    }
    Ok(length)
}

// The length of the body by the field `Content-Length`, in bytes: 0 without it, 400 if there are two.
fn body_length(buf: &[u8], fields: &[HeaderSpan]) -> Result<usize, StatusCode>
    requires { All (IsHeaderWithin (length buf.now)) fields.now }
    ensures { result ≡ body_length (values_named (codes "content-length") (map (header_bytes buf.now) fields.now)) }
{
    match find(buf, fields, b"content-length") {
        Named::Never => Ok(0),
        Named::Once(value) => length_of_value(value),
        Named::Again => Err(StatusCode::BAD_REQUEST),
    }
}

/// The length of the body, in bytes, or the status that refuses the message before its body is read: 501 if it has a
/// transfer coding, 400 if its length isn't one number, 413 if its length is above `MOST_BODY_BYTES`.
pub(crate) fn framing(buf: &[u8], fields: &[HeaderSpan]) -> Result<usize, StatusCode>
    requires { All (IsHeaderWithin (length buf.now)) fields.now }
    ensures { result ≡ framing_of (map (header_bytes buf.now) fields.now) }
{
    let Named::Never = find(buf, fields, b"transfer-encoding") else {
        return Err(StatusCode::NOT_IMPLEMENTED);
    };
    body_length(buf, fields)
}
