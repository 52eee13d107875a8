//! The caller of a message.
ghost use Rattle.std.specs.Prelude.{◌≡◌, length, map, All, codes};
ghost use Rattle.httparse.specs.Spans.{IsHeaderWithin, header_bytes};
ghost use Rattle.cpi_http.specs.Fields.{values_named};
ghost use Rattle.cpi_http.specs.Callers.{caller_of_key, caller_named, caller_in_fields};

use crate::fields::{Named, after_scheme, find};
use cpi_codes::Key;
use cpi_office::Caller;
use httparse::spans::HeaderSpan;

// The caller with a key. Keys are compared as numbers.
fn caller_of_key(desk_key: Key, key: Key) -> Caller
    ensures { result ≡ caller_of_key desk_key key }
{
    if key == desk_key {
        Caller::Desk
    } else {
        Caller::Collector(key)
    }
}

// The caller by the value of `Authorization`; none if the value is not the scheme `CPI-Key` and a key.
fn caller_named(desk_key: Key, value: &[u8]) -> Option<Caller>
    ensures { result ≡ caller_named desk_key value.now }
{
    let text = after_scheme(b"CPI-Key ", value)?;
    let key = Key::parse(text)?;
    Some(caller_of_key(desk_key, key))
}

/// The caller of a message by its field `Authorization` (RFC 9110, section 11.6.2): the public without that field; none
/// if there are two, or if the value isn't `CPI-Key` in any case, one or more spaces and a key.
pub(crate) fn caller_in_fields(desk_key: Key, buf: &[u8], fields: &[HeaderSpan]) -> Option<Caller>
    requires { All (IsHeaderWithin (length buf.now)) fields.now }
    ensures { let values = values_named (codes "authorization") (map (header_bytes buf.now) fields.now) in
        result ≡ caller_in_fields desk_key values }
{
    match find(buf, fields, b"authorization") {
        Named::Never => Some(Caller::Public),
        Named::Once(value) => caller_named(desk_key, value),
        Named::Again => None,
    }
}
