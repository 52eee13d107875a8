//! The fields of a request that are read, by name.
ghost use Rattle.std.specs.Prelude.{◌≡◌, length, map, All, None, Some, MatchOption};
ghost use Rattle.httparse.specs.Spans.{IsHeaderWithin, header_bytes};
ghost use Rattle.cpi_http.specs.Fields.{values_named, AreNamed, is_same_text, after_scheme, after_spaces};

use httparse::spans::HeaderSpan;

/// The value of a field that a request may have at most once.
#[derive(Clone, Copy)]
pub(crate) enum Named<'b> {
    Never,
    Once(&'b [u8]),
    Again,
}

/// Whether two texts are the same but for the case of their ASCII letters.
fn is_same_text(a: &[u8], b: &[u8]) -> bool
    ensures { result ≡ is_same_text a.now b.now }
{
    a.eq_ignore_ascii_case(b)
}

/// The value of the field with this name, in any case (RFC 9110, section 5.1).
pub(crate) fn find<'b>(buf: &'b [u8], fields: &[HeaderSpan], name: &[u8]) -> Named<'b>
    requires { All (IsHeaderWithin (length buf.now)) fields.now }
    ensures { AreNamed (values_named name.now (map (header_bytes buf.now) fields.now)) result }
{
    let mut found = Named::Never;
    for field in fields {
        if is_same_text(field.name.of(buf), name) {
            match found {
                Named::Never => found = Named::Once(field.value.of(buf)),
                _ => return Named::Again,
            }
        }
    }
    found
}

/// The text after a scheme and its spaces; none if the value begins otherwise. The scheme ends in a space.
pub(crate) fn after_scheme<'b>(scheme: &[u8], value: &'b [u8]) -> Option<&'b [u8]>
    ensures { MatchOption result (after_scheme scheme.now value.now ≡ None)
        (λ text. after_scheme scheme.now value.now ≡ Some text.now) }
{
    let at = value.len().min(scheme.len());
    if !is_same_text(&value[..at], scheme) {
        return None;
    }
    Some(after_spaces(&value[at..]))
}

// The text without the spaces at its start.
fn after_spaces(mut text: &[u8]) -> &[u8]
    ensures { result.now ≡ after_spaces text.now }
{
    while let [b' ', rest @ ..] = text {
        text = rest;
    }
    text
}
