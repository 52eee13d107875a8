//! The bytes of a response (RFC 9112, section 4).
ghost use Rattle.std.specs.Prelude.{◌≡◌, ◌++◌, IfOk, string_bytes};
ghost use Rattle.cpi_http.specs.Bytes.{media_type, head_text, head_of, challenge, phrase};

use http::StatusCode;
use std::alloc::{AllocError, Global};

/// The format of a body.
#[derive(Clone, Copy, PartialEq, Eq)]
pub enum Content {
    Json,
    Text,
    Csv,
}

impl Content {
    /// The media type (RFC 9110, section 8.3.1).
    pub fn media_type(self) -> &'static str
        ensures { result.now ≡ media_type self }
    {
        match self {
            Content::Json => "application/json",
            Content::Text => "text/plain; charset=utf-8",
            Content::Csv => "text/csv; charset=utf-8",
        }
    }
}

// The field that a response with the status 401 has to have (RFC 9110, section 11.6.1); empty for other statuses.
fn challenge(status: StatusCode) -> &'static str
    ensures { result.now ≡ challenge status }
{
    if status == StatusCode::UNAUTHORIZED {
        "WWW-Authenticate: CPI-Key\r\n"
    } else {
        ""
    }
}

// The reason phrase of a status; empty if the status has none.
fn phrase(status: StatusCode) -> &'static str
    ensures { result.now ≡ phrase status }
{
    status.canonical_reason().unwrap_or("")
}

// The status line, the fields and the empty line, from their parts. `more` is empty, or fields that end in CR LF.
fn head_text(
    alloc: Global,
    code: u16,
    reason: &str,
    media: &str,
    size: usize,
    more: &str,
) -> Result<String, AllocError>
    ensures { IfOk result (λ text. string_bytes text ≡ head_text code reason.now media.now size more.now) }
{
    format!(in alloc;
        "HTTP/1.1 {code} {reason}\r\nContent-Type: {media}\r\nContent-Length: {size}\r\nConnection: close\r\n{more}\r\n"
    )
}

// The status line, the fields and the empty line of a response. The size is that of the body, in bytes.
fn head_of(
    alloc: Global,
    status: StatusCode,
    content: Content,
    size: usize,
) -> Result<String, AllocError>
    ensures { IfOk result (λ text. string_bytes text ≡ head_of status content size) }
{
    head_text(
        alloc,
        status.as_u16(),
        phrase(status),
        content.media_type(),
        size,
        challenge(status),
    )
}

/// The head of a response whose body has this size in bytes, and after it the first bytes of the body.
pub(crate) fn front_of(
    alloc: Global,
    status: StatusCode,
    content: Content,
    size: usize,
    begun: &[u8],
) -> Result<Vec<u8>, AllocError>
    ensures { IfOk result (λ bytes. bytes.items ≡ head_of status content size ++ begun.now) }
{
    let head = head_of(alloc, status, content, size)?;
    let mut bytes = head.into_bytes();
    bytes.extend_from_slice(begun)?;
    Ok(bytes)
}
