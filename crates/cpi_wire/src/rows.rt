//! The line of the replies to an import's rows, written reply by reply.
ghost use Rattle.std.specs.Prelude.{◌≡◌, ◌++◌, codes, IfOk, OnOk};
ghost use Rattle.cpi_wire.specs.Rows.{added_text};

use crate::line::reply_text;
use cpi_office::Reply;
use std::alloc::{AllocError, Global};

/// The line before its first reply.
pub(crate) fn begin_rows(alloc: Global) -> Result<Vec<u8>, AllocError>
    ensures { IfOk result (λ line. line.items ≡ codes "{\"rows\":[") }
{
    Vec::from_slice(alloc, b"{\"rows\":[".as_slice())
}

/// Adds the JSON text of a reply, with a comma before it if it isn't the first.
pub(crate) fn add_reply(
    alloc: Global,
    line: &mut Vec<u8>,
    is_first: bool,
    reply: &Reply,
) -> Result<(), AllocError>
    ensures { OnOk result (line.new.items ≡ line.old.items ++ added_text is_first reply.now) }
{
    if !is_first {
        line.push(b',')?;
    }
    let text = reply_text(alloc, reply)?;
    line.extend_from_slice(&text)?;
    Ok(())
}

/// Ends the line.
pub(crate) fn end_rows(line: &mut Vec<u8>) -> Result<(), AllocError>
    ensures { OnOk result (line.new.items ≡ line.old.items ++ codes "]}\n") }
{
    line.extend_from_slice(b"]}\n".as_slice())
}
