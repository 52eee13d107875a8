//! From the fields of a record to its request.
ghost use Rattle.std.specs.Prelude.{◌≡◌, map, IfOk};
ghost use Rattle.cpi_wire.specs.Record.{spelled_caller, spelled_import, spelled_asks, spelled_parts, ask_of};

use crate::arguments::one;
use crate::asks::Ask;
use crate::import::import_rows;
use crate::requests::ImportRows;
use crate::words::{request_of, word_of};
use cpi_codes::{Key, Moment, Zone};
use cpi_office::Caller;
use std::alloc::{AllocError, Global};

// The caller that a field names: the public, the desk, or a collector by a key.
fn caller_of(text: &[u8]) -> Option<Caller>
    ensures { result ≡ spelled_caller text.now }
{
    if text == b"public".as_slice() {
        Some(Caller::Public)
    } else if text == b"desk".as_slice() {
        Some(Caller::Desk)
    } else {
        Some(Caller::Collector(Key::parse(text)?))
    }
}

// The rows of an import, which has one argument: its body.
fn import_of(
    alloc: Global,
    zone: &Zone,
    arguments: &[&[u8]],
) -> Result<Option<ImportRows>, AllocError>
    ensures { IfOk result (λ rows. rows ≡ spelled_import zone.now (map (λ f. f.now) arguments.now)) }
{
    match one(arguments) {
        Some(body) => import_rows(alloc, zone, body),
        None => Ok(None),
    }
}

/// What a word with its arguments asks at a moment, in seconds since 1970 UTC; none if they are of no form, or outside
/// the limits. Civil times are read by the clock of the zone.
pub fn asks_of(
    alloc: Global,
    zone: &Zone,
    now: Moment,
    caller: Caller,
    word: &[u8],
    arguments: &[&[u8]],
) -> Result<Option<Ask>, AllocError>
    ensures { IfOk result (λ a. a ≡ spelled_asks zone.now now caller word.now (map (λ f. f.now) arguments.now)) }
{
    if word == b"import".as_slice() {
        let Some(rows) = import_of(alloc, zone, arguments)? else {
            return Ok(None);
        };
        return Ok(Some(Ask::Import(now, caller, rows)));
    }
    let Some(request) = request_of(alloc, zone, word_of(word), arguments)? else {
        return Ok(None);
    };
    Ok(Some(Ask::One(now, caller, request)))
}

// What the first three fields of a record and its arguments ask; none if they are of no form, or outside the limits.
fn parts_of(
    alloc: Global,
    zone: &Zone,
    moment: &[u8],
    caller: &[u8],
    word: &[u8],
    arguments: &[&[u8]],
) -> Result<Option<Ask>, AllocError>
    ensures { IfOk result (λ a.
        a ≡ spelled_parts zone.now moment.now caller.now word.now (map (λ f. f.now) arguments.now)) }
{
    let Some(moment) = Moment::parse(moment) else {
        return Ok(None);
    };
    let Some(caller) = caller_of(caller) else {
        return Ok(None);
    };
    asks_of(alloc, zone, moment, caller, word, arguments)
}

/// What the fields of a record ask: a moment in seconds since 1970 UTC, a caller (`public`, `desk` or a key), a word
/// and its arguments; those of an import are one body of rows. Civil times are read by the clock of the zone.
/// A record that is of none of these forms, or outside the limits, is `Bad`.
pub fn request_of_record(alloc: Global, zone: &Zone, fields: &[&[u8]]) -> Result<Ask, AllocError>
    ensures { IfOk result (λ a. a ≡ ask_of zone.now (map (λ f. f.now) fields.now)) }
{
    if fields.len() < 3 {
        return Ok(Ask::Bad);
    }
    match parts_of(alloc, zone, fields[0], fields[1], fields[2], &fields[3..])? {
        Some(ask) => Ok(ask),
        None => Ok(Ask::Bad),
    }
}
