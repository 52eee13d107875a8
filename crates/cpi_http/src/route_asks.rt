//! The request that a route asks for.
ghost use Rattle.std.specs.Prelude.{◌≡◌, ◌++◌, ◌∷◌, [], map, drop, IfOk};
ghost use Rattle.csv.specs.Records.{fields_of};
ghost use Rattle.cpi_wire.specs.Record.{spelled_asks};
ghost use Rattle.cpi_http.specs.RouteAsks.{ask_by_row, ask_of_route, parts_of, path_arguments};

use crate::routes::Route;
use cpi_codes::{Moment, Zone};
use cpi_office::Caller;
use cpi_wire::{Ask, asks_of, field_list, only_row};
use csv::ByteRecord;
use std::alloc::{AllocError, Global};

// The parts of a path between its slashes. Arguments go by their places, as in a record, but the parameters of the
// router go by their names: so the path is split here.
fn parts_of<'p>(alloc: Global, path: &'p [u8]) -> Result<Vec<&'p [u8]>, AllocError>
    ensures { IfOk result (λ parts. map (λ part. part.now) parts.items ≡ parts_of path.now) }
{
    path.split(|b| *b == b'/').collect(alloc)
}

// The parts after the first two: the empty part before the first slash, and the name of the route.
fn after_two<'a, 'p>(parts: &'a [&'p [u8]]) -> &'a [&'p [u8]]
    ensures { map (λ part. part.now) result.now ≡ drop 2 (map (λ part. part.now) parts.now) }
{
    &parts[parts.len().min(2)..]
}

// The arguments of a path, in their order.
fn path_arguments<'p>(alloc: Global, path: &'p [u8]) -> Result<Vec<&'p [u8]>, AllocError>
    ensures { IfOk result (λ arguments. map (λ a. a.now) arguments.items ≡ path_arguments path.now) }
{
    let parts = parts_of(alloc, path)?;
    Vec::from_slice(alloc, after_two(&parts))
}

// The arguments of a path, and after them the fields of a row.
fn row_arguments<'a>(
    alloc: Global,
    path: &'a [u8],
    row: &'a ByteRecord,
) -> Result<Vec<&'a [u8]>, AllocError>
    ensures { IfOk result (λ arguments.
        map (λ a. a.now) arguments.items ≡ path_arguments path.now ++ fields_of row.now) }
{
    let mut arguments = path_arguments(alloc, path)?;
    let fields = field_list(alloc, row)?;
    arguments.extend_from_slice(&fields)?;
    Ok(arguments)
}

// What a route asks if its body is one row, whose fields are the last arguments; none if there is no row, or more.
fn ask_by_row(
    alloc: Global,
    zone: &Zone,
    now: Moment,
    caller: Caller,
    word: &[u8],
    path: &[u8],
    body: &[u8],
) -> Result<Option<Ask>, AllocError>
    ensures { IfOk result (λ ask. ask ≡ ask_by_row zone.now now caller word.now (path_arguments path.now) body.now) }
{
    let Some(row) = only_row(alloc, body)? else {
        return Ok(None);
    };
    let arguments = row_arguments(alloc, path, &row)?;
    asks_of(alloc, zone, now, caller, word, &arguments)
}

// What a route asks if its body is its last argument.
fn ask_by_body(
    alloc: Global,
    zone: &Zone,
    now: Moment,
    caller: Caller,
    word: &[u8],
    path: &[u8],
    body: &[u8],
) -> Result<Option<Ask>, AllocError>
    ensures { IfOk result (λ ask. ask ≡ spelled_asks zone.now now caller word.now
        (path_arguments path.now ++ body.now ∷ [])) }
{
    let mut arguments = path_arguments(alloc, path)?;
    arguments.push(body)?;
    asks_of(alloc, zone, now, caller, word, &arguments)
}

// What a route asks if its body isn't used.
fn ask_by_path(
    alloc: Global,
    zone: &Zone,
    now: Moment,
    caller: Caller,
    word: &[u8],
    path: &[u8],
) -> Result<Option<Ask>, AllocError>
    ensures { IfOk result (λ ask. ask ≡ spelled_asks zone.now now caller word.now (path_arguments path.now)) }
{
    let arguments = path_arguments(alloc, path)?;
    asks_of(alloc, zone, now, caller, word, &arguments)
}

/// What a route asks at a moment, in seconds since 1970 UTC: the same as the record with its word and its arguments;
/// none if these make no record.
pub(crate) fn ask_of_route(
    alloc: Global,
    zone: &Zone,
    now: Moment,
    caller: Caller,
    route: Route,
    path: &[u8],
    body: &[u8],
) -> Result<Option<Ask>, AllocError>
    ensures { IfOk result (λ ask. ask ≡ ask_of_route zone.now now caller route path.now body.now) }
{
    let word = route.word();
    match route {
        Route::Quote => ask_by_row(alloc, zone, now, caller, word, path, body),
        Route::Plan | Route::Import => ask_by_body(alloc, zone, now, caller, word, path, body),
        _ => ask_by_path(alloc, zone, now, caller, word, path),
    }
}
