//! The value of one field.
ghost use Rattle.std.specs.Prelude.{◌≡◌, IfOk};
ghost use Rattle.cpi_codes.specs.CodeOf.{spelled_code};
ghost use Rattle.cpi_wire.specs.Values.{spelled_time, spelled_month, spelled_name, spelled_weight, spelled_mark};
ghost use Rattle.cpi_wire.specs.Values.{spelled_reason, spelled_elementary_code, spelled_form};

use cpi_codes::{Code, Moment, Month, Name, NameFault, Price, Zone, moment_at, number_of};
use cpi_plan::ALL_PARTS;
use cpi_release::Form;
use cpi_survey::{Mark, Reason};
use std::alloc::{AllocError, Global};

/// A moment: a number of seconds since 1970 UTC, or the civil time that a clock of the zone shows then.
pub(crate) fn time_of(zone: &Zone, text: &[u8]) -> Option<Moment>
    ensures { result ≡ spelled_time zone.now text.now }
{
    match Moment::parse(text) {
        Some(moment) => Some(moment),
        None => moment_at(zone, text).ok(),
    }
}

/// A month, as `YYYY-MM`.
pub(crate) fn month_of(text: &[u8]) -> Option<Month>
    ensures { result ≡ spelled_month text.now }
{
    Month::parse(text).ok()
}

/// A code of the classification.
pub(crate) fn code_of(text: &[u8]) -> Option<Code>
    ensures { result ≡ spelled_code text.now }
{
    Code::parse(text).ok()
}

/// The code of an elementary aggregate.
pub(crate) fn elementary_code_of(text: &[u8]) -> Option<Code>
    ensures { result ≡ spelled_elementary_code text.now }
{
    let code = code_of(text)?;
    if code.is_elementary() {
        Some(code)
    } else {
        None
    }
}

/// The form of a printed table.
pub(crate) fn form_of(text: &[u8]) -> Option<Form>
    ensures { result ≡ spelled_form text.now }
{
    if text == b"text".as_slice() {
        Some(Form::Text)
    } else if text == b"csv".as_slice() {
        Some(Form::Csv)
    } else {
        None
    }
}

/// A weight in parts per million, up to `ALL_PARTS`.
pub(crate) fn weight_of(text: &[u8]) -> Option<u32>
    ensures { result ≡ spelled_weight text.now }
{
    Some(number_of(text, 0, ALL_PARTS)? as u32)
}

/// A name, title, unit or text; none if it isn't one.
pub(crate) fn name_of(alloc: Global, text: &[u8]) -> Result<Option<Name>, AllocError>
    ensures { IfOk result (λ n. n ≡ spelled_name text.now) }
{
    match Name::new(alloc, text) {
        Ok(name) => Ok(Some(name)),
        Err(NameFault::Text) => Ok(None),
        Err(NameFault::NoMemory) => Err(AllocError),
    }
}

// The reason why there is no price.
fn reason_of(text: &[u8]) -> Option<Reason>
    ensures { result ≡ spelled_reason text.now }
{
    if text == b"stock".as_slice() {
        Some(Reason::Stock)
    } else if text == b"closed".as_slice() {
        Some(Reason::Closed)
    } else if text == b"gone".as_slice() {
        Some(Reason::Gone)
    } else if text == b"refused".as_slice() {
        Some(Reason::Refused)
    } else {
        None
    }
}

/// A mark: a price in minor units, a reason why there is none, or the price of a replacement.
pub(crate) fn mark_of(mark: &[u8], value: &[u8]) -> Option<Mark>
    ensures { result ≡ spelled_mark mark.now value.now }
{
    if mark == b"price".as_slice() {
        Some(Mark::Price(Price::parse(value)?))
    } else if mark == b"missing".as_slice() {
        Some(Mark::Missing(reason_of(value)?))
    } else if mark == b"comparable".as_slice() {
        Some(Mark::Comparable(Price::parse(value)?))
    } else if mark == b"other".as_slice() {
        Some(Mark::Other(Price::parse(value)?))
    } else {
        None
    }
}
