//! How values are written in columns. To read a column gives the value that was written.
ghost use Rattle.std.specs.Prelude.{◌≡◌};
ghost use Rattle.cpi_codes.specs.Key.{key_of};
ghost use Rattle.cpi_codes.specs.CodeOf.{spelled_code};
ghost use Rattle.cpi_codes.specs.ItemCode.{item_code_of};
ghost use Rattle.cpi_codes.specs.declared.limits.TheConstants.{GREATEST_SLOT, GREATEST_COLLECTOR, GREATEST_OUTLET};
ghost use Rattle.cpi_sql_rows.specs.Common.{IfOk, Int, None, OnErr, OnOk, Some, pos, string_bytes};
ghost use Rattle.cpi_sql_rows.specs.Lists.{mark_from, mark_word, month_at, name_of, number_within, receipt_from};

use crate::stored::Unread;
use cpi_codes::{
    Code, CollectorId, ItemCode, Key, LAST_MOMENT, Moment, Month, Name, OutletId, Slot,
};
use cpi_plan::{HighTolerance, LowTolerance};
use cpi_survey::{LAST_RECEIPT, Mark, Reason};
use sqlite::types::Value;
use std::alloc::Global;

/// The key's 32 hexadecimal digits. The error says that memory was refused.
pub fn key_text(alloc: Global, key: Key) -> Result<String, Unread>
    ensures { IfOk result (λ s. key_of (string_bytes s) ≡ Some key) }
{
    let text = format!(in alloc; "{:032x}", key.value()).map_err(|_| Unread)?;
    if Key::parse(text.as_bytes()) == Some(key) {
        Ok(text)
    } else {
        Err(Unread)
    }
}

/// A month as year * 100 + month.
pub fn month_number(month: Month) -> u32
    ensures { month_at result ≡ Some month }
{
    u32::from(month.year()) * 100 + u32::from(month.month())
}

/// The number of the collector.
pub fn collector_number(collector: CollectorId) -> u32
    ensures value { result ≡ collector }
    ensures range { number_within 1 GREATEST_COLLECTOR (Int (pos collector)) ≡ Some collector }
{
    u32::from(collector.number())
}

/// The number of the outlet.
pub fn outlet_number(outlet: OutletId) -> u32
    ensures { number_within 1 GREATEST_OUTLET (Int (pos result)) ≡ Some outlet }
{
    outlet.number()
}

/// The number of the slot.
pub fn slot_number(slot: Slot) -> u32
    ensures value { result ≡ slot }
    ensures range { number_within 1 GREATEST_SLOT (Int (pos slot)) ≡ Some slot }
{
    u32::from(slot.number())
}

/// The low tolerance, per mille.
pub fn low_number(low: LowTolerance) -> u32
    ensures { number_within 1 1000 (Int (pos result)) ≡ Some low }
{
    u32::from(low.per_mille())
}

/// The high tolerance, per mille.
pub fn high_number(high: HighTolerance) -> u32
    ensures { number_within 1000 10000 (Int (pos result)) ≡ Some high }
{
    u32::from(high.per_mille())
}

/// The name as it is.
pub fn name_text(name: &Name) -> &str
    ensures value { result.now ≡ name.now }
    ensures name { name_of name.now ≡ Some name.now }
{
    name.as_str()
}

/// The code of the item. The error says that memory was refused.
pub fn item_text(alloc: Global, code: ItemCode) -> Result<String, Unread>
    ensures { IfOk result (λ s. item_code_of (string_bytes s) ≡ Some code) }
{
    code.text(alloc).map_err(|_| Unread)
}

/// The code of the node. The error says that memory was refused.
#[tactic(auto, using(crate::proofs::Written::code_read))]
pub fn code_text(alloc: Global, code: Code) -> Result<String, Unread>
    ensures { IfOk result (λ s. spelled_code (string_bytes s) ≡ Some code) }
{
    code.text(alloc).map_err(|_| Unread)
}

/// The word of the mark; a missing price has the one of its reason.
pub fn mark_text(mark: Mark) -> &'static str
    ensures { result.now ≡ mark_word mark }
{
    match mark {
        Mark::Price(_) => "price",
        Mark::Comparable(_) => "comparable",
        Mark::Other(_) => "other",
        Mark::Missing(Reason::Stock) => "stock",
        Mark::Missing(Reason::Closed) => "closed",
        Mark::Missing(Reason::Gone) => "gone",
        Mark::Missing(Reason::Refused) => "refused",
    }
}

/// The price of the mark in minor units, or 0 if the price is missing.
pub fn mark_value(mark: Mark) -> u32
    ensures { mark_from (mark_word mark) result ≡ Some mark }
{
    mark.observed_price().map_or(0, |price| price.units())
}

/// The receipt. The error says that it is no receipt: it is 0 or above 1,000,000.
pub fn receipt_number(receipt: u32) -> Result<u32, Unread>
    ensures value { IfOk result (λ n. n ≡ receipt) }
    ensures range { OnOk result (receipt_from (Int (pos receipt)) ≡ Some receipt) }
    ensures refused { OnErr result (receipt_from (Int (pos receipt)) ≡ None) }
{
    if 1 <= receipt && receipt <= LAST_RECEIPT {
        Ok(receipt)
    } else {
        Err(Unread)
    }
}

/// The moment, in seconds since 1970 UTC.
pub fn moment_value(moment: Moment) -> Value
    ensures value { result ≡ Int (pos moment) }
    ensures range { number_within 0 LAST_MOMENT (Int (pos moment)) ≡ Some moment }
{
    Value::Int(moment.seconds() as i64)
}
