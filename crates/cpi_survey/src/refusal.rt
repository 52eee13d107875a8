//! Refusals of entries.
use cpi_codes::Price;

/// The reason for which an entry of a quote is refused, in the order in which the reasons are checked.
#[derive(Clone, Copy, Debug, PartialEq, Eq)]
pub enum Refusal {
    /// The collector has no such slot.
    UnknownSlot,
    /// The calendar has no row of the month.
    UnknownMonth,
    /// The month is before the first month of the slot's assignment or after its last.
    NotActive,
    /// The moment is before the one at which the window of the month opens.
    NotOpen,
    /// The moment is the one at which the window of the month closes, or later.
    Closed,
    /// The price is that of a replacement, and the slot has no last price before the month.
    NoLastPrice,
    /// The price isn't confirmed, and it lies below `low` or above `high`, the bounds that the item sets round the
    /// last price of the slot. All three are in minor units; the bounds are at most 1,000,000,000.
    OutOfTolerance {
        /// The last price.
        last: Price,
        /// The least price that is taken unconfirmed.
        low: u64,
        /// The greatest price that is taken unconfirmed.
        high: u64,
    },
    /// The collector's greatest receipt is `LAST_RECEIPT`: there is no next one.
    ReceiptsUsedUp,
}
