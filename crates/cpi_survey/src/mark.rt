//! Marks: the price that a collector found for a slot in a month, or the reason that there is none.
ghost use Rattle.std.specs.Prelude.{◌≡◌};
ghost use Rattle.cpi_survey.specs.Mark.{checked_price, is_replacement, is_same_mark, observed_price};

use cpi_codes::Price;

/// Why no price was found.
#[derive(Clone, Copy, PartialEq, Eq)]
pub enum Reason {
    /// The item was out of stock.
    Stock,
    /// The outlet was closed.
    Closed,
    /// The outlet or the item is gone for good.
    Gone,
    /// The outlet refused to tell the price.
    Refused,
}

/// The price that a collector found for a slot in a month, or the reason that there is none. Prices are in minor units.
/// The Consumer Price Index Manual has the cases in its chapters on missing prices and on quality change.
#[derive(Clone, Copy, PartialEq, Eq)]
pub enum Mark {
    /// The price of the item itself.
    Price(Price),
    /// No price, and the reason.
    Missing(Reason),
    /// The price of a replacement that can be compared with the item.
    Comparable(Price),
    /// The price of a replacement that can't be compared with the item.
    Other(Price),
}

impl Mark {
    /// Whether both are the same kind of mark with the same value.
    pub fn is_same(self, other: Mark) -> bool
        ensures { result ≡ is_same_mark self other }
    {
        self == other
    }

    /// The price that was observed, in minor units: that of the item or of a replacement. A missing price is `None`.
    pub fn observed_price(self) -> Option<Price>
        ensures { result ≡ observed_price self }
    {
        match self {
            Mark::Price(price) | Mark::Comparable(price) | Mark::Other(price) => Some(price),
            Mark::Missing(_) => None,
        }
    }

    /// The price that is checked against the last one, in minor units: that of the item or of a comparable
    /// replacement. A replacement that can't be compared, or a missing price, is `None`.
    pub fn checked_price(self) -> Option<Price>
        ensures { result ≡ checked_price self }
    {
        match self {
            Mark::Price(price) | Mark::Comparable(price) => Some(price),
            Mark::Missing(_) | Mark::Other(_) => None,
        }
    }

    /// Whether the price is that of a replacement.
    pub fn is_replacement(self) -> bool
        ensures { result ≡ is_replacement self }
    {
        matches!(self, Mark::Comparable(_) | Mark::Other(_))
    }
}
