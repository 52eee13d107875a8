//! Rows of a work list.
use crate::quote::Quote;
use cpi_codes::{ItemCode, Name, OutletId, Price, Slot};
use std::marker::Model;

/// A row of a work list: the item to price in a slot, with its outlet, its last price and the stored quote.
#[derive(Drop)]
pub struct WorkRow {
    /// The slot.
    pub slot: Slot,
    /// The outlet in which the item is priced.
    pub outlet: OutletId,
    /// The outlet's name.
    pub outlet_name: Name,
    /// The item that is priced.
    pub item: ItemCode,
    /// The item's text.
    pub text: Name,
    /// The unit that is priced.
    pub unit: Name,
    /// The last price of the assignment before the month, in minor units, if there is one.
    pub last: Option<Price>,
    /// The stored quote of the slot and the month, if there is one.
    pub quote: Option<Quote>,
}

impl Model for WorkRow {
    ghost use Rattle.cpi_survey.specs.WorkPart.{WorkPart};

    ghost Value = { WorkPart };

    ghost view = { λ w. record {
      slot = w.slot;
      outlet = w.outlet;
      outlet_name = w.outlet_name;
      item = w.item;
      text = w.text;
      unit = w.unit;
      last = w.last;
      quote = w.quote;
    } };
}
