//! Numbers, codes and texts of the survey, each within its limits.
#![tactic(auto)]

mod civil;
mod code_below;
mod code_laws;
mod code_order;
mod code_texts;
mod codes;
mod collectors;
mod item_codes;
mod keys;
mod laws;
mod limits;
mod moments;
mod months;
mod names;
mod number;
mod outlets;
mod prices;
mod rounding;
mod series;
mod slots;
mod spelling;
mod years;
mod zone;

pub use code_laws::{nodes_are_on_the_path, one_text_one_code};
pub use code_texts::CodeFault;
pub use codes::Code;
pub use collectors::CollectorId;
pub use item_codes::ItemCode;
pub use keys::Key;
pub use laws::{
    item_codes_are_in_byte_order, item_codes_have_one_spelling, keys_have_one_spelling,
    months_are_read_again, months_have_one_spelling, numbers_are_read_again,
    numbers_have_one_spelling,
};
pub use limits::{
    GREATEST_COLLECTOR, GREATEST_OUTLET, GREATEST_PRICE, GREATEST_SLOT, LAST_MOMENT, LONGEST_NAME,
    MOST_SERIES,
};
pub use moments::Moment;
pub use months::{Month, MonthFault};
pub use names::{Name, NameFault};
pub use number::number_of;
pub use outlets::OutletId;
pub use prices::Price;
pub use rounding::round_div;
pub use series::SeriesId;
pub use slots::Slot;
pub use years::Year;
pub use zone::{MomentFault, Zone, moment_at, one_answer, picks_as_stated, zone_of};
