//! The index of a month over whole lists, step by step. `cpi` doesn't call these: it works one elementary aggregate at
//! a time.

mod carry;
mod chaining;
mod indices;
mod means;
mod month;
mod ticks;
mod totals;
mod updating;
mod year;

pub use carry::carry_month;
pub use chaining::chain;
pub use indices::elementary;
pub use means::upper;
pub use updating::effective_weights;
pub use year::bases_of_year;
