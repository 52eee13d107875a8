//! Reads of the tables of an office, and their caches.
#![tactic(auto)]

mod cached_list;
mod cached_lists;
mod chained;
mod earlier;
mod follow;
mod groups;
mod headers;
mod releases;
mod survey;
mod years;

pub use cached_lists::{CachedLists, follow_release};
pub use chained::{chained_level, ready_table};
pub use follow::{
    follow_assignment, follow_calendar, follow_collector, follow_handover, follow_item,
    follow_outlet, follow_plan, follow_quote,
};
pub use groups::sample_of;
pub use headers::{frozen_months, is_there, published_months, revision_published};
pub use releases::read_headers;
pub use survey::read_survey;
