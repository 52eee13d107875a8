//! The index of one month: bases, movements, carried prices, Dutot indices, means and chained levels.
#![tactic(auto)]

mod aggregate;
mod bases;
mod carried;
mod dutot;
mod effective;
mod examples;
mod fault;
mod frozen;
mod group;
mod index;
mod item_places;
mod lack;
mod level;
mod limits;
mod lists;
mod month_groups;
mod movement;
mod node_weight;
mod one_table;
mod placed;
mod places;
mod row;
mod rows;
mod series;
mod sorting;
mod summing;
mod updating;
mod weight_levels;

pub use carried::CarriedPrice;
pub use effective::EffectiveWeight;
pub use examples::worked_months;
pub use fault::IndexFault;
pub use frozen::FrozenQuote;
pub use group::{GroupIndex, carry_group};
pub use index::{Index, NodeIndex};
pub use lack::GroupLack;
pub use level::{ChainedLevel, NodeLevel};
pub use limits::{
    HUNDRED_POINTS, MOST_INDEX, MOST_LEVEL, MOST_NODE_WEIGHT, MOST_SUM_OF_TICKS, MOST_TICKS,
    MOST_WEIGHT_IN_USE, MOST_WEIGHTED_INDEX, MOST_WEIGHTED_SUM,
};
pub use lists::{bases_of_year, carry_month, chain, effective_weights, elementary, upper};
pub use month_groups::{groups_of_january, groups_of_month};
pub use node_weight::NodeWeight;
pub use one_table::tables_are_one;
pub use places::unchanged_of;
pub use row::GroupRow;
pub use series::one_number_one_series;
pub use sorting::put_by_series;
pub use summing::weights_under;
pub use updating::{move_weights, own_weights};
pub use weight_levels::WeightLevels;
