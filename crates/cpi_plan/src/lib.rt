//! Items of the survey, the rows of its calendar, and yearly plans.
#![tactic(auto)]

mod calendar;
mod checks;
mod items;
mod limits;
mod once;
mod plan_bodies;
mod plan_faults;
mod plan_rows;
mod plans;
mod same_rows;
mod stored;
mod sums;
mod tolerances;
mod weighing;

pub use calendar::CalendarRow;
pub use items::Item;
pub use limits::{ALL_PARTS, GREATEST_TOLERANCE, PER_MILLE};
pub use plan_bodies::PlanBody;
pub use plan_faults::PlanFault;
pub use plan_rows::{Node, Place, Title, Weight};
pub use plans::{YearPlan, has_one_fault, makes_one_plan, nodes_are_in_order};
pub use sums::add_path;
pub use tolerances::{HighTolerance, LowTolerance};
