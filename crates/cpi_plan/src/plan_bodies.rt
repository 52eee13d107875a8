//! The rows of a yearly plan, as the desk sends them.
use crate::plan_rows::{Place, Title, Weight};
use cpi_codes::Month;
use cpi_rows::Rows;

/// The rows that the desk sends for the plan of a year, each list in any order. Nothing is checked yet: a code may come
/// twice, and a weight may be any number.
#[derive(Drop)]
pub struct PlanBody {
    /// The titles of codes.
    pub titles: Rows<Title>,
    /// The weights of elementary aggregates.
    pub weights: Rows<Weight>,
    /// The elementary aggregates of the items.
    pub places: Rows<Place>,
    /// The price reference months of the weights: a plan has one or none.
    pub references: Rows<Month>,
}
