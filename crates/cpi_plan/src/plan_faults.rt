//! Faults of the rows that are sent for a plan.
use cpi_codes::Code;

/// The fault for which the rows that were sent make no plan: the first one in this order. Memory can be refused at any
/// time.
#[derive(Clone, Copy, Debug, PartialEq, Eq)]
pub enum PlanFault {
    /// Two titles have the same code, or two weights have.
    DuplicateCode,
    /// A weight or a place has a code that is no elementary aggregate.
    NotElementary,
    /// A weight is 0.
    ZeroWeight,
    /// The weights add up to this sum, which isn't `ALL_PARTS`.
    WeightSum(u128),
    /// The first code, in code order, that has weight at or below it and no title.
    TitleMissing(Code),
    /// A place has an item that isn't known.
    UnknownItem,
    /// Two places have the same item.
    ItemTwice,
    /// An item is placed in an elementary aggregate without weight.
    UnknownAggregate,
    /// There are two price reference months, or one that isn't before the plan's year.
    Reference,
    /// Memory was refused.
    NoMemory,
}
