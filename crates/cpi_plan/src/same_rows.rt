//! Lists with the same rows.
ghost use Rattle.std.specs.Prelude.{◌≡◌, Bool};
ghost use Rattle.std.specs.Cmp.Lexicographic.{pointwise};
ghost use Rattle.cpi_plan.specs.SamePlan.{same_node, same_weight, same_place};

use crate::plan_rows::{Node, Place, Weight};

// A row of a plan that can be compared with another.
pub(crate) trait Alike {
    ghost alike: { Self → Self → Bool };

    // Whether the two rows have the same content.
    fn is_same(&self, other: &Self) -> bool
        ensures { result ≡ alike self.now other.now };
}

impl Alike for Node {
    ghost alike = { same_node };

    fn is_same(&self, other: &Node) -> bool {
        self.code.is_same(other.code)
            && self.title.is_same(&other.title)
            && self.weight == other.weight
    }
}

impl Alike for Weight {
    ghost alike = { same_weight };

    fn is_same(&self, other: &Weight) -> bool {
        self.code.is_same(other.code) && self.parts == other.parts
    }
}

impl Alike for Place {
    ghost alike = { same_place };

    fn is_same(&self, other: &Place) -> bool {
        self.item == other.item && self.aggregate.is_same(other.aggregate)
    }
}

// Whether the two lists have the same rows, each in its place.
pub(crate) fn are_same<T: Alike>(left: &[T], right: &[T]) -> bool
    ensures { result ≡ pointwise T.alike left.now right.now }
{
    if left.len() != right.len() {
        return false;
    }
    for i in 0..left.len() {
        if !left[i].is_same(&right[i]) {
            return false;
        }
    }
    true
}
