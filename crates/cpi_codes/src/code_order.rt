//! The order of codes, their levels, and the codes above them.
ghost use Rattle.std.specs.Prelude.{◌≡◌, option_map};
ghost use Rattle.std.specs.Ordering.{nat_cmp};
ghost use Rattle.std.specs.Cmp.Lexicographic.{slice_cmp};
ghost use Rattle.cpi_codes.specs.CodeText.{code_text};
ghost use Rattle.cpi_codes.specs.CodeLevel.{level_of_code, parent_text};
ghost use Rattle.cpi_codes.specs.CodeOrder.{is_code_elementary, is_same_code};

use crate::codes::Code;
use std::cmp::Ordering;

impl Code {
    /// Compares by the bytes of the texts. It is the order of codes itself.
    pub fn compare_text(self, other: Code) -> Ordering
        ensures { result ≡ slice_cmp nat_cmp (code_text self) (code_text other) }
    {
        self.cmp(&other)
    }

    /// Whether the two codes are one.
    pub fn is_same(self, other: Code) -> bool
        ensures { result ≡ is_same_code self other }
    {
        let order = self.cmp(&other);
        order.is_eq()
    }

    /// 0 for `00`, 1 for a division, up to 5 for an elementary aggregate.
    pub fn level(self) -> u8
        ensures { result ≡ level_of_code self }
    {
        match (
            self.division,
            self.group,
            self.class,
            self.subclass,
            self.aggregate,
        ) {
            (_, _, _, _, Some(_)) => 5,
            (_, _, _, Some(_), None) => 4,
            (_, _, Some(_), None, None) => 3,
            (_, Some(_), None, None, None) => 2,
            (0, None, None, None, None) => 0,
            (_, None, None, None, None) => 1,
        }
    }

    /// Whether it is an elementary aggregate.
    pub fn is_elementary(self) -> bool
        ensures { result ≡ is_code_elementary self }
    {
        self.aggregate.is_some()
    }

    /// The code above: of an elementary aggregate its subclass, of a division `00`; `00` has none.
    pub fn parent(self) -> Option<Code>
        ensures { option_map code_text result ≡ parent_text self }
    {
        let mut above = self;
        if above.aggregate.is_some() {
            above.aggregate = None;
        } else if above.subclass.is_some() {
            above.subclass = None;
        } else if above.class.is_some() {
            above.class = None;
        } else if above.group.is_some() {
            above.group = None;
        } else if above.division > 0 {
            above.division = 0;
        } else {
            return None;
        }
        Some(above)
    }
}
