//! What stands below what.
ghost use Rattle.std.specs.Prelude.{◌≡◌};
ghost use Rattle.cpi_codes.specs.CodeText.{code_text, begins_with, is_code_below};
ghost use Rattle.cpi_codes.specs.CodeText.{is_code_at_or_below};

use crate::codes::Code;

impl Code {
    /// Whether this code is below the node: it is another code, and the node is `00` or this code's text begins with
    /// the node's.
    pub fn is_below(self, node: Code) -> bool
        ensures { result ≡ is_code_below node self }
    {
        let begins = self.begins_with(node);
        !(begins && node.begins_with(self)) && (node.division == 0 || begins)
    }

    /// Whether this code is the node or below it.
    pub fn is_at_or_below(self, node: Code) -> bool
        ensures { result ≡ is_code_at_or_below node self }
    {
        self.is_below(node) || (self.begins_with(node) && node.begins_with(self))
    }

    // Whether this code's text begins with the text of `start`.
    fn begins_with(self, start: Code) -> bool
        ensures { result ≡ begins_with (code_text self) (code_text start) }
    {
        self.division == start.division
            && (start.group.is_none() || self.group == start.group)
            && (start.class.is_none() || self.class == start.class)
            && (start.subclass.is_none() || self.subclass == start.subclass)
            && (start.aggregate.is_none() || self.aggregate == start.aggregate)
    }
}
