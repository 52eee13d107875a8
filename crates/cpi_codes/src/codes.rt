//! Codes of the classification of consumption by purpose.
ghost use Rattle.std.specs.Prelude.{◌≡◌, IsTrue};
ghost use Rattle.cpi_codes.specs.CodeParts.{are_parts};

/// A node of the classification: `00` (all items), a division `01` to `13`, a group, class or subclass (one digit
/// more each, after a dot), or an elementary aggregate (a subclass, a dash, and `01` to `99`).
///
/// An absent part is `None`, and comes before every part that is there: so the order of the parts, one by one, is the
/// byte order of the text.
#[derive(Clone, Copy, Debug, PartialEq, Eq, PartialOrd, Ord, Hash)]
pub struct Code {
    pub division: u8,
    pub group: Option<u8>,
    pub class: Option<u8>,
    pub subclass: Option<u8>,
    pub aggregate: Option<u8>,
    ghost valid: { IsTrue (are_parts division group class subclass aggregate) },
}
