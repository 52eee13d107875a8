//! The numbers that a text of a code spells.
ghost use Rattle.std.specs.Prelude.{◌≡◌, ◌+◌, ◌-◌, ◌*◌, ◌≤◌, ◌<◌, length, SomeIff, MatchOption, MatchResult, IsTrue};
ghost use Rattle.cpi_codes.specs.CodeSpelling.{IsSpelled, is_numbered};
ghost use Rattle.cpi_codes.specs.declared.spelling.Parts.{Parts};

// How many bytes the text of a class has, as `01.1.1`.
const CLASS_LEN: usize = 6;

/// The numbers of a code's text.
#[derive(Clone, Copy)]
pub struct Parts {
    pub division: u8,
    pub group: Option<u8>,
    pub class: Option<u8>,
    pub subclass: Option<u8>,
    pub aggregate: Option<u8>,
}

// The value of a decimal digit, 0 to 9.
fn digit(byte: u8) -> Option<u8>
    ensures { SomeIff result ((48 ≤ byte) × (byte ≤ 57)) (byte - 48) }
{
    if b'0' <= byte && byte <= b'9' {
        Some(byte - b'0')
    } else {
        None
    }
}

// The parts, if their division is one: 01 to 15, or 00 without further parts.
fn numbered(parts: Parts) -> Option<Parts>
    ensures { SomeIff result (IsTrue (is_numbered parts)) parts }
{
    if parts.division <= 15 && (1 <= parts.division || parts.group.is_none()) {
        Some(parts)
    } else {
        None
    }
}

// The value of two decimal digits.
fn two(tens: u8, ones: u8) -> Option<u8>
    ensures { SomeIff result ((48 ≤ tens) × (tens ≤ 57) × ((48 ≤ ones) × (ones ≤ 57)))
        (10 * (tens - 48) + (ones - 48)) }
{
    Some(10 * digit(tens)? + digit(ones)?)
}

// The values of three decimal digits: of a group, a class and a subclass.
fn three(group: u8, class: u8, subclass: u8) -> Option<(u8, u8, u8)>
    ensures { SomeIff result
        ((48 ≤ group) × (group ≤ 57) × ((48 ≤ class) × (class ≤ 57)) × ((48 ≤ subclass) × (subclass ≤ 57)))
        (group - 48, class - 48, subclass - 48) }
{
    Some((digit(group)?, digit(class)?, digit(subclass)?))
}

// Of a text of a division, a group or a class.
fn read_to_class(text: &[u8]) -> Option<Parts>
    requires { length text.now ≤ 6 }
    ensures { MatchOption result ((p : Parts) → IsSpelled p text.now → ⊥) (λ p. IsSpelled p text.now) }
{
    match *text {
        [a, b] => numbered(Parts {
            division: two(a, b)?,
            group: None,
            class: None,
            subclass: None,
            aggregate: None,
        }),
        [a, b, b'.', g] => numbered(Parts {
            division: two(a, b)?,
            group: Some(digit(g)?),
            class: None,
            subclass: None,
            aggregate: None,
        }),
        [a, b, b'.', g, b'.', c] => numbered(Parts {
            division: two(a, b)?,
            group: Some(digit(g)?),
            class: Some(digit(c)?),
            subclass: None,
            aggregate: None,
        }),
        _ => None,
    }
}

// Of a text of a subclass or an elementary aggregate.
fn read_below_class(text: &[u8]) -> Option<Parts>
    requires { 6 < length text.now }
    ensures { MatchOption result ((p : Parts) → IsSpelled p text.now → ⊥) (λ p. IsSpelled p text.now) }
{
    match *text {
        [a, b, b'.', g, b'.', c, b'.', s] => {
            let (group, class, subclass) = three(g, c, s)?;
            numbered(Parts {
                division: two(a, b)?,
                group: Some(group),
                class: Some(class),
                subclass: Some(subclass),
                aggregate: None,
            })
        }
        [a, b, b'.', g, b'.', c, b'.', s, b'-', m, n] => {
            let (group, class, subclass) = three(g, c, s)?;
            numbered(Parts {
                division: two(a, b)?,
                group: Some(group),
                class: Some(class),
                subclass: Some(subclass),
                aggregate: Some(two(m, n)?),
            })
        }
        _ => None,
    }
}

/// The numbers of a code's text; none where it has another shape.
pub fn read(text: &[u8]) -> Option<Parts>
    ensures { MatchOption result ((p : Parts) → IsSpelled p text.now → ⊥) (λ p. IsSpelled p text.now) }
{
    if text.len() <= CLASS_LEN {
        read_to_class(text)
    } else {
        read_below_class(text)
    }
}
