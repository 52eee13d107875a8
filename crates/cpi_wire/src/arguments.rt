//! Lists of a fixed number of arguments. Each function returns the arguments; none if there are fewer or more.
ghost use Rattle.std.specs.Prelude.{◌≡◌, map, option_map};
ghost use Rattle.cpi_wire.specs.Arguments.{none, exactly_one, exactly_two, exactly_two_or_three, exactly_four};
ghost use Rattle.cpi_wire.specs.Arguments.{exactly_four_and_confirm, is_confirm, exactly_five, exactly_six};

/// No argument.
pub(crate) fn no_more(arguments: &[&[u8]]) -> Option<()>
    ensures { result ≡ none (map (λ a. a.now) arguments.now) }
{
    if arguments.len() == 0 { Some(()) } else { None }
}

/// One argument.
pub(crate) fn one<'a>(arguments: &[&'a [u8]]) -> Option<&'a [u8]>
    ensures { option_map (λ a. a.now) result ≡ exactly_one (map (λ a. a.now) arguments.now) }
{
    if arguments.len() == 1 {
        Some(arguments[0])
    } else {
        None
    }
}

/// Two arguments.
pub(crate) fn two<'a>(arguments: &[&'a [u8]]) -> Option<(&'a [u8], &'a [u8])>
    ensures { option_map (λ a. (a.0.now, a.1.now)) result ≡ exactly_two (map (λ a. a.now) arguments.now) }
{
    if arguments.len() == 2 {
        Some((arguments[0], arguments[1]))
    } else {
        None
    }
}

/// Two arguments, and a third one if there is one.
pub(crate) fn two_or_three<'a>(
    arguments: &[&'a [u8]],
) -> Option<(&'a [u8], &'a [u8], Option<&'a [u8]>)>
    ensures { option_map (λ a. (a.0.now, a.1.now, option_map (λ t. t.now) a.2)) result
        ≡ exactly_two_or_three (map (λ a. a.now) arguments.now) }
{
    if arguments.len() == 2 {
        return Some((arguments[0], arguments[1], None));
    }
    if arguments.len() == 3 {
        Some((arguments[0], arguments[1], Some(arguments[2])))
    } else {
        None
    }
}

/// Four arguments.
pub(crate) fn four<'a>(arguments: &[&'a [u8]]) -> Option<(&'a [u8], &'a [u8], &'a [u8], &'a [u8])>
    ensures { option_map (λ a. (a.0.now, a.1.now, a.2.now, a.3.now)) result
        ≡ exactly_four (map (λ a. a.now) arguments.now) }
{
    if arguments.len() == 4 {
        Some((arguments[0], arguments[1], arguments[2], arguments[3]))
    } else {
        None
    }
}

// Whether an argument confirms an entry.
fn is_confirm(text: &[u8]) -> bool
    ensures { result ≡ is_confirm text.now }
{
    text == b"confirm".as_slice()
}

/// Four arguments, and whether a fifth one confirms them.
pub(crate) fn four_and_confirm<'a>(
    arguments: &[&'a [u8]],
) -> Option<(&'a [u8], &'a [u8], &'a [u8], &'a [u8], bool)>
    ensures { option_map (λ a. (a.0.now, a.1.now, a.2.now, a.3.now, a.4)) result
        ≡ exactly_four_and_confirm (map (λ a. a.now) arguments.now) }
{
    if arguments.len() == 4 {
        return Some((
            arguments[0],
            arguments[1],
            arguments[2],
            arguments[3],
            false,
        ));
    }
    if arguments.len() == 5 && is_confirm(arguments[4]) {
        Some((arguments[0], arguments[1], arguments[2], arguments[3], true))
    } else {
        None
    }
}

/// Five arguments.
pub(crate) fn five<'a>(
    arguments: &[&'a [u8]],
) -> Option<(&'a [u8], &'a [u8], &'a [u8], &'a [u8], &'a [u8])>
    ensures { option_map (λ a. (a.0.now, a.1.now, a.2.now, a.3.now, a.4.now)) result
        ≡ exactly_five (map (λ a. a.now) arguments.now) }
{
    if arguments.len() == 5 {
        Some((
            arguments[0],
            arguments[1],
            arguments[2],
            arguments[3],
            arguments[4],
        ))
    } else {
        None
    }
}

/// Six arguments.
pub(crate) fn six<'a>(
    arguments: &[&'a [u8]],
) -> Option<(&'a [u8], &'a [u8], &'a [u8], &'a [u8], &'a [u8], &'a [u8])>
    ensures { option_map (λ a. (a.0.now, a.1.now, a.2.now, a.3.now, a.4.now, a.5.now)) result
        ≡ exactly_six (map (λ a. a.now) arguments.now) }
{
    if arguments.len() == 6 {
        Some((
            arguments[0],
            arguments[1],
            arguments[2],
            arguments[3],
            arguments[4],
            arguments[5],
        ))
    } else {
        None
    }
}
