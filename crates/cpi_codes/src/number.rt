//! Numbers, as a field of a record writes them.
ghost use Rattle.std.specs.Prelude.{◌≡◌, ◌≤◌, ◌<◌, true, IfSome, MatchOption};
ghost use Rattle.std.specs.List.{list_all};
ghost use Rattle.std.specs.Char.{is_ascii_digit};
ghost use Rattle.std.specs.Str.Parse.{digits_value};
ghost use Rattle.cpi_codes.specs.Number.{is_number_text, number_in};

/// The number from `low` to `high` that the text writes, in decimal digits and nothing else: without a sign, and
/// without leading zeros. The text may be of any length.
#[tactic(auto, unfolding(crate::specs::Number::number_in))]
pub fn number_of(text: &[u8], low: u64, high: u64) -> Option<u64>
    ensures value { result ≡ number_in low high text.now }
    ensures within { IfSome result (λ n. (low ≤ n) × (n ≤ high)) }
{
    if !is_number(text) {
        return None;
    }
    let number = value_of(text, high)?;
    if low <= number { Some(number) } else { None }
}

// Decimal digits without a zero before them; 0 is `0`.
fn is_number(text: &[u8]) -> bool
    ensures { result ≡ is_number_text text.now }
{
    if text.is_empty() || !are_digits(text) {
        return false;
    }
    text.len() == 1 || text[0] != b'0'
}

// Only characters of 0-9.
pub(crate) fn are_digits(text: &[u8]) -> bool
    ensures { result ≡ list_all is_ascii_digit text.now }
{
    text.iter().all(|byte| byte.is_ascii_digit())
}

// The value of decimal digits, where it is at most `high`.
pub(crate) fn value_of(digits: &[u8], high: u64) -> Option<u64>
    requires { list_all is_ascii_digit digits.now ≡ true }
    ensures { MatchOption result (high < digits_value 10 digits.now)
        (λ n. (n ≡ digits_value 10 digits.now) × (n ≤ high)) }
{
    let mut value: u128 = 0;
    for digit in digits {
        value = 10 * value + u128::from(*digit - b'0');
        if value > u128::from(high) {
            return None;
        }
    }
    Some(value as u64)
}
