//! Rounding.
ghost use Rattle.std.specs.Prelude.{◌≡◌, ◌+◌, ◌*◌, ◌^◌, ◌<◌};
ghost use Rattle.cpi_codes.specs.Rounding.{rounded_quotient};

/// The quotient of two whole numbers, rounded to the nearest whole number, halves upwards.
///
/// The denominator is positive, and twice the numerator and the denominator together fit into 128 bits.
pub fn round_div(numerator: u128, denominator: u128) -> u128
    requires positive { 0 < denominator }
    requires fits { 2 * numerator + denominator < 2 ^ 128 }
    ensures { result ≡ rounded_quotient numerator denominator }
{
    (2 * numerator + denominator) / denominator / 2
}
