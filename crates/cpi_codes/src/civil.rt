//! The texts of civil times.
ghost use Rattle.std.specs.Prelude.{◌≡◌, ◌≢◌, ◌+◌, ◌/◌, ◌%◌, ◌<◌, ℕ, IfSome, IfNone};
ghost use Rattle.jiff_core.specs.declared.civil.datetime.DateTime.{DateTime as CivilTime};
ghost use Rattle.cpi_codes.specs.Civil.{IsCivilText, IsWritable, civil_text};

use jiff::civil::DateTime;

// The number that two digits write.
fn two_digits(tens: u8, ones: u8) -> Option<u8>
    ensures found { IfSome result (λ n. (n < 100) × (tens ≡ 48 + n / 10) × (ones ≡ 48 + n % 10)) }
    ensures none { IfNone result ((n : ℕ) → n < 100 → tens ≡ 48 + n / 10 → ones ≡ 48 + n % 10 → ⊥) }
{
    if tens.is_ascii_digit() && ones.is_ascii_digit() {
        Some((tens - b'0') * 10 + (ones - b'0'))
    } else {
        None
    }
}

// The numbers of a civil text.
#[derive(Clone, Copy)]
struct Fields {
    year: u16,
    month: u8,
    day: u8,
    hour: u8,
    minute: u8,
}

// Reads `YYYY-MM-DDTHH:MM`, whether the calendar has that time or not.
fn fields_of(text: &[u8]) -> Option<Fields>
    ensures found { IfSome result (λ f. IsWritable f.year f.month f.day f.hour f.minute
        × (text.now ≡ civil_text f.year f.month f.day f.hour f.minute)) }
    ensures none { IfNone result ((year month day hour minute : ℕ) → IsWritable year month day hour minute →
        text.now ≢ civil_text year month day hour minute) }
{
    let &[
        y1,
        y2,
        y3,
        y4,
        b'-',
        m1,
        m2,
        b'-',
        d1,
        d2,
        b'T',
        h1,
        h2,
        b':',
        n1,
        n2,
    ] = text
    else {
        return None;
    };
    let century = two_digits(y1, y2)?;
    let of_century = two_digits(y3, y4)?;
    let month = two_digits(m1, m2)?;
    let day = two_digits(d1, d2)?;
    let hour = two_digits(h1, h2)?;
    let minute = two_digits(n1, n2)?;
    let year = century as u16 * 100 + of_century as u16;
    Some(Fields {
        year,
        month,
        day,
        hour,
        minute,
    })
}

/// A time of the calendar at a full minute, with its year.
#[derive(Clone, Copy)]
pub(crate) struct Civil {
    pub(crate) year: u16,
    pub(crate) time: DateTime,
}

/// Reads `YYYY-MM-DDTHH:MM`; none where the calendar has no such time.
pub(crate) fn civil_of(text: &[u8]) -> Option<Civil>
    ensures found { IfSome result (λ civil. IsCivilText text.now civil.year civil.time) }
    ensures none { IfNone result ((year : ℕ) (time : CivilTime) → IsCivilText text.now year time → ⊥) }
{
    let fields = fields_of(text)?;
    let time = DateTime::new(
        fields.year as i16,
        fields.month as i8,
        fields.day as i8,
        fields.hour as i8,
        fields.minute as i8,
        0,
        0,
    );
    match time {
        Ok(time) => Some(Civil {
            year: fields.year,
            time,
        }),
        Err(_) => None,
    }
}
