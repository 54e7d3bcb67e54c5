//! The offset of a clock from UTC.
ghost use Rattle.std.specs.Prelude.{◌≡◌, ◌≤◌, IfSome};
ghost use Rattle.iss_field.specs.Values.{two_digits, clock_minutes, signed_minutes, if_offset, offset_of_text, offset_of};

use crate::fields::Form;
use crate::found::text;
use iss_model::limits::{GREATEST_OFFSET, LEAST_OFFSET};
use json::Value;

/// A sign, two digits of hours, a colon and two digits of minutes: from `-12:00` to `+14:00`.
#[derive(Clone, Copy)]
pub struct OffsetForm;

impl Form for OffsetForm {
    type Said = i16;

    ghost said = { λ _. offset_of };

    #[tactic(auto, unfolding(crate::specs::Values::offset_of))]
    fn read(self, found: &Value<'_>) -> Option<i16> {
        offset_of_text(text(found)?.as_bytes())
    }
}

#[tactic(auto, unfolding(crate::specs::Values::offset_of_text))]
fn offset_of_text(text: &[u8]) -> Option<i16>
    ensures { result ≡ offset_of_text text.now }
{
    match text {
        [sign, a, b, b':', c, d] => {
            let minutes = clock_minutes(two_digits(*a, *b), two_digits(*c, *d))?;
            if_offset(signed_minutes(*sign, minutes)?)
        }
        _ => None,
    }
}

/// Hours, and minutes below 60, as minutes.
fn clock_minutes(hours: Option<u16>, minutes: Option<u16>) -> Option<u16>
    requires hours { IfSome hours (λ n. n ≤ 99) }
    ensures value { result ≡ clock_minutes hours minutes }
    ensures small { IfSome result (λ n. n ≤ 5999) }
{
    let hours = hours?;
    let minutes = minutes?;
    if minutes <= 59 {
        Some(60 * hours + minutes)
    } else {
        None
    }
}

fn two_digits(tens: u8, ones: u8) -> Option<u16>
    ensures value { result ≡ two_digits tens ones }
    ensures small { IfSome result (λ n. n ≤ 99) }
{
    if tens.is_ascii_digit() && ones.is_ascii_digit() {
        Some(10 * u16::from(tens - b'0') + u16::from(ones - b'0'))
    } else {
        None
    }
}

fn signed_minutes(sign: u8, minutes: u16) -> Option<i16>
    requires { minutes ≤ 5999 }
    ensures value { result ≡ signed_minutes sign minutes }
{
    match sign {
        b'+' => Some(minutes as i16),
        b'-' if minutes >= 1 => Some(-(minutes as i16)),
        _ => None,
    }
}

fn if_offset(offset: i16) -> Option<i16>
    ensures { result ≡ if_offset offset }
{
    (LEAST_OFFSET <= offset && offset <= GREATEST_OFFSET).then_some(offset)
}
