//! Whole numbers read from decimal digits.
ghost use Rattle.std.specs.Prelude.{◌≡◌, ◌<◌, ◌≤◌, ◌^◌, IfSome};
ghost use Rattle.iss_model.specs.Amounts.{is_unpadded};
ghost use Rattle.iss_amount.specs.Digits.{number_after, number_in};

/// The number that a text spells, if it is from `least` to `most`: digits without a leading zero, save a lone zero.
pub fn number_in(least: u64, most: u64, text: &[u8]) -> Option<u64>
    requires room { most < 2 ^ 60 }
    ensures said { result ≡ number_in least most text.now }
    ensures range { IfSome result (λ n. (least ≤ n) × (n ≤ most)) }
{
    if is_unpadded(text) {
        number_after(0, least, most, text)
    } else {
        None
    }
}

/// There are digits, with no zero before another.
fn is_unpadded(digits: &[u8]) -> bool
    ensures { result ≡ is_unpadded digits.now }
{
    match digits {
        [] => false,
        [_] => true,
        [first, ..] => *first != b'0',
    }
}

/// The number that digits spell after those of `start`, if it is from `least` to `most`.
#[tactic(auto, using(crate::proofs::Bounds::stays_great))]
pub(crate) fn number_after(start: u64, least: u64, most: u64, digits: &[u8]) -> Option<u64>
    requires room { most < 2 ^ 60 }
    ensures said { result ≡ number_after start least most digits.now }
    ensures range { IfSome result (λ n. (least ≤ n) × (n ≤ most)) }
{
    let mut number = start;
    for byte in digits {
        // More digits never bring it down again.
        if number > most {
            return None;
        }
        if !byte.is_ascii_digit() {
            return None;
        }
        number = 10 * number + u64::from(*byte - b'0');
    }
    (least..=most).contains(&number).then_some(number)
}
