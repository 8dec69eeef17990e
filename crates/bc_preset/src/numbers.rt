//! Numbers as a configuration writes them.

ghost use Rattle.std.specs.Prelude.{◌≡◌, ◌≤◌, ◌+◌, ◌-◌, ◌*◌, true};
ghost use Rattle.std.specs.List.{list_all};
ghost use Rattle.std.specs.Char.{is_ascii_digit};
ghost use Rattle.bc_preset.specs.Numbers.{parse_decimal, is_decimal, has_first_digit, within_u64, decimal_value};

fn has_first_digit(text: &[u8]) -> bool
    ensures { result ≡ has_first_digit text.now }
{
    match text {
        [] => false,
        [_] => true,
        [first, ..] => *first != b'0',
    }
}

fn all_digits(text: &[u8]) -> bool
    ensures { result ≡ list_all is_ascii_digit text.now }
{
    text.iter().all(|b| b.is_ascii_digit())
}

/// One digit more behind a number.
#[tactic(auto, unfolding(crate::specs::Numbers::within_u64))]
fn with_digit(value: u64, digit: u8) -> Option<u64>
    requires at_least { 48 ≤ digit }
    requires at_most { digit ≤ 57 }
    ensures { result ≡ within_u64 (value * 10 + (digit - 48)) }
{
    match value.checked_mul(10) {
        Some(tens) => tens.checked_add(u64::from(digit - b'0')),
        None => None,
    }
}

#[tactic(auto, using(crate::proofs::Digits::digit_steps))]
fn value(digits: &[u8]) -> Option<u64>
    requires { list_all is_ascii_digit digits.now ≡ true }
    ensures { result ≡ within_u64 (decimal_value digits.now) }
{
    let mut value = 0;
    for b in digits {
        value = with_digit(value, *b)?;
    }
    Some(value)
}

/// The number that the text writes in decimal digits, without sign or leading zero, if it is below 2^64.
#[tactic(auto, unfolding(crate::specs::Numbers::parse_decimal, crate::specs::Numbers::is_decimal))]
pub fn number(text: &[u8]) -> Option<u64>
    ensures { result ≡ parse_decimal text.now }
{
    if all_digits(text) && has_first_digit(text) {
        value(text)
    } else {
        None
    }
}
