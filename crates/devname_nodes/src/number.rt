// The numbers of devices.
ghost use Rattle.std.specs.Prelude.{◌≡◌, ◌≤◌, ◌==◌, length, IsTrue};
ghost use Rattle.std.specs.List.{list_all};
ghost use Rattle.std.specs.Char.{is_digit, digit_value};
ghost use Rattle.std.specs.Str.Parse.{digits_value};
ghost use Rattle.devname_nodes.specs.Numbers.{number as number_spec, plain_number, numbers};
ghost use Rattle.devname_nodes.specs.Numbers.{plain_numbers, has_leading_zero};

use km_names::split_at_byte;

/// Returns the number below 2^32 that a text states in 1 to 10 decimal digits.
#[tactic(auto, unfolding(crate::specs::Numbers::number))]
pub(crate) fn number(text: &[u8]) -> Option<u32>
    ensures { result ≡ number_spec text.now }
{
    if text.is_empty() || 10 < text.len() || !are_digits(text) {
        return None;
    }
    let value = digits_value(text);
    if value < 0x1_0000_0000 {
        Some(value as u32)
    } else {
        None
    }
}

/// Returns the number that a text states without a zero before its first digit.
pub(crate) fn plain_number(text: &[u8]) -> Option<u32>
    ensures { result ≡ plain_number text.now }
{
    if has_leading_zero(text) {
        return None;
    }
    number(text)
}

/// Returns the two numbers of a text with a `-` between.
pub(crate) fn numbers(text: &[u8]) -> Option<(u32, u32)>
    ensures { result ≡ numbers text.now }
{
    let (first, second) = split_at_byte(text, b'-');
    let major = number(first)?;
    let minor = number(second)?;
    Some((major, minor))
}

/// Returns the two numbers of a text with a `:` between, without zeros before their first digits.
pub(crate) fn plain_numbers(text: &[u8]) -> Option<(u32, u32)>
    ensures { result ≡ plain_numbers text.now }
{
    let (first, second) = split_at_byte(text, b':');
    let major = plain_number(first)?;
    let minor = plain_number(second)?;
    Some((major, minor))
}

fn are_digits(text: &[u8]) -> bool
    ensures { result ≡ list_all (λ b. is_digit b 10) text.now }
{
    text.iter().all(|b| char::from(*b).is_digit(10))
}

/// Returns the number that the digits state, the highest digit first.
fn digits_value(digits: &[u8]) -> u64
    requires few { length digits.now ≤ 10 }
    requires digits { IsTrue (list_all (λ b. is_digit b 10) digits.now) }
    ensures { result ≡ digits_value 10 digits.now }
{
    let mut number = 0;
    for i in 0..digits.len() {
        number = number * 10 + digit_value(digits[i]);
    }
    number
}

fn has_leading_zero(text: &[u8]) -> bool
    ensures { result ≡ has_leading_zero text.now }
{
    text.len() > 1 && text[0] == b'0'
}

/// Returns the value of a digit, 0 to 9.
fn digit_value(digit: u8) -> u64
    requires { IsTrue (is_digit digit 10) }
    ensures { result ≡ digit_value digit }
{
    u64::from(digit - b'0')
}
