// Numbers and truth values as options state them.

ghost use Rattle.std.specs.Prelude.{◌≡◌, ◌+◌, ◌*◌, ◌≤◌, ◌^◌, Some, IsTrue};
ghost use Rattle.std.specs.List.{list_all};
ghost use Rattle.std.specs.Char.{is_digit, digit_value};
ghost use Rattle.std.specs.Str.Parse.{digits_value};
ghost use Rattle.param_apply.specs.Numbers.{below, digits as digits_spec, is_hexadecimal, is_off};
ghost use Rattle.param_apply.specs.Numbers.{is_on, magnitude, negative, positive, signed, truth};
ghost use Rattle.param_apply.specs.Numbers.{unsigned};

use crate::kind::Width;

/// How many numbers 64 bits have.
const NUMBERS: u128 = 1 << 64;

/// Returns the number of an unsigned type that a text states.
#[tactic(auto, unfolding(crate::specs::Numbers::unsigned), using(crate::proofs::NumberLemmas::below_twice))]
pub(crate) fn unsigned(width: Width, text: &[u8]) -> Option<u64>
    ensures { result ≡ unsigned width text.now }
{
    below(width.numbers(), positive(text))
}

/// Returns the number of a signed type that a text states, in two's complement.
#[tactic(auto, unfolding(crate::specs::Numbers::signed), using(crate::proofs::NumberLemmas::below_twice))]
pub(crate) fn signed(width: Width, text: &[u8]) -> Option<u64>
    ensures { result ≡ signed width text.now }
{
    if text.starts_with(b"-") {
        negative(width, &text[1..])
    } else {
        below(width.numbers() / 2, positive(text))
    }
}

/// Returns the truth value that a text states: 1 or 0.
#[tactic(auto, unfolding(crate::specs::Numbers::truth))]
pub(crate) fn truth(text: &[u8]) -> Option<u64>
    ensures { result ≡ truth text.now }
{
    if is_on(text) {
        Some(1)
    } else if is_off(text) {
        Some(0)
    } else {
        None
    }
}

/// Returns a number of at most 64 bits, if it is below a limit.
fn below(limit: u128, number: Option<u64>) -> Option<u64>
    ensures { result ≡ below limit number }
{
    let number = number?;
    if u128::from(number) < limit {
        Some(number)
    } else {
        None
    }
}

/// Returns the number that a text states without a sign or after a `+`, if it has at most 64 bits.
#[tactic(auto, unfolding(crate::specs::Numbers::positive))]
fn positive(text: &[u8]) -> Option<u64>
    ensures { result ≡ below (2 ^ 64) (positive text.now) }
{
    if text.starts_with(b"+") {
        magnitude(&text[1..])
    } else {
        magnitude(text)
    }
}

/// Returns a number below zero, or `-0`, in two's complement, by what follows its `-`.
#[tactic(auto, unfolding(crate::specs::Numbers::negative), using(crate::proofs::NumberLemmas::below_twice))]
fn negative(width: Width, text: &[u8]) -> Option<u64>
    ensures { result ≡ negative width text.now }
{
    let numbers = width.numbers();
    let number = below(numbers / 2 + 1, magnitude(text))?;
    Some(((numbers - u128::from(number)) % numbers) as u64)
}

/// Returns whether the front of a text means true.
fn is_on(text: &[u8]) -> bool
    ensures { result ≡ is_on text.now }
{
    text.starts_with(b"1")
        || text.starts_with(b"y")
        || text.starts_with(b"Y")
        || text.starts_with(b"on")
        || text.starts_with(b"oN")
        || text.starts_with(b"On")
        || text.starts_with(b"ON")
}

/// Returns whether the front of a text means false.
fn is_off(text: &[u8]) -> bool
    ensures { result ≡ is_off text.now }
{
    text.starts_with(b"0")
        || text.starts_with(b"n")
        || text.starts_with(b"N")
        || text.starts_with(b"of")
        || text.starts_with(b"oF")
        || text.starts_with(b"Of")
        || text.starts_with(b"OF")
}

/// Returns the number that a text states without a sign, if it has at most 64 bits.
#[tactic(auto, unfolding(crate::specs::Numbers::magnitude))]
fn magnitude(text: &[u8]) -> Option<u64>
    ensures { result ≡ below (2 ^ 64) (magnitude text.now) }
{
    if text == b"0".as_slice() {
        Some(0)
    } else if is_hexadecimal(text) {
        digits(16, &text[2..])
    } else if text.starts_with(b"0") {
        digits(8, &text[1..])
    } else {
        digits(10, text)
    }
}

/// Returns whether a text begins as a number in hexadecimal does.
fn is_hexadecimal(text: &[u8]) -> bool
    ensures { result ≡ is_hexadecimal text.now }
{
    text.starts_with(b"0x") || text.starts_with(b"0X")
}

/// Returns the number that a text states in digits of a radix, if it has at most 64 bits.
#[tactic(auto, unfolding(crate::specs::Numbers::digits))]
fn digits(radix: u32, text: &[u8]) -> Option<u64>
    requires some { 2 ≤ radix }
    requires radix { radix ≤ 16 }
    ensures { result ≡ below (2 ^ 64) (digits_spec radix text.now) }
{
    if text.is_empty() || !are_digits(radix, text) {
        return None;
    }
    digits_value(radix, text)
}

/// Returns whether a text has only digits of a radix.
fn are_digits(radix: u32, text: &[u8]) -> bool
    requires some { 2 ≤ radix }
    requires radix { radix ≤ 16 }
    ensures { result ≡ list_all (λ b. is_digit b radix) text.now }
{
    for byte in text {
        if !char::from(*byte).is_digit(radix) {
            return false;
        }
    }
    true
}

/// Returns the number that the digits state, the highest digit first, if it has at most 64 bits.
fn digits_value(radix: u32, digits: &[u8]) -> Option<u64>
    requires some { 1 ≤ radix }
    requires radix { radix ≤ 16 }
    requires digits { IsTrue (list_all (λ b. is_digit b radix) digits.now) }
    ensures { result ≡ below (2 ^ 64) (Some (digits_value radix digits.now)) }
{
    let mut number = 0_u64;
    for i in 0..digits.len() {
        let next = with_digit(radix, number, digits[i]);
        if NUMBERS <= next {
            return None;
        }
        number = next as u64;
    }
    Some(number)
}

/// Returns a number with one more digit at its end.
fn with_digit(radix: u32, number: u64, digit: u8) -> u128
    requires radix { radix ≤ 16 }
    requires digit { IsTrue (is_digit digit 16) }
    ensures { result ≡ number * radix + digit_value digit }
{
    u128::from(number) * u128::from(radix) + u128::from(digit_value(digit))
}

/// Returns the value of a digit, 0 to 15.
fn digit_value(digit: u8) -> u32
    requires { IsTrue (is_digit digit 16) }
    ensures value { result ≡ digit_value digit }
    ensures small { result ≤ 15 }
{
    match digit {
        b'0'..=b'9' => u32::from(digit - b'0'),
        b'A'..=b'F' => u32::from(digit - b'A') + 10,
        _ => u32::from(digit - b'a') + 10,
    }
}
