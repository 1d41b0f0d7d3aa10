// Words of visible characters, and numbers in hexadecimal digits.
ghost use Rattle.std.specs.Prelude.{◌≡◌, ◌≤◌, length, IsTrue};
ghost use Rattle.std.specs.List.{list_all};
ghost use Rattle.std.specs.Char.{is_ascii_graphic, is_digit, digit_value};
ghost use Rattle.std.specs.Str.Parse.{digits_value};
ghost use Rattle.km_names.specs.Ascii.{is_graphic, hexadecimal, prefixed_hexadecimal};

/// Returns whether the text is a word of visible characters: it isn't empty, and each of its bytes
/// is one of 33 to 126. isgraph(3).
#[tactic(auto, unfolding(crate::specs::Ascii::is_graphic))]
pub fn is_graphic(text: &[u8]) -> bool
    ensures { result ≡ is_graphic text.now }
{
    !text.is_empty() && are_graphic(text)
}

/// Returns the number that the text states in 1 to 16 hexadecimal digits of either case. The result
/// is `None` exactly if the text isn't such a number. proc(5) has addresses in this form, in
/// `kallsyms`.
#[tactic(auto, unfolding(crate::specs::Ascii::hexadecimal))]
pub fn hexadecimal(text: &[u8]) -> Option<u64>
    ensures { result ≡ hexadecimal text.now }
{
    if text.is_empty() || 16 < text.len() || !are_digits(text) {
        return None;
    }
    Some(digits_value(text))
}

/// Returns the number that the text states as `0x` and 1 to 16 hexadecimal digits. The result is
/// `None` exactly if the text isn't such a number.
#[tactic(auto, unfolding(crate::specs::Ascii::prefixed_hexadecimal))]
pub fn prefixed_hexadecimal(text: &[u8]) -> Option<u64>
    ensures { result ≡ prefixed_hexadecimal text.now }
{
    if text.starts_with(b"0x") {
        hexadecimal(&text[2..])
    } else {
        None
    }
}

/// Returns whether each byte is of a visible character. Nearly all words are, so it doesn't stop at
/// the first byte that isn't. So it looks at many bytes at a time.
fn are_graphic(text: &[u8]) -> bool
    ensures { result ≡ list_all is_ascii_graphic text.now }
{
    let mut graphic = true;
    for i in 0..text.len() {
        let visible = text[i].is_ascii_graphic();
        graphic = graphic && visible;
    }
    graphic
}

fn are_digits(text: &[u8]) -> bool
    ensures { result ≡ list_all (λ b. is_digit b 16) text.now }
{
    text.iter().all(|b| char::from(*b).is_digit(16))
}

/// Returns the number that the digits state, the highest digit first.
fn digits_value(digits: &[u8]) -> u64
    requires few { length digits.now ≤ 16 }
    requires digits { IsTrue (list_all (λ b. is_digit b 16) digits.now) }
    ensures { result ≡ digits_value 16 digits.now }
{
    let mut number = 0;
    for i in 0..digits.len() {
        number = number * 16 + digit_value(digits[i]);
    }
    number
}

/// Returns the value of a digit, 0 to 15.
fn digit_value(digit: u8) -> u64
    requires { IsTrue (is_digit digit 16) }
    ensures { result ≡ digit_value digit }
{
    match digit {
        b'0'..=b'9' => u64::from(digit - b'0'),
        b'A'..=b'F' => u64::from(digit - b'A') + 10,
        _ => u64::from(digit - b'a') + 10,
    }
}
