// Decimal numbers in words.
ghost use Rattle.std.specs.Prelude.{◌≡◌};
ghost use Rattle.std.specs.List.{list_all};
ghost use Rattle.std.specs.Char.{is_digit};
ghost use Rattle.kmod_words.specs.Numbers.{decimal};

/// Returns the number that a text states in 1 to `most` decimal digits, if it has at most 64 bits.
#[tactic(auto, unfolding(crate::specs::Numbers::decimal))]
pub(crate) fn decimal(text: &str, most: usize) -> Option<u64>
    ensures { result ≡ decimal most text.now }
{
    if text.is_empty() || most < text.len() || !are_digits(text.as_bytes()) {
        return None;
    }
    text.parse::<u64>().ok()
}

fn are_digits(text: &[u8]) -> bool
    ensures { result ≡ list_all (λ b. is_digit b 10) text.now }
{
    text.iter().all(|b| char::from(*b).is_digit(10))
}
