// White space: texts without it at their ends, and the words between it.
ghost use Rattle.std.specs.Prelude.{◌≡◌, ◌≤◌, ◌++◌, ◌∷◌, [], length, IfOk, OnOk};
ghost use Rattle.std.specs.List.{position_or_len};
ghost use Rattle.km_names.specs.Space.{is_space, trimmed, trimmed_start, trimmed_end, first_word};
ghost use Rattle.km_names.specs.Space.{rest_after_word, nonempty, words as words_spec};

use crate::{Blob, Texts};
use std::alloc::{AllocError, Global};

/// Returns a text without the white space at either end. White space is space, tab and carriage
/// return. modprobe.d(5).
pub fn trimmed(text: &[u8]) -> &[u8]
    ensures { result.now ≡ trimmed text.now }
{
    trimmed_end(trimmed_start(text))
}

/// Returns the word that a text begins with, up to its first white space, and the rest without
/// white space at either end. modprobe.d(5).
pub fn split_word(text: &[u8]) -> (&[u8], &[u8])
    ensures word { result.0.now ≡ first_word text.now }
    ensures rest { result.1.now ≡ rest_after_word text.now }
{
    let end = word_length(text);
    (&text[..end], trimmed(&text[end..]))
}

/// Returns the words of a text: its pieces between white space. modprobe.d(5), depmod.d(5).
pub fn words(alloc: Global, text: &[u8]) -> Result<Texts, AllocError>
    ensures { IfOk result (λ words. words ≡ words_spec text.now) }
{
    let mut words = Texts::new(alloc);
    let mut rest = text;
    loop {
        let end = word_length(rest);
        push_nonempty(alloc, &mut words, &rest[..end])?;
        let after = &rest[end..];
        if after.is_empty() {
            return Ok(words);
        }
        rest = &after[1..];
    }
}

fn trimmed_end(text: &[u8]) -> &[u8]
    ensures { result.now ≡ trimmed_end text.now }
{
    let mut end = text.len();
    while end > 0 && is_space(text[end - 1]) {
        end -= 1;
    }
    &text[..end]
}

fn trimmed_start(text: &[u8]) -> &[u8]
    ensures { result.now ≡ trimmed_start text.now }
{
    let mut start = 0;
    while start < text.len() && is_space(text[start]) {
        start += 1;
    }
    &text[start..]
}

/// Returns the number of bytes before the first white space.
fn word_length(text: &[u8]) -> usize
    ensures place { result ≡ position_or_len is_space text.now }
    ensures within { result ≤ length text.now }
{
    let mut end = 0;
    while end < text.len() && !is_space(text[end]) {
        end += 1;
    }
    end
}

/// Puts a piece at the end, unless it is empty.
fn push_nonempty(alloc: Global, words: &mut Texts, piece: &[u8]) -> Result<(), AllocError>
    ensures ok { OnOk result (words.new ≡ words.old ++ nonempty (piece.now ∷ [])) }
{
    if piece.is_empty() {
        return Ok(());
    }
    words.push(Blob::from_slice(alloc, piece)?)
}

fn is_space(byte: u8) -> bool
    ensures { result ≡ is_space byte }
{
    byte == b' ' || byte == b'\t' || byte == b'\r'
}
