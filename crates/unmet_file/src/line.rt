// A line of modules.unmet.
ghost use Rattle.std.specs.Prelude.{◌≡◌, IfOk, option_map};
ghost use Rattle.unmet_file.specs.Line.{unmet_line, two_words, three_words};
ghost use Rattle.unmet_file.specs.Forms.{form_named, missing_of, double_of, provided_of, stated};

use crate::LineKind;
use km_names::{Name, PathText, is_graphic, split_at_byte};
use std::alloc::{AllocError, Global};
use symbol_binding::Unbound;

/// The forms of lines, by their first words.
#[derive(Clone, Copy)]
pub(crate) enum Form {
    /// `missing PATH SYMBOL`
    Missing,
    /// `gpl`, `version` or `namespace`, and `PATH SYMBOL PROVIDER`
    Provided(ProvidedKind),
    /// `double SYMBOL FIRST SECOND`
    Double,
}

/// The kinds of lines that name a provider.
#[derive(Clone, Copy)]
pub(crate) enum ProvidedKind {
    Gpl,
    Version,
    Namespace,
}

/// Returns what a line states. The result is `None` if the line has none of the forms.
pub(crate) fn read_line(alloc: Global, line: &[u8]) -> Result<Option<Unbound>, AllocError>
    ensures { IfOk result (λ unbound. unbound ≡ unmet_line line.now) }
{
    let (word, words) = split_at_byte(line, b' ');
    match form_named(word) {
        Some(form) => stated(alloc, form, words),
        None => Ok(None),
    }
}

/// Returns the three words of a text with a space between them, if it has this form. A word isn't
/// empty and its bytes are 33 to 126.
pub fn three_words(text: &[u8]) -> Option<(&[u8], &[u8], &[u8])>
    ensures { option_map (λ w. (w.0.now, w.1.now, w.2.now)) result ≡ three_words text.now }
{
    let (first, others) = split_at_byte(text, b' ');
    if !is_graphic(first) {
        return None;
    }
    match two_words(others) {
        Some((second, third)) => Some((first, second, third)),
        None => None,
    }
}

/// Returns the form whose first word this is.
#[tactic(auto, unfolding(crate::specs::Forms::form_named))]
fn form_named(word: &[u8]) -> Option<Form>
    ensures { result ≡ form_named word.now }
{
    if word == LineKind::Missing.word() {
        Some(Form::Missing)
    } else if word == LineKind::Gpl.word() {
        Some(Form::Provided(ProvidedKind::Gpl))
    } else if word == LineKind::Version.word() {
        Some(Form::Provided(ProvidedKind::Version))
    } else if word == LineKind::Namespace.word() {
        Some(Form::Provided(ProvidedKind::Namespace))
    } else if word == LineKind::Double.word() {
        Some(Form::Double)
    } else {
        None
    }
}

/// Returns what a line of this form states, by the words after the first.
fn stated(alloc: Global, form: Form, words: &[u8]) -> Result<Option<Unbound>, AllocError>
    ensures { IfOk result (λ unbound. unbound ≡ stated form words.now) }
{
    match form {
        Form::Missing => missing(alloc, words),
        Form::Provided(kind) => provided(alloc, kind, words),
        Form::Double => double(alloc, words),
    }
}

/// Returns the two words of a text with a space between them, or `None` if the text has another
/// form. Their bytes are 33 to 126, and neither is empty.
fn two_words(text: &[u8]) -> Option<(&[u8], &[u8])>
    ensures { option_map (λ w. (w.0.now, w.1.now)) result ≡ two_words text.now }
{
    let (first, second) = split_at_byte(text, b' ');
    if !is_graphic(first) || !is_graphic(second) {
        return None;
    }
    Some((first, second))
}

fn missing(alloc: Global, words: &[u8]) -> Result<Option<Unbound>, AllocError>
    ensures { IfOk result (λ unbound. unbound ≡ missing_of words.now) }
{
    match two_words(words) {
        Some((path, symbol)) => Ok(Some(Unbound::Missing {
            path: PathText::from_slice(alloc, path)?,
            symbol: Name::from_slice(alloc, symbol)?,
        })),
        None => Ok(None),
    }
}

fn provided(alloc: Global, kind: ProvidedKind, words: &[u8]) -> Result<Option<Unbound>, AllocError>
    ensures { IfOk result (λ unbound. unbound ≡ provided_of kind words.now) }
{
    match three_words(words) {
        Some((path, symbol, provider)) => {
            let path = PathText::from_slice(alloc, path)?;
            let symbol = Name::from_slice(alloc, symbol)?;
            let provider = PathText::from_slice(alloc, provider)?;
            Ok(Some(match kind {
                ProvidedKind::Gpl => Unbound::Gpl {
                    path,
                    symbol,
                    provider,
                },
                ProvidedKind::Version => Unbound::Version {
                    path,
                    symbol,
                    provider,
                },
                ProvidedKind::Namespace => Unbound::Namespace {
                    path,
                    symbol,
                    provider,
                },
            }))
        }
        None => Ok(None),
    }
}

fn double(alloc: Global, words: &[u8]) -> Result<Option<Unbound>, AllocError>
    ensures { IfOk result (λ unbound. unbound ≡ double_of words.now) }
{
    match three_words(words) {
        Some((symbol, first, second)) => Ok(Some(Unbound::Double {
            symbol: Name::from_slice(alloc, symbol)?,
            first: PathText::from_slice(alloc, first)?,
            second: PathText::from_slice(alloc, second)?,
        })),
        None => Ok(None),
    }
}
