// The matches of words, and what is asked of them.
ghost use Rattle.std.specs.Prelude.{◌≡◌, ◌==◌, true, IfOk, map, option_map, unwrap_or};
ghost use Rattle.std.specs.List.{list_any};
ghost use Rattle.clap.specs.Words.{found_of, is_simple_and_free, rows_of};
ghost use Rattle.kmod_words.specs.Arguments.{command as command_spec};
ghost use Rattle.kmod_words.specs.Rules.{rule_for};
ghost use Rattle.kmod_words.specs.Understood.{understood, is_given, is_from_words, value_of};
ghost use Rattle.kmod_words.specs.Understood.{words_of, is_version};

use crate::arguments::{Argument, command};
use clap::ArgMatches;
use clap::error::ErrorKind;
use clap::parser::ValueSource;
use km_names::{Bytes, Name, Names, Word};
use std::alloc::{AllocError, Global};

/// Returns the words as texts.
pub(crate) fn texts_of<'a>(alloc: Global, words: &'a [Word]) -> Result<Vec<&'a str>, AllocError>
    ensures { IfOk result (λ texts. map (λ text. text.now) texts.items ≡ words.now) }
{
    let mut texts = Vec::new(alloc);
    for word in words {
        texts.push(word.as_str())?;
    }
    Ok(texts)
}

/// Returns what `clap` makes of the words of the command of this name, which has only these
/// arguments. It is `None` exactly if `clap` refuses them.
pub(crate) fn understood<'a>(
    alloc: Global,
    name: &'a str,
    arguments: &[Argument],
    words: &'a [&'a str],
) -> Result<Option<ArgMatches<'a>>, AllocError>
    requires { is_simple_and_free (command_spec name.now (map rule_for arguments.now)) ≡ true }
    ensures { IfOk result (λ matches. option_map (λ m. rows_of (found_of m)) matches
        ≡ understood (command_spec name.entry.now (map rule_for arguments.now))
        (map (λ word. word.now) words.entry.now)) }
{
    let command = command(alloc, name, arguments)?;
    match command.try_get_matches_from(words) {
        Ok(matches) => Ok(Some(matches)),
        Err(error) => match error.kind() {
            ErrorKind::OutOfMemory => Err(AllocError),
            _ => Ok(None),
        },
    }
}

/// Returns whether a flag is among the words.
pub(crate) fn is_given(matches: &ArgMatches<'_>, name: &str) -> bool
    ensures { result ≡ is_given name.now (rows_of (found_of matches.now)) }
{
    is_from_words(matches.value_source(name))
}

/// Returns the value of an option, or the one word of a name.
pub(crate) fn value_of<'a>(matches: &ArgMatches<'a>, name: &str) -> Option<&'a str>
    ensures { option_map (λ value. value.now) result
        ≡ value_of name.now (rows_of (found_of matches.now)) }
{
    matches.get_str(name)
}

/// Copies the value of an option, or the one word of a name.
pub(crate) fn bytes_of<K>(
    alloc: Global,
    matches: &ArgMatches<'_>,
    name: &str,
) -> Result<Option<Bytes<K>>, AllocError>
    ensures { IfOk result (λ bytes. bytes ≡ value_of name.now (rows_of (found_of matches.now))) }
{
    match value_of(matches, name) {
        Some(value) => Ok(Some(Bytes::from_slice(alloc, value.as_bytes())?)),
        None => Ok(None),
    }
}

/// Copies the value of an option, or the one word of a name, or `other` if the words have neither.
pub(crate) fn bytes_or<K>(
    alloc: Global,
    matches: &ArgMatches<'_>,
    name: &str,
    other: &[u8],
) -> Result<Bytes<K>, AllocError>
    ensures { IfOk result
        (λ bytes. bytes
        ≡ unwrap_or (value_of name.now (rows_of (found_of matches.now))) other.now) }
{
    match value_of(matches, name) {
        Some(value) => Bytes::from_slice(alloc, value.as_bytes()),
        None => Bytes::from_slice(alloc, other),
    }
}

/// Returns the words of a name.
pub(crate) fn words_of(
    alloc: Global,
    matches: &ArgMatches<'_>,
    name: &str,
) -> Result<Names, AllocError>
    ensures { IfOk result (λ words. words ≡ words_of name.now (rows_of (found_of matches.now))) }
{
    match matches.get_strs(name) {
        Some(words) => names_of(alloc, words),
        None => Ok(Names::new(alloc)),
    }
}

/// Returns whether a text may be a kernel's version.
pub(crate) fn is_version(text: &str) -> bool
    ensures { result ≡ is_version text.now }
{
    !has_slash(text.as_bytes())
}

/// Returns whether a value comes from the words, and isn't a default.
fn is_from_words(source: Option<ValueSource>) -> bool
    ensures { result ≡ is_from_words source }
{
    match source {
        Some(ValueSource::CommandLine) => true,
        _ => false,
    }
}

fn names_of(alloc: Global, words: &[&str]) -> Result<Names, AllocError>
    ensures { IfOk result (λ names. names ≡ map (λ word. word.now) words.now) }
{
    let mut names = Names::new(alloc);
    for word in words {
        names.push(Name::from_slice(alloc, word.as_bytes())?)?;
    }
    Ok(names)
}

fn has_slash(text: &[u8]) -> bool
    ensures { result ≡ list_any (λ b. b == 47) text.now }
{
    text.iter().any(|b| *b == b'/')
}
