ghost use Rattle.std.specs.Prelude.{◌≡◌, ◌++◌, IfOk, List, Option, option_map};
ghost use Rattle.clap.specs.Words.{Text, found_of, rows_of};
ghost use Rattle.kmod_words.specs.Modinfo.{modinfo_request, modinfo_of, keys_asked, key_by_flag};
ghost use Rattle.kmod_words.specs.Modinfo.{single, is_by_name_or_path};

use crate::arguments::Argument;
use crate::matches::{bytes_of, bytes_or, is_given, is_version, value_of, words_of};
use crate::request::{Request, read_request};
use clap::ArgMatches;
use km_names::{Name, Names, PathText, Word};
use std::alloc::{AllocError, Global};

const ARGUMENTS: [Argument; 10] = [
    Argument::Valued('F', "field"),
    Argument::Flag('a', "author"),
    Argument::Flag('d', "description"),
    Argument::Flag('l', "license"),
    Argument::Flag('p', "parameters"),
    Argument::Flag('n', "filename"),
    Argument::Flag('0', "null"),
    Argument::Valued('k', "set-version"),
    Argument::Valued('b', "basedir"),
    Argument::Words("words"),
];

/// What `modinfo` is asked for.
#[derive(Debug, Drop)]
pub struct ModinfoWords {
    /// The only key whose values are shown: `filename` is the path, `parm` are the parameters.
    pub field: Option<Name>,
    /// Whether a line ends with a NUL in place of a line end.
    pub zero: bool,
    /// The kernel's version, if the words are names of its modules. Without it they are paths.
    pub version: Option<Name>,
    /// The root below which the kernel's modules are.
    pub basedir: PathText,
    /// The names or the paths of modules, at least one, as the words have them.
    pub words: Names,
}

/// Reads what the words after `modinfo` ask for. It is `None` exactly if they aren't understood.
/// modinfo(8).
#[tactic(auto, unfolding(crate::specs::Modinfo::modinfo_command))]
pub fn read_modinfo(alloc: Global, words: &[Word]) -> Result<Option<ModinfoWords>, AllocError>
    ensures { IfOk result (λ asked. asked ≡ modinfo_request words.now) }
{
    read_request(alloc, "modinfo", &ARGUMENTS, words)
}

impl Request for ModinfoWords {
    ghost use Rattle.kmod_words.specs.Modinfo.{modinfo_asked};

    ghost asked = { modinfo_asked };

    #[tactic(auto, unfolding(crate::specs::Modinfo::modinfo_asked))]
    fn from_matches(
        alloc: Global,
        matches: &ArgMatches<'_>,
    ) -> Result<Option<ModinfoWords>, AllocError> {
        let Some(key) = key_asked(matches) else {
            return Ok(None);
        };
        if !is_by_name_or_path(matches) {
            return Ok(None);
        }
        Ok(Some(words_for(alloc, matches, key)?))
    }
}

/// Returns the key that the matches ask for, if there is one, and nothing if there are two.
fn key_asked<'a>(matches: &ArgMatches<'a>) -> Option<Option<&'a str>>
    ensures { option_map (option_map (λ key. key.now)) result
        ≡ single (keys_asked (rows_of (found_of matches.now))) }
{
    let field = Some(value_of(matches, "field"));
    let author = with_flag(field, matches, "author", "author");
    let description = with_flag(author, matches, "description", "description");
    let license = with_flag(description, matches, "license", "license");
    let parameters = with_flag(license, matches, "parameters", "parm");
    with_flag(parameters, matches, "filename", "filename")
}

/// Returns the one of some keys and a further one, which counts if its flag is given.
fn with_flag<'a>(
    asked: Option<Option<&'a str>>,
    matches: &ArgMatches<'_>,
    flag: &str,
    key: &'a str,
) -> Option<Option<&'a str>>
    ensures { (keys : List Text) → option_map (option_map (λ k. k.now)) asked.entry ≡ single keys
        → option_map (option_map (λ k. k.now)) result
        ≡ single (keys ++ key_by_flag (rows_of (found_of matches.now)) flag.now key.entry.now) }
{
    if !is_given(matches, flag) {
        return asked;
    }
    match asked {
        Some(None) => Some(Some(key)),
        Some(Some(_)) | None => None,
    }
}

/// Returns whether the words are names and the version is one, or the words are paths and there is
/// no root.
fn is_by_name_or_path(matches: &ArgMatches<'_>) -> bool
    ensures { result ≡ is_by_name_or_path (rows_of (found_of matches.now)) }
{
    match value_of(matches, "set-version") {
        Some(version) => is_version(version),
        None => value_of(matches, "basedir").is_none(),
    }
}

/// Returns what is asked for with a key.
fn words_for(
    alloc: Global,
    matches: &ArgMatches<'_>,
    key: Option<&str>,
) -> Result<ModinfoWords, AllocError>
    ensures { IfOk result (λ words. words
        ≡ modinfo_of (rows_of (found_of matches.now)) (option_map (λ k. k.now) key.entry)) }
{
    let basedir = bytes_or(alloc, matches, "basedir", b"/")?;
    let words = words_of(alloc, matches, "words")?;
    let field = name_of(alloc, key)?;
    let version = bytes_of(alloc, matches, "set-version")?;
    Ok(ModinfoWords {
        field,
        zero: is_given(matches, "null"),
        version,
        basedir,
        words,
    })
}

fn name_of(alloc: Global, text: Option<&str>) -> Result<Option<Name>, AllocError>
    ensures { IfOk result (λ name. name ≡ option_map (λ t. t.now) text.entry) }
{
    match text {
        Some(text) => Ok(Some(Name::from_slice(alloc, text.as_bytes())?)),
        None => Ok(None),
    }
}
