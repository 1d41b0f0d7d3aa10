ghost use Rattle.std.specs.Prelude.{◌≡◌, IfOk};
ghost use Rattle.kmod_words.specs.BuiltinAlias.{builtin_alias_request};

use crate::arguments::Argument;
use crate::matches::{bytes_or, is_version, value_of};
use crate::request::{Request, read_request};
use clap::ArgMatches;
use km_names::{Name, PathText, Word};
use std::alloc::{AllocError, Global};

const ARGUMENTS: [Argument; 3] = [
    Argument::ValuedByLetter('d', "dirname"),
    Argument::RequiredByLetter('S', "set-version"),
    Argument::Word("name"),
];

/// What `builtin-alias` is asked for.
#[derive(Debug, Drop)]
pub struct BuiltinAliasWords {
    /// The root below which the kernel's modules are.
    pub dirname: PathText,
    /// The kernel's version, which names the folder of its modules.
    pub version: Name,
    /// The name that built-in modules are looked up by.
    pub name: Name,
}

/// Reads what the words after `builtin-alias` ask for: `-d ROOT -S VERSION NAME`. It is `None`
/// exactly if they aren't understood. The command is this project's own.
#[tactic(auto, unfolding(crate::specs::BuiltinAlias::builtin_alias_command))]
pub fn read_builtin_alias(
    alloc: Global,
    words: &[Word],
) -> Result<Option<BuiltinAliasWords>, AllocError>
    ensures { IfOk result (λ asked. asked ≡ builtin_alias_request words.now) }
{
    read_request(alloc, "builtin-alias", &ARGUMENTS, words)
}

impl Request for BuiltinAliasWords {
    ghost use Rattle.kmod_words.specs.BuiltinAlias.{builtin_alias_asked};

    ghost asked = { builtin_alias_asked };

    #[tactic(auto, unfolding(crate::specs::BuiltinAlias::builtin_alias_asked))]
    fn from_matches(
        alloc: Global,
        matches: &ArgMatches<'_>,
    ) -> Result<Option<BuiltinAliasWords>, AllocError> {
        let Some(version) = value_of(matches, "set-version") else {
            return Ok(None);
        };
        let Some(name) = value_of(matches, "name") else {
            return Ok(None);
        };
        if !is_version(version) {
            return Ok(None);
        }
        Ok(Some(BuiltinAliasWords {
            dirname: bytes_or(alloc, matches, "dirname", b"/")?,
            version: Name::from_slice(alloc, version.as_bytes())?,
            name: Name::from_slice(alloc, name.as_bytes())?,
        }))
    }
}
