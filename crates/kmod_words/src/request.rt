// What the words after a command ask for, by what its matches ask for.
ghost use Rattle.std.specs.Prelude.{◌≡◌, IfOk, List, Option, map, option_and_then, true};
ghost use Rattle.clap.specs.Words.{Row, found_of, is_simple_and_free, rows_of};
ghost use Rattle.kmod_words.specs.Arguments.{command};
ghost use Rattle.kmod_words.specs.Rules.{rule_for};
ghost use Rattle.kmod_words.specs.Understood.{understood};

use crate::arguments::Argument;
use crate::matches::{texts_of, understood};
use clap::ArgMatches;
use km_names::Word;
use std::alloc::{AllocError, Global};

/// What a command is asked for.
pub(crate) trait Request: Sized {
    /// What matches ask for. It is none if they aren't understood.
    ghost asked: { List Row → Option Self };

    /// Returns what the matches ask for.
    fn from_matches(alloc: Global, matches: &ArgMatches<'_>) -> Result<Option<Self>, AllocError>
        ensures { IfOk result (λ request. request ≡ asked (rows_of (found_of matches.now))) };
}

/// Reads what the words ask the command of this name for, which has only these arguments. It is
/// `None` exactly if they aren't understood.
pub(crate) fn read_request<A: Request>(
    alloc: Global,
    name: &str,
    arguments: &[Argument],
    words: &[Word],
) -> Result<Option<A>, AllocError>
    requires { is_simple_and_free (command name.now (map rule_for arguments.now)) ≡ true }
    ensures { IfOk result (λ request. request
        ≡ option_and_then A.asked
        (understood (command name.now (map rule_for arguments.now)) words.now)) }
{
    let texts = texts_of(alloc, words)?;
    match understood(alloc, name, arguments, texts.as_slice())? {
        Some(matches) => A::from_matches(alloc, &matches),
        None => Ok(None),
    }
}
