ghost use Rattle.std.specs.Prelude.{◌≡◌, ◌≤◌, IfOk, IfSome, Option};
ghost use Rattle.clap.specs.Words.{found_of, rows_of};
ghost use Rattle.kmod_words.specs.Trial.{trial_request, trial_asked, number_of};

use crate::arguments::Argument;
use crate::matches::value_of;
use crate::numbers::decimal;
use crate::request::{Request, read_request};
use clap::ArgMatches;
use km_names::Word;
use std::alloc::{AllocError, Global};

const ARGUMENTS: [Argument; 2] = [Argument::Word("seed"), Argument::Word("count")];

/// What `trial` is asked for.
#[derive(Clone, Copy, Debug, PartialEq, Eq)]
pub struct TrialWords {
    /// The seed of the made tree.
    pub seed: u64,
    /// How many modules it has, 1 to 2000.
    pub count: u32,
}

/// Reads what the words after `trial` ask for: `SEED COUNT`. It is `None` exactly if they aren't
/// understood.
#[tactic(auto, unfolding(crate::specs::Trial::trial_command))]
pub fn read_trial(alloc: Global, words: &[Word]) -> Result<Option<TrialWords>, AllocError>
    ensures request { IfOk result (λ asked. asked ≡ trial_request words.now) }
    ensures range { IfOk result
        (λ asked. IfSome asked (λ words. (1 ≤ words.count) × (words.count ≤ 2000))) }
{
    read_request(alloc, "trial", &ARGUMENTS, words)
}

impl Request for TrialWords {
    ghost use Rattle.kmod_words.specs.Trial.{trial_asked};

    ghost asked = { trial_asked };

    fn from_matches(
        _alloc: Global,
        matches: &ArgMatches<'_>,
    ) -> Result<Option<TrialWords>, AllocError> {
        Ok(asked(matches))
    }
}

/// Returns what the matches ask for.
#[tactic(auto, unfolding(crate::specs::Trial::trial_asked))]
fn asked(matches: &ArgMatches<'_>) -> Option<TrialWords>
    ensures { result ≡ trial_asked (rows_of (found_of matches.now)) }
{
    let seed = number_of(matches, "seed", 20)?;
    let count = number_of(matches, "count", 4)?;
    if 1 <= count && count <= 2000 {
        Some(TrialWords {
            seed,
            count: count as u32,
        })
    } else {
        None
    }
}

/// Returns the number that the word of a name states.
fn number_of(matches: &ArgMatches<'_>, name: &str, most: usize) -> Option<u64>
    ensures { result ≡ number_of most name.now (rows_of (found_of matches.now)) }
{
    decimal(value_of(matches, name)?, most)
}
