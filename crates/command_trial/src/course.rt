// The course of trial.
ghost use Rattle.std.specs.Prelude.{◌≤◌};
ghost use Rattle.km_course.specs.FollowsOn.{FollowsOnOut};
ghost use Rattle.command_trial.specs.Trial.{trial_course, tries};

use crate::inside::{index_made, load_made};
use crate::summary::{count_dependencies, summary};
use km_course::{End, Stop, say};
use km_names::Word;
use kmod_words::{TrialWords, read_trial};
use outside_calls::Out;
use std::alloc::Global;
use tree_gen::generate;

/// Does what the words after `trial` ask for. It makes a tree in memory, indexes it and loads its
/// modules there, and reports the outcome. No file outside is read or written.
pub fn trial<O: Out>(alloc: Global, words: &[Word], out: &mut O) -> Result<(), Stop>
    ensures { FollowsOnOut (trial_course words.now) O.seen out.old out.new result }
{
    match read_trial(alloc, words)? {
        Some(asked) => try_made(alloc, asked, out),
        None => Err(Stop::from(End::NotUnderstood)),
    }
}

/// Makes the tree that is asked for, tries it, and reports the outcome.
fn try_made<O: Out>(alloc: Global, asked: TrialWords, out: &mut O) -> Result<(), Stop>
    requires { (1 ≤ asked.count) × (asked.count ≤ 2000) }
    ensures { FollowsOnOut (tries asked) O.seen out.old out.new result }
{
    let TrialWords { seed, count } = asked;
    let mut files = generate(alloc, seed, count)?;
    index_made(alloc, &mut files)?;
    let dependencies = count_dependencies(alloc, &files)?;
    let output = load_made(alloc, count, &mut files)?;
    let text = summary(alloc, count, dependencies, &files, output.bytes())?;
    say(out, text.as_bytes())
}
