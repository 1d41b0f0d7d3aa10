// The course of modprobe.
ghost use Rattle.std.specs.Prelude.{⊤};
ghost use Rattle.km_course.specs.FollowsOn.{FollowsOnFilesAndOut};
ghost use Rattle.command_modprobe.specs.Modprobe.{modprobe_course, modprobe_in_mode};

use crate::load::load_plan;
use crate::plan::show_plan;
use crate::resolve_alias::resolve_alias;
use command_remove::remove;
use km_course::{End, Stop};
use km_names::Word;
use kmod_words::{Mode, ModprobeWords, read_modprobe};
use outside_calls::{Out, Writes};
use std::alloc::Global;

/// Does what the words after `modprobe` ask for. modprobe(8).
pub fn modprobe<F: Writes, O: Out>(
    alloc: Global,
    words: &[Word],
    files: &mut F,
    out: &mut O,
) -> Result<(), Stop>
    ensures { FollowsOnFilesAndOut (modprobe_course words.now)
        F.seen files.old files.new O.seen out.old out.new result }
{
    match read_modprobe(alloc, words)? {
        Some(asked) => in_mode(alloc, asked, files, out),
        None => Err(Stop::from(End::NotUnderstood)),
    }
}

/// Does what is asked for, in its mode.
fn in_mode<F: Writes, O: Out>(
    alloc: Global,
    asked: ModprobeWords,
    files: &mut F,
    out: &mut O,
) -> Result<(), Stop>
    ensures { FollowsOnFilesAndOut (modprobe_in_mode asked.mode asked asked.fits)
        F.seen files.old files.new O.seen out.old out.new result }
{
    match asked.mode {
        Mode::ResolveAlias => resolve_alias(alloc, asked, files, out),
        Mode::Load => {
            let system_map = asked.given_map(alloc)?;
            load_plan(alloc, asked, system_map, files, out)
        }
        Mode::DryRun => show_plan(alloc, asked, files, out),
        Mode::ShowDepends => show_plan(alloc, asked, files, out),
        Mode::Remove { dry_run } => {
            let system_map = asked.given_map(alloc)?;
            remove(alloc, dry_run, asked, system_map, files, out)
        }
    }
}
