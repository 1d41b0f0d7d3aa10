// What `modinfo` does: it reads its words, and shows one module after the other.

ghost use Rattle.std.specs.Prelude.{⊤};
ghost use Rattle.km_course.specs.FollowsOn.{FollowsOnFiles, FollowsOnFilesAndOut, Returns};
ghost use Rattle.command_modinfo.specs.Modinfo.{modinfo_course, path_asked, reads_source, shows};
ghost use Rattle.command_modinfo.specs.Modinfo.{shows_asked, shows_each, shows_word};

use crate::module_info::module_text;
use km_course::{End, Stop, say_any};
use km_names::{Name, PathText, Word};
use kmod_words::{ModinfoWords, read_modinfo};
use modinfo_tool::ShowOptions;
use outside_calls::{Out, Reads};
use stages_files::{KernelModules, modules_folder, path_of_name, read_modules, read_sections};
use std::alloc::Global;

/// What the words mean that name the modules to show.
#[derive(Drop)]
pub(crate) enum Source {
    /// Each is the path of a module.
    Paths,
    /// Each is the name of one of a kernel's modules.
    Names(KernelModules),
}

/// Does what the words after `modinfo` ask for. modinfo(8).
pub fn modinfo<F: Reads, O: Out>(
    alloc: Global,
    words: &[Word],
    files: &mut F,
    out: &mut O,
) -> Result<(), Stop>
    ensures { FollowsOnFilesAndOut (modinfo_course words.now)
        F.seen files.old files.new O.seen out.old out.new result }
{
    match read_modinfo(alloc, words)? {
        Some(asked) => show_asked(alloc, asked, files, out),
        None => Err(Stop::from(End::NotUnderstood)),
    }
}

/// Shows the modules that are asked for, one after the other.
fn show_asked<F: Reads, O: Out>(
    alloc: Global,
    asked: ModinfoWords,
    files: &mut F,
    out: &mut O,
) -> Result<(), Stop>
    ensures { FollowsOnFilesAndOut (shows_asked asked)
        F.seen files.old files.new O.seen out.old out.new result }
{
    let ModinfoWords {
        field,
        zero,
        version,
        basedir,
        words,
    } = asked;
    let source = read_source(alloc, version, &basedir, files)?;
    let options = ShowOptions { field, zero };
    show_each(alloc, &source, &options, words.as_slice(), files, out)
}

/// Reads what the words stand for: the names of a kernel's modules if there is a version, else
/// paths.
fn read_source<F: Reads>(
    alloc: Global,
    version: Option<Name>,
    root: &PathText,
    files: &mut F,
) -> Result<Source, Stop>
    ensures { FollowsOnFiles (reads_source version root.now) F.seen files.old files.new result }
{
    match version {
        None => Ok(Source::Paths),
        Some(version) => {
            let folder = modules_folder(alloc, root, &version)?;
            Ok(Source::Names(read_modules(alloc, folder, files)?))
        }
    }
}

/// Shows the module of each word, one after the other.
fn show_each<F: Reads, O: Out>(
    alloc: Global,
    source: &Source,
    options: &ShowOptions,
    words: &[Name],
    files: &mut F,
    out: &mut O,
) -> Result<(), Stop>
    ensures { FollowsOnFilesAndOut (shows_each source.now options.now words.now)
        F.seen files.old files.new O.seen out.old out.new result }
{
    for word in words {
        show_word(alloc, source, options, word, files, out)?;
    }
    Ok(())
}

/// Shows the module of a word.
fn show_word<F: Reads, O: Out>(
    alloc: Global,
    source: &Source,
    options: &ShowOptions,
    word: &Name,
    files: &mut F,
    out: &mut O,
) -> Result<(), Stop>
    ensures { FollowsOnFilesAndOut (shows_word source.now options.now word.now)
        F.seen files.old files.new O.seen out.old out.new result }
{
    let path = path_asked(alloc, source, word)?;
    show_module(alloc, path, options, files, out)
}

/// Returns the path of the module of a word.
fn path_asked(alloc: Global, source: &Source, word: &Name) -> Result<PathText, Stop>
    ensures { Returns (path_asked source.now word.now) result }
{
    match source {
        Source::Paths => Ok(PathText::from_slice(alloc, word.as_bytes())?),
        Source::Names(modules) => path_of_name(alloc, modules, word.as_bytes()),
    }
}

/// Shows the module at the path.
fn show_module<F: Reads, O: Out>(
    alloc: Global,
    path: PathText,
    options: &ShowOptions,
    files: &mut F,
    out: &mut O,
) -> Result<(), Stop>
    ensures { FollowsOnFilesAndOut (shows path options.now)
        F.seen files.old files.new O.seen out.old out.new result }
{
    // The read takes the path, and the text shows it.
    let named = PathText::from_slice(alloc, path.as_bytes())?;
    let sections = read_sections(alloc, path, files)?;
    let text = module_text(alloc, &named, &sections, options)?;
    say_any(out, text.as_bytes())
}
