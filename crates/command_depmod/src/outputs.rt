// The files that depmod makes, and where they are written.
ghost use Rattle.km_course.specs.FollowsOn.{FollowsOnFiles, FollowsOnFilesAndOut, FollowsOnOut};
ghost use Rattle.km_course.specs.FollowsOn.{Returns};
ghost use Rattle.depmod_core.specs.Files.{files as files_spec};
ghost use Rattle.provider_rel.specs.Faces.{kernel_of};
ghost use Rattle.command_depmod.specs.Related.{IsRelated, seen_tree};
ghost use Rattle.command_depmod.specs.Files.{all_files, text_files};
ghost use Rattle.command_depmod.specs.Outputs.{hands_out, makes_files, outputs_outcome, puts_each};
ghost use Rattle.command_depmod.specs.Outputs.{puts_file, says_each, says_file};

use crate::extra::{make_extra, read_info};
use crate::files::{DepmodFile, DepmodFiles};
use crate::relation::RelatedTree;
use depmod_core::{OutputFault, OutputFile, OutputFiles, outputs};
use km_course::{Refusal, Stop, put, read_optional, say_any};
use km_names::{Blob, PathText, join};
use outside_calls::{Out, Reads, Writes};
use std::alloc::Global;

/// All files, in the order in which they are replaced. The last two are those that `--extra` adds.
const ALL_FILES: [DepmodFile; 11] = [
    DepmodFile::Usual(OutputFile::Dep),
    DepmodFile::Usual(OutputFile::DepBin),
    DepmodFile::Usual(OutputFile::Alias),
    DepmodFile::Usual(OutputFile::AliasBin),
    DepmodFile::Usual(OutputFile::Softdep),
    DepmodFile::Usual(OutputFile::Symbols),
    DepmodFile::Usual(OutputFile::SymbolsBin),
    DepmodFile::Usual(OutputFile::BuiltinBin),
    DepmodFile::Usual(OutputFile::Unmet),
    DepmodFile::BuiltinAliasBin,
    DepmodFile::Devname,
];

/// The text files among them. The last one is one that `--extra` adds.
const TEXT_FILES: [DepmodFile; 6] = [
    DepmodFile::Usual(OutputFile::Dep),
    DepmodFile::Usual(OutputFile::Alias),
    DepmodFile::Usual(OutputFile::Softdep),
    DepmodFile::Usual(OutputFile::Symbols),
    DepmodFile::Usual(OutputFile::Unmet),
    DepmodFile::Devname,
];

/// Makes the files of a tree whose modules are in the folder. A missing modules.builtin counts as
/// empty, and so does a missing modules.builtin.modinfo, which is read only with `--extra`.
pub(crate) fn make_files<F: Reads>(
    alloc: Global,
    extra: bool,
    folder: &PathText,
    tree: &RelatedTree,
    files: &mut F,
) -> Result<DepmodFiles, Stop>
    requires { IsRelated tree.now }
    ensures { FollowsOnFiles (makes_files extra folder.now (seen_tree tree.now))
        F.seen files.old files.new result }
{
    let file = join(alloc, folder, b"modules.builtin")?;
    let builtin = read_optional(alloc, files, &file)?;
    let info = read_info(alloc, extra, folder, files)?;
    let usual = check_outputs(alloc, tree, &builtin)?;
    let extra = make_extra(alloc, &tree.facts, info)?;
    Ok(DepmodFiles { usual, extra })
}

/// Writes the text files to the output for a dry run, or else puts all files into the folder.
pub(crate) fn hand_out<F: Writes, O: Out>(
    alloc: Global,
    extra: bool,
    dry_run: bool,
    folder: &PathText,
    made: &DepmodFiles,
    files: &mut F,
    out: &mut O,
) -> Result<(), Stop>
    ensures { FollowsOnFilesAndOut (hands_out extra dry_run folder.now made.now)
        F.seen files.old files.new O.seen out.old out.new result }
{
    if dry_run {
        return say_texts(extra, made, out);
    }
    put_all(alloc, extra, folder, made, files)
}

/// Returns the files of a tree for what modules.builtin has, or the refusal of the first that is
/// too large.
fn check_outputs(alloc: Global, tree: &RelatedTree, builtin: &Blob) -> Result<OutputFiles, Stop>
    requires { IsRelated tree.now }
    ensures { Returns
        (outputs_outcome (files_spec tree.now.facts (kernel_of tree.now.kernel) builtin.now))
        result }
{
    match outputs(alloc, &tree.relation, &tree.facts, builtin.as_bytes()) {
        Ok(made) => Ok(made),
        Err(OutputFault::OutputTooLarge { file, length: _ }) => {
            Err(Stop::from(Refusal::OutputTooLarge { file }))
        }
        Err(OutputFault::Memory) => Err(Stop::Memory),
    }
}

/// Writes the text files to the output.
fn say_texts<O: Out>(extra: bool, made: &DepmodFiles, out: &mut O) -> Result<(), Stop>
    ensures { FollowsOnOut (says_each made.now (text_files extra)) O.seen out.old out.new result }
{
    if extra {
        return say_each(made, &TEXT_FILES, out);
    }
    say_each(made, &TEXT_FILES[..5], out)
}

/// Puts all files into the folder.
fn put_all<F: Writes>(
    alloc: Global,
    extra: bool,
    folder: &PathText,
    made: &DepmodFiles,
    files: &mut F,
) -> Result<(), Stop>
    ensures { FollowsOnFiles (puts_each folder.now made.now (all_files extra))
        F.seen files.old files.new result }
{
    if extra {
        return put_each(alloc, folder, made, &ALL_FILES, files);
    }
    put_each(alloc, folder, made, &ALL_FILES[..9], files)
}

/// Writes some of the files to the output, one after the other.
fn say_each<O: Out>(made: &DepmodFiles, which: &[DepmodFile], out: &mut O) -> Result<(), Stop>
    ensures { FollowsOnOut (says_each made.now which.now) O.seen out.old out.new result }
{
    for file in which {
        say_file(made, *file, out)?;
    }
    Ok(())
}

/// Puts some of the files into the folder, one after the other, each whole or not at all.
fn put_each<F: Writes>(
    alloc: Global,
    folder: &PathText,
    made: &DepmodFiles,
    which: &[DepmodFile],
    files: &mut F,
) -> Result<(), Stop>
    ensures { FollowsOnFiles (puts_each folder.now made.now which.now)
        F.seen files.old files.new result }
{
    for file in which {
        put_file(alloc, folder, made, *file, files)?;
    }
    Ok(())
}

/// Writes a file to the output, if it has any bytes.
fn say_file<O: Out>(made: &DepmodFiles, file: DepmodFile, out: &mut O) -> Result<(), Stop>
    ensures { FollowsOnOut (says_file made.now file) O.seen out.old out.new result }
{
    say_any(out, made.content(file))
}

/// Puts a file into the folder, whole or not at all.
fn put_file<F: Writes>(
    alloc: Global,
    folder: &PathText,
    made: &DepmodFiles,
    file: DepmodFile,
    files: &mut F,
) -> Result<(), Stop>
    ensures { FollowsOnFiles (puts_file folder.now made.now file)
        F.seen files.old files.new result }
{
    let path = join(alloc, folder, file.name())?;
    put(alloc, files, path, made.content(file))
}
