// The course of depmod.
ghost use Rattle.std.specs.Prelude.{◌≡◌, IfOk, ⊤};
ghost use Rattle.km_course.specs.World.{world};
ghost use Rattle.km_course.specs.Follows.{Follows};
ghost use Rattle.km_course.specs.FollowsOn.{FollowsOnErr, FollowsOnFilesAs};
ghost use Rattle.command_depmod.specs.Related.{IsRelated, seen_tree};
ghost use Rattle.command_depmod.specs.Depmod.{depmod_course, indexes, indexes_tree};
ghost use Rattle.command_depmod.specs.Depmod.{modules_of_request, reads_related, target_of_request};
ghost use Rattle.command_depmod.specs.Depmod.{warns_of_tree};

use crate::modules::read_modules_facts;
use crate::outputs::{hand_out, make_files};
use crate::relation::{RelatedTree, relate};
use crate::search::read_search;
use crate::tree::read_tree;
use crate::warnings::warn_unmet;
use km_course::{End, Stop};
use km_names::{PathText, Word};
use kmod_words::{DepmodWords, read_depmod};
use outside_calls::{Files, Out};
use stages_files::{modules_folder, read_kernel};
use std::alloc::{AllocError, Global};

/// What is asked for besides the index itself.
#[derive(Clone, Copy)]
pub(crate) struct Wanted {
    /// Whether the text files are to be printed, and nothing to be replaced.
    dry_run: bool,
    /// Whether to warn of obstacles.
    errsyms: bool,
    /// Whether the index of built-in aliases and the list of device nodes are asked for too.
    extra: bool,
    /// Whether the kernel's versions are known, so that differing ones are warned of.
    versions: bool,
}

/// Does what the words after `depmod` ask for. depmod(8).
pub fn depmod<F: Files, O: Out, E: Out>(
    alloc: Global,
    words: &[Word],
    files: &mut F,
    out: &mut O,
    err: &mut E,
) -> Result<(), Stop>
    ensures { Follows (λ x. x) (depmod_course words.now)
        (world (F.seen files.old) (O.seen out.old) (E.seen err.old))
        (world (F.seen files.new) (O.seen out.new) (E.seen err.new)) result }
{
    match read_depmod(alloc, words)? {
        Some(asked) => index(alloc, asked, files, out, err),
        None => Err(Stop::from(End::NotUnderstood)),
    }
}

/// Indexes the modules of a kernel as asked.
fn index<F: Files, O: Out, E: Out>(
    alloc: Global,
    asked: DepmodWords,
    files: &mut F,
    out: &mut O,
    err: &mut E,
) -> Result<(), Stop>
    ensures { Follows (λ x. x) (indexes asked)
        (world (F.seen files.old) (O.seen out.old) (E.seen err.old))
        (world (F.seen files.new) (O.seen out.new) (E.seen err.new)) result }
{
    let wanted = Wanted {
        dry_run: asked.dry_run,
        errsyms: asked.errsyms,
        extra: asked.extra,
        versions: asked.symvers.is_some(),
    };
    let folders = folders_of(alloc, &asked)?;
    let tree = read_asked(alloc, asked, &folders.source, files)?;
    index_tree(
        alloc,
        wanted,
        &folders.source,
        &folders.target,
        &tree,
        files,
        out,
        err,
    )
}

/// The folder of the modules, and the one into which the files are put.
#[derive(Drop)]
struct Folders {
    source: PathText,
    target: PathText,
}

/// Returns the folders that are asked for.
fn folders_of(alloc: Global, asked: &DepmodWords) -> Result<Folders, AllocError>
    ensures source { IfOk result (λ folders. folders.source ≡ modules_of_request asked.now) }
    ensures target { IfOk result (λ folders. folders.target ≡ target_of_request asked.now) }
{
    let source = modules_folder(alloc, &asked.basedir, &asked.version)?;
    let target = modules_folder(alloc, &asked.outdir, &asked.version)?;
    Ok(Folders { source, target })
}

/// Indexes a tree whose modules are in the folder, into the target. Its files are made first, and
/// only then is anything written, the warnings first.
fn index_tree<F: Files, O: Out, E: Out>(
    alloc: Global,
    wanted: Wanted,
    folder: &PathText,
    target: &PathText,
    tree: &RelatedTree,
    files: &mut F,
    out: &mut O,
    err: &mut E,
) -> Result<(), Stop>
    requires { IsRelated tree.now }
    ensures { Follows (λ x. x) (indexes_tree wanted folder.now target.now (seen_tree tree.now))
        (world (F.seen files.old) (O.seen out.old) (E.seen err.old))
        (world (F.seen files.new) (O.seen out.new) (E.seen err.new)) result }
{
    let made = make_files(alloc, wanted.extra, folder, tree, files)?;
    warn_of_tree(alloc, wanted, tree, err)?;
    hand_out(
        alloc,
        wanted.extra,
        wanted.dry_run,
        target,
        &made,
        files,
        out,
    )
}

/// Writes the warnings of a tree, if they are asked for.
fn warn_of_tree<E: Out>(
    alloc: Global,
    wanted: Wanted,
    tree: &RelatedTree,
    err: &mut E,
) -> Result<(), Stop>
    requires { IsRelated tree.now }
    ensures { FollowsOnErr (warns_of_tree wanted (seen_tree tree.now))
        E.seen err.old err.new result }
{
    let obstacles = tree.relation.obstacles().as_slice();
    warn_unmet(alloc, wanted.errsyms, wanted.versions, obstacles, err)
}

/// Reads the tree in the folder as asked, with its relation.
fn read_asked<F: Files>(
    alloc: Global,
    asked: DepmodWords,
    folder: &PathText,
    files: &mut F,
) -> Result<RelatedTree, Stop>
    ensures follows { FollowsOnFilesAs seen_tree
        (reads_related folder.now asked.config asked.filesyms asked.symvers)
        F.seen files.old files.new result }
    ensures related { IfOk result (λ tree. IsRelated tree) }
{
    let DepmodWords {
        config,
        filesyms,
        symvers,
        ..
    } = asked;
    read_related(alloc, folder, config, filesyms, symvers, files)
}

/// Reads the tree in the folder, with its relation.
fn read_related<F: Files>(
    alloc: Global,
    folder: &PathText,
    config: Option<PathText>,
    map: Option<PathText>,
    symvers: Option<PathText>,
    files: &mut F,
) -> Result<RelatedTree, Stop>
    ensures follows { FollowsOnFilesAs seen_tree (reads_related folder.now config map symvers)
        F.seen files.old files.new result }
    ensures related { IfOk result (λ tree. IsRelated tree) }
{
    let search = read_search(alloc, config, files)?;
    let paths = read_tree(alloc, folder, &search, files)?;
    let kernel = read_kernel(alloc, map, symvers, files)?;
    let facts = read_modules_facts(alloc, folder, paths.as_slice(), files)?;
    relate(alloc, facts, kernel)
}
