// What a command that plans has to know first.
ghost use Rattle.std.specs.Prelude.{◌≡◌, IfOk};
ghost use Rattle.km_names.specs.Texts.{spaced};
ghost use Rattle.km_course.specs.FollowsOn.{FollowsOnFiles, FollowsOnFilesAs};
ghost use Rattle.stages_files.specs.KernelModules.{modules_folder};
ghost use Rattle.stages_known.specs.Known.{reads_known};
ghost use Rattle.command_modprobe.specs.Planned.{request_of};
ghost use Rattle.command_modprobe.specs.Resolved.{names_asked};

use km_course::Stop;
use km_names::{Blob, Name, Names, PathText};
use kmod_words::ModprobeWords;
use outside_calls::Reads;
use plan_builder::Request;
use stages_files::modules_folder;
use stages_known::{Known, read_known};
use std::alloc::{AllocError, Global};

/// What a plan is made from, and the folder of its modules.
#[derive(Drop)]
pub(crate) struct Basis {
    /// The folder of the modules.
    pub folder: PathText,
    /// What is to be planned.
    pub request: Request,
    /// What is known before a name is looked up.
    pub known: Known,
}

/// Makes the request, and then reads what is known.
pub(crate) fn read_basis<F: Reads>(
    alloc: Global,
    asked: ModprobeWords,
    files: &mut F,
) -> Result<Basis, Stop>
    ensures folder { IfOk result
        (λ basis. basis.folder ≡ modules_folder asked.dirname asked.version) }
    ensures request { IfOk result (λ basis. basis.request ≡ request_of asked) }
    ensures known { FollowsOnFilesAs (λ basis. basis.known)
        (reads_known asked.config (modules_folder asked.dirname asked.version) asked.loaded)
        F.seen files.old files.new result }
{
    let folder = modules_folder(alloc, &asked.dirname, &asked.version)?;
    let request = request_of(alloc, &asked)?;
    let known = known_below(alloc, asked, &folder, files)?;
    Ok(Basis {
        folder,
        request,
        known,
    })
}

/// Reads what is known of the modules in a folder.
fn known_below<F: Reads>(
    alloc: Global,
    asked: ModprobeWords,
    folder: &PathText,
    files: &mut F,
) -> Result<Known, Stop>
    ensures { FollowsOnFiles (reads_known asked.config folder.now asked.loaded)
        F.seen files.old files.new result }
{
    let ModprobeWords { config, loaded, .. } = asked;
    read_known(alloc, config, folder, loaded, files)
}

/// Returns what is to be planned: the names, and the parameters for the module of the first word,
/// if the other words are parameters.
fn request_of(alloc: Global, asked: &ModprobeWords) -> Result<Request, AllocError>
    ensures { IfOk result (λ request. request ≡ request_of asked.now) }
{
    let words = asked.words.as_slice();
    let names = names_asked(asked.all, words);
    Ok(Request {
        names: copied_names(alloc, names)?,
        options: spaced(alloc, &words[names.len()..])?,
        use_blacklist: asked.use_blacklist,
        ignore_install: asked.ignore_install,
    })
}

/// Returns the words that are names: all, or the first.
fn names_asked(all: bool, words: &[Name]) -> &[Name]
    ensures { result.now ≡ names_asked all words.now }
{
    if all || words.len() <= 1 {
        words
    } else {
        &words[..1]
    }
}

/// Copies some names.
fn copied_names(alloc: Global, names: &[Name]) -> Result<Names, AllocError>
    ensures { IfOk result (λ copies. copies ≡ names.now) }
{
    let mut copies = Names::new(alloc);
    for name in names {
        copies.push(Name::from_slice(alloc, name.as_bytes())?)?;
    }
    Ok(copies)
}

/// Joins words with a space between each and the next.
fn spaced(alloc: Global, words: &[Name]) -> Result<Blob, AllocError>
    ensures { IfOk result (λ text. text ≡ spaced words.now) }
{
    let mut pieces = Vec::new(alloc);
    for word in words {
        pieces.push(word.as_bytes())?;
    }
    Blob::spaced(alloc, &pieces)
}
