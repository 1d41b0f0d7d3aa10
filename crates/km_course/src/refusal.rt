ghost use Rattle.std.specs.Prelude.{◌≡◌, ◌++◌, IfOk, codes};
ghost use Rattle.std.specs.Fmt.{decimal};
ghost use Rattle.km_course.specs.Lines.{refusal_text};

use km_names::{Blob, Bytes, Name, Names, PathText, cycle_text, not_found_text};
use std::alloc::{AllocError, Global};

/// Why a command is refused with status 1: one variant for each line of its own. A missing file and
/// one past its limit are an [`End`](crate::End) of their own.
#[derive(Debug, Drop)]
pub enum Refusal {
    /// The module at the path is bad: the text of its fault.
    BadModule { path: PathText, text: Blob },
    /// The module at the path is compressed.
    Compressed { path: PathText },
    /// Modules depend on each other in a cycle: their names in order, the first one named once.
    Cycle { names: Names },
    /// No module, command or built-in of the name is known.
    NotFound { name: Name },
    /// A plan can't be made: the text of its first obstacle.
    Obstacle { text: Blob },
    /// The file is no index: the text of its fault.
    BadIndex { file: PathText, text: Blob },
    /// A line of the file isn't understood, counted from 1.
    BadLine { file: PathText, number: u32 },
    /// A load was asked for, and the plan has an install command for this module.
    InstallChosen { name: Name },
    /// The kernel exports the symbol without an address.
    KernelWithoutAddress { name: Name },
    /// A module that is listed as loaded isn't in modules.dep.bin.
    ListedNotFound { name: Name },
    /// A module that is listed as loaded can't be one: the text of its fault.
    ListedRefused { name: Name, text: Blob },
    /// The module can't be loaded: the text of its fault.
    LoadRefused { name: Name, text: Blob },
    /// The options of a loaded module can't be written into its image: the text of their fault.
    ParamsRefused { name: Name, text: Blob },
    /// A module that is to be removed is used by a module that stays.
    InUse { name: Name, user: Name },
    /// A removal was asked for, and it has a remove command for this module.
    RemoveChosen { name: Name },
    /// The tree has more modules than the limit.
    TooManyModules,
    /// All modules together have more dependencies than the limit.
    TooManyDependencies,
    /// There are more double lines than the limit: pairs of exporters of one symbol.
    TooManyDoubles,
    /// The output file of the name would have more bytes than the limit.
    OutputTooLarge { file: Name },
    /// The path isn't one that a module can have.
    BadPath { path: PathText },
    /// An output of an inner command is full.
    InnerOutputFull,
}

impl Refusal {
    /// Returns the text of the refusal.
    pub(crate) fn text(&self, alloc: Global) -> Result<Blob, AllocError>
        ensures { IfOk result (λ text. text ≡ refusal_text self.now) }
    {
        match self {
            Refusal::BadModule { path, text } => faulty(alloc, b"", path, text),
            Refusal::Compressed { path } => named(alloc, b"", path, b": compressed"),
            Refusal::Cycle { names } => cycle_text(alloc, names),
            Refusal::NotFound { name } => not_found_text(alloc, name),
            Refusal::Obstacle { text } => named(alloc, b"", text, b""),
            Refusal::BadIndex { file, text } => faulty(alloc, b"", file, text),
            Refusal::BadLine { file, number } => bad_line(alloc, file, *number),
            Refusal::InstallChosen { name } => named(alloc, b"install chosen ", name, b""),
            Refusal::KernelWithoutAddress { name } => {
                named(alloc, b"kernel without address ", name, b"")
            }
            Refusal::ListedNotFound { name } => {
                named(alloc, b"listed module ", name, b": not found")
            }
            Refusal::ListedRefused { name, text } => faulty(alloc, b"listed module ", name, text),
            Refusal::LoadRefused { name, text } => faulty(alloc, b"", name, text),
            Refusal::ParamsRefused { name, text } => faulty(alloc, b"", name, text),
            Refusal::InUse { name, user } => in_use(alloc, name, user),
            Refusal::RemoveChosen { name } => named(alloc, b"remove chosen ", name, b""),
            Refusal::TooManyModules => Blob::from_slice(alloc, b"too many modules"),
            Refusal::TooManyDependencies => Blob::from_slice(alloc, b"too many dependencies"),
            Refusal::TooManyDoubles => Blob::from_slice(alloc, b"too many doubles"),
            Refusal::OutputTooLarge { file } => named(alloc, b"", file, b": output too large"),
            Refusal::BadPath { path } => named(alloc, b"bad path ", path, b""),
            Refusal::InnerOutputFull => Blob::from_slice(alloc, b"inner output full"),
        }
    }
}

/// Returns a text that names a thing, with the words before and after it.
fn named<K>(alloc: Global, before: &[u8], what: &Bytes<K>, after: &[u8]) -> Result<Blob, AllocError>
    ensures { IfOk result (λ text. text ≡ before.now ++ (what.now ++ after.now)) }
{
    Blob::concat(alloc, &[before, what.as_bytes(), after])
}

/// Returns the thing that is refused and the text of its fault, with the words before them.
fn faulty<K>(
    alloc: Global,
    before: &[u8],
    what: &Bytes<K>,
    fault: &Blob,
) -> Result<Blob, AllocError>
    ensures { IfOk result (λ text. text ≡ before.now ++ (what.now ++ (codes ": " ++ fault.now))) }
{
    Blob::concat(alloc, &[before, what.as_bytes(), b": ", fault.as_bytes()])
}

/// Returns the text for a module that another one uses.
fn in_use(alloc: Global, name: &Name, user: &Name) -> Result<Blob, AllocError>
    ensures { IfOk result (λ text. text ≡ name.now ++ (codes " is in use by " ++ user.now)) }
{
    Blob::concat(
        alloc,
        &[name.as_bytes(), b" is in use by ", user.as_bytes()],
    )
}

/// Returns the text for a line of a file that isn't understood.
fn bad_line(alloc: Global, file: &PathText, number: u32) -> Result<Blob, AllocError>
    ensures { IfOk result (λ text. text ≡ file.now ++ (codes ": bad line " ++ decimal number)) }
{
    let number = format!(in alloc; "{number}")?;
    Blob::concat(alloc, &[file.as_bytes(), b": bad line ", number.as_bytes()])
}
