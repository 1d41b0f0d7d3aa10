// The files of a tool's configuration.
ghost use Rattle.std.specs.Prelude.{◌≡◌, ◌≤◌, ◌∷◌, [], List, ℕ, length, map, All, IfOk, OnOk};
ghost use Rattle.std.specs.BTreeMap as tree;
ghost use Rattle.std.specs.FinMap as fin;
ghost use Rattle.km_names.specs.Limit.{file_limit};
ghost use Rattle.outside_calls.specs.Contents.{by_bytes};
ghost use Rattle.km_course.specs.FollowsOn.{FollowsOnFiles};
ghost use Rattle.stages_files.specs.Configuration.{roots as roots_spec, folder_name, with_names};
ghost use Rattle.stages_files.specs.Configuration.{paths_of, entries_in_bytes, lists_folder};
ghost use Rattle.stages_files.specs.Configuration.{lists_folders, reads_file, reads_files};
ghost use Rattle.stages_files.specs.Configuration.{reads_given, reads_listed, reads_configuration};
ghost use Rattle.stages_files.specs.Configuration.{stop_of};

use km_course::{Refusal, Stop, list_conf_needed, list_conf_optional, read_needed};
use km_names::{ConfFault, ConfFile, ConfFiles, List as Items, Names, PathText, Paths, join};
use outside_calls::Reads;
use std::alloc::{AllocError, Global};
use std::collections::BTreeMap;

/// A tool that is configured by files in folders of its own.
#[derive(Clone, Copy)]
pub enum Tool {
    /// Configured by depmod.d(5).
    Depmod,
    /// Configured by modprobe.d(5).
    Modprobe,
}

/// A folder, and the base names of the configuration files in it.
#[derive(Drop)]
pub struct ListedFolder {
    pub path: PathText,
    pub names: Names,
}

/// Reads the files of a tool's configuration, in the order they count in.
///
/// Without `config` they are in the folders `/etc/X`, `/run/X`, `/usr/local/lib/X`, `/usr/lib/X`
/// and `/lib/X`, with X `depmod.d` or `modprobe.d`. A missing folder counts as empty. Of equal base
/// names the file of the earlier folder counts, and the files are in the order of the bytes of
/// their base names.
///
/// A `config` that ends in `.conf` is the only file, and any other is the only folder; it is
/// required. All folders are listed, and then the files are read. depmod.d(5), modprobe.d(5).
pub fn read_configuration<F: Reads>(
    alloc: Global,
    tool: Tool,
    config: Option<PathText>,
    files: &mut F,
) -> Result<ConfFiles, Stop>
    ensures follows { FollowsOnFiles (reads_configuration tool config)
        F.seen files.old files.new result }
    ensures limit { IfOk result (λ read. All (λ file. length file.bytes ≤ file_limit) read) }
{
    match config {
        Some(path) => read_given(alloc, path, files),
        None => {
            let roots = roots(alloc)?;
            let folders = list_folders(alloc, tool, roots.as_slice(), files)?;
            read_listed(alloc, &folders, files)
        }
    }
}

/// Returns the stop of a command for a fault of configuration files.
pub fn stop_of_fault(fault: ConfFault) -> Stop
    ensures { result ≡ stop_of fault }
{
    match fault {
        ConfFault::BadLine { file, line } => Stop::from(Refusal::BadLine { file, number: line }),
        ConfFault::Memory => Stop::Memory,
    }
}

/// Returns the places of the folders of a tool's configuration.
fn roots(alloc: Global) -> Result<Paths, AllocError>
    ensures { IfOk result (λ paths. paths ≡ roots_spec) }
{
    paths_from(
        alloc,
        &[b"/etc", b"/run", b"/usr/local/lib", b"/usr/lib", b"/lib"],
    )
}

/// Returns the paths with these texts.
fn paths_from(alloc: Global, texts: &[&[u8]]) -> Result<Paths, AllocError>
    ensures { IfOk result (λ paths. paths ≡ map (λ text. text.now) texts.now) }
{
    let mut paths = Paths::new(alloc);
    for text in texts {
        paths.push(PathText::from_slice(alloc, text)?)?;
    }
    Ok(paths)
}

/// Returns the name of the folders of a tool's configuration.
fn folder_name(tool: Tool) -> &'static [u8]
    ensures { result.now ≡ folder_name tool }
{
    match tool {
        Tool::Depmod => b"depmod.d",
        Tool::Modprobe => b"modprobe.d",
    }
}

/// Reads the files of the configuration at the path, which is a file or a folder.
fn read_given<F: Reads>(alloc: Global, path: PathText, files: &mut F) -> Result<ConfFiles, Stop>
    ensures follows { FollowsOnFiles (reads_given path) F.seen files.old files.new result }
    ensures limit { IfOk result (λ read. All (λ file. length file.bytes ≤ file_limit) read) }
{
    if path.as_bytes().ends_with(b".conf") {
        let paths = one_path(alloc, path)?;
        return read_files(alloc, paths.as_slice(), files);
    }
    let names = list_conf_needed(alloc, files, &path)?;
    let folders = one_folder(alloc, path, names)?;
    read_listed(alloc, &folders, files)
}

fn one_path(alloc: Global, path: PathText) -> Result<Paths, AllocError>
    ensures { IfOk result (λ paths. paths ≡ path ∷ []) }
{
    let mut paths = Paths::new(alloc);
    paths.push(path)?;
    Ok(paths)
}

fn one_folder(
    alloc: Global,
    path: PathText,
    names: Names,
) -> Result<Items<ListedFolder>, AllocError>
    ensures { IfOk result (λ folders. folders ≡ record { path = path; names = names } ∷ []) }
{
    let mut folders = Items::new(alloc);
    folders.push(ListedFolder { path, names })?;
    Ok(folders)
}

/// Lists the folders of a tool's configuration below these roots.
fn list_folders<F: Reads>(
    alloc: Global,
    tool: Tool,
    roots: &[PathText],
    files: &mut F,
) -> Result<Items<ListedFolder>, Stop>
    ensures { FollowsOnFiles (lists_folders (folder_name tool) roots.now)
        F.seen files.old files.new result }
{
    let name = folder_name(tool);
    let mut listed = Items::new(alloc);
    for root in roots {
        listed = with_folder(alloc, listed, root, name, files)?;
    }
    Ok(listed)
}

/// Adds the folder of this name below a root to the folders that were listed.
fn with_folder<F: Reads>(
    alloc: Global,
    mut listed: Items<ListedFolder>,
    root: &PathText,
    name: &[u8],
    files: &mut F,
) -> Result<Items<ListedFolder>, Stop>
    ensures { FollowsOnFiles (lists_folder name.now listed root.now)
        F.seen files.old files.new result }
{
    let path = join(alloc, root, name)?;
    let names = list_conf_optional(alloc, files, &path)?;
    listed.push(ListedFolder { path, names })?;
    Ok(listed)
}

/// Reads the files that count in the folders.
fn read_listed<F: Reads>(
    alloc: Global,
    folders: &Items<ListedFolder>,
    files: &mut F,
) -> Result<ConfFiles, Stop>
    ensures follows { FollowsOnFiles (reads_listed folders.now) F.seen files.old files.new result }
    ensures limit { IfOk result (λ read. All (λ file. length file.bytes ≤ file_limit) read) }
{
    let paths = chosen_paths(alloc, folders.as_slice())?;
    read_files(alloc, paths.as_slice(), files)
}

/// Returns the paths of the files that count, in their order.
fn chosen_paths(alloc: Global, folders: &[ListedFolder]) -> Result<Paths, AllocError>
    ensures { IfOk result (λ paths. paths ≡ paths_of folders.now) }
{
    let mut found = BTreeMap::new(alloc);
    let mut left = folders.len();
    while left > 0 {
        left -= 1;
        put_names(alloc, &mut found, &folders[left])?;
    }
    in_order(alloc, found)
}

/// Puts the files of a folder in place of files of the same names.
fn put_names(
    alloc: Global,
    found: &mut BTreeMap<Vec<u8>, PathText>,
    folder: &ListedFolder,
) -> Result<(), AllocError>
    ensures { OnOk result ((files : fin.FinMap by_bytes (List ℕ))
        → entries_in_bytes found.old.entries ≡ fin.entries files →
        entries_in_bytes found.new.entries
        ≡ fin.entries (with_names folder.now.path folder.now.names files)) }
{
    for name in folder.names.as_slice() {
        put_name(alloc, found, &folder.path, name.as_bytes())?;
    }
    Ok(())
}

fn put_name(
    alloc: Global,
    found: &mut BTreeMap<Vec<u8>, PathText>,
    folder: &PathText,
    name: &[u8],
) -> Result<(), AllocError>
    ensures { OnOk result ((files : fin.FinMap by_bytes (List ℕ))
        → entries_in_bytes found.old.entries ≡ fin.entries files →
        entries_in_bytes found.new.entries
        ≡ fin.entries (with_names folder.now (name.now ∷ []) files)) }
{
    let path = join(alloc, folder, name)?;
    found.insert(Vec::from_slice(alloc, name)?, path)?;
    Ok(())
}

/// Returns the paths of files, in the order of their names.
fn in_order(alloc: Global, found: BTreeMap<Vec<u8>, PathText>) -> Result<Paths, AllocError>
    ensures { IfOk result (λ paths. paths ≡ tree.values found) }
{
    let paths: Vec<PathText> = found.into_values().collect(alloc)?;
    Ok(Paths::from_vec(paths))
}

/// Reads the files at the paths, one after the other.
fn read_files<F: Reads>(alloc: Global, paths: &[PathText], files: &mut F) -> Result<ConfFiles, Stop>
    ensures follows { FollowsOnFiles (reads_files paths.now) F.seen files.old files.new result }
    ensures limit { IfOk result (λ read. All (λ file. length file.bytes ≤ file_limit) read) }
{
    let mut read = ConfFiles::new(alloc);
    for path in paths {
        read = with_file(alloc, read, path, files)?;
    }
    Ok(read)
}

/// Adds the file at the path to the files that were read.
fn with_file<F: Reads>(
    alloc: Global,
    mut read: ConfFiles,
    path: &PathText,
    files: &mut F,
) -> Result<ConfFiles, Stop>
    requires { All (λ file. length file.bytes ≤ file_limit) read }
    ensures follows { FollowsOnFiles (reads_file read path.now) F.seen files.old files.new result }
    ensures limit { IfOk result (λ more. All (λ file. length file.bytes ≤ file_limit) more) }
{
    let bytes = read_needed(alloc, files, path)?;
    let own = PathText::from_slice(alloc, path.as_bytes())?;
    read.push(ConfFile { path: own, bytes })?;
    Ok(read)
}
