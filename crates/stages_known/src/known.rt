// What modprobe knows before it looks a name up.
ghost use Rattle.std.specs.Prelude.{◌≡◌, ◌≤◌, ◌∷◌, [], length, All, IfOk};
ghost use Rattle.km_names.specs.Limit.{file_limit};
ghost use Rattle.km_course.specs.FollowsOn.{FollowsOnFiles, Returns};
ghost use Rattle.modprobe_conf.specs.Rules.{rules_of};
ghost use Rattle.unmet_file.specs.Unmet.{unmet_of};
ghost use Rattle.stages_files.specs.Configuration.{stated_outcome};
ghost use Rattle.stages_known.specs.Known.{reads_index_in, reads_indexes, reads_rules, reads_unmet};
ghost use Rattle.stages_known.specs.Known.{reads_loaded, reads_lists, reads_known};

use index_read::Index;
use km_course::{Stop, read_needed, read_optional};
use km_names::{Blob, ConfFile, ConfFiles, PathText, join};
use loaded_list::Loaded;
use modprobe_conf::{Rules, parse};
use name_lookup::Indexes;
use outside_calls::Reads;
use stages_files::{Tool, read_configuration, read_index, stop_of_fault};
use std::alloc::{AllocError, Global};
use unmet_file::Unmet;

/// What modprobe knows before it looks a name up.
#[derive(Drop)]
pub struct Known {
    /// The rules of the configuration and of modules.softdep.
    pub rules: Rules,
    /// The indexes in which names are looked up.
    pub indexes: Indexes,
    /// The obstacles to loading modules.
    pub unmet: Unmet,
    /// The modules that are loaded, the newest first.
    pub loaded: Loaded,
}

/// Reads what modprobe has to know. First the configuration is read, and understood before another
/// file is read. Then come the index files of the folder, its modules.softdep and modules.unmet,
/// and the list of loaded modules. modprobe(8), modules.dep(5).
pub fn read_known<F: Reads>(
    alloc: Global,
    config: Option<PathText>,
    folder: &PathText,
    loaded: Option<PathText>,
    files: &mut F,
) -> Result<Known, Stop>
    ensures { FollowsOnFiles (reads_known config folder.now loaded)
        F.seen files.old files.new result }
{
    let configuration = read_configuration(alloc, Tool::Modprobe, config, files)?;
    let stated = rules_in(alloc, &configuration)?;
    let indexes = read_indexes(alloc, folder, files)?;
    read_lists(alloc, stated, folder, indexes, loaded, files)
}

/// Returns the rules that configuration files state.
fn rules_in(alloc: Global, files: &ConfFiles) -> Result<Rules, Stop>
    requires { All (λ file. length file.bytes ≤ file_limit) files.now }
    ensures { Returns (stated_outcome (rules_of files.now)) result }
{
    match parse(alloc, files) {
        Ok(rules) => Ok(rules),
        Err(fault) => Err(stop_of_fault(fault)),
    }
}

/// Reads the four index files of a folder, each checked before the next is read.
fn read_indexes<F: Reads>(alloc: Global, folder: &PathText, files: &mut F) -> Result<Indexes, Stop>
    ensures { FollowsOnFiles (reads_indexes folder.now) F.seen files.old files.new result }
{
    let dep = read_index_in(alloc, folder, b"modules.dep.bin", files)?;
    let alias = read_index_in(alloc, folder, b"modules.alias.bin", files)?;
    let symbols = read_index_in(alloc, folder, b"modules.symbols.bin", files)?;
    let builtin = read_index_in(alloc, folder, b"modules.builtin.bin", files)?;
    Ok(Indexes {
        dep,
        alias,
        symbols,
        builtin,
    })
}

/// Reads the index in the file of this name in a folder.
fn read_index_in<F: Reads>(
    alloc: Global,
    folder: &PathText,
    name: &[u8],
    files: &mut F,
) -> Result<Index, Stop>
    ensures { FollowsOnFiles (reads_index_in folder.now name.now)
        F.seen files.old files.new result }
{
    let path = join(alloc, folder, name)?;
    read_index(alloc, path, files)
}

/// Reads what modprobe knows, after the configuration and the indexes were read.
fn read_lists<F: Reads>(
    alloc: Global,
    stated: Rules,
    folder: &PathText,
    indexes: Indexes,
    loaded: Option<PathText>,
    files: &mut F,
) -> Result<Known, Stop>
    ensures { FollowsOnFiles (reads_lists stated folder.now indexes loaded)
        F.seen files.old files.new result }
{
    let rules = read_rules(alloc, stated, folder, files)?;
    let unmet = read_unmet(alloc, folder, files)?;
    let listed = read_loaded(alloc, loaded, files)?;
    Ok(Known {
        rules,
        indexes,
        unmet,
        loaded: listed,
    })
}

/// Reads the rules of modules.softdep, and puts them after those that the configuration states.
fn read_rules<F: Reads>(
    alloc: Global,
    mut stated: Rules,
    folder: &PathText,
    files: &mut F,
) -> Result<Rules, Stop>
    ensures { FollowsOnFiles (reads_rules stated folder.now) F.seen files.old files.new result }
{
    let path = join(alloc, folder, b"modules.softdep")?;
    let bytes = read_optional(alloc, files, &path)?;
    let softdep = one_file(alloc, path, bytes)?;
    let more = rules_in(alloc, &softdep)?;
    stated.append(more)?;
    Ok(stated)
}

/// Returns the list of one file.
fn one_file(alloc: Global, path: PathText, bytes: Blob) -> Result<ConfFiles, AllocError>
    requires { length bytes ≤ file_limit }
    ensures files { IfOk result (λ files. files ≡ record { path = path; bytes = bytes } ∷ []) }
    ensures limit { IfOk result (λ files. All (λ file. length file.bytes ≤ file_limit) files) }
{
    let mut files = ConfFiles::new(alloc);
    files.push(ConfFile { path, bytes })?;
    Ok(files)
}

/// Reads the lines of the folder's modules.unmet.
fn read_unmet<F: Reads>(alloc: Global, folder: &PathText, files: &mut F) -> Result<Unmet, Stop>
    ensures { FollowsOnFiles (reads_unmet folder.now) F.seen files.old files.new result }
{
    let path = join(alloc, folder, b"modules.unmet")?;
    let bytes = read_optional(alloc, files, &path)?;
    unmet_in(alloc, &path, bytes.as_bytes())
}

/// Returns the lines that a modules.unmet states.
fn unmet_in(alloc: Global, file: &PathText, bytes: &[u8]) -> Result<Unmet, Stop>
    requires { length bytes.now ≤ file_limit }
    ensures { Returns (stated_outcome (unmet_of file.now bytes.now)) result }
{
    match Unmet::read(alloc, file, bytes) {
        Ok(unmet) => Ok(unmet),
        Err(fault) => Err(stop_of_fault(fault)),
    }
}

/// Reads the loaded modules that the file at the path lists, or none without a path.
fn read_loaded<F: Reads>(
    alloc: Global,
    path: Option<PathText>,
    files: &mut F,
) -> Result<Loaded, Stop>
    ensures { FollowsOnFiles (reads_loaded path) F.seen files.old files.new result }
{
    match path {
        Some(path) => {
            let bytes = read_needed(alloc, files, &path)?;
            let loaded = Loaded::read(alloc, bytes.as_bytes())?;
            Ok(loaded)
        }
        None => Ok(Loaded::new(alloc)),
    }
}
