// The two files that `--extra` adds.
ghost use Rattle.std.specs.Prelude.{◌≡◌, ◌≤◌, ◌⊎◌, Some, None, option_map, IfOk, IfErr, IfSome};
ghost use Rattle.std.specs.Prelude.{OnOk, length};
ghost use Rattle.km_names.specs.Limit.{file_limit};
ghost use Rattle.km_course.specs.FollowsOn.{FollowsOnFiles, Returns};
ghost use Rattle.index_format.specs.File.{file as file_spec};
ghost use Rattle.builtin_index.specs.Aliases.{alias_map};
ghost use Rattle.devname_nodes.specs.File.{nodes_text};
ghost use Rattle.devname_nodes.specs.Nodes.{nodes_of};
ghost use Rattle.command_depmod.specs.Extra.{extra_outcome, reads_info, refused_stop, size_refusal};
ghost use Rattle.command_depmod.specs.Files.{file_name};

use crate::files::{DepmodFile, ExtraFiles};
use builtin_index::alias_index;
use devname_nodes::{nodes, nodes_text};
use index_write::WriteFault;
use km_course::{Refusal, Stop, read_optional};
use km_names::{Blob, FILE_LIMIT, Name, PathText, join};
use outside_calls::Reads;
use provider_rel::TreeFacts;
use std::alloc::Global;

/// Reads the modules.builtin.modinfo in the folder, if it is asked for. A missing one counts as
/// empty.
pub(crate) fn read_info<F: Reads>(
    alloc: Global,
    extra: bool,
    folder: &PathText,
    files: &mut F,
) -> Result<Option<Blob>, Stop>
    ensures follows { FollowsOnFiles (reads_info extra folder.now)
        F.seen files.old files.new result }
    ensures limit { IfOk result (λ info. IfSome info (λ bytes. length bytes ≤ file_limit)) }
{
    if !extra {
        return Ok(None);
    }
    let file = join(alloc, folder, b"modules.builtin.modinfo")?;
    let bytes = read_optional(alloc, files, &file)?;
    Ok(Some(bytes))
}

/// Makes the two files of a tree for what modules.builtin.modinfo has, or refuses the first that is
/// too large. It makes none if that file wasn't read.
pub(crate) fn make_extra(
    alloc: Global,
    tree: &TreeFacts,
    info: Option<Blob>,
) -> Result<Option<ExtraFiles>, Stop>
    requires { IfSome info (λ bytes. length bytes ≤ file_limit) }
    ensures { Returns (extra_outcome tree.now info) result }
{
    let Some(info) = info else {
        return Ok(None);
    };
    let builtin_alias_bin = make_alias_index(alloc, info.as_bytes())?;
    let devname = make_devname(alloc, tree)?;
    Ok(Some(ExtraFiles {
        builtin_alias_bin,
        devname,
    }))
}

/// Makes modules.builtin.alias.bin, unless it would be too large.
fn make_alias_index(alloc: Global, info: &[u8]) -> Result<Blob, Stop>
    requires { length info.now ≤ file_limit }
    ensures made { IfOk result (λ bytes. bytes ≡ file_spec (alias_map info.now)) }
    ensures small { OnOk result
        (size_refusal DepmodFile.BuiltinAliasBin (file_spec (alias_map info.now)) ≡ None) }
    ensures stops { IfErr result (λ stop. (stop ≡ Stop.Memory)
        ⊎ (option_map refused_stop
        (size_refusal DepmodFile.BuiltinAliasBin (file_spec (alias_map info.now)))
        ≡ Some stop)) }
{
    match alias_index(alloc, info) {
        Ok(bytes) => Ok(bytes),
        Err(WriteFault::IndexTooLarge { length: _ }) => {
            Err(too_large(alloc, DepmodFile::BuiltinAliasBin))
        }
        Err(WriteFault::Memory) => Err(Stop::Memory),
    }
}

/// Makes modules.devname, unless it would be too large.
fn make_devname(alloc: Global, tree: &TreeFacts) -> Result<Blob, Stop>
    ensures made { IfOk result (λ text. text ≡ nodes_text (nodes_of tree.now)) }
    ensures small { OnOk result
        (size_refusal DepmodFile.Devname (nodes_text (nodes_of tree.now)) ≡ None) }
    ensures stops { IfErr result (λ stop. (stop ≡ Stop.Memory)
        ⊎ (option_map refused_stop
        (size_refusal DepmodFile.Devname (nodes_text (nodes_of tree.now)))
        ≡ Some stop)) }
{
    let nodes = nodes(alloc, tree)?;
    let text = nodes_text(alloc, &nodes)?;
    if text.len() > FILE_LIMIT {
        return Err(too_large(alloc, DepmodFile::Devname));
    }
    Ok(text)
}

/// Returns how a file that is too large stops the command: by its name, or because there is no
/// memory for that.
fn too_large(alloc: Global, file: DepmodFile) -> Stop
    ensures { (result ≡ Stop.Memory)
        ⊎ (result ≡ refused_stop (Refusal.OutputTooLarge (file_name file))) }
{
    match Name::from_slice(alloc, file.name()) {
        Ok(file) => Stop::from(Refusal::OutputTooLarge { file }),
        Err(_) => Stop::Memory,
    }
}
