// The course of static-nodes.
ghost use Rattle.std.specs.Prelude.{◌≤◌, length};
ghost use Rattle.km_names.specs.Limit.{file_limit};
ghost use Rattle.km_course.specs.FollowsOn.{FollowsOnFiles, FollowsOnFilesAndOut, Returns};
ghost use Rattle.devname_nodes.specs.File.{read_of};
ghost use Rattle.stages_files.specs.Configuration.{stated_outcome};
ghost use Rattle.command_static_nodes.specs.StaticNodes.{reads_nodes, shows_nodes};
ghost use Rattle.command_static_nodes.specs.StaticNodes.{static_nodes_course};

use devname_nodes::{NodeList, node_lines, read_nodes};
use km_course::{End, Stop, read_needed, say_any};
use km_names::{PathText, Word, join};
use kmod_words::{StaticNodesWords, read_static_nodes};
use outside_calls::{Out, Reads};
use stages_files::{modules_folder, stop_of_fault};
use std::alloc::Global;

/// Does what the words after `static-nodes` ask for: it prints the lines of the nodes in a kernel's
/// modules.devname. kmod(8), "static-nodes".
pub fn static_nodes<F: Reads, O: Out>(
    alloc: Global,
    words: &[Word],
    files: &mut F,
    out: &mut O,
) -> Result<(), Stop>
    ensures { FollowsOnFilesAndOut (static_nodes_course words.now)
        F.seen files.old files.new O.seen out.old out.new result }
{
    match read_static_nodes(alloc, words)? {
        Some(asked) => show_nodes(alloc, asked, files, out),
        None => Err(Stop::from(End::NotUnderstood)),
    }
}

/// Prints the lines of the nodes that are asked for.
fn show_nodes<F: Reads, O: Out>(
    alloc: Global,
    asked: StaticNodesWords,
    files: &mut F,
    out: &mut O,
) -> Result<(), Stop>
    ensures { FollowsOnFilesAndOut (shows_nodes asked)
        F.seen files.old files.new O.seen out.old out.new result }
{
    let folder = modules_folder(alloc, &asked.dirname, &asked.version)?;
    let file = join(alloc, &folder, b"modules.devname")?;
    let nodes = read_list(alloc, &file, files)?;
    let text = node_lines(alloc, &nodes)?;
    say_any(out, text.as_bytes())
}

/// Reads the nodes of the modules.devname at the path, which is required.
fn read_list<F: Reads>(alloc: Global, file: &PathText, files: &mut F) -> Result<NodeList, Stop>
    ensures { FollowsOnFiles (reads_nodes file.now) F.seen files.old files.new result }
{
    let bytes = read_needed(alloc, files, file)?;
    nodes_in(alloc, file, bytes.as_bytes())
}

/// Returns the nodes that a modules.devname states.
fn nodes_in(alloc: Global, file: &PathText, bytes: &[u8]) -> Result<NodeList, Stop>
    requires { length bytes.now ≤ file_limit }
    ensures { Returns (stated_outcome (read_of file.now bytes.now)) result }
{
    match read_nodes(alloc, file, bytes) {
        Ok(nodes) => Ok(nodes),
        Err(fault) => Err(stop_of_fault(fault)),
    }
}
