// The search list of the configuration.
ghost use Rattle.std.specs.Prelude.{◌≤◌, length, All};
ghost use Rattle.km_names.specs.Limit.{file_limit};
ghost use Rattle.km_course.specs.FollowsOn.{FollowsOnFiles, Returns};
ghost use Rattle.mod_tree.specs.Search.{search_of};
ghost use Rattle.stages_files.specs.Configuration.{stated_outcome};
ghost use Rattle.command_depmod.specs.Search.{reads_search};

use km_course::Stop;
use km_names::{ConfFiles, PathText};
use mod_tree::{Search, parse_search};
use outside_calls::Reads;
use stages_files::{Tool, read_configuration, stop_of_fault};
use std::alloc::Global;

/// Reads the search list of the configuration, at the given path or in the usual folders.
pub(crate) fn read_search<F: Reads>(
    alloc: Global,
    config: Option<PathText>,
    files: &mut F,
) -> Result<Search, Stop>
    ensures { FollowsOnFiles (reads_search config) F.seen files.old files.new result }
{
    let read = read_configuration(alloc, Tool::Depmod, config, files)?;
    parse(alloc, &read)
}

/// Returns the search list of the files, or the refusal of the first line that isn't understood.
fn parse(alloc: Global, files: &ConfFiles) -> Result<Search, Stop>
    requires { All (λ file. length file.bytes ≤ file_limit) files.now }
    ensures { Returns (stated_outcome (search_of files.now)) result }
{
    match parse_search(alloc, files) {
        Ok(search) => Ok(search),
        Err(fault) => Err(stop_of_fault(fault)),
    }
}
