// The index in a file.
ghost use Rattle.km_course.specs.FollowsOn.{FollowsOnFiles, Returns};
ghost use Rattle.index_format.specs.Check.{index_fault};
ghost use Rattle.stages_files.specs.IndexFile.{index_outcome, reads_index};

use index_read::{Index, IndexFault};
use km_course::{Refusal, Stop, read_needed};
use km_names::{Blob, PathText};
use outside_calls::Reads;
use std::alloc::Global;

/// Reads the index in the file at the path, which is required.
pub fn read_index<F: Reads>(alloc: Global, path: PathText, files: &mut F) -> Result<Index, Stop>
    ensures { FollowsOnFiles (reads_index path) F.seen files.old files.new result }
{
    let bytes = read_needed(alloc, files, &path)?;
    adopt_index(alloc, bytes, path)
}

/// Returns the index of these bytes, or the refusal of the file at the path.
fn adopt_index(alloc: Global, bytes: Blob, file: PathText) -> Result<Index, Stop>
    ensures { Returns (index_outcome file bytes (index_fault bytes)) result }
{
    match Index::adopt(alloc, bytes) {
        Ok(index) => Ok(index),
        Err(fault) => match fault {
            IndexFault::Memory => Err(Stop::Memory),
            IndexFault::BadMagic
            | IndexFault::BadVersion
            | IndexFault::BadNode { .. }
            | IndexFault::Revisited { .. } => {
                let text = fault.text(alloc)?;
                Err(Stop::from(Refusal::BadIndex { file, text }))
            }
        },
    }
}
