// The sections of the module in a file.
ghost use Rattle.km_course.specs.FollowsOn.{FollowsOnFiles, Returns};
ghost use Rattle.elf_sections.specs.Shape.{shape_fault};
ghost use Rattle.stages_files.specs.ModuleFile.{reads_sections, sections_outcome};

use elf_sections::{SectionFault, SectionFile};
use km_course::{Refusal, Stop, read_needed};
use km_names::{Blob, PathText, is_compressed};
use outside_calls::Reads;
use std::alloc::Global;

/// Reads the sections of the module at the path. A compressed module is refused unread.
pub fn read_sections<F: Reads>(
    alloc: Global,
    path: PathText,
    files: &mut F,
) -> Result<SectionFile, Stop>
    ensures { FollowsOnFiles (reads_sections path) F.seen files.old files.new result }
{
    if is_compressed(&path) {
        return Err(Stop::from(Refusal::Compressed { path }));
    }
    let bytes = read_needed(alloc, files, &path)?;
    check_sections(alloc, bytes, path)
}

/// Returns the sections of a module's bytes, or the refusal of the module at the path.
fn check_sections(alloc: Global, bytes: Blob, path: PathText) -> Result<SectionFile, Stop>
    ensures { Returns (sections_outcome path bytes (shape_fault bytes)) result }
{
    match SectionFile::read(bytes) {
        Ok(sections) => Ok(sections),
        Err(fault) => match fault {
            SectionFault::Memory => Err(Stop::Memory),
            SectionFault::NotElf
            | SectionFault::Truncated { .. }
            | SectionFault::WrongClass
            | SectionFault::WrongMachine
            | SectionFault::NotRelocatable
            | SectionFault::BadSection { .. }
            | SectionFault::BadString { .. } => {
                let text = fault.text(alloc)?;
                Err(Stop::from(Refusal::BadModule { path, text }))
            }
        },
    }
}
