// The machine that a kernel's tables make.
ghost use Rattle.std.specs.Prelude.{◌≡◌, ◌≤◌, None, Some, IfOk, OnOk, length, true};
ghost use Rattle.km_names.specs.Limit.{file_limit};
ghost use Rattle.km_course.specs.Follows.{Answers};
ghost use Rattle.km_course.specs.FollowsOn.{FollowsOnFiles, FollowsOnFilesAs, Returns};
ghost use Rattle.kernel_exports.specs.KernelTable.{exports_of_map};
ghost use Rattle.kernel_exports.specs.MapLines.{map_line};
ghost use Rattle.kernel_exports.specs.TableLines.{refused_line, stated};
ghost use Rattle.stages_files.specs.KernelTable.{table_of, table_outcome};
ghost use Rattle.stages_loads.specs.Tables.{machine_outcome, reads_addressed, reads_machine};
ghost use Rattle.stages_loads.specs.Tables.{table_of_map, unplaced};

use km_course::{Refusal, Stop, read_needed};
use km_names::{Blob, PathText};
use model_loader::{Machine, MachineFault, Region};
use outside_calls::Reads;
use provider_rel::{Kernel, SystemMap};
use stages_files::{read_map, read_symvers, stop_of_table};
use std::alloc::Global;

/// Reads the machine of a kernel, with no module, whose region is for the modules to load. If a
/// Module.symvers is named, its exports are taken, or else the System.map's, which has their
/// addresses. The System.map is read and understood before the Module.symvers is read. A line that
/// isn't understood is refused, and so is the first export without an address. modprobe(8).
pub fn read_machine<F: Reads>(
    alloc: Global,
    system_map: PathText,
    symvers: Option<PathText>,
    region: Region,
    files: &mut F,
) -> Result<Machine, Stop>
    ensures { FollowsOnFiles (reads_machine system_map symvers region)
        F.seen files.old files.new result }
{
    let kernel = read_addressed(alloc, system_map, symvers, files)?;
    make_machine(alloc, kernel, region)
}

/// Reads the exports of a kernel at their addresses.
fn read_addressed<F: Reads>(
    alloc: Global,
    system_map: PathText,
    symvers: Option<PathText>,
    files: &mut F,
) -> Result<Kernel, Stop>
    ensures { FollowsOnFilesAs table_of (reads_addressed system_map symvers)
        F.seen files.old files.new result }
{
    match symvers {
        None => read_map(alloc, system_map, files),
        Some(symvers) => read_both(alloc, system_map, symvers, files),
    }
}

/// Reads the exports of the Module.symvers at the addresses of the System.map, which is read and
/// understood before.
fn read_both<F: Reads>(
    alloc: Global,
    system_map: PathText,
    symvers: PathText,
    files: &mut F,
) -> Result<Kernel, Stop>
    ensures { FollowsOnFilesAs table_of (reads_addressed system_map (Some symvers))
        F.seen files.old files.new result }
{
    let bytes = read_needed(alloc, files, &system_map)?;
    let map = understood_map(alloc, system_map, &bytes)?;
    let mut kernel = read_symvers(alloc, symvers, files)?;
    kernel.set_addresses(&map)?;
    Ok(kernel)
}

/// Returns the System.map of these bytes, or the refusal of the file at the path.
fn understood_map<'a>(alloc: Global, file: PathText, bytes: &'a Blob) -> Result<SystemMap<'a>, Stop>
    requires { length bytes.now ≤ file_limit }
    ensures answer { Answers table_of_map
        (table_outcome file true (exports_of_map bytes.now)) result }
    ensures symbols { IfOk result (λ map. map ≡ stated map_line bytes.now) }
    ensures passed { OnOk result (refused_line map_line bytes.now ≡ None) }
{
    match SystemMap::read(alloc, bytes.as_bytes()) {
        Ok(map) => Ok(map),
        Err(fault) => Err(stop_of_table(fault, file)),
    }
}

/// Returns the machine of the kernel, or the refusal of its first export without an address.
fn make_machine(alloc: Global, kernel: Kernel, region: Region) -> Result<Machine, Stop>
    ensures { Returns (machine_outcome (table_of kernel) region (unplaced kernel.exports)) result }
{
    match Machine::new(alloc, kernel, region) {
        Ok(machine) => Ok(machine),
        Err(MachineFault::KernelWithoutAddress { name }) => {
            Err(Stop::from(Refusal::KernelWithoutAddress { name }))
        }
        Err(MachineFault::Memory) => Err(Stop::Memory),
    }
}
