// The table of the kernel, by its System.map or its Module.symvers.
ghost use Rattle.std.specs.Prelude.{◌≡◌, ◌≤◌, length, true};
ghost use Rattle.km_names.specs.Limit.{file_limit};
ghost use Rattle.km_course.specs.Follows.{Answers};
ghost use Rattle.km_course.specs.FollowsOn.{FollowsOnFilesAs};
ghost use Rattle.kernel_exports.specs.KernelTable.{exports_of_map, exports_of_symvers};
ghost use Rattle.stages_files.specs.KernelTable.{reads_kernel, reads_map, reads_symvers, table_of};
ghost use Rattle.stages_files.specs.KernelTable.{table_outcome, table_stop};

use km_course::{Refusal, Stop, read_needed};
use km_names::{Blob, PathText};
use outside_calls::Reads;
use provider_rel::{Kernel, KernelFault};
use std::alloc::Global;

/// Reads the table of the kernel from a System.map or a Module.symvers, if one of them is named.
/// Otherwise the kernel isn't known. depmod(8), `-F` and `-E`.
pub fn read_kernel<F: Reads>(
    alloc: Global,
    map: Option<PathText>,
    symvers: Option<PathText>,
    files: &mut F,
) -> Result<Kernel, Stop>
    ensures { FollowsOnFilesAs table_of (reads_kernel map symvers)
        F.seen files.old files.new result }
{
    match map {
        Some(file) => read_map(alloc, file, files),
        None => match symvers {
            Some(file) => read_symvers(alloc, file, files),
            None => Ok(Kernel::unknown(alloc)),
        },
    }
}

/// Reads the table of the System.map at the path, which is required. A line that isn't understood
/// is refused.
pub fn read_map<F: Reads>(alloc: Global, file: PathText, files: &mut F) -> Result<Kernel, Stop>
    ensures { FollowsOnFilesAs table_of (reads_map file) F.seen files.old files.new result }
{
    let bytes = read_needed(alloc, files, &file)?;
    map_table(alloc, bytes, file)
}

/// Reads the table of the Module.symvers at the path, which is required. A line that isn't
/// understood is refused.
pub fn read_symvers<F: Reads>(alloc: Global, file: PathText, files: &mut F) -> Result<Kernel, Stop>
    ensures { FollowsOnFilesAs table_of (reads_symvers file) F.seen files.old files.new result }
{
    let bytes = read_needed(alloc, files, &file)?;
    symvers_table(alloc, bytes, file)
}

/// Returns the stop of a command for a fault of the kernel's table in the file at the path.
pub fn stop_of_table(fault: KernelFault, file: PathText) -> Stop
    ensures { result ≡ table_stop file fault }
{
    match fault {
        KernelFault::BadKernelLine { line } => Stop::from(Refusal::BadLine { file, number: line }),
        KernelFault::Memory => Stop::Memory,
    }
}

/// Returns the table of a System.map of these bytes, or the refusal of the file at the path.
fn map_table(alloc: Global, bytes: Blob, file: PathText) -> Result<Kernel, Stop>
    requires { length bytes ≤ file_limit }
    ensures { Answers table_of (table_outcome file true (exports_of_map bytes)) result }
{
    match Kernel::from_map(alloc, bytes.as_bytes()) {
        Ok(kernel) => Ok(kernel),
        Err(fault) => Err(stop_of_table(fault, file)),
    }
}

/// Returns the table of a Module.symvers of these bytes, or the refusal of the file at the path.
fn symvers_table(alloc: Global, bytes: Blob, file: PathText) -> Result<Kernel, Stop>
    requires { length bytes ≤ file_limit }
    ensures { Answers table_of (table_outcome file true (exports_of_symvers bytes)) result }
{
    match Kernel::from_symvers(alloc, bytes.as_bytes()) {
        Ok(kernel) => Ok(kernel),
        Err(fault) => Err(stop_of_table(fault, file)),
    }
}
