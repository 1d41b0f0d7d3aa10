// The made tree of a trial: the kernel's two files, and those of its modules.
ghost use Rattle.std.specs.Prelude.{◌≡◌, ◌≤◌, ◌<◌, ◌+◌, ℕ, IfOk};
ghost use Rattle.tree_gen.specs.Trial.{start_of, module_path, module_file, kernel_contents, unused};
ghost use Rattle.tree_gen.specs.Trial.{trial_files};

use crate::draws::Draws;
use crate::trial_sheet::{four_digits, module_sheet};
use km_names::{Blob, PathText};
use outside_calls::MemFiles;
use sheet_object::object;
use std::alloc::{AllocError, Global};

/// The root of the made tree.
pub const ROOT: &str = "/t";

/// The version of the kernel whose modules are made.
pub const VERSION: &str = "trial";

/// The path of the kernel's `Module.symvers`.
pub const SYMVERS_PATH: &str = "/t/Module.symvers";

/// The path of the kernel's `System.map`.
pub const SYSTEM_MAP_PATH: &str = "/t/System.map";

/// The kernel's exports, as `Module.symvers` lists them.
const SYMVERS: &[u8] = b"0x11111111\tprintk\tvmlinux\tEXPORT_SYMBOL\n";

/// The kernel's addresses, as `System.map` lists them.
const SYSTEM_MAP: &[u8] = b"ffffffff81000000 T printk\n";

/// Makes the tree of a trial, below its root: the kernel's `Module.symvers` and `System.map`, and
/// `count` modules of the kernel `trial`, 1 to 2000. Each module needs the kernel's `printk`. Each
/// except the first also needs the symbols of one or two modules before it, which are drawn from
/// the seed. No call of the files fails. The only error is out of memory.
#[tactic(auto, unfolding(crate::specs::Trial::trial_contents))]
pub fn generate(alloc: Global, seed: u64, count: u32) -> Result<MemFiles, AllocError>
    requires { (1 ≤ count) × (count ≤ 2000) }
    ensures { IfOk result (λ files. files ≡ trial_files seed count) }
{
    let mut files = kernel_files(alloc)?;
    let mut draws = Draws::new(seed);
    for number in 0..count {
        let path = module_path(alloc, number)?;
        let bytes = module_file(alloc, number, &mut draws)?;
        files.put(&path, bytes.as_bytes())?;
    }
    Ok(files)
}

/// Returns the two files of the kernel.
#[tactic(auto, unfolding(crate::specs::Trial::kernel_contents))]
fn kernel_files(alloc: Global) -> Result<MemFiles, AllocError>
    ensures { IfOk result (λ files. files ≡ unused kernel_contents) }
{
    let symvers = PathText::from_slice(alloc, SYMVERS_PATH.as_bytes())?;
    let system_map = PathText::from_slice(alloc, SYSTEM_MAP_PATH.as_bytes())?;
    let mut files = MemFiles::new(alloc);
    files.put(&symvers, SYMVERS)?;
    files.put(&system_map, SYSTEM_MAP)?;
    Ok(files)
}

/// Returns the path of the module of this number.
#[tactic(auto, unfolding(crate::specs::Trial::module_path))]
fn module_path(alloc: Global, number: u32) -> Result<PathText, AllocError>
    ensures { IfOk result (λ path. path ≡ module_path number) }
{
    let mut path = PathText::from_slice(alloc, b"/t/lib/modules/trial/kernel/m")?;
    path.extend(&four_digits(number))?;
    path.extend(b".ko")?;
    Ok(path)
}

/// Returns the object file of the module of this number, which draws the modules that it needs.
#[tactic(auto, using(crate::proofs::TrialLemmas::is_sheet_made), unfolding(crate::specs::Trial::module_file))]
fn module_file(alloc: Global, number: u32, draws: &mut Draws) -> Result<Blob, AllocError>
    requires { number < 10000 }
    ensures file { IfOk result
        (λ bytes. (seed : ℕ) → draws.old.last ≡ start_of seed number
        → bytes ≡ module_file seed number) }
    ensures next { IfOk result
        (λ _. (seed : ℕ) → draws.old.last ≡ start_of seed number
        → draws.new.last ≡ start_of seed (number + 1)) }
{
    let modules = draws.modules(alloc, number)?;
    let sheet = module_sheet(alloc, number, &modules)?;
    object(alloc, &sheet)
}
