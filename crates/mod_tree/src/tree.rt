// The choice of the tree from the listed paths.
ghost use Rattle.std.specs.Prelude.{◌≡◌, ◌⊎◌, filter, IfOk, IfErr, option_copied};
ghost use Rattle.std.specs.List.{list_any};
ghost use Rattle.mod_tree.specs.Tree.{tree_of, is_module_path, is_bad_byte, lesser, bad_path};
ghost use Rattle.km_names.specs.Path.{is_compressed};
ghost use Rattle.mod_tree.specs.Shown.{referents};

use crate::Search;
use crate::chosen::chosen_paths;
use crate::listing::tree_in_order;
use km_names::{PathText, Paths};
use std::alloc::{AllocError, AllocFailed, Global};
use std::cmp::Ordering;

/// The greatest number of modules in a tree.
const MODULE_LIMIT: usize = 10_000;

/// The paths of a tree's modules, relative to the kernel's folder, in the order of the tree.
pub type Tree = Paths;

/// Why the listed paths have no tree.
#[derive(Drop)]
pub enum TreeFault {
    /// The least path of a module, by bytes, that has a byte outside 33 to 126 or a `:`.
    BadPath { path: PathText },
    /// There are more than 10,000 module names: `count` of them.
    TooManyModules { count: u64 },
    /// Out of memory.
    Memory,
}

impl From<AllocError> for TreeFault {
    ghost use Rattle.mod_tree.specs.declared.tree.TreeFault.TheVariants.{Memory};

    ghost from_gives = { λ _ fault. fault ≡ Memory };

    fn from(_error: AllocError) -> TreeFault {
        TreeFault::Memory
    }
}

impl<T: Drop> From<AllocFailed<T>> for TreeFault {
    ghost use Rattle.mod_tree.specs.declared.tree.TreeFault.TheVariants.{Memory};

    ghost from_gives = { λ _ fault. fault ≡ Memory };

    fn from(_failed: AllocFailed<T>) -> TreeFault {
        TreeFault::Memory
    }
}

/// Chooses the tree of the listed paths. Each module name has the path that the search list ranks
/// first, with ties broken by bytes. First come the paths that modules.order lists, by their first
/// line there, and then the others by bytes. depmod.d(5), "search".
///
/// # Errors
///
/// `BadPath` exactly if the path of a module has a byte outside 33 to 126 or a `:`, with the least
/// such path by bytes. Otherwise `TooManyModules` exactly if there are more than 10,000 module
/// names. Or `Memory`.
pub fn choose(
    alloc: Global,
    paths: &Paths,
    order_file: &[u8],
    search: &Search,
) -> Result<Tree, TreeFault>
    ensures ok { IfOk result (λ tree. tree_of paths.now order_file.now search.now ≡ Ok tree) }
    ensures err { IfErr result (λ fault. (fault ≡ TreeFault.Memory)
        ⊎ (tree_of paths.now order_file.now search.now ≡ Err fault)) }
{
    let modules = module_paths(alloc, paths)?;
    if let Some(path) = bad_path(modules.as_slice()) {
        return Err(TreeFault::BadPath {
            path: PathText::from_slice(alloc, path.as_bytes())?,
        });
    }
    let chosen = chosen_paths(alloc, modules.as_slice(), search)?;
    if chosen.len() > MODULE_LIMIT {
        return Err(TreeFault::TooManyModules {
            count: chosen.len() as u64,
        });
    }
    Ok(tree_in_order(alloc, chosen.as_slice(), order_file)?)
}

/// Returns whether a path is of a module: it ends in `.ko`, or as compressed modules do.
pub(crate) fn is_module_path(path: &[u8]) -> bool
    ensures { result ≡ is_module_path path.now }
{
    path.ends_with(b".ko") || has_compressed_end(path)
}

/// Returns the paths of modules among these paths.
fn module_paths(alloc: Global, paths: &Paths) -> Result<Vec<&PathText>, AllocError>
    ensures { IfOk result (λ modules. referents modules.items ≡ filter is_module_path paths.now) }
{
    let mut modules = Vec::new(alloc);
    for path in paths.as_slice() {
        if is_module_path(path.as_bytes()) {
            modules.push(path)?;
        }
    }
    Ok(modules)
}

/// Returns the least path by bytes that has a bad byte.
fn bad_path<'a>(modules: &[&'a PathText]) -> Option<&'a PathText>
    ensures { option_copied result ≡ bad_path (referents modules.now) }
{
    let mut least = None;
    let mut at = modules.len();
    while at > 0 {
        at -= 1;
        let path = modules[at];
        if has_bad_byte(path.as_bytes()) {
            least = Some(lesser(path, least));
        }
    }
    least
}

fn has_compressed_end(path: &[u8]) -> bool
    ensures { result ≡ is_compressed path.now }
{
    path.ends_with(b".ko.gz") || path.ends_with(b".ko.xz") || path.ends_with(b".ko.zst")
}

fn has_bad_byte(path: &[u8]) -> bool
    ensures { result ≡ list_any is_bad_byte path.now }
{
    path.iter().any(|b| *b < 33 || *b > 126 || *b == b':')
}

/// Returns the lesser by bytes of a path and an optional other one.
fn lesser<'a>(path: &'a PathText, other: Option<&'a PathText>) -> &'a PathText
    ensures { Some result.now ≡ lesser path.now (option_copied other.entry) }
{
    match other {
        None => path,
        Some(other) => match path.as_bytes().cmp(&other.as_bytes()) {
            Ordering::Less => path,
            _ => other,
        },
    }
}
