// The tree in a folder of modules.
ghost use Rattle.std.specs.Prelude.{◌≡◌, IfOk};
ghost use Rattle.km_course.specs.FollowsOn.{FollowsOnFiles, Returns};
ghost use Rattle.command_depmod.specs.Tree.{AreTreePaths, reads_tree, tree_outcome, tree_stop};

use km_course::{Refusal, Stop, list_tree_needed, read_optional};
use km_names::{Blob, PathText, Paths, join};
use mod_tree::{Search, Tree, TreeFault, choose};
use outside_calls::Files;
use std::alloc::Global;

/// Reads the paths of the tree in the folder: it is listed, and its modules.order is read.
pub(crate) fn read_tree<F: Files>(
    alloc: Global,
    folder: &PathText,
    search: &Search,
    files: &mut F,
) -> Result<Tree, Stop>
    ensures follows { FollowsOnFiles (reads_tree folder.now search.now)
        F.seen files.old files.new result }
    ensures paths { IfOk result (λ tree. AreTreePaths tree) }
{
    let listed = list_tree_needed(alloc, files, folder)?;
    let order_file = join(alloc, folder, b"modules.order")?;
    let order = read_optional(alloc, files, &order_file)?;
    choose_tree(alloc, &listed, &order, search)
}

/// Returns the tree of the listed paths, for what modules.order has.
fn choose_tree(alloc: Global, listed: &Paths, order: &Blob, search: &Search) -> Result<Tree, Stop>
    ensures answers { Returns (tree_outcome listed.now order.now search.now) result }
    ensures paths { IfOk result (λ tree. AreTreePaths tree) }
{
    match choose(alloc, listed, order.as_bytes(), search) {
        Ok(tree) => Ok(tree),
        Err(fault) => Err(refused(fault)),
    }
}

/// Returns how a fault of the tree stops the command.
fn refused(fault: TreeFault) -> Stop
    ensures { result ≡ tree_stop fault }
{
    match fault {
        TreeFault::BadPath { path } => Stop::from(Refusal::BadPath { path }),
        TreeFault::TooManyModules { count: _ } => Stop::from(Refusal::TooManyModules),
        TreeFault::Memory => Stop::Memory,
    }
}
