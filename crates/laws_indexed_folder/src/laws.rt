// The laws.
ghost use Rattle.laws_indexed_folder.specs.Index.{MapsHaveLines, FilesHaveLines};
ghost use Rattle.laws_indexed_folder.specs.Indexed.{FoldersReadAsIndexed};
ghost use Rattle.laws_indexed_folder.specs.Folder.{FilesAreValid, FoldersBind};
ghost use Rattle.laws_indexed_folder.specs.Binding.{IndexedPlansBind, LinesAreOfTree};
ghost use Rattle.laws_indexed_folder.specs.Steps.{PlansAreClosed};
ghost use Rattle.laws_indexed_folder.specs.Standing.{FilesStand, LinesAreNoObstacle};

/// States that the map that depmod makes has the dependency lines of its tree. The lines of such a
/// map name the modules that each module of the tree depends on. Each name with a value has the
/// line of a module of the tree.
pub fn indexed_lines()
    ensures files { FilesHaveLines }
    ensures maps { MapsHaveLines }
    ensures named { LinesAreOfTree }
{}

/// States that a plan that is closed over the dependency lines that depmod made of a tree binds.
pub fn indexed_plans_bind()
    ensures { IndexedPlansBind }
{}

/// States how a folder is read that is as depmod indexed it. Its modules are valid and have the
/// facts of the tree, its modules.dep.bin has the tree's dependency lines, and its modules.unmet
/// the tree's lines.
pub fn folders_read_as_indexed()
    ensures { FoldersReadAsIndexed }
{}

/// States that each module that a plan names is read from a valid file of such a folder. A plan
/// that is closed over what was read from the folder binds, after listed modules that load.
pub fn folders_bind()
    ensures valid { FilesAreValid }
    ensures bind { FoldersBind }
{}

/// States that a plan for a request that runs no command loads modules that are closed over the
/// loaded ones, if these have dependency lines. It loads each from the first path of its own line.
pub fn plans_are_closed()
    ensures { PlansAreClosed }
{}

/// States that each index that depmod makes is accepted and represents its map, and its
/// modules.unmet its lines. Over the dependency lines that it made of a tree, no plan is refused
/// for a bad line.
pub fn written_files_stand()
    ensures files { FilesStand }
    ensures lines { LinesAreNoObstacle }
{}
