// The laws.
ghost use Rattle.laws_depmod_leaves.specs.Course.{CoursesIndex};
ghost use Rattle.laws_depmod_leaves.specs.Left.{DepmodLeavesIndexed};
ghost use Rattle.laws_depmod_leaves.specs.Loads.{LeftForLoads};

/// States that the course of each depmod reads, and then either writes all of an index or ends. It
/// ends for the first bad module in the order of the tree, for the tree's cycle, or for one of the
/// other ends in the order of its work.
pub fn courses_index()
    ensures { CoursesIndex }
{}

/// States that the folder of the modules is as it was indexed, if all files of an index are put
/// into it by the table of a kernel.
pub fn depmod_leaves_indexed()
    ensures { DepmodLeavesIndexed }
{}

/// States that this folder is as indexed for a load from it into the machine of a kernel whose
/// table is of a file of the same bytes. What the laws on courses of loads ask of files and kernel
/// holds.
pub fn left_for_loads()
    ensures { LeftForLoads }
{}
