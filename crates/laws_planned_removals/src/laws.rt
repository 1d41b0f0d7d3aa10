// The laws.
ghost use Rattle.laws_planned_removals.specs.Listed.{ListedAreTaken};
ghost use Rattle.laws_planned_removals.specs.Courses.{CoursesRemove};
ghost use Rattle.laws_planned_removals.specs.Join.{LoadsComeToLast, LoadsLeaveFolder};
ghost use Rattle.laws_planned_removals.specs.Join.{RemovalMeetsLoad};

/// States that the listed modules that a removal takes are the modules of their files, and that the
/// machine is the one after their loads.
pub fn listed_are_taken()
    ensures { ListedAreTaken }
{}

/// States that a course past its lookups refuses, prints and leaves what its machine says.
pub fn courses_remove()
    ensures { CoursesRemove }
{}

/// States that a removal after a load takes modules out of the load's last machine. Its list of
/// loaded modules has the names of the plan, and then the load's own list. Taking back what the
/// plan loaded leaves the machine from before the plan. Each load whose course ends well has such a
/// machine, and each leaves the folder as it was.
pub fn removal_meets_load()
    ensures load { LoadsComeToLast }
    ensures folder { LoadsLeaveFolder }
    ensures removal { RemovalMeetsLoad }
{}
