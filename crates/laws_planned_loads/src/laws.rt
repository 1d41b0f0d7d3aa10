// The laws.
ghost use Rattle.laws_planned_loads.specs.Loads.{LoadsAreOfMachine};
ghost use Rattle.laws_planned_loads.specs.Listed.{ListedLoadsAreOfMachine, ListedAreOfMachine};
ghost use Rattle.laws_planned_loads.specs.Courses.{CoursesLoad, CoursesBind, CoursesEnd};
ghost use Rattle.laws_planned_loads.specs.Reading.{FoldersAreRead, ReadingsEnd, CoursesPass};

/// States that loads of modules whose files are read are loads of the machine. This holds of a
/// plan, with all that is printed and written of its loads. It also holds of listed modules, and
/// nothing is printed of these.
pub fn loads_are_of_machines()
    ensures planned { LoadsAreOfMachine }
    ensures listed { ListedLoadsAreOfMachine }
    ensures given { ListedAreOfMachine }
{}

/// States that a course past its reading does its loads: it ends as they end, and writes what they
/// write.
pub fn courses_load()
    ensures { CoursesLoad }
{}

/// States that a course past its reading loads modules that bind, over a folder as depmod indexed
/// it and the same kernel's table with addresses. It stops only for lack of room or for a word that
/// doesn't fit.
pub fn courses_bind()
    ensures bind { CoursesBind }
    ensures stop { CoursesEnd }
{}

/// States that the files that depmod wrote are never refused: each index is accepted, and each line
/// of modules.softdep and of modules.unmet is understood. Before it looks a name up, a modprobe
/// over such a folder is refused only for its configuration or its list of loaded modules. In no
/// mode does it end for an index or a dependency line.
pub fn written_files_are_read()
    ensures folder { FoldersAreRead }
    ensures reading { ReadingsEnd }
    ensures courses { CoursesPass }
{}
