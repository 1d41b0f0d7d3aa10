// What keys lead to in the map of the built-in aliases, and what the written file holds.
ghost use Rattle.builtin_index.specs.Laws.{AreByPlace, AreHeld};

/// States that each key of the map leads to the modules of exactly the fields whose alias has it as
/// its normal form, by the places of the modules.
pub fn aliases_are_by_place()
    ensures { AreByPlace }
{}

/// States that the file written from the map holds exactly the map, if neither file is longer than
/// files may be.
pub fn aliases_are_held()
    ensures { AreHeld }
{}
