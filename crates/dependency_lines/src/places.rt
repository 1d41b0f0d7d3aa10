// The places of names, and of what dependency lines name.
ghost use Rattle.std.specs.Prelude.{◌≡◌, ◌++◌, OnOk};
ghost use Rattle.std.specs.Option.{option_to_list};
ghost use Rattle.km_names.specs.Path.{module_name};
ghost use Rattle.dependency_lines.specs.Modules.{needed_names, place_of, places_of};

use crate::line::after_space;
use crate::modules::Modules;
use crate::path_name::{is_plain, stem, write_name};
use km_names::split_at_byte;
use std::alloc::{AllocError, Global};

/// Adds the place of a name that is a module.
pub(crate) fn push_place(
    places: &mut Vec<usize>,
    modules: &Modules<'_>,
    name: &[u8],
) -> Result<(), AllocError>
    ensures { OnOk result
        (places.new.items ≡ places.old.items ++ option_to_list (place_of modules.now name.now)) }
{
    if let Some(place) = modules.place(name) {
        places.push(place)?;
    }
    Ok(())
}

/// Adds the places of the modules that a dependency line needs.
pub(crate) fn push_needed(
    alloc: Global,
    places: &mut Vec<usize>,
    modules: &Modules<'_>,
    line: &[u8],
) -> Result<(), AllocError>
    ensures { OnOk result
        (places.new.items ≡ places.old.items ++ places_of modules.now (needed_names line.now)) }
{
    let mut buffer = Vec::new(alloc);
    let mut rest = split_at_byte(line, b':').1;
    while let Some(after) = after_space(rest) {
        let path = split_at_byte(after, b' ').0;
        push_at(&mut buffer, places, modules, path)?;
        rest = after;
    }
    Ok(())
}

/// Adds the place of the module at a path, if there is one of its name. Most names are those that
/// their paths have, and aren't copied.
fn push_at(
    buffer: &mut Vec<u8>,
    places: &mut Vec<usize>,
    modules: &Modules<'_>,
    path: &[u8],
) -> Result<(), AllocError>
    ensures { OnOk result
        (places.new.items
        ≡ places.old.items ++ option_to_list (place_of modules.now (module_name path.now))) }
{
    let text = stem(path);
    if is_plain(text) {
        return push_place(places, modules, text);
    }
    write_name(buffer, path)?;
    push_place(places, modules, buffer.as_slice())
}
