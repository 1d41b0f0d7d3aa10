// The modules that are built into the kernel.
ghost use Rattle.std.specs.Prelude.{◌≡◌, [], IfOk, IsTrue, filter, map};
ghost use Rattle.std.specs.List.{list_all};
ghost use Rattle.km_names.specs.Ascii.{is_graphic};
ghost use Rattle.km_names.specs.Lines.{lines_of};
ghost use Rattle.km_names.specs.Path.{module_name};
ghost use Rattle.name_table.specs.FirstSeen.{first_seen};
ghost use Rattle.depmod_core.specs.BuiltIn.{built_in_map};
ghost use Rattle.stated_texts.specs.Maps.{map_of};

use index_write::KeyMap;
use km_names::{Names, PathText, first_line, is_graphic, module_name};
use name_table::NameSet;
use std::alloc::{AllocError, Global};

/// Returns the map of modules.builtin.bin: the name of each module whose path a modules.builtin
/// lists, with an empty text.
#[tactic(auto, unfolding(crate::specs::BuiltIn::built_in_map, crate::specs::BuiltIn::built_in_names))]
pub(crate) fn built_in_map(alloc: Global, builtin: &[u8]) -> Result<KeyMap, AllocError>
    ensures { IfOk result (λ map. map ≡ built_in_map builtin.now) }
{
    let names = listed_names(alloc, builtin)?;
    let set = distinct(alloc, &names)?;
    map_of_names(alloc, &set)
}

/// Returns the names of the listed modules whose names are words of visible characters.
fn listed_names(alloc: Global, builtin: &[u8]) -> Result<Names, AllocError>
    ensures { IfOk result
        (λ names. names ≡ filter is_graphic (map module_name (lines_of builtin.now))) }
{
    let mut names = Names::new(alloc);
    let mut rest = builtin;
    while !rest.is_empty() {
        let (line, next) = first_line(rest);
        rest = next;
        let name = module_name(alloc, &PathText::from_slice(alloc, line)?)?;
        if is_graphic(name.as_bytes()) {
            names.push(name)?;
        }
    }
    Ok(names)
}

/// Returns names without repeats.
fn distinct<'a>(alloc: Global, names: &'a Names) -> Result<NameSet<'a>, AllocError>
    ensures { IfOk result (λ set. set ≡ first_seen names.now) }
{
    let mut set = NameSet::new(alloc);
    for name in names.as_slice() {
        set.insert(name.as_bytes())?;
    }
    Ok(set)
}

/// Returns the map of some names, each with an empty text.
fn map_of_names(alloc: Global, names: &NameSet) -> Result<KeyMap, AllocError>
    requires { IsTrue (list_all is_graphic names.now) }
    ensures { IfOk result (λ m. m ≡ map_of (map (λ name. (name, (0, []))) names.now)) }
{
    let mut map = KeyMap::new(alloc);
    for place in 0..names.len() {
        if let Some(name) = names.get(place) {
            map.add(name, 0, &[])?;
        }
    }
    Ok(map)
}
