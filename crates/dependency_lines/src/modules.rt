// The modules of modules.dep.bin, in the order of the tree.
ghost use Rattle.std.specs.Prelude.{◌≡◌, ◌<◌, ◌⊎◌, All, Some, None, length, IfOk, IfErr, OnOk};
ghost use Rattle.std.specs.Prelude.{option_map};
ghost use Rattle.index_format.specs.Map.{KeyValues};
ghost use Rattle.name_table.specs.NameTable.{place_of as place_of_spec};
ghost use Rattle.dependency_lines.specs.Modules.{bad_name, by_number, first_values, line_at};
ghost use Rattle.dependency_lines.specs.Modules.{line_places, modules_of, name_at, path_at};
ghost use Rattle.dependency_lines.specs.Modules.{place_of, places_of};
ghost use Rattle.dependency_lines.specs.Tables.{NamesRise, at_places, IsNamed};

use crate::fault::LineFault;
use crate::line::{KnownNames, check_needs};
use crate::named_lines::Lines;
use crate::order::{number_of, places_by_number, sorted_places};
use crate::own_paths::OwnPaths;
use crate::places::{push_needed, push_place};
use crate::read::DependencyLines;
use km_names::Name;
use name_table::NameTable;
use std::alloc::{AllocError, Global};
use std::marker::Model;

/// The modules of modules.dep.bin, each at its place: by their numbers in the tree, and those of
/// one number by the bytes of their names. Contracts see each module's name with its number and its
/// dependency line.
#[derive(Drop)]
pub struct Modules<'a> {
    lines: &'a Lines<'a>,
    /// Where the line of the module at each place is.
    places: Vec<usize>,
    /// The places of names. There is no table if the numbers of modules are their places: then a
    /// name is searched for among the lines.
    names: Option<NameTable<'a>>,
}

impl<'a> Model for Modules<'a> {
    ghost use Rattle.std.specs.Prelude.{List};
    ghost use Rattle.index_format.specs.Listing.{KeyValue};
    ghost use Rattle.dependency_lines.specs.Tables.{at_places};
    ghost use Rattle.dependency_lines.specs.Places.{IsKept};

    ghost Value = { List KeyValue };

    ghost view = { λ m. at_places m.lines.now m.places.items };

    ghost invariant = { λ m. IsKept m.lines.now m.places.items m.names };
}

impl<'a> Modules<'a> {
    /// Returns the modules of the index that has these lines. modules.dep(5).
    ///
    /// # Errors
    ///
    /// `BadLine` exactly if a value isn't the dependency line of its module over names that the
    /// index has. Or `Memory`.
    pub fn new(alloc: Global, lines: &'a DependencyLines<'_>) -> Result<Modules<'a>, LineFault>
        ensures modules { IfOk result
            (λ modules. (dep : KeyValues) → lines.now ≡ first_values dep
            → modules ≡ modules_of dep) }
        ensures passed { OnOk result
            ((dep : KeyValues) → lines.now ≡ first_values dep → bad_name dep ≡ None) }
        ensures err { IfErr result
            (λ fault. (fault ≡ LineFault.Memory)
            ⊎ ((dep : KeyValues) → lines.now ≡ first_values dep
            → option_map LineFault.BadLine (bad_name dep) ≡ Some fault)) }
    {
        let kept = lines.lines();
        let modules = numbered(alloc, kept)?;
        let own = OwnPaths::new(alloc, kept)?;
        check_needs(alloc, &modules, &own, kept)?;
        Ok(modules)
    }

    /// Returns how many modules there are.
    pub fn len(&self) -> usize
        ensures { result ≡ length self.now }
    {
        self.places.len()
    }

    /// Returns the place of the module of this name, if there is one.
    pub fn place(&self, name: &[u8]) -> Option<usize>
        ensures { result ≡ place_of self.now name.now }
    {
        match &self.names {
            Some(names) => place_in(names, name),
            None => number_of(self.lines, name),
        }
    }

    /// Returns the name of the module at a place.
    pub fn name(&self, place: usize) -> &'a [u8]
        requires { place < length self.now }
        ensures { result.now ≡ name_at self.now place }
    {
        self.lines.name(self.places[place])
    }

    /// Returns the dependency line of the module at a place.
    fn line(&self, place: usize) -> &'a [u8]
        requires { place < length self.now }
        ensures { result.now ≡ line_at self.now place }
    {
        self.lines.text(self.places[place])
    }

    /// Returns the path of the module at a place, the first of its dependency line.
    pub fn path(&self, place: usize) -> &'a [u8]
        requires { place < length self.now }
        ensures { result.now ≡ path_at self.now place }
    {
        self.lines.path(self.places[place])
    }

    /// Finds the places of the names that are modules, in the order of the names.
    pub fn places_of(&self, alloc: Global, names: &[Name]) -> Result<Vec<usize>, AllocError>
        ensures { IfOk result (λ places. places.items ≡ places_of self.now names.now) }
    {
        let mut places = Vec::new(alloc);
        for name in names {
            push_place(&mut places, self, name.as_bytes())?;
        }
        Ok(places)
    }

    /// Finds the places of the modules that the dependency line of the module at a place names
    /// after its `:`, in the order of the line.
    pub fn line_places(&self, alloc: Global, place: usize) -> Result<Vec<usize>, AllocError>
        requires { place < length self.now }
        ensures { IfOk result (λ places. places.items ≡ line_places self.now place) }
    {
        let mut places = Vec::new(alloc);
        push_needed(alloc, &mut places, self, self.line(place))?;
        Ok(places)
    }
}

/// Returns modules by their numbers.
fn numbered<'a>(alloc: Global, lines: &'a Lines<'a>) -> Result<Modules<'a>, AllocError>
    requires { NamesRise lines.now }
    ensures { IfOk result (λ modules. modules ≡ by_number lines.now) }
{
    if let Some(places) = places_by_number(alloc, lines)? {
        return Ok(Modules {
            lines,
            places,
            names: None,
        });
    }
    with_table(alloc, lines)
}

/// Returns modules by their numbers, with a table of their names.
fn with_table<'a>(alloc: Global, lines: &'a Lines<'a>) -> Result<Modules<'a>, AllocError>
    ensures { IfOk result (λ modules. modules ≡ by_number lines.now) }
{
    let places = sorted_places(alloc, lines)?;
    let names = table_of(alloc, lines, &places)?;
    Ok(Modules {
        lines,
        places,
        names: Some(names),
    })
}

/// Returns the table of the names of modules at some places.
fn table_of<'a>(
    alloc: Global,
    lines: &'a Lines<'a>,
    places: &[usize],
) -> Result<NameTable<'a>, AllocError>
    requires { All (λ place. place < length lines.now) places.now }
    ensures { IfOk result (λ names. IsNamed names (at_places lines.now places.now)) }
{
    if places.len() >= u32::MAX as usize {
        return Err(AllocError);
    }
    let mut names = NameTable::with_capacity(alloc, places.len())?;
    for place in places {
        names.push(Some(lines.name(*place)))?;
    }
    Ok(names)
}

impl<'a> KnownNames for Modules<'a> {
    ghost use Rattle.std.specs.Prelude.{is_some};
    ghost use Rattle.dependency_lines.specs.Modules.{place_of};

    ghost has = { λ modules name. is_some (place_of modules name) };

    fn has(&self, name: &[u8]) -> bool {
        self.place(name).is_some()
    }
}

/// Returns the place that a table has for a name.
fn place_in(names: &NameTable<'_>, name: &[u8]) -> Option<usize>
    ensures { result ≡ place_of_spec names.now name.now }
{
    let place = names.place(name)?;
    Some(place as usize)
}
