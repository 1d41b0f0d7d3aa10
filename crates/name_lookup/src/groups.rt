// Values by names.
ghost use Rattle.std.specs.Prelude.{◌≡◌, ◌++◌, ◌∷◌, [], ℕ, List, OnOk, if◌then◌else◌};
ghost use Rattle.std.specs.Str.{bytes_eq};
ghost use Rattle.name_lookup.specs.Groups.{group_of, shown_groups};

use indexmap::IndexMap;
use std::alloc::{AllocError, Global};
use std::hash::{BuildHasherDefault, DefaultHasher};
use std::marker::Model;

/// Values in groups, each under a name, in the order in which they were put in. The names aren't
/// copied, and may come from any file. Contracts see each name with the list of its values.
#[derive(Drop)]
pub struct NameGroups<'a, T> {
    groups: Entries<'a, T>,
}

impl<'a, T> Model for NameGroups<'a, T> {
    ghost use Rattle.std.specs.Prelude.{ℕ, List};
    ghost use Rattle.name_lookup.specs.Groups.{shown_groups};

    ghost Value = { List (List ℕ × List T) };

    ghost view = { λ g. shown_groups g.groups.entries };
}

impl<'a, T: Drop> NameGroups<'a, T> {
    /// Begins without values. It takes no memory.
    pub fn new(alloc: Global) -> Self
        ensures { (name : List ℕ) → group_of result name ≡ [] }
    {
        NameGroups {
            groups: Entries::with_hasher(alloc, BuildHasherDefault::new()),
        }
    }

    /// Puts a value in, behind the others of its name.
    pub fn push(&mut self, alloc: Global, name: &'a [u8], value: T) -> Result<(), AllocError>
        ensures { OnOk result ((other : List ℕ) → group_of self.new other
            ≡ group_of self.old other ++ (if bytes_eq name.now other then value ∷ [] else [])) }
    {
        push_value(alloc, &mut self.groups, name, value)
    }

    /// Returns the values of a name. There may be none. Without groups no hash is computed.
    pub fn of(&self, name: &[u8]) -> &[T]
        ensures { result.now ≡ group_of self.now name.now }
    {
        if self.groups.is_empty() {
            return &[];
        }
        match self.groups.get(name) {
            Some(group) => group.as_slice(),
            None => &[],
        }
    }
}

/// Vectors of values by names, which are hashed by SipHash.
type Entries<'a, T> = IndexMap<&'a [u8], Vec<T>, BuildHasherDefault<DefaultHasher>>;

fn push_value<'a, T: Drop>(
    alloc: Global,
    groups: &mut Entries<'a, T>,
    name: &'a [u8],
    value: T,
) -> Result<(), AllocError>
    ensures { OnOk result ((other : List ℕ) → group_of (shown_groups groups.new.entries) other
        ≡ group_of (shown_groups groups.old.entries) other
        ++ (if bytes_eq name.now other then value ∷ [] else [])) }
{
    match groups.get_mut(name) {
        Some(group) => group.push(value)?,
        None => {
            let mut group = Vec::new(alloc);
            group.push(value)?;
            groups.insert(name, group)?;
        }
    }
    Ok(())
}
