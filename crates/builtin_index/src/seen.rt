// The modules that were seen.
ghost use Rattle.std.specs.Prelude.{◌≡◌, ◌≤◌, ◌<◌, ◌+◌, ◌-◌, ◌^◌, ℕ, List, [], OnOk, IfOk};
ghost use Rattle.indexmap.specs.IndexSet.{index_set_len};
ghost use Rattle.km_names.specs.Path.{underscored};
ghost use Rattle.name_table.specs.FirstSeen.{with_name};
ghost use Rattle.name_table.specs.Keys.{name_of};
ghost use Rattle.builtin_index.specs.Aliases.{place_among};
ghost use Rattle.builtin_index.specs.Parts.{IsSeen};

use indexmap::IndexSet;
use km_names::underscored;
use name_table::{NameHash, OwnedNameKey};
use std::alloc::{AllocError, Global};
use std::hash::BuildHasherDefault;

/// A text that was looked up, and the place of the module that it names.
#[derive(Clone, Copy)]
pub(crate) struct LookedUp<'a> {
    text: &'a [u8],
    place: u32,
}

/// The names of modules without repeats, in the order they were first seen in. Names without a `-`
/// are borrowed from the texts.
#[derive(Drop)]
pub(crate) struct Seen<'a> {
    pub(crate) names: IndexSet<OwnedNameKey<'a>, NameHash>,
    // The next text is mostly the same.
    last: Option<LookedUp<'a>>,
}

/// Returns the key of the module that a text names. A text without a `-` isn't copied.
fn key_of(alloc: Global, text: &[u8]) -> Result<OwnedNameKey<'_>, AllocError>
    ensures { IfOk result (λ key. name_of key ≡ underscored text.now) }
{
    if !text.contains(&b'-') {
        return Ok(OwnedNameKey::Asked(text));
    }
    Ok(OwnedNameKey::Owned(underscored(alloc, text)?))
}

impl<'a> Seen<'a> {
    /// Makes the list without names. It takes no memory.
    pub(crate) fn new(alloc: Global) -> Self
        ensures seen { IsSeen result [] }
        ensures count { index_set_len result.names ≡ 0 }
    {
        Seen {
            names: IndexSet::with_hasher(alloc, BuildHasherDefault::new()),
            last: None,
        }
    }

    /// Returns the place of the module that a text names, each `-` replaced by `_`. The module is
    /// seen now if it wasn't before.
    pub(crate) fn place(&mut self, alloc: Global, text: &'a [u8]) -> Result<u32, AllocError>
        requires room { index_set_len self.old.names < 2 ^ 32 - 1 }
        ensures seen { OnOk result ((names : List (List ℕ)) → IsSeen self.old names →
            IsSeen self.new (with_name names (underscored text.now))) }
        ensures place { IfOk result (λ place. (names : List (List ℕ)) → IsSeen self.old names →
            place ≡ place_among (with_name names (underscored text.now)) (underscored text.now)) }
        ensures count { OnOk result
            (index_set_len self.new.names ≤ index_set_len self.old.names + 1) }
    {
        if let Some(last) = self.last {
            if last.text == text {
                return Ok(last.place);
            }
        }
        let (index, _) = self.names.insert_full(key_of(alloc, text)?)?;
        let place = index as u32;
        self.last = Some(LookedUp { text, place });
        Ok(place)
    }
}
