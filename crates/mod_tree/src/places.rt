ghost use Rattle.std.specs.Prelude.{◌≡◌, ◌<◌, ◌+◌, ◌^◌, ◌++◌, ◌∷◌, [], ℕ, List, length, OnOk};
ghost use Rattle.std.specs.List.{position_or_len};
ghost use Rattle.std.specs.Str.{bytes_eq};
ghost use Rattle.mod_tree.specs.Places.{IsPlacesOf};

use std::alloc::{AllocError, Global};
use std::collections::BTreeMap;

/// The first place of each of some byte lists, and the number of byte lists.
#[derive(Drop)]
pub(crate) struct Places<'a> {
    first: BTreeMap<&'a [u8], usize>,
    count: usize,
}

impl<'a> Places<'a> {
    pub(crate) fn new(alloc: Global) -> Self
        ensures { IsPlacesOf [] result }
    {
        Places {
            first: BTreeMap::new(alloc),
            count: 0,
        }
    }

    /// Returns the number of byte lists.
    pub(crate) fn count(&self) -> usize
        ensures { (items : List (List ℕ)) → IsPlacesOf items self.now → result ≡ length items }
    {
        self.count
    }

    /// Adds one more byte list at the end.
    pub(crate) fn add(&mut self, item: &'a [u8]) -> Result<(), AllocError>
        requires { self.old.count + 1 < 2 ^ 64 }
        ensures count { OnOk result (self.new.count ≡ self.old.count + 1) }
        ensures places { OnOk result
            ((items : List (List ℕ)) → IsPlacesOf items self.old
            → IsPlacesOf (items ++ item.now ∷ []) self.new) }
    {
        if self.first.get(item).is_none() {
            self.first.insert(item, self.count)?;
        }
        self.count += 1;
        Ok(())
    }

    /// Returns the first place of a byte list, or the count if it has none.
    pub(crate) fn first_place(&self, item: &[u8]) -> usize
        ensures { (items : List (List ℕ)) → IsPlacesOf items self.now
            → result ≡ position_or_len (bytes_eq item.now) items }
    {
        match self.first.get(item) {
            Some(place) => *place,
            None => self.count,
        }
    }
}
