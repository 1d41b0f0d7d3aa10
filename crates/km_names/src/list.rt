// Lists that contracts see as the list of their items.
ghost use Rattle.std.specs.Prelude.{◌≡◌, ◌≤◌, ◌↔◌, ◌==◌, [], ◌∷◌, ◌++◌, length, IsNone, OnOk};
ghost use Rattle.std.specs.Prelude.{OnErr, slice_get, option_copied};

use crate::{Blob, Name, PathText};
use std::alloc::{AllocError, Global};
use std::marker::Model;
use std::slice::Iter;

/// A growing list of items. Contracts see it as the list of its items.
#[derive(Debug, Drop)]
pub struct List<T> {
    elements: Vec<T>,
}

impl<T> Model for List<T> {
    ghost use Rattle.std.specs.Prelude.{List};

    ghost Value = { List T };

    ghost view = { λ l. l.elements.items };
}

/// A list of module names.
pub type Names = List<Name>;

/// A list of paths.
pub type Paths = List<PathText>;

/// A list of texts.
pub type Texts = List<Blob>;

impl<T: Drop> List<T> {
    /// Returns the empty list. It takes no memory.
    pub fn new(alloc: Global) -> Self
        ensures { result ≡ [] }
    {
        List {
            elements: Vec::new(alloc),
        }
    }

    /// Returns the list of a vector's items. It takes no memory.
    pub fn from_vec(elements: Vec<T>) -> Self
        ensures { result ≡ elements.items }
    {
        List { elements }
    }

    /// Puts an item at the end. If it is refused, the item is dropped and the list is as before.
    pub fn push(&mut self, item: T) -> Result<(), AllocError>
        ensures ok { OnOk result (self.new ≡ self.old ++ item ∷ []) }
        ensures err { OnErr result (self.new ≡ self.old) }
    {
        self.elements.push(item)?;
        Ok(())
    }

    /// Puts the items of another list at the end. If they are refused, they are dropped and the
    /// list is as before.
    pub fn append(&mut self, mut more: List<T>) -> Result<(), AllocError>
        ensures ok { OnOk result (self.new ≡ self.old ++ more) }
        ensures err { OnErr result (self.new ≡ self.old) }
    {
        self.elements.append(&mut more.elements)
    }

    /// Returns the item at place `i`, from 0.
    pub fn get(&self, i: usize) -> Option<&T>
        ensures item { option_copied result ≡ slice_get self.now i }
        ensures past_end { IsNone result ↔ (length self.now ≤ i) }
    {
        self.elements.get(i)
    }

    /// Returns how many items there are.
    pub fn len(&self) -> usize
        ensures { result ≡ length self.now }
    {
        self.elements.len()
    }

    /// Returns whether there is no item.
    pub fn is_empty(&self) -> bool
        ensures { result ≡ (length self.now == 0) }
    {
        self.elements.is_empty()
    }

    /// Returns the items as a slice.
    pub fn as_slice(&self) -> &[T]
        ensures { result.now ≡ self.now }
    {
        self.elements.as_slice()
    }

    /// Returns the allocator that the list takes memory from.
    pub fn allocator(&self) -> Global {
        *self.elements.allocator()
    }
}
