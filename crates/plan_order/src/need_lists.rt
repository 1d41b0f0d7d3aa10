// What each of many modules needs, in little memory while most of them need nothing.
ghost use Rattle.std.specs.Prelude.{◌≡◌, ◌<◌, [], ℕ, length, IfOk, OnOk, OnErr, slice_set};
ghost use Rattle.relation_order.specs.Sets.{successors};
ghost use Rattle.relation_order.specs.Search.{Inside};
ghost use Rattle.plan_order.specs.Lists.{items_of};

use std::alloc::{AllocError, Global};
use std::marker::Model;

/// A list for each of some modules. An empty one takes four bytes. Contracts see the lists.
#[derive(Drop)]
pub struct NeedLists {
    /// For each module, the place of its list among those that are kept.
    slots: Vec<u32>,
    /// The lists that are kept. The first is empty.
    kept: Vec<Vec<usize>>,
}

impl Model for NeedLists {
    ghost use Rattle.std.specs.Prelude.{ℕ, List, ◌<◌, All, length};
    ghost use Rattle.std.specs.Global.{Vec};
    ghost use Rattle.plan_order.specs.Slots.{at_slots};

    ghost Value = { List (Vec ℕ) };

    ghost view = { λ l. at_slots l.kept.items l.slots.items };

    ghost invariant = { λ l. All (λ slot. slot < length l.kept.items) l.slots.items };
}

impl NeedLists {
    /// Makes a number of empty lists.
    pub fn new(alloc: Global, count: usize) -> Result<NeedLists, AllocError>
        ensures long { IfOk result (λ lists. length lists ≡ count) }
        ensures empty { IfOk result (λ lists. (place : ℕ) → successors lists place ≡ []) }
        ensures inside { IfOk result (λ lists. Inside count lists) }
    {
        let slots = vec![in alloc; 0u32; count]?;
        let kept = vec![in alloc; Vec::new(alloc)]?;
        Ok(NeedLists { slots, kept })
    }

    /// Returns how many lists there are.
    pub fn len(&self) -> usize
        ensures { result ≡ length self.now }
    {
        self.slots.len()
    }

    /// Returns the list of a module.
    pub fn get(&self, place: usize) -> &[usize]
        requires { place < length self.now }
        ensures { result.now ≡ successors self.now place }
    {
        let slot = self.slots[place] as usize;
        &self.kept[slot]
    }

    /// Puts a list in the place of a module's. There is memory for fewer than 2^32 such lists.
    pub fn put(&mut self, place: usize, list: Vec<usize>) -> Result<(), AllocError>
        requires { place < length self.old }
        ensures put { OnOk result (self.new ≡ slice_set self.old place list) }
        ensures err { OnErr result (self.new ≡ self.old) }
    {
        let Ok(slot) = u32::try_from(self.kept.len()) else {
            return Err(AllocError);
        };
        self.kept.push(list)?;
        self.slots[place] = slot;
        Ok(())
    }

    /// Copies the lists, each into one of its own.
    pub(crate) fn copies(&self, alloc: Global) -> Result<Vec<Vec<usize>>, AllocError>
        ensures { IfOk result (λ copies. items_of copies.items ≡ items_of self.now) }
    {
        let mut copies = Vec::with_capacity(alloc, self.len())?;
        for place in 0..self.len() {
            copies.push(self.get(place).to_vec(alloc)?)?;
        }
        Ok(copies)
    }
}
