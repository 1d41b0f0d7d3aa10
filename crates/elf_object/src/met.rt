// What is kept of the places that are met while a file is read.

ghost use Rattle.std.specs.Prelude.{◌≡◌, [], ◌∷◌, ◌++◌, IfOk, List, OnOk};
ghost use Rattle.elf_object.specs.Inner.{AreListed};
ghost use Rattle.elf_object.specs.Overlap.{IsNear, IsOrderOf};
ghost use Rattle.elf_object.specs.Places.{place_width};
ghost use Rattle.elf_object.specs.declared.place.RelaPlace.{RelaPlace};

use crate::RelaPlace;
use crate::overlap::Order;
use std::alloc::{AllocError, Global};

/// What is kept of the places that were met.
pub(crate) trait MetPlaces {
    /// Whether these are the places that were met.
    ghost has_met: { Self → List RelaPlace → Type 0 };

    /// Meets the next place, which changes `width` bytes.
    fn meet(&mut self, place: RelaPlace, width: u8) -> Result<(), AllocError>
        requires near { IsNear place }
        requires width { place_width place ≡ width }
        ensures { OnOk result ((places : List RelaPlace) → has_met self.old places
            → has_met self.new (places ++ place ∷ [])) };
}

impl MetPlaces for Order {
    ghost has_met = { IsOrderOf };

    #[inline(always)]
    fn meet(&mut self, place: RelaPlace, width: u8) -> Result<(), AllocError> {
        self.go_on(&place, width);
        Ok(())
    }
}

/// The places that were met, and whether they are in order.
#[derive(Drop)]
pub(crate) struct ListedPlaces {
    pub(crate) list: Vec<RelaPlace>,
    pub(crate) order: Order,
}

impl ListedPlaces {
    /// Returns the list of no places, with room for this many.
    pub(crate) fn with_capacity(alloc: Global, places: usize) -> Result<Self, AllocError>
        ensures { IfOk result (λ listed. AreListed listed []) }
    {
        Ok(ListedPlaces {
            list: Vec::with_capacity(alloc, places)?,
            order: Order::new(),
        })
    }
}

impl MetPlaces for ListedPlaces {
    ghost has_met = { AreListed };

    fn meet(&mut self, place: RelaPlace, width: u8) -> Result<(), AllocError> {
        self.order.go_on(&place, width);
        self.list.push(place)?;
        Ok(())
    }
}
