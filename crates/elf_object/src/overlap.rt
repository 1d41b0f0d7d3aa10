// Whether the places that relocations change are in order.

ghost use Rattle.std.specs.Prelude.{◌≡◌, [], ◌∷◌, ◌++◌, List};
ghost use Rattle.elf_object.specs.declared.place.RelaPlace.{RelaPlace};

use crate::RelaPlace;

/// The number of bytes that each section has if the bytes of all are put in one line.
const SECTION: u64 = 1 << 32;

/// Whether the places that were met are in order and apart, and the end of the last of them in the
/// line of all sections' bytes. No two places in order share a byte.
#[derive(Clone, Copy)]
pub(crate) struct Order {
    pub(crate) end: u64,
    pub(crate) holds: bool,
}

impl Order {
    ghost use Rattle.elf_object.specs.Overlap.{IsNear, IsOrderOf};
    ghost use Rattle.elf_object.specs.Places.{place_width};

    /// Returns the order of no places.
    pub(crate) fn new() -> Self
        ensures { IsOrderOf result [] }
    {
        Order {
            end: 0,
            holds: true,
        }
    }

    /// Goes on to the next place, which changes `width` bytes.
    pub(crate) fn go_on(&mut self, place: &RelaPlace, width: u8)
        requires near { IsNear place.now }
        requires width { place_width place.now ≡ width }
        ensures { (places : List RelaPlace) → IsOrderOf self.old places
            → IsOrderOf self.new (places ++ place.now ∷ []) }
    {
        if width == 0 {
            return;
        }
        let start = u64::from(place.target) * SECTION + place.offset;
        if start < self.end {
            self.holds = false;
        }
        self.end = start + u64::from(width);
    }
}
