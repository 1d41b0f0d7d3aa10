// The addresses for modules.

ghost use Rattle.std.specs.Prelude.{◌≡◌, Some, true};
ghost use Rattle.module_region.specs.Regions.{IsRegion, is_region};

use elf_format::PAGE;

/// The addresses that a machine has for modules: whole pages, and at least one. MODULES_VADDR and
/// MODULES_LEN of the kernel's arch/x86/include/asm/pgtable_64_types.h.
#[derive(Clone, Copy, Debug)]
pub struct Region {
    pub base: u64,
    pub size: u64,
    ghost pages: { IsRegion base size },
}

impl Region {
    ghost use Rattle.module_region.specs.RegionAt.{region_at};

    /// Returns the region of `size` bytes from `base` on. The result is `None` exactly if one of
    /// them isn't a multiple of 4096, `size` is 0, or the bytes exceed the last address of 64 bits.
    pub fn new(base: u64, size: u64) -> Option<Region>
        ensures { result ≡ region_at base size }
    {
        if is_region(base, size) {
            Some(Region::of_pages(base, size))
        } else {
            None
        }
    }

    /// Returns the region of `size` bytes from `base` on, which are known to be whole pages, at
    /// least one, and not to exceed the last address of 64 bits.
    fn of_pages(base: u64, size: u64) -> Region
        requires pages { is_region base size ≡ true }
        ensures { region_at base size ≡ Some result }
    {
        Region { base, size }
    }
}

/// Returns whether this many bytes from a base on are a region.
fn is_region(base: u64, size: u64) -> bool
    ensures { result ≡ is_region base size }
{
    base % PAGE == 0 && size % PAGE == 0 && size > 0 && base <= u64::MAX - (size - 1)
}
