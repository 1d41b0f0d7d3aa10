// The image of a module at a base.

ghost use Rattle.std.specs.Prelude.{◌≡◌, ◌<◌, ◌^◌, ◌⊎◌, None, Some, length, IfErr, IfOk, OnOk};
ghost use Rattle.std.specs.Result.{result_err};
ghost use Rattle.x86_relocate.specs.Patched.{patched};
ghost use Rattle.image_layout.specs.Offsets.{image_size, offsets};
ghost use Rattle.image_layout.specs.Laid.{laid, overflow, patch_of, patches};
ghost use Rattle.image_layout.specs.declared.fault.LayFault.TheVariants.{Memory};
ghost use Rattle.image_layout.specs.declared.fault.LayFault.TheVariants.{Overflow as TooWide};
ghost use Rattle.x86_relocate.specs.declared.patch.Overflow.{Overflow};

use crate::plain::plain_image;
use crate::{LayFault, Layout};
use elf_object::{Object, RelaPlace};
use raw_image::Image;
use std::alloc::Global;
use x86_relocate::{Overflow, Patch, write_word};

/// Returns the image of an object at a base, by the addresses of its symbols: the bytes of its
/// sections, with the word of each relocation at its place. It is made in one block. x86-64 psABI,
/// "Relocation".
///
/// # Errors
///
/// `Overflow` exactly if the word of a relocation doesn't fit, with the first such relocation; or
/// `Memory`.
#[tactic(auto, unfolding(crate::specs::Laid::laid))]
pub fn image_at(
    alloc: Global,
    object: &Object,
    layout: &Layout,
    base: u64,
    addresses: &[u64],
) -> Result<Image, LayFault>
    requires fits { image_size object.now.sections < 2 ^ 63 }
    requires layout { layout.now ≡ offsets object.now.sections }
    requires addresses { length addresses.now ≡ length object.now.symbols }
    ensures image { IfOk result (λ image. image ≡ laid object.now base addresses.now) }
    ensures length { IfOk result (λ image. length image ≡ image_size object.now.sections) }
    ensures fits { OnOk result (overflow object.now base addresses.now ≡ None) }
    ensures fault { IfErr result
        (λ e. (e ≡ Memory)
        ⊎ ((o : Overflow) × (overflow object.now base addresses.now ≡ Some o)
        × (e ≡ TooWide o))) }
{
    let mut image = plain_image(alloc, object, layout)?;
    relocate(&mut image, object, layout, base, addresses)?;
    Ok(image)
}

/// Writes the words of all relocations into the image of an object at a base, in one pass.
fn relocate(
    image: &mut Image,
    object: &Object,
    layout: &Layout,
    base: u64,
    addresses: &[u64],
) -> Result<(), Overflow>
    requires fits { image_size object.now.sections < 2 ^ 63 }
    requires image { length image.old ≡ image_size object.now.sections }
    requires layout { layout.now ≡ offsets object.now.sections }
    requires addresses { length addresses.now ≡ length object.now.symbols }
    ensures overflow { result_err result ≡ overflow object.now base addresses.now }
    ensures image { OnOk result
        (image.new ≡ patched image.old (patches object.now base addresses.now)) }
{
    for i in 0..object.place_count() {
        let patch = patch_of(object, layout, base, addresses, object.place(i));
        if write_word(image, &patch).is_err() {
            return Err(Overflow {
                section: patch.section,
                entry: patch.entry,
            });
        }
    }
    Ok(())
}

/// Returns the patch of a relocation, in an image at a base, by the addresses of the symbols.
#[tactic(auto, unfolding(crate::specs::Laid::patch_of), using(crate::proofs::SymbolLemmas::offset_at, crate::proofs::SymbolLemmas::length_layout, crate::proofs::SymbolLemmas::wrapped_place))]
fn patch_of(
    object: &Object,
    layout: &Layout,
    base: u64,
    addresses: &[u64],
    place: &RelaPlace,
) -> Patch
    requires layout { layout.now ≡ offsets object.now.sections }
    requires target { place.now.target < length object.now.sections }
    requires symbol { place.now.symbol < length addresses.now }
    ensures { result ≡ patch_of object.now base addresses.now place.now }
{
    let at = layout.offset(place.target).wrapping_add(place.offset);
    Patch {
        section: place.section,
        entry: place.entry,
        at: at as usize,
        kind: place.kind,
        s: addresses[place.symbol as usize],
        a: place.addend,
        p: base.wrapping_add(at),
    }
}
