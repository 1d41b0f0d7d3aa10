// The bytes of sections in an image.

ghost use Rattle.std.specs.Prelude.{◌≡◌, ◌<◌, ◌^◌, length, IfOk};
ghost use Rattle.image_layout.specs.Offsets.{image_size, offsets};
ghost use Rattle.image_layout.specs.Plain.{piece, plain_image};

use crate::{Layout, image_size};
use elf_object::Object;
use raw_image::Image;
use std::alloc::{AllocError, Global};

/// Returns the image of an object before any relocation: each section is copied from the file, into
/// one block.
pub(crate) fn plain_image(
    alloc: Global,
    object: &Object,
    layout: &Layout,
) -> Result<Image, AllocError>
    requires fits { image_size object.now.sections < 2 ^ 63 }
    requires layout { layout.now ≡ offsets object.now.sections }
    ensures { IfOk result (λ image. image ≡ plain_image object.now) }
{
    let mut image = Image::zeroed(alloc, image_size(object) as usize)?;
    for i in 0..object.section_count() {
        image.copy_in(layout.offset(i) as usize, bytes_in_memory(object, i));
    }
    Ok(image)
}

/// Returns the bytes of the section `i` in the image: the file's, if the section is in memory.
#[tactic(auto, using(crate::proofs::PlainLemmas::piece_kept, crate::proofs::PlainLemmas::piece_unkept))]
fn bytes_in_memory(object: &Object, i: u32) -> &[u8]
    requires { i < length object.now.sections }
    ensures { result.now ≡ (piece object.now i).bytes }
{
    if object.section(i).kept {
        object.section_bytes(i)
    } else {
        &[]
    }
}
