// Patches, and the image to which they are applied.
ghost use Rattle.std.specs.Prelude.{◌≡◌, ◌++◌, ◌∷◌, [], ℕ, List, OnOk, OnErr, All, AllPairs};
ghost use Rattle.std.specs.Prelude.{length, is_ok, take_while};
ghost use Rattle.std.specs.Option.{option_map};
ghost use Rattle.std.specs.Result.{result_err};
ghost use Rattle.raw_image.specs.Bytes.{with_bytes};
ghost use Rattle.elf_format.specs.Relocation.{IsKnown};
ghost use Rattle.x86_relocate.specs.declared.patch.Patch.{Patch};
ghost use Rattle.x86_relocate.specs.Patched.{IsApart, IsWithin, bytes_of, fits, first_too_wide};
ghost use Rattle.x86_relocate.specs.Patched.{overflow_of, patched, word_of};

use crate::{TooWide, Written, value};
use km_names::List;
use raw_image::Image;

/// A word to be written into an image: the effect of one relocation.
#[derive(Clone, Copy, PartialEq, Eq, Debug)]
pub struct Patch {
    /// The index of the relocation section.
    pub section: u32,
    /// The index of the relocation in its section.
    pub entry: u32,
    /// The place of its first byte in the image.
    pub at: usize,
    /// The type of the relocation.
    pub kind: u32,
    /// The address of the symbol.
    pub s: u64,
    /// The addend.
    pub a: i64,
    /// The address of the place.
    pub p: u64,
}

/// Patches in the order they are applied in.
pub type Patches = List<Patch>;

/// The first patch whose word doesn't fit its field.
#[derive(Clone, Copy, PartialEq, Eq, Debug)]
pub struct Overflow {
    /// The index of its relocation section.
    pub section: u32,
    /// The index of the relocation in that section.
    pub entry: u32,
}

/// Writes the word of one patch into the image, without memory. The bytes that were there aren't
/// read. If patches are written one by one, and none shares a byte with an earlier one, the image
/// is the one with the words of all.
///
/// # Errors
///
/// [`TooWide`] exactly if the word doesn't fit its field. Then the image is as before.
pub fn write_word(image: &mut Image, patch: &Patch) -> Result<(), TooWide>
    requires known { IsKnown patch.now.kind }
    requires within { IsWithin (length image.old) patch.now }
    ensures outcome { is_ok result ≡ fits patch.now }
    ensures image { image.new ≡ with_bytes image.old patch.now.at (bytes_of (word_of patch.now)) }
    ensures more { OnOk result ((start : List ℕ) (done : List Patch)
        → All (λ one. IsApart one patch.now) done → image.old ≡ patched start done
        → image.new ≡ patched start (done ++ patch.now ∷ [])) }
    ensures unchanged { OnErr result (image.new ≡ image.old) }
    ensures len { length image.new ≡ length image.old }
{
    put_word(image, patch)?;
    Ok(())
}

/// Writes the words of the patches into the image, in one pass and without memory. The bytes that
/// were there aren't read.
///
/// # Errors
///
/// [`Overflow`] names the first patch whose word is too wide. Then the patches before it are
/// applied, and no other.
pub fn apply(image: &mut Image, patches: &Patches) -> Result<(), Overflow>
    requires known { All (λ patch. IsKnown patch.kind) patches.now }
    requires within { All (IsWithin (length image.old)) patches.now }
    requires apart { AllPairs IsApart patches.now }
    ensures overflow { result_err result ≡ option_map overflow_of (first_too_wide patches.now) }
    ensures image { image.new ≡ patched image.old (take_while fits patches.now) }
    ensures len { length image.new ≡ length image.old }
{
    for patch in patches.as_slice() {
        if write_word(image, patch).is_err() {
            return Err(Overflow {
                section: patch.section,
                entry: patch.entry,
            });
        }
    }
    Ok(())
}

/// Writes the word of one patch into the image, and nothing if it is too wide.
#[tactic(auto, using(crate::proofs::Applied::with_no_bytes))]
fn put_word(image: &mut Image, patch: &Patch) -> Result<(), TooWide>
    requires known { IsKnown patch.now.kind }
    requires within { IsWithin (length image.old) patch.now }
    ensures outcome { is_ok result ≡ fits patch.now }
    ensures image { image.new ≡ with_bytes image.old patch.now.at (bytes_of (word_of patch.now)) }
    ensures unchanged { OnErr result (image.new ≡ image.old) }
    ensures len { length image.new ≡ length image.old }
{
    match value(patch.kind, patch.s, patch.a, patch.p)? {
        Written::Nothing => {}
        Written::Four(word) => image.put_u32(patch.at, word),
        Written::Eight(word) => image.put_u64(patch.at, word),
    }
    Ok(())
}
