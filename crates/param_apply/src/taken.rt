// The bytes of an image that no value may have.

ghost use Rattle.std.specs.Prelude.{◌≡◌, ℕ, ◌+◌, ◌<◌, ◌≤◌, ◌^◌, ◌||◌, ◌⊎◌, true, false, length};
ghost use Rattle.std.specs.Prelude.{get_or, IfOk};
ghost use Rattle.elf_object.specs.Object.{FileObject};
ghost use Rattle.image_layout.specs.Offsets.{image_size, offsets};
ghost use Rattle.param_apply.specs.Places.{is_among, is_relocated_by, is_reserved};
ghost use Rattle.param_apply.specs.Table.{table_of};

use crate::table::ParamTable;
use elf_format::width;
use elf_object::{Object, RelaPlace};
use image_layout::Layout;
use std::alloc::{AllocError, Global};

/// Marks this many bytes from a place on, as far as the list has them.
pub(crate) fn mark(taken: &mut Vec<bool>, at: u128, size: u64)
    requires { at < 2 ^ 66 }
    ensures same { length taken.new.items ≡ length taken.old.items }
    ensures marked { (x : ℕ) → x < length taken.old.items
        → get_or taken.new.items x false ≡ (get_or taken.old.items x false || is_among at size x) }
{
    let len = taken.len() as u128;
    let start = at.min(len) as usize;
    let end = (at + u128::from(size)).min(len) as usize;
    for x in start..end {
        taken[x] = true;
    }
}

/// Returns for each byte of an image of `len` bytes whether it is reserved.
#[tactic(auto, unfolding(crate::specs::Places::is_reserved))]
pub(crate) fn reserved(
    alloc: Global,
    object: &Object,
    table: ParamTable,
    len: usize,
) -> Result<Vec<bool>, AllocError>
    requires fits { image_size object.now.sections < 2 ^ 63 }
    requires table { table ≡ table_of object.now }
    ensures length { IfOk result (λ v. length v.items ≡ len) }
    ensures reserved { IfOk result
        (λ v. (x : ℕ) → x < len → get_or v.items x false ≡ is_reserved object.now x) }
{
    let layout = Layout::new(alloc, object)?;
    let mut taken = vec![in alloc; false; len]?;
    for i in 0..object.place_count() {
        mark_place(&mut taken, &layout, object.place(i));
    }
    mark(&mut taken, u128::from(table.at), table.size);
    Ok(taken)
}

/// Returns whether the list has this many bytes from a place on, and none of them is marked.
pub(crate) fn are_free(taken: &[bool], at: u64, size: usize) -> bool
    requires { size ≤ 8 }
    ensures inside { result ≡ true → at + size ≤ length taken.now }
    ensures free { result ≡ true → (x : ℕ) → at ≤ x → x < at + size
        → get_or taken.now x false ≡ false }
    ensures taken { result ≡ false → (length taken.now < at + size)
        ⊎ ((x : ℕ) × (at ≤ x) × (x < at + size) × (get_or taken.now x false ≡ true)) }
{
    let len = taken.len() as u128;
    if len < u128::from(at) + size as u128 {
        return false;
    }
    let at = at as usize;
    for x in at..at + size {
        if taken[x] {
            return false;
        }
    }
    true
}

/// Marks the bytes that a relocation changes.
fn mark_place(taken: &mut Vec<bool>, layout: &Layout, place: &RelaPlace)
    requires { place.now.target < length layout.now }
    ensures same { length taken.new.items ≡ length taken.old.items }
    ensures marked { (o : FileObject) → layout.now ≡ offsets o.sections → (x : ℕ)
        → x < length taken.old.items
        → get_or taken.new.items x false
        ≡ (get_or taken.old.items x false || is_relocated_by o x place.now) }
{
    let at = u128::from(layout.offset(place.target)) + u128::from(place.offset);
    mark(taken, at, u64::from(width(place.kind).unwrap_or(0)));
}
