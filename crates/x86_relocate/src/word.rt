// The word that a relocation writes.
ghost use Rattle.std.specs.Prelude.{◌≡◌};
ghost use Rattle.elf_format.specs.Relocation.{IsKnown};
ghost use Rattle.x86_relocate.specs.Word.{sign_extended, word, zero_extended};

use elf_format::{
    R_X86_64_32, R_X86_64_32S, R_X86_64_64, R_X86_64_NONE, R_X86_64_PC32, R_X86_64_PC64,
    R_X86_64_PLT32,
};

/// The least and the greatest value that four bytes with a sign hold.
const LEAST: i64 = i32::MIN as i64;

const GREATEST: i64 = i32::MAX as i64;

/// What a relocation writes at its place, the lowest byte first.
#[derive(Clone, Copy, PartialEq, Eq, Debug)]
pub enum Written {
    /// Nothing.
    Nothing,
    /// Four bytes.
    Four(u32),
    /// Eight bytes.
    Eight(u64),
}

/// The value doesn't fit the field of its type.
#[derive(Clone, Copy, PartialEq, Eq, Debug)]
pub struct TooWide;

/// Returns the word of a relocation of the type `kind`, as in the x86-64 psABI's "Relocation", with
/// sums modulo 2^64. It is computed from the address `s` of its symbol, the addend `a` and the
/// address `p` of its place. A R_X86_64_PLT32 is computed as a R_X86_64_PC32, since there is no
/// procedure linkage table.
///
/// # Errors
///
/// [`TooWide`] exactly if the zero or sign extension of the field, by the type, isn't the value.
#[tactic(auto, using(crate::proofs::Words::relative_is), unfolding(crate::specs::Word::word))]
pub fn value(kind: u32, s: u64, a: i64, p: u64) -> Result<Written, TooWide>
    requires { IsKnown kind }
    ensures { result ≡ word kind s a p }
{
    let absolute = s.wrapping_add_signed(a);
    let relative = absolute.wrapping_sub(p);
    match kind {
        R_X86_64_NONE => Ok(Written::Nothing),
        R_X86_64_64 => Ok(Written::Eight(absolute)),
        R_X86_64_PC32 | R_X86_64_PLT32 => signed_four(relative),
        R_X86_64_32 => unsigned_four(absolute),
        R_X86_64_32S => signed_four(absolute),
        R_X86_64_PC64 => Ok(Written::Eight(relative)),
        _ => unreachable!(),
    }
}

/// Returns the four bytes whose sign extension is the value.
fn signed_four(value: u64) -> Result<Written, TooWide>
    ensures { result ≡ sign_extended value }
{
    let signed = value.cast_signed();
    if signed < LEAST || signed > GREATEST {
        return Err(TooWide);
    }
    Ok(Written::Four((value % (1 << 32)) as u32))
}

/// Returns the four bytes whose zero extension is the value.
fn unsigned_four(value: u64) -> Result<Written, TooWide>
    ensures { result ≡ zero_extended value }
{
    if value >= 1 << 32 {
        return Err(TooWide);
    }
    Ok(Written::Four(value as u32))
}
