// Numbers and zeros at the end of a vector.
ghost use Rattle.std.specs.Prelude.{◌≡◌, ◌++◌, OnOk, IfOk};
ghost use Rattle.elf_write.specs.Number.{half, word, xword, zeros};

use std::alloc::{AllocError, Global};

/// Puts a number of 2 bytes at the end, the lowest byte first. gABI 4, "Data Representation",
/// Elf64_Half. The only error is out of memory.
#[tactic(auto, unfolding(crate::specs::Number::half))]
pub fn push_half(out: &mut Vec<u8>, n: u16) -> Result<(), AllocError>
    ensures { OnOk result (out.new.items ≡ out.old.items ++ half n) }
{
    out.extend_from_slice(&n.to_le_bytes())
}

/// Puts a number of 4 bytes at the end, the lowest byte first. gABI 4, "Data Representation",
/// Elf64_Word. The only error is out of memory.
#[tactic(auto, unfolding(crate::specs::Number::word))]
pub fn push_word(out: &mut Vec<u8>, n: u32) -> Result<(), AllocError>
    ensures { OnOk result (out.new.items ≡ out.old.items ++ word n) }
{
    out.extend_from_slice(&n.to_le_bytes())
}

/// Puts a number of 8 bytes at the end, the lowest byte first. gABI 4, "Data Representation",
/// Elf64_Xword. The only error is out of memory.
#[tactic(auto, unfolding(crate::specs::Number::xword))]
pub fn push_xword(out: &mut Vec<u8>, n: u64) -> Result<(), AllocError>
    ensures { OnOk result (out.new.items ≡ out.old.items ++ xword n) }
{
    out.extend_from_slice(&n.to_le_bytes())
}

/// Puts this many zeros at the end. The only error is out of memory.
#[tactic(auto, unfolding(crate::specs::Number::zeros))]
pub fn push_zeros(out: &mut Vec<u8>, count: usize) -> Result<(), AllocError>
    ensures { OnOk result (out.new.items ≡ out.old.items ++ zeros count) }
{
    for _index in 0..count {
        out.push(0)?;
    }
    Ok(())
}

/// Returns this many zeros. The only error is out of memory.
pub fn zeros(alloc: Global, count: usize) -> Result<Vec<u8>, AllocError>
    ensures { IfOk result (λ v. v.items ≡ zeros count) }
{
    let mut content = Vec::new(alloc);
    push_zeros(&mut content, count)?;
    Ok(content)
}
