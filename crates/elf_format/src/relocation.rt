// Relocations. gABI 4, "Relocation"; x86-64 psABI, "Relocation Types".

ghost use Rattle.std.specs.Prelude.{◌≡◌};
ghost use Rattle.elf_format.specs.Relocation.{width};

/// The size of a relocation with its addend in bytes, Elf64_Rela.
pub const RELA_SIZE: usize = 24;

/// The type of a relocation that changes nothing.
pub const R_X86_64_NONE: u32 = 0;
/// The address, in 8 bytes.
pub const R_X86_64_64: u32 = 1;
/// The distance to the address, in 4 bytes.
pub const R_X86_64_PC32: u32 = 2;
/// The distance to the address or to an entry of the linkage table, in 4 bytes.
pub const R_X86_64_PLT32: u32 = 4;
/// The address in 4 bytes, extended by zeros.
pub const R_X86_64_32: u32 = 10;
/// The address in 4 bytes, extended by its sign.
pub const R_X86_64_32S: u32 = 11;
/// The distance to the address, in 8 bytes.
pub const R_X86_64_PC64: u32 = 24;

/// Returns how many bytes a relocation of the type `kind` changes. The result is `None` for a type
/// that isn't one of these.
pub fn width(kind: u32) -> Option<u8>
    ensures { result ≡ width kind }
{
    match kind {
        R_X86_64_NONE => Some(0),
        R_X86_64_64 | R_X86_64_PC64 => Some(8),
        R_X86_64_PC32 | R_X86_64_PLT32 | R_X86_64_32 | R_X86_64_32S => Some(4),
        _ => None,
    }
}
