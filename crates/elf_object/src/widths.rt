// How many bytes relocations change, by a table of their types.

ghost use Rattle.std.specs.Prelude.{◌≡◌, ◌==◌, None, Some, if◌then◌else◌};
ghost use Rattle.elf_format.specs.Relocation.{width};

/// What stands for the width of a type that isn't known.
pub(crate) const UNKNOWN: u8 = 255;

/// The widths of the types below 25. All other types are unknown. x86-64 psABI, "Relocation Types".
const WIDTHS: [u8; 25] = [
    0, 8, 4, 255, 4, 255, 255, 255, 255, 255, 4, 4, 255, 255, 255, 255, 255, 255, 255, 255, 255,
    255, 255, 255, 8,
];

/// Returns how many bytes a relocation of a type changes, or `UNKNOWN`. Files mix the types, so a
/// branch for each would often be taken by surprise.
#[inline(always)]
pub(crate) fn width_or_unknown(kind: u32) -> u8
    ensures { width kind ≡ (if result == UNKNOWN then None else Some result) }
{
    if (kind as usize) < WIDTHS.len() {
        WIDTHS[kind as usize]
    } else {
        UNKNOWN
    }
}
