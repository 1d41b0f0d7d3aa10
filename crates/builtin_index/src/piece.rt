// The pieces of modules.builtin.modinfo, and their fields.
ghost use Rattle.std.specs.Prelude.{◌≡◌, ◌==◌, IfOk, IsTrue, option_map, MatchOption, ⊤};
ghost use Rattle.std.specs.List.{list_any};
ghost use Rattle.km_names.specs.Ascii.{is_graphic};
ghost use Rattle.builtin_index.specs.Fields.{cut_at, field_of};
ghost use Rattle.builtin_index.specs.Parts.{field_shown};

use km_names::{Blob, Name, is_graphic, split_at_byte, underscored};
use std::alloc::{AllocError, Global};

/// A field of a module that is built into the kernel.
#[derive(Debug, Drop)]
pub struct BuiltinField {
    /// The module's name, with each `-` replaced by `_`.
    pub module: Name,
    /// The key of the value: `alias`, `license` and so on.
    pub key: Name,
    /// The value.
    pub value: Blob,
}

/// The parts of a piece that is a field.
#[derive(Clone, Copy)]
pub(crate) struct Parts<'a> {
    /// The module's name as the piece has it.
    pub(crate) module: &'a [u8],
    pub(crate) key: &'a [u8],
    pub(crate) value: &'a [u8],
}

/// Reads the parts of a piece between NULs, if it is a field. A field has a `.` before its first
/// `=`, and the text before the first `.` is a word of visible characters.
#[tactic(auto, unfolding(crate::specs::Fields::field_of))]
pub(crate) fn read_parts(piece: &[u8]) -> Option<Parts<'_>>
    ensures field { option_map field_shown result ≡ field_of piece.now }
    ensures word { MatchOption result ⊤ (λ parts. IsTrue (is_graphic parts.module.now)) }
{
    let (named, value) = split_once(piece, b'=')?;
    let (module, key) = split_once(named, b'.')?;
    if !is_graphic(module) {
        return None;
    }
    Some(Parts { module, key, value })
}

/// Makes the field of these parts.
pub(crate) fn field(alloc: Global, parts: Parts) -> Result<BuiltinField, AllocError>
    ensures { IfOk result (λ field. field ≡ field_shown parts.entry) }
{
    Ok(BuiltinField {
        module: underscored(alloc, parts.module)?,
        key: Name::from_slice(alloc, parts.key)?,
        value: Blob::from_slice(alloc, parts.value)?,
    })
}

/// Splits a text at the first place of a byte: what comes before it, and what follows it. The
/// result is `None` if the text doesn't have the byte.
fn split_once(text: &[u8], byte: u8) -> Option<(&[u8], &[u8])>
    ensures { option_map (λ parts. (parts.0.now, parts.1.now)) result ≡ cut_at byte text.now }
{
    if !text.contains(&byte) {
        return None;
    }
    Some(split_at_byte(text, byte))
}
