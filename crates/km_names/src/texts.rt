// The texts that lines of several commands have.
ghost use Rattle.std.specs.Prelude.{◌≡◌, IfOk};
ghost use Rattle.km_names.specs.Texts.{cycle_text, not_found_text};

use crate::{Blob, Name, Names};
use std::alloc::{AllocError, Global};

/// Returns the text for a name that stands for nothing.
pub fn not_found_text(alloc: Global, name: &Name) -> Result<Blob, AllocError>
    ensures { IfOk result (λ text. text ≡ not_found_text name.now) }
{
    Blob::concat(alloc, &[b"not found ", name.as_bytes()])
}

/// Returns the text for modules that depend on each other in a cycle: their names in order, and the
/// first one again.
pub fn cycle_text(alloc: Global, names: &Names) -> Result<Blob, AllocError>
    ensures { IfOk result (λ text. text ≡ cycle_text names.now) }
{
    let mut text = Blob::from_slice(alloc, b"cycle ")?;
    for name in names.as_slice() {
        text.extend(name.as_bytes())?;
        text.extend(b" -> ")?;
    }
    if let Some(first) = names.get(0) {
        text.extend(first.as_bytes())?;
    }
    Ok(text)
}
