// The contents of the sections that are loaded.
ghost use Rattle.std.specs.Prelude.{◌≡◌, ◌≤◌, ◌++◌, length, All, OnOk, IfOk};
ghost use Rattle.std.specs.List.{flat_map};
ghost use Rattle.elf_write.specs.Number.{with_nul};
ghost use Rattle.sheet_object.specs.Contents.{version_bytes};

use crate::sheet::SheetVersion;
use elf_write::{push_xword, push_zeros};
use km_names::Blob;
use std::alloc::{AllocError, Global};

/// The size of the name of a version in bytes. The last byte is NUL.
const VERSION_NAME: usize = 56;

/// Returns the texts of `.modinfo`, each with its NUL.
pub(crate) fn modinfo(alloc: Global, texts: &[Blob]) -> Result<Vec<u8>, AllocError>
    ensures { IfOk result (λ v. v.items ≡ flat_map with_nul texts.now) }
{
    let mut content = Vec::new(alloc);
    for text in texts {
        content.extend_from_slice(text.as_bytes())?;
        content.push(0)?;
    }
    Ok(content)
}

/// Returns the entries of `__versions`.
pub(crate) fn versions(alloc: Global, versions: &[SheetVersion]) -> Result<Vec<u8>, AllocError>
    requires { All (λ v. length v.name ≤ 55) versions.now }
    ensures { IfOk result (λ v. v.items ≡ flat_map version_bytes versions.now) }
{
    let mut content = Vec::new(alloc);
    for version in versions {
        push_version(&mut content, version)?;
    }
    Ok(content)
}

/// Puts an entry of `__versions` at the end.
fn push_version(out: &mut Vec<u8>, version: &SheetVersion) -> Result<(), AllocError>
    requires { length version.now.name ≤ 55 }
    ensures { OnOk result (out.new.items ≡ out.old.items ++ version_bytes version.now) }
{
    push_xword(out, version.crc)?;
    out.extend_from_slice(version.name.as_bytes())?;
    push_zeros(out, VERSION_NAME - version.name.len())
}
