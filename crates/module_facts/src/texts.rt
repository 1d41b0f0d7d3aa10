// What the texts of the section `.modinfo` state.

ghost use Rattle.std.specs.Prelude.{◌≡◌, ◌++◌, [], codes, IfOk, OnOk};
ghost use Rattle.modinfo_fields.specs.Fields.{fields_of, values_of_key};
ghost use Rattle.module_facts.specs.Facts.{is_free, is_free_license};
ghost use Rattle.module_facts.specs.Texts.{values_in};

use km_names::{Blob, Name, Names, Texts, split_at_byte};
use modinfo_fields::value_of;
use std::alloc::{AllocError, Global};

/// Returns whether a module with these licenses may use GPL-only symbols, by the first of them. A
/// module without a license may not.
#[tactic(auto, unfolding(crate::specs::Facts::is_free))]
pub(crate) fn is_free(licenses: &Texts) -> bool
    ensures { result ≡ is_free licenses.now }
{
    match licenses.get(0) {
        Some(license) => is_free_license(license.as_bytes()),
        None => false,
    }
}

/// The values of the keys that facts are made of.
#[derive(Drop)]
pub(crate) struct StatedTexts {
    pub(crate) licenses: Texts,
    pub(crate) aliases: Texts,
    pub(crate) softdeps: Texts,
    pub(crate) imports: Names,
}

impl StatedTexts {
    /// Returns no texts.
    fn new(alloc: Global) -> Self
        ensures licenses { result.licenses ≡ [] }
        ensures aliases { result.aliases ≡ [] }
        ensures softdeps { result.softdeps ≡ [] }
        ensures imports { result.imports ≡ [] }
    {
        StatedTexts {
            licenses: Texts::new(alloc),
            aliases: Texts::new(alloc),
            softdeps: Texts::new(alloc),
            imports: Names::new(alloc),
        }
    }

    /// Adds the value of a piece of the section between NULs to those of its key.
    fn push(&mut self, alloc: Global, piece: &[u8]) -> Result<(), AllocError>
        ensures licenses { OnOk result
            (self.new.licenses ≡ self.old.licenses ++ values_in (codes "license") piece.now) }
        ensures aliases { OnOk result
            (self.new.aliases ≡ self.old.aliases ++ values_in (codes "alias") piece.now) }
        ensures softdeps { OnOk result
            (self.new.softdeps ≡ self.old.softdeps ++ values_in (codes "softdep") piece.now) }
        ensures imports { OnOk result
            (self.new.imports ≡ self.old.imports ++ values_in (codes "import_ns") piece.now) }
    {
        push_value(alloc, &mut self.licenses, piece, b"license")?;
        push_value(alloc, &mut self.aliases, piece, b"alias")?;
        push_value(alloc, &mut self.softdeps, piece, b"softdep")?;
        push_name(alloc, &mut self.imports, piece, b"import_ns")?;
        Ok(())
    }
}

/// Returns the texts in the bytes of the section, which is gone over once for all keys.
pub(crate) fn read_texts(alloc: Global, bytes: &[u8]) -> Result<StatedTexts, AllocError>
    ensures licenses { IfOk result
        (λ t. t.licenses ≡ values_of_key (codes "license") (fields_of bytes.now)) }
    ensures aliases { IfOk result
        (λ t. t.aliases ≡ values_of_key (codes "alias") (fields_of bytes.now)) }
    ensures softdeps { IfOk result
        (λ t. t.softdeps ≡ values_of_key (codes "softdep") (fields_of bytes.now)) }
    ensures imports { IfOk result
        (λ t. t.imports ≡ values_of_key (codes "import_ns") (fields_of bytes.now)) }
{
    let mut texts = StatedTexts::new(alloc);
    let mut rest = bytes;
    while !rest.is_empty() {
        let (piece, after) = split_at_byte(rest, 0);
        texts.push(alloc, piece)?;
        rest = after;
    }
    Ok(texts)
}

/// Returns whether a module of this license may use GPL-only symbols. The kernel's
/// include/linux/license.h.
#[tactic(auto, unfolding(crate::specs::Facts::is_free_license))]
fn is_free_license(license: &[u8]) -> bool
    ensures { result ≡ is_free_license license.now }
{
    license == b"GPL".as_slice()
        || license == b"GPL v2".as_slice()
        || license == b"GPL and additional rights".as_slice()
        || license == b"Dual BSD/GPL".as_slice()
        || license == b"Dual MIT/GPL".as_slice()
        || license == b"Dual MPL/GPL".as_slice()
}

/// Adds the value of a piece of the section between NULs, if it is a field with this key.
fn push_value(alloc: Global, values: &mut Texts, piece: &[u8], key: &[u8]) -> Result<(), AllocError>
    ensures { OnOk result (values.new ≡ values.old ++ values_in key.now piece.now) }
{
    if let Some(value) = value_of(piece, key) {
        values.push(Blob::from_slice(alloc, value)?)?;
    }
    Ok(())
}

/// Adds the value of a piece of the section between NULs as a name, if it is a field with this key.
fn push_name(alloc: Global, names: &mut Names, piece: &[u8], key: &[u8]) -> Result<(), AllocError>
    ensures { OnOk result (names.new ≡ names.old ++ values_in key.now piece.now) }
{
    if let Some(value) = value_of(piece, key) {
        names.push(Name::from_slice(alloc, value)?)?;
    }
    Ok(())
}
