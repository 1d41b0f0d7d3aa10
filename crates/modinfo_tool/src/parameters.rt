// The parameters that the fields of a module describe.

ghost use Rattle.std.specs.Prelude.{◌≡◌, ℕ, List, IfOk, map, option_map};
ghost use Rattle.modinfo_tool.specs.Parameters.{is_parameter, parameter_names, first_told};
ghost use Rattle.modinfo_tool.specs.Parameters.{described, parameter_values};
ghost use Rattle.modinfo_tool.specs.Tables.{told_in};

use indexmap::IndexMap;
use km_names::{Blob, Texts, split_at_byte};
use modinfo_fields::{Field, FieldList};
use name_table::{NameHash, NameKey, NameSet, keep_first};
use std::alloc::{AllocError, Global};
use std::hash::BuildHasherDefault;

/// Returns whether the field describes a parameter.
pub(crate) fn is_parameter(field: &Field) -> bool
    ensures { result ≡ is_parameter field.now }
{
    let key = field.key.as_bytes();
    key == b"parm".as_slice() || key == b"parmtype".as_slice()
}

/// Returns the values of the parameters that the fields describe, in the order they are first seen
/// in.
#[tactic(auto, unfolding(crate::specs::Parameters::parameter_values))]
pub(crate) fn parameter_values(alloc: Global, fields: &FieldList) -> Result<Texts, AllocError>
    ensures { IfOk result (λ values. values ≡ parameter_values fields.now) }
{
    let names = parameter_names(alloc, fields)?;
    let parms = fields.values_of(alloc, b"parm")?;
    let types = fields.values_of(alloc, b"parmtype")?;
    described_by(alloc, &names, parms.as_slice(), types.as_slice())
}

/// Returns the parameters that any field describes, in the order they are first seen in.
fn parameter_names<'a>(alloc: Global, fields: &'a FieldList) -> Result<NameSet<'a>, AllocError>
    ensures { IfOk result (λ names. names ≡ parameter_names fields.now) }
{
    let mut names = NameSet::new(alloc);
    for i in 0..fields.len() {
        if let Some(field) = fields.get(i) {
            if is_parameter(field) {
                let (name, _rest) = split_at_byte(field.value.as_bytes(), b':');
                names.insert(name)?;
            }
        }
    }
    Ok(names)
}

/// Returns the values of parameters, by the values of the two keys that describe parameters.
fn described_by(
    alloc: Global,
    names: &NameSet<'_>,
    parms: &[Blob],
    types: &[Blob],
) -> Result<Texts, AllocError>
    ensures { IfOk result (λ values. values
        ≡ map (λ name. described name (first_told parms.now name) (first_told types.now name))
        names.now) }
{
    let texts = first_told(alloc, parms)?;
    let kinds = first_told(alloc, types)?;
    described_all(alloc, names, &texts, &kinds)
}

/// Returns for each parameter its description by the first of the values that describes it.
fn first_told<'a>(alloc: Global, values: &'a [Blob]) -> Result<Told<'a>, AllocError>
    ensures { IfOk result
        (λ told. (name : List ℕ) → told_in told name ≡ first_told values.now name) }
{
    let mut told = IndexMap::with_hasher(alloc, BuildHasherDefault::new());
    for value in values {
        let (name, rest) = split_at_byte(value.as_bytes(), b':');
        keep_first(&mut told, NameKey::new(name), rest)?;
    }
    Ok(told)
}

/// Returns the values of parameters, by their descriptions.
fn described_all(
    alloc: Global,
    names: &NameSet<'_>,
    texts: &Told<'_>,
    kinds: &Told<'_>,
) -> Result<Texts, AllocError>
    ensures { IfOk result (λ values. values
        ≡ map (λ name. described name (told_in texts.now name) (told_in kinds.now name))
        names.now) }
{
    let mut values = Texts::new(alloc);
    for i in 0..names.len() {
        if let Some(name) = names.get(i) {
            values.push(describe_by(alloc, name, texts, kinds)?)?;
        }
    }
    Ok(values)
}

/// Descriptions of parameters, by the parameters' names.
type Told<'a> = IndexMap<NameKey<'a>, &'a [u8], NameHash>;

/// Returns the value of a parameter, by the descriptions of all.
fn describe_by(
    alloc: Global,
    name: &[u8],
    texts: &Told<'_>,
    kinds: &Told<'_>,
) -> Result<Blob, AllocError>
    ensures { IfOk result
        (λ value. value
        ≡ described name.now (told_in texts.now name.now) (told_in kinds.now name.now)) }
{
    let key = NameKey::new(name);
    let text = texts.get(&key).copied();
    let kind = kinds.get(&key).copied();
    describe(alloc, name, text, kind)
}

/// Returns the value of a parameter, by its text and its type.
fn describe(
    alloc: Global,
    name: &[u8],
    text: Option<&[u8]>,
    kind: Option<&[u8]>,
) -> Result<Blob, AllocError>
    ensures { IfOk result (λ value. value
        ≡ described name.now (option_map (λ t. t.now) text.entry)
        (option_map (λ t. t.now) kind.entry)) }
{
    let mut value = Blob::from_slice(alloc, name)?;
    value.push(b':')?;
    match (text, kind) {
        (Some(text), Some(kind)) => {
            value.extend(text)?;
            value.extend(b" (")?;
            value.extend(kind)?;
            value.push(b')')?;
        }
        (Some(text), None) => value.extend(text)?,
        (None, Some(kind)) => value.extend(kind)?,
        (None, None) => {}
    }
    Ok(value)
}
