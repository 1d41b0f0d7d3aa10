ghost use Rattle.std.specs.Prelude.{◌≡◌, ◌≤◌, ◌<◌, ◌↔◌, ◌==◌, [], ◌∷◌, ◌++◌, length, map, filter};
ghost use Rattle.std.specs.Prelude.{IsNone, OnOk, OnErr, IfOk, slice_get, option_copied};
ghost use Rattle.std.specs.Option.{option_to_list};
ghost use Rattle.modinfo_fields.specs.Fields.{fields_of, field_of, is_text, values_of_key};

use crate::Field;
use crate::piece::read_field;
use km_names::{Blob, List, Texts, split_at_byte};
use std::alloc::{AllocError, Global};
use std::marker::Model;

/// The fields of a section, in order. Contracts see it as the list of its fields.
#[derive(Debug, Drop)]
pub struct FieldList {
    list: List<Field>,
}

impl Model for FieldList {
    ghost use Rattle.std.specs.Prelude.{List};
    ghost use Rattle.modinfo_fields.specs.declared.piece.Field.{Field};

    ghost Value = { List Field };

    ghost view = { λ l. l.list };
}

impl FieldList {
    /// Returns the empty list. It takes no memory.
    pub fn new(alloc: Global) -> Self
        ensures { result ≡ [] }
    {
        FieldList {
            list: List::new(alloc),
        }
    }

    /// Puts a field at the end. After a refusal the list is as before.
    pub fn push(&mut self, item: Field) -> Result<(), AllocError>
        ensures ok { OnOk result (self.new ≡ self.old ++ item ∷ []) }
        ensures err { OnErr result (self.new ≡ self.old) }
    {
        self.list.push(item)
    }

    /// Returns the field at place `i`, from 0.
    pub fn get(&self, i: usize) -> Option<&Field>
        ensures item { option_copied result ≡ slice_get self.now i }
        ensures past_end { IsNone result ↔ (length self.now ≤ i) }
    {
        self.list.get(i)
    }

    /// Returns the number of fields.
    pub fn len(&self) -> usize
        ensures { result ≡ length self.now }
    {
        self.list.len()
    }

    /// Returns whether there is no field.
    pub fn is_empty(&self) -> bool
        ensures { result ≡ (length self.now == 0) }
    {
        self.list.is_empty()
    }

    /// Returns the values of the fields with this key, in order.
    #[tactic(auto, unfolding(crate::specs::Fields::values_of_key))]
    pub fn values_of(&self, alloc: Global, key: &[u8]) -> Result<Texts, AllocError>
        ensures { IfOk result (λ values. values ≡ values_of_key key.now self.now) }
    {
        let mut values = Texts::new(alloc);
        for field in self.list.as_slice() {
            if field.key.as_bytes() == key {
                values.push(Blob::from_slice(alloc, field.value.as_bytes())?)?;
            }
        }
        Ok(values)
    }
}

/// Returns the fields of a `.modinfo` section's bytes: its pieces between NULs that aren't empty,
/// in order. The last piece needs no NUL. The list has room for these fields and no more, since a
/// section may have a field for each two of its bytes.
pub fn fields(alloc: Global, bytes: &[u8]) -> Result<FieldList, AllocError>
    ensures { IfOk result (λ list. list ≡ fields_of bytes.now) }
{
    let mut list = Vec::with_capacity(alloc, piece_count(bytes))?;
    let mut rest = bytes;
    while !rest.is_empty() {
        let (piece, after) = split_at_byte(rest, 0);
        if !piece.is_empty() {
            list.push(read_field(alloc, piece)?)?;
        }
        rest = after;
    }
    Ok(FieldList {
        list: List::from_vec(list),
    })
}

/// Returns the value of a piece of a `.modinfo` section between NULs, if it is a field with this
/// key. It is a part of the piece.
#[tactic(auto, unfolding(crate::specs::Fields::values_of_key, crate::specs::Fields::field_of))]
pub fn value_of<'a>(piece: &'a [u8], key: &[u8]) -> Option<&'a [u8]>
    ensures { option_to_list (option_copied result)
        ≡ values_of_key key.now (map field_of (filter is_text (piece.now ∷ []))) }
{
    if piece.is_empty() {
        return None;
    }
    if !piece.starts_with(key) {
        return None;
    }
    let (name, value) = split_at_byte(piece, b'=');
    if name == key { Some(value) } else { None }
}

/// Returns the values of the fields with this key in a `.modinfo` section's bytes, in order. They
/// are the same as from [`FieldList::values_of`], without the list of all fields.
pub fn field_values(alloc: Global, bytes: &[u8], key: &[u8]) -> Result<Texts, AllocError>
    ensures { IfOk result (λ values. values ≡ values_of_key key.now (fields_of bytes.now)) }
{
    let mut values = Texts::new(alloc);
    let mut rest = bytes;
    while !rest.is_empty() {
        let (piece, after) = split_at_byte(rest, 0);
        if let Some(value) = value_of(piece, key) {
            values.push(Blob::from_slice(alloc, value)?)?;
        }
        rest = after;
    }
    Ok(values)
}

/// Returns the number of pieces between NULs that aren't empty.
fn piece_count(bytes: &[u8]) -> usize {
    let mut count = 0;
    let mut after_nul = true;
    for byte in bytes {
        if after_nul && *byte != 0 {
            count += 1;
        }
        after_nul = *byte == 0;
    }
    count
}
