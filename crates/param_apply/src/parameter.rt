// The parameters of a module.

ghost use Rattle.std.specs.Prelude.{◌≡◌, ◌+◌, ◌-◌, ◌*◌, ◌<◌, ◌≤◌, ◌^◌, ◌⊎◌, ℕ, List, [], ◌∷◌, ◌++◌};
ghost use Rattle.std.specs.Prelude.{Option, None, Some, length, map, slice_get, option_and_then};
ghost use Rattle.std.specs.Prelude.{IfErr, IfNone, IfOk, IfSome, OnOk};
ghost use Rattle.name_table.specs.NameTable.{IsTableOf, place_of};
ghost use Rattle.km_names.specs.Limit.{file_limit};
ghost use Rattle.km_names.specs.Path.{underscored};
ghost use Rattle.module_symbols.specs.Contents.{modinfo_bytes};
ghost use Rattle.param_apply.specs.declared.fault.ParamFault.TheVariants.{Memory};
ghost use Rattle.param_apply.specs.Kinds.{kind_of};
ghost use Rattle.param_apply.specs.Table.{entry_count, entry_fault, table_fault, table_of};
ghost use Rattle.modinfo_fields.specs.Fields.{parameter_of, description_of};
ghost use Rattle.param_apply.specs.Words.{kind_named, parameters, type_texts};

use crate::ParamFault;
use crate::kind::{ParamType, kind_of};
use crate::table::{ENTRY_SIZE, ParamTable, check_table, entry_at, name_place, short_string};
use elf_object::Object;
use km_names::{Blob, Texts, split_at_byte, underscored};
use modinfo_fields::field_values;
use name_table::OwnedNameTable;
use std::alloc::{AllocError, Global};
use std::marker::Model;

/// A parameter: its name, the place of its value in the image, and its type, if known. Contracts
/// see the name as its bytes.
#[derive(Drop)]
pub(crate) struct ParamRef<'a> {
    pub(crate) name: &'a [u8],
    pub(crate) at: u64,
    pub(crate) kind: Option<ParamType>,
}

impl<'a> Model for ParamRef<'a> {
    ghost use Rattle.param_apply.specs.Words.{Parameter};

    ghost Value = { Parameter };

    ghost view = { λ p. record { name = p.name.now; at = p.at; kind = p.kind } };
}

/// The parameters of a module: their table in an image at a base, and their types. Each is read
/// from there when it is asked for, since the names of a table may share their bytes.
#[derive(Drop)]
pub(crate) struct Parameters<'a> {
    pub(crate) image: &'a [u8],
    pub(crate) base: u64,
    pub(crate) table: ParamTable,
    pub(crate) types: Types,
    ghost within: { table.at + table.size ≤ length image.now },
    ghost short: { table.size ≤ file_limit },
    ghost named: { (k : ℕ) → k < entry_count table → entry_fault image.now base table k ≡ None },
}

impl<'a> Parameters<'a> {
    ghost use Rattle.param_apply.specs.Naming.{parameters_of};

    /// Returns the parameters of an object, by its table in an image at a base.
    ///
    /// # Errors
    ///
    /// `BadParamTable` if the table can't be read, or `Memory`.
    pub(crate) fn in_image(
        alloc: Global,
        object: &Object,
        table: ParamTable,
        base: u64,
        image: &'a [u8],
    ) -> Result<Parameters<'a>, ParamFault>
        requires table { table ≡ table_of object.now }
        requires within { table.at + table.size ≤ length image.now }
        requires short { table.size ≤ file_limit }
        ensures params { IfOk result (λ p. parameters_of p ≡ parameters object.now base image.now) }
        ensures passed { OnOk result (table_fault image.now base table ≡ None) }
        ensures fault { IfErr result
            (λ e. (e ≡ Memory) ⊎ (table_fault image.now base table ≡ Some e)) }
    {
        check_table(image, base, table)?;
        let types = Types::new(alloc, object)?;
        Ok(Parameters {
            image,
            base,
            table,
            types,
        })
    }

    /// Returns the number of parameters.
    pub(crate) fn count(&self) -> usize
        ensures count { result ≡ length (parameters_of self.now) }
        ensures few { result < 2 ^ 31 }
    {
        self.table.size as usize / ENTRY_SIZE
    }

    /// Returns the parameter of a number.
    pub(crate) fn get(&self, alloc: Global, number: u32) -> Result<ParamRef<'a>, AllocError>
        requires { number < length (parameters_of self.now) }
        ensures { IfOk result (λ p. slice_get (parameters_of self.now) number ≡ Some p) }
    {
        let entry = entry_at(self.image, self.base, self.table, number as usize);
        let kind = self.types.kind_named(alloc, entry.name)?;
        Ok(ParamRef {
            name: entry.name,
            at: entry.at,
            kind,
        })
    }

    /// Returns the name of the parameter `k`, unless it has more than `longest` bytes. At most one
    /// byte past those is read.
    pub(crate) fn short_name(&self, k: usize, longest: usize) -> Option<&'a [u8]>
        requires { k < length (parameters_of self.now) }
        ensures name { IfSome result
            (λ name. IfSome (slice_get (parameters_of self.now) k) (λ p. p.name ≡ name.now)) }
        ensures longer { IfNone result
            (IfSome (slice_get (parameters_of self.now) k) (λ p. longest < length p.name)) }
    {
        let place = name_place(self.image, self.base, self.table, k);
        short_string(self.image, place, longest)
    }
}

/// The texts that state the types of parameters, with a table of the names in them.
#[derive(Drop)]
pub(crate) struct Types {
    pub(crate) texts: Texts,
    names: OwnedNameTable,
    ghost named: { IsTableOf names (map (λ text. Some (underscored (parameter_of text))) texts) },
}

impl Types {
    /// Returns the types of an object's parameters.
    fn new(alloc: Global, object: &Object) -> Result<Types, AllocError>
        ensures { IfOk result (λ t. t.texts ≡ type_texts object.now) }
    {
        let texts = field_values(alloc, texts_section(object), b"parmtype")?;
        let names = text_names(alloc, texts.as_slice())?;
        Ok(Types { texts, names })
    }

    /// Returns the type in the text at a place, if there is a text and its type is known.
    fn kind_at(&self, place: Option<u32>) -> Option<ParamType>
        ensures { result
            ≡ option_and_then (λ text. kind_of (description_of text))
            (option_and_then (slice_get self.now.texts) place) }
    {
        let place = place?;
        let text = self.texts.get(place as usize)?;
        let (_, kind) = split_at_byte(text.as_bytes(), b':');
        kind_of(kind)
    }

    /// Returns the type of the parameter of a name.
    fn kind_named(&self, alloc: Global, name: &[u8]) -> Result<Option<ParamType>, AllocError>
        ensures { IfOk result (λ kind. kind ≡ kind_named self.now.texts name.now) }
    {
        let place = place_named(alloc, &self.names, name)?;
        Ok(self.kind_at(place))
    }
}

/// Returns the place that a table has for a name, with each `-` replaced by `_`.
pub(crate) fn place_named(
    alloc: Global,
    table: &OwnedNameTable,
    name: &[u8],
) -> Result<Option<u32>, AllocError>
    ensures { IfOk result (λ place. place ≡ place_of table.now (underscored name.now)) }
{
    let name = underscored(alloc, name)?;
    Ok(table.place(name.as_bytes()))
}

/// Returns the bytes of the section `.modinfo`.
#[tactic(auto, unfolding(module_symbols::specs::Contents::modinfo_bytes, module_symbols::specs::Contents::named_bytes, module_symbols::specs::Contents::named_section))]
fn texts_section(object: &Object) -> &[u8]
    ensures { result.now ≡ modinfo_bytes object.now }
{
    match object.section_named(b".modinfo") {
        Some(i) => object.section_bytes(i),
        None => &[],
    }
}

/// Returns the table of the names in texts.
fn text_names(alloc: Global, texts: &[Blob]) -> Result<OwnedNameTable, AllocError>
    ensures { IfOk result
        (λ t. IsTableOf t (map (λ text. Some (underscored (parameter_of text))) texts.now)) }
{
    // No file has so many texts.
    if u32::MAX as usize <= texts.len() {
        return Err(AllocError);
    }
    let mut names = OwnedNameTable::new(alloc);
    for text in texts {
        let (name, _) = split_at_byte(text.as_bytes(), b':');
        push_name(alloc, &mut names, name)?;
    }
    Ok(names)
}

/// Adds a name to a table, with each `-` replaced by `_`.
pub(crate) fn push_name(
    alloc: Global,
    names: &mut OwnedNameTable,
    name: &[u8],
) -> Result<(), AllocError>
    requires { names.old.count < 2 ^ 32 - 1 }
    ensures table { OnOk result ((items : List (Option (List ℕ))) → IsTableOf names.old items
        → IsTableOf names.new (items ++ Some (underscored name.now) ∷ [])) }
    ensures count { OnOk result (names.new.count ≡ names.old.count + 1) }
{
    let name = underscored(alloc, name)?;
    names.push(alloc, Some(name.as_bytes()))
}
