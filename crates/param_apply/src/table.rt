// The table of a module's parameters, in its image.

ghost use Rattle.std.specs.Prelude.{◌≡◌, ℕ, ◌+◌, ◌*◌, ◌<◌, ◌≤◌, ◌^◌, length, None, Some, is_none};
ghost use Rattle.std.specs.Prelude.{nat_le, IfErr, IfNone, IfSome, OnOk, slice_get};
ghost use Rattle.image_layout.specs.Offsets.{image_size, offset};
ghost use Rattle.km_names.specs.Limit.{file_limit};
ghost use Rattle.km_names.specs.Strings.{string_at};
ghost use Rattle.param_apply.specs.Table.{entry as entry_spec, entry_count, entry_fault, place_of};
ghost use Rattle.param_apply.specs.Table.{table_at, table_fault, table_of};

use crate::ParamFault;
use elf_object::Object;
use image_layout::section_at;
use km_names::{first_string, le_u64_at, string_at};
use memchr::memrchr;
use std::marker::Model;

/// The size of an entry in bytes.
pub(crate) const ENTRY_SIZE: usize = 40;

/// The place of the address of the value in an entry. The address of the name is at its beginning.
const VALUE_FIELD: usize = 32;

/// The table of parameters: its place in the image, and its size in bytes.
#[derive(Clone, Copy)]
pub(crate) struct ParamTable {
    pub(crate) at: u64,
    pub(crate) size: u64,
}

/// Returns the table of an object's parameters, which is empty if it has none.
#[tactic(auto, unfolding(crate::specs::Table::table_of))]
pub(crate) fn table_of(object: &Object) -> ParamTable
    requires { image_size object.now.sections < 2 ^ 63 }
    ensures table { result ≡ table_of object.now }
    ensures within { result.at + result.size ≤ image_size object.now.sections }
    ensures short { result.size ≤ file_limit }
{
    match object.section_named(b"__param") {
        Some(i) => table_at(object, i),
        None => ParamTable { at: 0, size: 0 },
    }
}

/// An entry of the table: the name of a parameter, and the place of its value in the image.
/// Contracts see the name as its bytes.
#[derive(Drop)]
pub(crate) struct EntryRef<'a> {
    pub(crate) name: &'a [u8],
    pub(crate) at: u64,
}

impl<'a> Model for EntryRef<'a> {
    ghost use Rattle.param_apply.specs.Table.{Entry};

    ghost Value = { Entry };

    ghost view = { λ e. record { name = e.name.now; at = e.at } };
}

/// Tests a table in an image at a base. Names may share their bytes, so none is read.
///
/// # Errors
///
/// `BadParamTable` at the first entry whose name isn't in the image, or at the last one if it isn't
/// whole.
pub(crate) fn check_table(image: &[u8], base: u64, table: ParamTable) -> Result<(), ParamFault>
    requires within { table.at + table.size ≤ length image.now }
    requires short { table.size ≤ file_limit }
    ensures passed { OnOk result (table_fault image.now base table ≡ None) }
    ensures named { OnOk result
        ((k : ℕ) → k < entry_count table → entry_fault image.now base table k ≡ None) }
    ensures fault { IfErr result (λ e. table_fault image.now base table ≡ Some e) }
{
    let strings = strings_size(image) as u64;
    let size = table.size as usize;
    let count = size / ENTRY_SIZE;
    for k in 0..count {
        if strings <= name_place(image, base, table, k) {
            return Err(ParamFault::BadParamTable { entry: k as u32 });
        }
    }
    if size % ENTRY_SIZE != 0 {
        return Err(ParamFault::BadParamTable {
            entry: count as u32,
        });
    }
    Ok(())
}

/// Returns the entry `k` of a table in an image at a base.
pub(crate) fn entry_at(image: &[u8], base: u64, table: ParamTable, k: usize) -> EntryRef<'_>
    requires within { table.at + table.size ≤ length image.now }
    requires entry { 40 * k + 40 ≤ table.size }
    requires short { table.size ≤ file_limit }
    ensures { result ≡ entry_spec image.now base table k }
{
    let place = name_place(image, base, table, k);
    let at = place_of(
        image,
        base,
        table.at as usize + ENTRY_SIZE * k + VALUE_FIELD,
    );
    match string_at(image, place as usize) {
        Some(name) => EntryRef { name, at },
        None => EntryRef { name: &[], at },
    }
}

/// Returns the place in an image at a base that the entry `k` of a table has for its name.
pub(crate) fn name_place(image: &[u8], base: u64, table: ParamTable, k: usize) -> u64
    requires within { table.at + table.size ≤ length image.now }
    requires entry { 40 * k + 40 ≤ table.size }
    requires short { table.size ≤ file_limit }
    ensures { result ≡ place_of image.now base (table.at + 40 * k) }
{
    place_of(image, base, table.at as usize + ENTRY_SIZE * k)
}

/// Returns the string at a place of an image, unless it has more than `longest` bytes. At most one
/// byte past those is read.
pub(crate) fn short_string(image: &[u8], at: u64, longest: usize) -> Option<&[u8]>
    ensures string { IfSome result (λ string. string_at image.now at ≡ Some string.now) }
    ensures longer { IfNone result
        (IfSome (string_at image.now at) (λ string. longest < length string)) }
{
    if image.len() as u64 <= at {
        return None;
    }
    let rest = &image[at as usize..];
    if longest < rest.len() {
        first_string(&rest[..longest + 1])
    } else {
        first_string(rest)
    }
}

/// Returns the section `i` as a table, which is empty if the section isn't in memory.
fn table_at(object: &Object, i: u32) -> ParamTable
    requires section { i < length object.now.sections }
    requires fits { image_size object.now.sections < 2 ^ 63 }
    ensures table { IfSome (slice_get object.now.sections i)
        (λ s. result ≡ table_at object.now (offset object.now.sections i) s) }
    ensures within { result.at + result.size ≤ image_size object.now.sections }
    ensures short { result.size ≤ file_limit }
{
    if !object.section(i).kept {
        return ParamTable { at: 0, size: 0 };
    }
    ParamTable {
        at: section_at(object, i),
        size: object.section_bytes(i).len() as u64,
    }
}

/// Returns how many bytes of an image its strings take: those up to its last NUL.
fn strings_size(image: &[u8]) -> usize
    ensures { (at : ℕ) → is_none (string_at image.now at) ≡ nat_le result at }
{
    match memrchr(0, image) {
        Some(last) => last + 1,
        None => 0,
    }
}

/// Returns the place in an image at a base whose address is in the word at `at`.
#[tactic(auto, unfolding(crate::specs::Table::place_of))]
fn place_of(image: &[u8], base: u64, at: usize) -> u64
    requires { at + 8 ≤ length image.now }
    ensures { result ≡ place_of image.now base at }
{
    le_u64_at(image, at).wrapping_sub(base)
}
