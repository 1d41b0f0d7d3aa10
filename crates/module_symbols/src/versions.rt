// The versions that a module states of its needs, as its sections have them.

ghost use Rattle.std.specs.Prelude.{◌≡◌, ◌+◌, ◌*◌, ◌/◌, ◌<◌, ◌≤◌, ◌==◌, length, map, drop, IfOk};
ghost use Rattle.std.specs.Prelude.{IfSome, option_copied, option_map};
ghost use Rattle.std.specs.List.{count_by};
ghost use Rattle.km_names.specs.Limit.{file_limit};
ghost use Rattle.module_symbols.specs.Listed.{version_entry};
ghost use Rattle.module_symbols.specs.Versions.{are_bad_entries, entry_list, entry_name};
ghost use Rattle.module_symbols.specs.Versions.{extended_bytes, extended_list, is_bad_extended};
ghost use Rattle.module_symbols.specs.Versions.{is_bad_list, version_list};

use crate::contents::named_bytes;
use elf_object::ObjectView;
use km_names::{List, first_string, le_u32_at, le_u64_at};
use std::alloc::{AllocError, Global};

/// The size of an entry of the section `__versions` in bytes. The kernel's struct modversion_info,
/// include/linux/module.h.
const ENTRY: usize = 64;

/// The size of a number of the section `__version_ext_crcs` in bytes.
const NUMBER: usize = 4;

/// A version that a module states of a symbol.
#[derive(Clone, Copy)]
pub(crate) struct Version<'a> {
    pub(crate) name: &'a [u8],
    pub(crate) number: u64,
}

/// The versions in the order of the file.
pub(crate) type Versions<'a> = List<Version<'a>>;

/// Returns the version list of a module.
#[tactic(auto, unfolding(crate::specs::Versions::version_list))]
pub(crate) fn version_list<'a>(
    alloc: Global,
    object: &ObjectView<'a>,
) -> Result<Versions<'a>, AllocError>
    ensures list { IfOk result (λ list. map version_entry list ≡ version_list object.now) }
    ensures few { IfOk result (λ list. length list ≤ file_limit) }
{
    match extended_sections(object) {
        Some(sections) => extended_list(alloc, sections.crcs, sections.names),
        None => match named_bytes(object, b"__versions") {
            Some(bytes) => entry_list(alloc, bytes),
            None => Ok(Versions::new(alloc)),
        },
    }
}

/// Returns whether the sections with the version list are invalid: the last entry or number isn't
/// whole, a name has no NUL, or there are more numbers than names. The kernel's
/// kernel/module/version.c.
#[tactic(auto, unfolding(crate::specs::Versions::is_bad_list))]
pub fn is_bad_list(object: &ObjectView) -> bool
    ensures { result ≡ is_bad_list object.now }
{
    match extended_sections(object) {
        Some(sections) => is_bad_extended(sections.crcs, sections.names),
        None => match named_bytes(object, b"__versions") {
            Some(bytes) => are_bad_entries(bytes),
            None => false,
        },
    }
}

/// Returns the sections of extended versions, if both are in the file.
#[tactic(auto, unfolding(crate::specs::Versions::extended_bytes))]
fn extended_sections<'a>(object: &ObjectView<'a>) -> Option<Extended<'a>>
    ensures bytes { option_map (λ x. (x.crcs.now, x.names.now)) result ≡ extended_bytes object.now }
    ensures short { IfSome result (λ x. length x.crcs.now ≤ file_limit) }
{
    let crcs = named_bytes(object, b"__version_ext_crcs")?;
    let names = named_bytes(object, b"__version_ext_names")?;
    Some(Extended { crcs, names })
}

/// Returns the version list that `__version_ext_crcs` and `__version_ext_names` state together.
fn extended_list<'a>(
    alloc: Global,
    crcs: &[u8],
    names: &'a [u8],
) -> Result<Versions<'a>, AllocError>
    requires { length crcs.now ≤ file_limit }
    ensures list { IfOk result (λ list. map version_entry list ≡ extended_list crcs.now names.now) }
    ensures few { IfOk result (λ list. length list ≤ file_limit) }
{
    let mut list = Versions::new(alloc);
    let mut rest = names;
    for k in 0..(crcs.len() / NUMBER) as u32 {
        let Some(name) = first_string(rest) else {
            return Ok(list);
        };
        let number = u64::from(le_u32_at(crcs, NUMBER * k as usize));
        list.push(Version { name, number })?;
        rest = after_name(rest, name);
    }
    Ok(list)
}

/// Returns the version list that the entries of `__versions` state.
#[tactic(auto, unfolding(crate::specs::Versions::entry_list))]
fn entry_list<'a>(alloc: Global, bytes: &'a [u8]) -> Result<Versions<'a>, AllocError>
    requires { length bytes.now ≤ file_limit }
    ensures list { IfOk result (λ list. map version_entry list ≡ entry_list bytes.now) }
    ensures few { IfOk result (λ list. length list ≤ file_limit) }
{
    let count = bytes.len() / ENTRY;
    let mut list = Versions::from_vec(Vec::with_capacity(alloc, count)?);
    for k in 0..count as u32 {
        if let Some(name) = entry_name(bytes, k) {
            let number = le_u64_at(bytes, ENTRY * k as usize);
            list.push(Version { name, number })?;
        }
    }
    Ok(list)
}

/// Returns whether extended versions are invalid: the last number isn't whole, or there are more
/// numbers than NULs.
#[tactic(auto, unfolding(crate::specs::Versions::is_bad_extended))]
fn is_bad_extended(crcs: &[u8], names: &[u8]) -> bool
    ensures { result ≡ is_bad_extended crcs.now names.now }
{
    crcs.len() % NUMBER != 0 || nul_count(names) < crcs.len() / NUMBER
}

/// Returns whether the entries of `__versions` are invalid: the last isn't whole, or a name has no
/// NUL.
#[tactic(auto, unfolding(crate::specs::Versions::are_bad_entries))]
fn are_bad_entries(bytes: &[u8]) -> bool
    requires { length bytes.now ≤ file_limit }
    ensures { result ≡ are_bad_entries bytes.now }
{
    if bytes.len() % ENTRY != 0 {
        return true;
    }
    for k in 0..(bytes.len() / ENTRY) as u32 {
        if entry_name(bytes, k).is_none() {
            return true;
        }
    }
    false
}

/// The two sections of extended versions.
#[derive(Clone, Copy)]
struct Extended<'a> {
    crcs: &'a [u8],
    names: &'a [u8],
}

/// Returns the bytes after a name and its NUL.
fn after_name<'a>(bytes: &'a [u8], name: &[u8]) -> &'a [u8]
    requires { length name.now < length bytes.now }
    ensures { result.now ≡ drop (length name.now + 1) bytes.now }
{
    &bytes[name.len() + 1..]
}

/// Returns the name of the entry `k`: the bytes before the NUL in its last 56 bytes.
fn entry_name(bytes: &[u8], k: u32) -> Option<&[u8]>
    requires { 64 * k + 64 ≤ length bytes.now }
    ensures { option_copied result ≡ entry_name bytes.now k }
{
    let start = ENTRY * k as usize + 8;
    first_string(&bytes[start..start + 56])
}

/// Returns the number of NULs.
fn nul_count(bytes: &[u8]) -> usize
    ensures { result ≡ count_by (λ b. b == 0) bytes.now }
{
    bytes.iter().filter(|b| **b == 0).count()
}
