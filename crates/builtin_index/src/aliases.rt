// The aliases of the modules that are built into the kernel.
ghost use Rattle.std.specs.Prelude.{◌≡◌, ◌≤◌, ◌&&◌, IfOk, OnOk, IsTrue, All, length, map, codes};
ghost use Rattle.std.specs.List.{filter_map};
ghost use Rattle.std.specs.Option.{option_to_list};
ghost use Rattle.std.specs.Str.{bytes_eq};
ghost use Rattle.km_names.specs.Ascii.{is_graphic};
ghost use Rattle.km_names.specs.Limit.{file_limit};
ghost use Rattle.builtin_index.specs.Fields.{fields_of};
ghost use Rattle.index_format.specs.Listing.{with_values, map_of};
ghost use Rattle.builtin_index.specs.Aliases.{is_alias, modules_of, alias_map};
ghost use Rattle.builtin_index.specs.Parts.{field_shown, alias_shown, alias_in, value_at, IsWord};

use crate::piece::{Parts, read_parts};
use crate::seen::Seen;
use index_write::KeyMap;
use km_names::{is_graphic, normal_alias, split_at_byte, underscored};
use std::alloc::{AllocError, Global};

/// An alias, and the module that states it with its place.
#[derive(Clone, Copy)]
pub(crate) struct Stated<'a> {
    place: u32,
    module: &'a [u8],
    alias: &'a [u8],
}

/// Returns the map of modules.builtin.alias.bin, by the bytes of a modules.builtin.modinfo. An
/// alias can be used if it is a word of visible characters and has a normal form. Each such alias
/// leads by its normal form to the name of the module that states it. The priority is the place of
/// the module in the order that modules are first seen in. modprobe.d(5), "alias".
pub fn builtin_aliases(alloc: Global, bytes: &[u8]) -> Result<KeyMap, AllocError>
    requires { length bytes.now ≤ file_limit }
    ensures { IfOk result (λ made. made ≡ alias_map bytes.now) }
{
    let mut list = stated_aliases(alloc, bytes)?;
    // A value goes behind the others of its key if they don't follow its module, so no list of
    // values is moved.
    list.sort_by_key(|stated| stated.place)?;
    map_of_aliases(alloc, &list)
}

/// Reads the aliases of a file, in order.
fn stated_aliases(alloc: Global, bytes: &[u8]) -> Result<Vec<Stated<'_>>, AllocError>
    requires { length bytes.now ≤ file_limit }
    ensures aliases { IfOk result
        (λ list. map alias_shown list.items
        ≡ filter_map (alias_in (modules_of (fields_of bytes.now))) (fields_of bytes.now)) }
    ensures words { IfOk result (λ list. All IsWord list.items) }
{
    let mut seen = Seen::new(alloc);
    let mut list = Vec::new(alloc);
    let mut rest = bytes;
    while !rest.is_empty() {
        let (piece, after) = split_at_byte(rest, 0);
        if let Some(parts) = read_parts(piece) {
            let place = seen.place(alloc, parts.module)?;
            if is_alias(parts) {
                list.push(Stated {
                    place,
                    module: parts.module,
                    alias: parts.value,
                })?;
            }
        }
        rest = after;
    }
    Ok(list)
}

/// Makes the map of some aliases.
fn map_of_aliases(alloc: Global, list: &[Stated]) -> Result<KeyMap, AllocError>
    requires { All IsWord list.now }
    ensures { IfOk result (λ made. made ≡ map_of (filter_map value_at (map alias_shown list.now))) }
{
    let mut key_map = KeyMap::new(alloc);
    for stated in list {
        add_alias(alloc, &mut key_map, *stated)?;
    }
    Ok(key_map)
}

/// Returns whether a field states an alias that is a word of visible characters.
fn is_alias(parts: Parts) -> bool
    ensures { result ≡ is_alias (field_shown parts.entry) }
{
    parts.key == b"alias".as_slice() && is_graphic(parts.value)
}

/// Puts the value of an alias into the map, if the alias has a normal form.
fn add_alias(alloc: Global, key_map: &mut KeyMap, stated: Stated) -> Result<(), AllocError>
    requires { IsWord stated }
    ensures { OnOk result
        (key_map.new
        ≡ with_values key_map.old (option_to_list (value_at (alias_shown stated.entry)))) }
{
    if let Some(key) = normal_alias(alloc, stated.alias)? {
        let name = underscored(alloc, stated.module)?;
        key_map.add_owned(key.into_vec()?, stated.place, name.as_bytes())?;
    }
    Ok(())
}
