//! The fields of built-in modules, and the map of their aliases.

use crate::same::{holds, same, shown};
use builtin_index::{builtin_aliases, builtin_fields};
use index_write::encode;
use std::alloc::Global;
use std::process::Abort;

/// A modules.builtin.modinfo of one module with an alias and a license.
static TTY: &[u8] = b"tty.alias=tty-*\0tty.license=GPL\0";

/// The index of that alias.
static TTY_INDEX: &[u8] =
    b"\xb0\x07\xf4\x57\0\x02\0\x01\x20\0\0\x1dty_*\0\0\0\0\x01\0\0\0\0tty\0tt\xc0\0\0\x0c";

/// Its fields.
static FIELDS: &str =
    "Ok(List { elements: [BuiltinField { module: \"tty\", key: \"alias\", value: \"tty-*\" }, \
        BuiltinField { module: \"tty\", key: \"license\", value: \"GPL\" }] })";

fn fields_are_read(rt: &impl Abort, alloc: Global) {
    shown(rt, alloc, builtin_fields(alloc, TTY), FIELDS);
}

fn aliases_are_indexed(rt: &impl Abort, alloc: Global) {
    holds(rt, TTY.len() <= 67_108_864);
    let map = builtin_aliases(alloc, TTY).expect(rt, "a map");
    let index = encode(alloc, &map).expect(rt, "an index");
    same(rt, index.as_bytes(), TTY_INDEX);
}

#[test]
fn built_in_modules_are_called(rt: HostRuntime) {
    fields_are_read(&rt, rt.alloc());
    aliases_are_indexed(&rt, rt.alloc());
}
