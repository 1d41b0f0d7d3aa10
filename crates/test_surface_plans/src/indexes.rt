//! Index files of two modules.

use crate::same::holds;
use index_read::Index;
use index_write::{KeyMap, encode};
use km_names::Blob;
use name_lookup::Indexes;
use std::alloc::Global;
use std::process::Abort;
use test_objects::{is_key, is_text};

/// The index of two modules, the second of which needs the first: dependency lines by names.
static TWO_MODULES: &[u8] = b"\xb0\x07\xf4\x57\0\x02\0\x01\x20\0\0\x42\
    \0\0\0\x01\0\0\0\0kernel/a.ko:\0\
    \0\0\0\x01\0\0\0\x01kernel/b.ko: kernel/a.ko\0\
    ab\x40\0\0\x0c\x40\0\0\x21";

/// Adopts an index.
fn adopt(rt: &impl Abort, alloc: Global, file: &[u8]) -> Index {
    let file = Blob::from_slice(alloc, file).expect(rt, "bytes");
    Index::adopt(alloc, file).expect(rt, "an index")
}

/// Makes the index of a key with its text.
pub fn index_of(rt: &impl Abort, alloc: Global, key: &[u8], text: &[u8]) -> Index {
    let mut map = KeyMap::new(alloc);
    holds(rt, is_key(key));
    holds(rt, is_text(text));
    map.add(key, 0, text).expect(rt, "added");
    let file = encode(alloc, &map).expect(rt, "a file");
    adopt(rt, alloc, file.as_bytes())
}

/// Makes the indexes of the modules `a` and `b` and of `built`, which is built in. `b` needs `a`,
/// which exports `fa` and has an alias.
pub fn two_indexes(rt: &impl Abort, alloc: Global) -> Indexes {
    Indexes {
        dep: adopt(rt, alloc, TWO_MODULES),
        alias: index_of(rt, alloc, b"usb:v*", b"a"),
        symbols: index_of(rt, alloc, b"symbol:fa", b"a"),
        builtin: index_of(rt, alloc, b"built", b""),
    }
}
