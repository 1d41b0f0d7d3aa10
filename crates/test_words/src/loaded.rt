// The names of loaded modules.
use crate::same::{same, same_length};
use loaded_list::Loaded;

/// Lines of loaded modules, and blank ones.
static LINES: &[u8] = b"b 4096 0 - Live 0x0\n\n \t\r\n\ta\t8192 1 b, Live 0x0\r\nlast";

/// The names of these modules.
static NAMES: [&[u8]; 3] = [b"b", b"a", b"last"];

#[test]
fn names_in_the_order_of_their_lines(rt: HostRuntime) {
    let loaded = Loaded::read(rt.alloc(), LINES).expect(&rt, "loaded modules");
    same_length(&rt, loaded.len(), NAMES.len());
    for (name, want) in loaded.as_slice().iter().zip(&NAMES) {
        same(&rt, name.as_bytes(), want);
    }
}
