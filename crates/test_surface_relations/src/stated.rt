//! What modules state for others to find them by: its texts, and the maps of its indexes.
ghost use Rattle.std.specs.Prelude.{IfOk};
ghost use Rattle.provider_rel.specs.Tree.{IsTree};
ghost use Rattle.stated_texts.specs.AllStated.{AreAllStated};

use crate::relation::{B, ModuleRow, tree_of_two};
use crate::same::{holds, shown};
use index_write::{KeyMap, encode};
use provider_rel::TreeFacts;
use stated_texts::{AllStated, StatedKind, Text, put_stated_text, stated_map};
use std::alloc::{AllocError, Global};
use std::process::Abort;

fn texts_are_kept(rt: &impl Abort, alloc: Global) {
    let mut text = Text::with_capacity(alloc, 2).expect(rt, "a text");
    text.put(b"ab").expect(rt, "room");
    text.put_all(&[b"c", b"", b"de"]).expect(rt, "room");
    holds(rt, text.length() == 5);
    shown(rt, alloc, text.into_bytes(alloc), r#""abcde""#);
}

fn texts_are_measured(rt: &impl Abort) {
    let mut text = Text::measured();
    text.put(b"ab").expect(rt, "room");
    text.put_all(&[b"c", b"", b"de"]).expect(rt, "room");
    holds(rt, text.length() == 5);
}

/// `a`, which exports `fa`. One of its aliases has no normal form, and two texts of its soft
/// dependencies can't be used: one has only a space, and one would continue the line.
const A: ModuleRow = ModuleRow {
    path: b"kernel/a.ko",
    name: b"a",
    export: b"fa",
    need: b"printk",
    aliases: &[b"usb:v*", b"bad[x", b"pci-x"],
    softdeps: &[b" ", b"pre: b", b"post: c \\"],
};

/// `b`, which has an alias of `a`.
const ALIASED_B: ModuleRow = ModuleRow {
    aliases: &[b"usb:v*"],
    ..B
};

/// Collects what the modules of a tree state.
fn all_of(alloc: Global, tree: &TreeFacts) -> Result<AllStated<'_>, AllocError>
    ensures { IfOk result (λ all. AreAllStated tree.now all) }
{
    AllStated::new(alloc, tree)
}

/// Puts the text of a kind.
fn put(
    text: &mut Text,
    kind: StatedKind,
    tree: &TreeFacts,
    all: &AllStated<'_>,
) -> Result<(), AllocError>
    requires { AreAllStated tree.now all.now }
{
    put_stated_text(text, kind, tree, all)
}

/// Stops unless this is the text of a kind, of this length.
fn expect_text(
    rt: &impl Abort,
    alloc: Global,
    kind: StatedKind,
    tree: &TreeFacts,
    all: &AllStated<'_>,
    want: &str,
)
    requires { AreAllStated tree.now all.now }
{
    let mut measured = Text::measured();
    put(&mut measured, kind, tree, all).expect(rt, "a length");
    holds(rt, measured.length() == want.len() as u64);
    let mut text = Text::with_capacity(alloc, want.len()).expect(rt, "a text");
    put(&mut text, kind, tree, all).expect(rt, "a text");
    holds(rt, text.into_bytes(alloc).as_bytes() == want.as_bytes());
}

/// Makes the map of a kind.
fn map_of(
    alloc: Global,
    kind: StatedKind,
    tree: &TreeFacts,
    all: &AllStated<'_>,
) -> Result<KeyMap, AllocError>
    requires tree { IsTree tree.now }
    requires all { AreAllStated tree.now all.now }
{
    stated_map(alloc, kind, tree, all)
}

/// Stops unless this is the index of a kind.
fn expect_index(
    rt: &impl Abort,
    alloc: Global,
    kind: StatedKind,
    tree: &TreeFacts,
    all: &AllStated<'_>,
    want: &[u8],
)
    requires tree { IsTree tree.now }
    requires all { AreAllStated tree.now all.now }
{
    let map = map_of(alloc, kind, tree, all).expect(rt, "a map");
    let index = encode(alloc, &map).expect(rt, "an index");
    holds(rt, index.as_bytes() == want);
}

/// The text of the aliases, as the modules state them.
static ALIASES: &str =
    "# Aliases extracted from modules themselves.\nalias usb:v* a\nalias pci-x a\nalias usb:v* b\n";

/// Their index, by their normal forms: `pci_x`, and `usb:v*` with two values.
static ALIAS_INDEX: &[u8] = b"\xb0\x07\xf4\x57\0\x02\0\x01\x20\0\0\x31\
    ci_x\0\0\0\0\x01\0\0\0\0a\0\
    sb:v*\0\0\0\0\x02\0\0\0\0a\0\0\0\0\x01b\0\
    pu\xc0\0\0\x0c\0\0\0\0\0\0\0\0\0\0\0\0\0\0\0\0\xc0\0\0\x1b";

/// The text of the soft dependencies.
static SOFTDEPS: &str =
    "# Soft dependencies extracted from modules themselves.\nsoftdep a pre: b\n";

/// The index of nothing.
static NO_INDEX: &[u8] = b"\xb0\x07\xf4\x57\0\x02\0\x01\0\0\0\x0c";

/// The text of the symbols.
static SYMBOLS: &str =
    "# Aliases for symbols, used by symbol_request().\nalias symbol:fa a\nalias symbol:fb b\n";

/// Their index.
static SYMBOL_INDEX: &[u8] = b"\xb0\x07\xf4\x57\0\x02\0\x01\x20\0\0\x32\
    \0\0\0\x01\0\0\0\0a\0\
    \0\0\0\x01\0\0\0\x01b\0\
    ymbol:f\0ab\x40\0\0\x0c\x40\0\0\x16\
    ss\xa0\0\0\x20";

fn modules_state_texts(rt: &impl Abort, alloc: Global) {
    let tree = tree_of_two(rt, alloc, A, ALIASED_B);
    let all = all_of(alloc, &tree).expect(rt, "what is stated");
    expect_text(rt, alloc, StatedKind::Alias, &tree, &all, ALIASES);
    expect_text(rt, alloc, StatedKind::Softdep, &tree, &all, SOFTDEPS);
    expect_text(rt, alloc, StatedKind::Symbol, &tree, &all, SYMBOLS);
    drop(all);
    drop(tree);
}

fn modules_state_keys(rt: &impl Abort, alloc: Global) {
    let tree = tree_of_two(rt, alloc, A, ALIASED_B);
    let all = all_of(alloc, &tree).expect(rt, "what is stated");
    expect_index(rt, alloc, StatedKind::Alias, &tree, &all, ALIAS_INDEX);
    expect_index(rt, alloc, StatedKind::Softdep, &tree, &all, NO_INDEX);
    expect_index(rt, alloc, StatedKind::Symbol, &tree, &all, SYMBOL_INDEX);
    drop(all);
    drop(tree);
}

#[test]
fn stated_texts_are_called(rt: HostRuntime) {
    texts_are_kept(&rt, rt.alloc());
    texts_are_measured(&rt);
    modules_state_texts(&rt, rt.alloc());
    modules_state_keys(&rt, rt.alloc());
}
