// What no clause says: with ample memory files are adopted and read, and the faults have their
// texts.
ghost use Rattle.std.specs.Prelude.{◌≡◌, ◌<◌};

use index_nodes::{IndexFault, Node, Nodes, Steps};
use std::alloc::Global;
use std::marker::Brand;
use std::process::Abort;
use std::sync::ledger::{Blank, Ledger};
use test_objects::bytes_of;

const FIVE_KEYS: &str = "b007f457 00020001 2000005e \
     6b00 00000001 00000000 7800 \
     6500 00000001 00000001 7800 \
     73 74 c000000c c0000018 \
     6500 00000001 00000003 7800 \
     00000001 00000004 7800 \
     6e00 63 65 c000002e 00000000 4000003a 00000001 00000002 7800 \
     61 6f 20000024 00000000 00000000 00000000 00000000 00000000 00000000 00000000 \
     00000000 00000000 00000000 00000000 00000000 00000000 e0000044";

/// Files in digits, and why they aren't adopted, if they aren't.
static FILES: [(&str, Option<IndexFault>); 13] = [
    (FIVE_KEYS, None),
    ("b007f457 00020001 0000000c", None),
    ("b007f457 00020001 1000000c", None),
    ("b007f4", Some(IndexFault::BadMagic)),
    ("b007f457 00020000 0000000c", Some(IndexFault::BadVersion)),
    (
        "b007f457 00020001 000000",
        Some(IndexFault::BadNode { offset: 8 }),
    ),
    (
        "b007f457 00020001 2000000c 61 61 40000012 00000001 00000000 7800",
        Some(IndexFault::BadNode { offset: 18 }),
    ),
    (
        "b007f457 00020001 20000016 00000001 00000000 7800 61 62 4000000c 4000000c",
        Some(IndexFault::Revisited { offset: 12 }),
    ),
    (
        "b007f457 00020001 4000000c 00000001 00000000 78",
        Some(IndexFault::BadNode { offset: 12 }),
    ),
    (
        "b007f457 00020001 20000012 6161 2000000a 6162 2000000c 2000000b",
        Some(IndexFault::BadNode { offset: 10 }),
    ),
    (
        "b007f457 00020001 2000001d 6b6b6b6b6b6b6b6b6b6b6b6b6b6b6b6b00 \
         61 64 8000000c 8000000d 8000000e 8000000f",
        None,
    ),
    (
        "b007f457 00020001 2000001a 00000003 0000000000 0000000000 61 62 4000000c 40000010",
        None,
    ),
    (
        "b007f457 00020001 2000001a 00000004 0000000000 0000000000 61 62 4000000c 40000010",
        Some(IndexFault::BadNode { offset: 12 }),
    ),
];

/// Faults and their texts.
static TEXTS: [(IndexFault, &str); 5] = [
    (IndexFault::BadMagic, "bad index magic"),
    (IndexFault::BadVersion, "bad index version"),
    (IndexFault::BadNode { offset: 18 }, "bad index node at 18"),
    (
        IndexFault::Revisited { offset: 12 },
        "index node twice at 12",
    ),
    (IndexFault::Memory, "out of memory"),
];

/// Adopts a file in digits.
fn adopt(rt: &impl Abort, alloc: Global, digits: &str) -> Result<Nodes, IndexFault> {
    Nodes::adopt(alloc, bytes_of(alloc, digits).expect(rt, "digits"))
}

/// Returns why a file in digits isn't adopted, if it isn't.
fn fault_of(rt: &impl Abort, alloc: Global, digits: &str) -> Option<IndexFault> {
    adopt(rt, alloc, digits).err()
}

fn same(rt: &impl Abort, got: &[u8], want: &[u8]) {
    assert_eq!(rt; got, want);
}

/// Walks from the root to the node of "once" and reads it.
fn read_once<L: Ledger>(rt: &impl Abort, nodes: &Nodes, blank: Blank)
    requires name { blank.name ≡ L.name }
    requires parts { blank.parts ≡ L.parts }
    requires some { 0 < blank.parts }
{
    let mut steps = Steps::<L>::new(blank);
    let root: Node = nodes.node(&nodes.root(), &mut steps);
    same(rt, nodes.prefix(&root), b"");
    assert!(rt; nodes.first_value(&root).is_none());
    assert!(rt; nodes.child(&root, b'b').is_none());
    let (byte, _) = nodes.next_child(&root, b'b').expect(rt, "a child after b");
    assert!(rt; byte == b'o');

    let under_o = nodes.child(&root, b'o').expect(rt, "a child for o");
    let on = nodes.node(&under_o, &mut steps);
    same(rt, nodes.prefix(&on), b"n");
    assert!(rt; nodes.next_child(&on, b'f').is_none());

    let under_c = nodes.child(&on, b'c').expect(rt, "a child for c");
    let once = nodes.node(&under_c, &mut steps);
    same(rt, nodes.prefix(&once), b"e");
    let place = nodes.first_value(&once).expect(rt, "a value");
    assert!(rt; place.priority() == 3);
    same(rt, nodes.text(&place), b"x");
    assert!(rt; nodes.next_value(&place).is_none());
}

fn same_fault(rt: &impl Abort, digits: &str, got: Option<IndexFault>, want: Option<IndexFault>) {
    assert_eq!(rt; got, want, "{digits}");
}

/// Compares the text of a fault.
fn expect_text(rt: &impl Abort, alloc: Global, fault: IndexFault, want: &str) {
    let text = fault.text(alloc).expect(rt, "a text");
    same(rt, text.as_bytes(), want.as_bytes());
}

#[test]
fn nodes_are_read(rt: HostRuntime) {
    let alloc = rt.alloc();
    for (digits, want) in &FILES {
        same_fault(&rt, digits, fault_of(&rt, alloc, digits), *want);
    }
    for (fault, want) in &TEXTS {
        expect_text(&rt, alloc, *fault, want);
    }
    let nodes = adopt(&rt, alloc, FIVE_KEYS).expect(&rt, "an index");
    read_once::<Brand>(&rt, &nodes, Blank::new(1));
}
