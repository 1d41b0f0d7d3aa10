// Tables of names.
use name_table::{NameTable, OwnedNameTable};
use std::alloc::Global;
use std::process::Abort;

/// What each of some items states.
const ITEMS: [Option<&[u8]>; 6] = [
    Some(b"printk"),
    None,
    Some(b""),
    Some(b"kfree"),
    Some(b"printk"),
    Some(b"kfre"),
];

/// Names, and where they are first stated.
const PLACES: [(&[u8], Option<u32>); 6] = [
    (b"printk", Some(0)),
    (b"", Some(2)),
    (b"kfree", Some(3)),
    (b"kfre", Some(5)),
    (b"kf", None),
    (b"printk\0", None),
];

fn borrowed(rt: &impl Abort, alloc: Global) -> NameTable<'static> {
    let mut table = NameTable::new(alloc);
    table.push(ITEMS[0]).expect(rt, "item 0");
    table.push(ITEMS[1]).expect(rt, "item 1");
    table.push(ITEMS[2]).expect(rt, "item 2");
    table.push(ITEMS[3]).expect(rt, "item 3");
    table.push(ITEMS[4]).expect(rt, "item 4");
    table.push(ITEMS[5]).expect(rt, "item 5");
    table
}

fn owned(rt: &impl Abort, alloc: Global) -> OwnedNameTable {
    let mut table = OwnedNameTable::new(alloc);
    table.push(alloc, ITEMS[0]).expect(rt, "item 0");
    table.push(alloc, ITEMS[1]).expect(rt, "item 1");
    table.push(alloc, ITEMS[2]).expect(rt, "item 2");
    table.push(alloc, ITEMS[3]).expect(rt, "item 3");
    table.push(alloc, ITEMS[4]).expect(rt, "item 4");
    table.push(alloc, ITEMS[5]).expect(rt, "item 5");
    table
}

/// Checks that a table with room is empty.
fn expect_empty(rt: &impl Abort, alloc: Global) {
    let roomy = NameTable::with_capacity(alloc, 4).expect(rt, "a table");
    assert!(rt; roomy.place(b"printk").is_none());
}

fn same_place(rt: &impl Abort, got: Option<u32>, want: Option<u32>) {
    assert_eq!(rt; got, want);
}

#[test]
fn names_stand_where_they_are_first_stated(rt: HostRuntime) {
    let alloc = rt.alloc();
    expect_empty(&rt, alloc);
    let borrowed = borrowed(&rt, alloc);
    let owned = owned(&rt, alloc);
    for (name, place) in &PLACES {
        same_place(&rt, borrowed.place(name), *place);
        same_place(&rt, owned.place(name), *place);
    }
}
