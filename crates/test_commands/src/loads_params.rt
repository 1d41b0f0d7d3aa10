// Loads whose parameters are written.
use km_names::{Blob, List, Name};
use outside_calls::CallKind;
use std::alloc::Global;
use std::process::Abort;
use test_rows::{
    Failing, FileRow, INDEXED, ImageRow, Objects, RowOf, SYMVERS, SYSTEM_MAP, TreeRow, USAGE,
    run_over,
};
use tree_gen::{SheetParam, SheetParams, param_object};

/// The words that index the tree over the usual tables, and configurations.
const TREE: TreeRow<'static> = TreeRow {
    files: &[
        SYMVERS,
        SYSTEM_MAP,
        FileRow {
            path: "/r/ended.conf",
            bytes: b"options p depth=4 --\n",
        },
        FileRow {
            path: "/r/bad.conf",
            bytes: b"options p depth=08\n",
        },
        FileRow {
            path: "/r/good.conf",
            bytes: b"options p depth=5\n",
        },
    ],
    ..INDEXED
};

/// Loads of a module of two parameters: the last word counts, words that name no parameter and
/// those behind `--` don't, and without `--params` no option is read.
static LOADS: TreeRow<'static> = TreeRow {
    rows: &[
        (
            "modprobe -d /r -S 6.1.0 --system-map /r/System.map --symvers /r/Module.symvers \
         --params p depth=3 raw",
            0,
            "insmod /r/lib/modules/6.1.0/kernel/p.ko depth=3 raw\n\
         loaded p ffffffffc0000000 8192 \
         6151820ecdeb6bb07844315ce71ced3fb4f4185f89f80f3e10b2155caf47a89c\n\
         params p 2 6185a0327b828bf8b24b4f547689e557ccece9e8bd678b6b9fd183a352e6e744\n",
            "",
        ),
        (
            "modprobe -d /r -S 6.1.0 --system-map /r/System.map --symvers /r/Module.symvers \
         --params p depth=0x10 nosuch=1 depth=-1",
            0,
            "insmod /r/lib/modules/6.1.0/kernel/p.ko depth=0x10 nosuch=1 depth=-1\n\
         loaded p ffffffffc0000000 8192 \
         6151820ecdeb6bb07844315ce71ced3fb4f4185f89f80f3e10b2155caf47a89c\n\
         params p 1 99651a817da3400677c474b464b43e5c387c1c2df24d4ccc469a2bdd65d7f516\n",
            "",
        ),
        (
            "modprobe -d /r -S 6.1.0 --system-map /r/System.map --symvers /r/Module.symvers \
         --params p depth=08",
            1,
            "insmod /r/lib/modules/6.1.0/kernel/p.ko depth=08\n\
         loaded p ffffffffc0000000 8192 \
         6151820ecdeb6bb07844315ce71ced3fb4f4185f89f80f3e10b2155caf47a89c\n",
            "kmod: p: bad value of depth\n",
        ),
        (
            "modprobe -d /r -S 6.1.0 --system-map /r/System.map --symvers /r/Module.symvers p \
                depth=08",
            0,
            "insmod /r/lib/modules/6.1.0/kernel/p.ko depth=08\n\
         loaded p ffffffffc0000000 8192 \
         6151820ecdeb6bb07844315ce71ced3fb4f4185f89f80f3e10b2155caf47a89c\n",
            "",
        ),
        (
            "modprobe -d /r -S 6.1.0 --system-map /r/System.map --symvers /r/Module.symvers \
                --params p",
            0,
            "insmod /r/lib/modules/6.1.0/kernel/p.ko\n\
         loaded p ffffffffc0000000 8192 \
         6151820ecdeb6bb07844315ce71ced3fb4f4185f89f80f3e10b2155caf47a89c\n\
         params p 0 6151820ecdeb6bb07844315ce71ced3fb4f4185f89f80f3e10b2155caf47a89c\n",
            "",
        ),
        (
            "modprobe -d /r -S 6.1.0 --system-map /r/System.map --symvers /r/Module.symvers \
         -C /r/ended.conf --params p depth=5 raw",
            0,
            "insmod /r/lib/modules/6.1.0/kernel/p.ko depth=4 -- depth=5 raw\n\
         loaded p ffffffffc0000000 8192 \
         6151820ecdeb6bb07844315ce71ced3fb4f4185f89f80f3e10b2155caf47a89c\n\
         params p 1 7a6b634f16f345fc80ac436e6000f649ab43ed4b66b7121fc694e7a03ae64b16\n",
            "",
        ),
    ],
    ..TREE
};

/// Returns that tree.
fn loads() -> &'static TreeRow<'static> {
    &LOADS
}

/// Loads of two such modules: a refusal ends the command, and what was loaded before it stays.
static LOADS_OF_TWO: TreeRow<'static> = TreeRow {
    rows: &[
        (
            "modprobe -d /r -S 6.1.0 --system-map /r/System.map --symvers /r/Module.symvers \
         -C /r/bad.conf --params -a p q",
            1,
            "insmod /r/lib/modules/6.1.0/kernel/p.ko depth=08\n\
         insmod /r/lib/modules/6.1.0/kernel/q.ko\n\
         loaded p ffffffffc0000000 8192 \
         6151820ecdeb6bb07844315ce71ced3fb4f4185f89f80f3e10b2155caf47a89c\n",
            "kmod: p: bad value of depth\n",
        ),
        (
            "modprobe -d /r -S 6.1.0 --system-map /r/System.map --symvers /r/Module.symvers \
         -C /r/bad.conf -a p q",
            0,
            "insmod /r/lib/modules/6.1.0/kernel/p.ko depth=08\n\
         insmod /r/lib/modules/6.1.0/kernel/q.ko\n\
         loaded p ffffffffc0000000 8192 \
         6151820ecdeb6bb07844315ce71ced3fb4f4185f89f80f3e10b2155caf47a89c\n\
         loaded q ffffffffc0002000 8192 \
         b827d3093b4e5d85444b05f519b759cfd30f0f2ba288144e9c0cdc43b116f9a6\n",
            "",
        ),
        (
            "modprobe -d /r -S 6.1.0 --system-map /r/System.map --symvers /r/Module.symvers \
         -C /r/good.conf --params -a q p",
            0,
            "insmod /r/lib/modules/6.1.0/kernel/q.ko\n\
         insmod /r/lib/modules/6.1.0/kernel/p.ko depth=5\n\
         loaded q ffffffffc0000000 8192 \
         6151820ecdeb6bb07844315ce71ced3fb4f4185f89f80f3e10b2155caf47a89c\n\
         params q 0 6151820ecdeb6bb07844315ce71ced3fb4f4185f89f80f3e10b2155caf47a89c\n\
         loaded p ffffffffc0002000 8192 \
         b827d3093b4e5d85444b05f519b759cfd30f0f2ba288144e9c0cdc43b116f9a6\n\
         params p 1 e52c66edd720326b7060e8cf700f720fe14d6f876950e17db5087f3332b7196b\n",
            "",
        ),
    ],
    ..TREE
};

/// Returns that tree.
fn loads_of_two() -> &'static TreeRow<'static> {
    &LOADS_OF_TWO
}

/// Only a load has parameters.
static NO_LOADS: TreeRow<'static> = TreeRow {
    rows: &[
        (
            "modprobe -d /r -S 6.1.0 --system-map /r/System.map --symvers /r/Module.symvers -n \
         --params p",
            2,
            "",
            USAGE,
        ),
        (
            "modprobe -d /r -S 6.1.0 --system-map /r/System.map --symvers /r/Module.symvers -D \
         --params p",
            2,
            "",
            USAGE,
        ),
        (
            "modprobe -d /r -S 6.1.0 --system-map /r/System.map --symvers /r/Module.symvers -R \
         --params p",
            2,
            "",
            USAGE,
        ),
    ],
    ..TREE
};

/// Returns that tree.
fn no_loads() -> &'static TreeRow<'static> {
    &NO_LOADS
}

/// The image of the module in the machine, with the addresses of names and values, and the names.
const OWN: ImageRow<'static> = ImageRow {
    path: "/r/img/p.img",
    length: 8192,
    pieces: &[
        (0, b"\x10\x10\x00\xc0\xff\xff\xff\xff"),
        (32, b"\x00\x10\x00\xc0\xff\xff\xff\xff"),
        (40, b"\x16\x10\x00\xc0\xff\xff\xff\xff"),
        (72, b"\x08\x10\x00\xc0\xff\xff\xff\xff"),
        (4112, b"depth\0raw\0"),
    ],
};

/// The same with `depth=3 raw`.
const FINISHED: ImageRow<'static> = ImageRow {
    path: "/r/img/p.params.img",
    length: 8192,
    pieces: &[
        (0, b"\x10\x10\x00\xc0\xff\xff\xff\xff"),
        (32, b"\x00\x10\x00\xc0\xff\xff\xff\xff"),
        (40, b"\x16\x10\x00\xc0\xff\xff\xff\xff"),
        (72, b"\x08\x10\x00\xc0\xff\xff\xff\xff"),
        (4112, b"depth\0raw\0"),
        (4096, b"\x03"),
        (4104, b"\x01"),
    ],
};

/// A load whose images are put.
static PUT: TreeRow<'static> = TreeRow {
    images: &[OWN, FINISHED],
    rows: &[(
        "modprobe -d /r -S 6.1.0 --system-map /r/System.map --symvers /r/Module.symvers --params \
         --image /r/img p depth=3 raw",
        0,
        "insmod /r/lib/modules/6.1.0/kernel/p.ko depth=3 raw\n\
         loaded p ffffffffc0000000 8192 \
         6151820ecdeb6bb07844315ce71ced3fb4f4185f89f80f3e10b2155caf47a89c\n\
         params p 2 6185a0327b828bf8b24b4f547689e557ccece9e8bd678b6b9fd183a352e6e744\n",
        "",
    )],
    ..TREE
};

/// Returns that tree.
fn put() -> &'static TreeRow<'static> {
    &PUT
}

/// The same where the second image can't be put. depmod replaced nine files before.
static PUT_ONCE: TreeRow<'static> = TreeRow {
    failing: Failing::Call(CallKind::Replace, 10),
    images: &[OWN],
    rows: &[(
        "modprobe -d /r -S 6.1.0 --system-map /r/System.map --symvers /r/Module.symvers --params \
         --image /r/img p depth=3 raw",
        3,
        "insmod /r/lib/modules/6.1.0/kernel/p.ko depth=3 raw\n\
         loaded p ffffffffc0000000 8192 \
         6151820ecdeb6bb07844315ce71ced3fb4f4185f89f80f3e10b2155caf47a89c\n",
        "kmod: file fault /r/img/p.params.img\n",
    )],
    ..TREE
};

/// Returns that tree.
fn put_once() -> &'static TreeRow<'static> {
    &PUT_ONCE
}

/// Adds a parameter with its type.
fn push_param(rt: &impl Abort, alloc: Global, params: &mut SheetParams, name: &[u8], kind: &[u8]) {
    let param = SheetParam {
        name: Name::from_slice(alloc, name).expect(rt, "a name"),
        kind: Name::from_slice(alloc, kind).expect(rt, "a name"),
    };
    params.push(param).expect(rt, "a parameter more");
}

/// Returns an object with two parameters.
fn object_of_two(rt: &impl Abort, alloc: Global) -> Blob {
    let mut params: SheetParams = List::new(alloc);
    push_param(rt, alloc, &mut params, b"depth", b"int");
    push_param(rt, alloc, &mut params, b"raw", b"bool");
    param_object(alloc, &params).expect(rt, "an object")
}

/// Puts two modules, which are the same but for their names.
fn put_two(rt: &impl Abort, alloc: Global, objects: &mut Objects) {
    let object = object_of_two(rt, alloc);
    let p = FileRow {
        path: "/r/lib/modules/6.1.0/kernel/p.ko",
        bytes: object.as_bytes(),
    };
    let q = FileRow {
        path: "/r/lib/modules/6.1.0/kernel/q.ko",
        bytes: object.as_bytes(),
    };
    objects.put_files(alloc, &[p, q]).expect(rt, "files");
}

/// Runs a row over the indexed tree with these modules, and compares the outcome, with every file.
fn expect_load(rt: &impl Abort, alloc: Global, tree: &TreeRow<'_>, row: RowOf<'_>) {
    let mut objects = Objects::new(alloc).expect(rt, "objects");
    put_two(rt, alloc, &mut objects);
    run_over(alloc, &mut objects, tree, row).expect(rt, "a load");
    drop(objects);
}

/// Runs each row of a tree.
fn expect_loads(rt: &impl Abort, alloc: Global, tree: &TreeRow<'_>) {
    for row in tree.rows {
        expect_load(rt, alloc, tree, *row);
    }
}

#[test]
fn parameters_are_written(rt: HostRuntime) {
    let alloc = rt.alloc();
    expect_loads(&rt, alloc, loads());
    expect_loads(&rt, alloc, loads_of_two());
    expect_loads(&rt, alloc, no_loads());
    // Both images are put, whole; and the first stays if the second can't be put.
    expect_loads(&rt, alloc, put());
    expect_loads(&rt, alloc, put_once());
}
