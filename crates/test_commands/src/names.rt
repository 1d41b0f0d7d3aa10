// What names stand for in trees that depmod indexed.
use crate::sheets::{ALIASES, USB};
use test_objects::NO_MORE;
use test_rows::{FileRow, INDEXED, SYMVERS, TWO, TreeRow, run_trees};

/// Trees, and what names stand for in each.
static TREES: [TreeRow<'static>; 3] = [
    // A symbol stands for the module that exports it.
    TreeRow {
        name: "a symbol",
        modules: TWO,
        rows: &[("modprobe -d /r -S 6.1.0 -R symbol:fa", 0, "a\n", "")],
        ..INDEXED
    },
    // A pattern of a module matches or doesn't; one without a normal form isn't there.
    TreeRow {
        name: "a pattern",
        modules: &[("kernel/x.ko", &ALIASES, &NO_MORE)],
        rows: &[
            ("modprobe -d /r -S 6.1.0 -R pci-x:v00001d99", 0, "x\n", ""),
            (
                "modprobe -d /r -S 6.1.0 -R pci-x:v0000ad99",
                1,
                "",
                "kmod: not found pci_x:v0000ad99\n",
            ),
            (
                "modprobe -d /r -S 6.1.0 -R bad[x",
                1,
                "",
                "kmod: not found bad[x\n",
            ),
        ],
        ..INDEXED
    },
    // A blacklisted module isn't found by an alias that modules state, and with `-b` by no name.
    TreeRow {
        name: "a blacklisted module",
        modules: &[
            ("kernel/u1.ko", &USB, &NO_MORE),
            ("kernel/u2.ko", &USB, &NO_MORE),
            ("kernel/u3.ko", &USB, &NO_MORE),
        ],
        files: &[
            SYMVERS,
            FileRow {
                path: "/etc/modprobe.d/b.conf",
                bytes: b"blacklist u2\n",
            },
        ],
        rows: &[
            ("modprobe -d /r -S 6.1.0 -R usb:v1", 0, "u1\nu3\n", ""),
            ("modprobe -d /r -S 6.1.0 -R u2", 0, "u2\n", ""),
            ("modprobe -d /r -S 6.1.0 -R -b u2", 0, "", ""),
        ],
        ..INDEXED
    },
];

/// Returns these trees.
fn trees() -> &'static [TreeRow<'static>] {
    &TREES
}

#[test]
fn names_stand_for_modules(rt: HostRuntime) {
    run_trees(rt.alloc(), trees()).expect(&rt, "names");
}
