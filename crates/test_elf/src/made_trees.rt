// Trees by hand: a separate program worked out lengths and hashes of files from the ELF structures
// and the generator of the draws.
use km_names::PathText;
use outside_calls::MemFiles;
use std::alloc::Global;
use std::process::Abort;
use tree_gen::generate;

/// Files by their paths, with how many bytes they have, and the hash of these.
type Rows = [(&'static str, usize, u64); 4];

/// All files of the tree of seed 1 and 2 modules.
static TWO: Rows = [
    ("/t/Module.symvers", 40, 0xd0a3_2c8f_6bd0_fb44),
    ("/t/System.map", 26, 0xafb5_b551_e332_67c0),
    (
        "/t/lib/modules/trial/kernel/m0000.ko",
        1_024,
        0x117b_fef4_c819_97ea,
    ),
    (
        "/t/lib/modules/trial/kernel/m0001.ko",
        1_144,
        0x6339_f2ef_479a_02e8,
    ),
];

/// Modules of the tree of seed 7 and 20 modules that draw one module or two.
static TWENTY: Rows = [
    (
        "/t/lib/modules/trial/kernel/m0004.ko",
        1_144,
        0xa94f_b410_9b15_709b,
    ),
    (
        "/t/lib/modules/trial/kernel/m0013.ko",
        1_272,
        0x7980_8f65_ebb5_59ae,
    ),
    (
        "/t/lib/modules/trial/kernel/m0018.ko",
        1_144,
        0xea92_d136_9be9_b1da,
    ),
    (
        "/t/lib/modules/trial/kernel/m0019.ko",
        1_272,
        0xb786_66d0_a30a_8b52,
    ),
];

/// Returns the hash FNV-1a of 64 bits.
fn hash(bytes: &[u8]) -> u64 {
    let mut hash: u64 = 0xcbf2_9ce4_8422_2325;
    for byte in bytes {
        hash = (hash ^ u64::from(*byte)).wrapping_mul(0x100_0000_01b3);
    }
    hash
}

/// Returns the length and the hash of the file at a path, if there is one.
fn seen(rt: &impl Abort, alloc: Global, files: &MemFiles, path: &str) -> Option<(usize, u64)> {
    let path = PathText::from_slice(alloc, path.as_bytes()).expect(rt, "a path");
    match files.get(&path) {
        Some(bytes) => Some((bytes.len(), hash(bytes))),
        None => None,
    }
}

/// The file past the last of the tree of two modules.
const PAST: &str = "/t/lib/modules/trial/kernel/m0002.ko";

/// Makes a tree.
fn tree(rt: &impl Abort, alloc: Global, seed: u64, count: u32) -> MemFiles {
    assert!(rt; 0 < count && count <= 2000);
    generate(alloc, seed, count).expect(rt, "a tree")
}

/// Checks that a tree has these files.
fn expect_files(rt: &impl Abort, alloc: Global, files: &MemFiles, rows: &Rows) {
    for (path, length, hash) in rows {
        let got = seen(rt, alloc, files, path);
        assert_eq!(rt; got, Some((*length, *hash)), "{path}");
    }
}

#[test]
fn trees_of_two_and_of_twenty_modules(rt: HostRuntime) {
    let alloc = rt.alloc();
    let two = tree(&rt, alloc, 1, 2);
    expect_files(&rt, alloc, &two, &TWO);
    assert!(rt; seen(&rt, alloc, &two, PAST).is_none());
    expect_files(&rt, alloc, &tree(&rt, alloc, 7, 20), &TWENTY);
}
