// A load that is written out, and what it is to answer.
use km_names::{Blob, PathText, le_u64_at};
use model_loader::{LoadFault, LoadedAt, Machine, Region};
use module_facts::{Module, read_module};
use provider_rel::Kernel;
use std::alloc::Global;
use std::process::Abort;
use test_objects::{MoreRow, NO_MORE, NOTHING, SheetRow, object_with};

/// The usual base of the region of modules.
pub(crate) const BASE: u64 = 0xffff_ffff_c000_0000;

/// What a load is to answer.
#[derive(Clone, Copy)]
pub(crate) enum Answer {
    /// The module's base and size, and words of its image: where each is, and its value.
    Loaded {
        base: u64,
        size: u64,
        words: &'static [(usize, u64)],
    },
    /// The text of the refusal.
    Refused(&'static [u8]),
}

/// A module that is loaded, written out, and what its load is to answer. The changes are bytes of
/// its file that are to be other ones: where each is, and its value.
#[derive(Clone, Copy)]
pub(crate) struct LoadRow {
    pub(crate) path: &'static [u8],
    pub(crate) sheet: &'static SheetRow,
    pub(crate) more: &'static MoreRow,
    pub(crate) changes: &'static [(usize, u8)],
    pub(crate) answer: Answer,
}

/// A module of nothing that is refused.
pub(crate) const PLAIN: LoadRow = LoadRow {
    path: b"",
    sheet: &NOTHING,
    more: &NO_MORE,
    changes: &[],
    answer: Answer::Refused(b""),
};

// Each comparison is in a function of its own, so that what it is made of isn't carried through
// every test.

fn same(rt: &impl Abort, got: &[u8], want: &[u8]) {
    assert_eq!(rt; got, want);
}

fn same_number(rt: &impl Abort, got: u64, want: u64) {
    assert_eq!(rt; got, want);
}

/// Returns a kernel that exports `printk`.
fn kernel(rt: &impl Abort, alloc: Global) -> Kernel {
    let symvers = b"0x11111111\tprintk\tvmlinux\tEXPORT_SYMBOL\n".as_slice();
    let mut kernel = Kernel::from_symvers(alloc, symvers).expect(rt, "a kernel");
    kernel
        .add_addresses(b"ffffffff81000000 T printk\n".as_slice())
        .expect(rt, "an address");
    kernel
}

/// Returns a machine of that kernel with so many bytes for modules.
fn machine(rt: &impl Abort, alloc: Global, size: u64) -> Machine {
    let region = Region::new(BASE, size).expect(rt, "a region");
    Machine::new(alloc, kernel(rt, alloc), region).expect(rt, "a machine")
}

/// Returns the bytes with some of them changed.
fn changed(rt: &impl Abort, bytes: Blob, changes: &[(usize, u8)]) -> Blob {
    let mut bytes = bytes.into_vec().expect(rt, "bytes");
    for (at, byte) in changes {
        assert!(rt; *at < bytes.len());
        bytes[*at] = *byte;
    }
    Blob::from_vec(bytes)
}

/// Returns the module of a row.
fn module_of(rt: &impl Abort, alloc: Global, row: &LoadRow) -> Module {
    let object = object_with(alloc, row.sheet, row.more).expect(rt, "an object");
    let bytes = changed(rt, object, row.changes);
    let path = PathText::from_slice(alloc, row.path).expect(rt, "a path");
    assert!(rt; bytes.len() <= 67_108_864);
    read_module(alloc, &path, bytes).expect(rt, "a module")
}

/// Checks that the image has these words.
fn expect_words(rt: &impl Abort, image: &[u8], words: &[(usize, u64)]) {
    for (at, word) in words {
        assert!(rt; *at <= 65536 && *at + 8 <= image.len());
        same_number(rt, le_u64_at(image, *at), *word);
    }
}

/// Checks that the last loaded module has this base and size, and these words in its image.
fn expect_loaded(
    rt: &impl Abort,
    machine: &Machine,
    before: usize,
    at: LoadedAt,
    (base, size): (u64, u64),
    words: &[(usize, u64)],
) {
    same_number(rt, at.base, base);
    same_number(rt, at.size, size);
    assert!(rt; before < machine.module_count());
    let name = machine.module_at(before).name.as_bytes();
    let image = machine.image(name).expect(rt, "an image");
    same_number(rt, image.len() as u64, size);
    expect_words(rt, image, words);
}

/// Checks that the load was refused with this text.
fn expect_refused(rt: &impl Abort, alloc: Global, fault: &LoadFault, text: &[u8]) {
    same(rt, fault.text(alloc).expect(rt, "a text").as_bytes(), text);
}

/// Checks that the answer of a load is the row's, and that the machine has one module more or is as
/// it was.
fn expect_answer(
    rt: &impl Abort,
    alloc: Global,
    machine: &Machine,
    before: usize,
    loaded: &Result<LoadedAt, LoadFault>,
    answer: &Answer,
) {
    match (loaded, answer) {
        (Ok(at), Answer::Loaded { base, size, words }) => {
            expect_loaded(rt, machine, before, *at, (*base, *size), words);
        }
        (Err(fault), Answer::Refused(text)) => {
            expect_refused(rt, alloc, fault, text);
            assert!(rt; machine.module_count() == before);
        }
        _ => panic!(rt; "another answer"),
    }
}

/// Loads a module. It promises nothing.
fn load(machine: &mut Machine, module: &Module) -> Result<LoadedAt, LoadFault> {
    machine.load(module)
}

/// Loads the module of a row.
fn expect_load(rt: &impl Abort, alloc: Global, machine: &mut Machine, row: &LoadRow) {
    let module = module_of(rt, alloc, row);
    let before = machine.module_count();
    let loaded = load(machine, &module);
    expect_answer(rt, alloc, machine, before, &loaded, &row.answer);
    drop(loaded);
    drop(module);
}

/// Loads the modules of the rows in turn into a machine with so many bytes for modules. Each load
/// answers as its row says.
pub(crate) fn expect_loads(rt: &impl Abort, alloc: Global, size: u64, rows: &[LoadRow]) {
    let mut machine = machine(rt, alloc, size);
    for row in rows {
        expect_load(rt, alloc, &mut machine, row);
    }
}
