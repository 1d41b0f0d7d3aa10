//! Images, relocations and the machine.
ghost use Rattle.std.specs.Prelude.{◌≡◌};

use crate::same::{holds, same, shown};
use km_names::{Blob, PathText};
use model_loader::{LoadFault, LoadedAt, Machine, Region};
use module_facts::{Module, ModuleFault, read_module};
use provider_rel::Kernel;
use raw_image::Image;
use std::alloc::Global;
use std::process::Abort;
use test_objects::{GIVES, NEEDS, SheetRow, object_of};
use x86_relocate::{Patch, Patches, apply, value};

fn words_are_put_into_an_image(rt: &impl Abort, alloc: Global) {
    let mut image = Image::zeroed(alloc, 11).expect(rt, "an image");
    same(rt, image.as_bytes(), &[0; 11]);
    image.copy_in(0, b"abc");
    image.put_u64(3, 0x0807_0605_0403_0201);
    same(rt, image.as_bytes(), b"abc\x01\x02\x03\x04\x05\x06\x07\x08");
    image.put_u32(1, 0x0c0b_0a09);
    same(
        rt,
        image.as_bytes(),
        b"a\x09\x0a\x0b\x0c\x03\x04\x05\x06\x07\x08",
    );
}

/// What three words of the table are, and what one is too wide for.
static WORDS: &str =
    "(Ok(Nothing), Ok(Four(2147483648)), Ok(Eight(18446744073709551615)), Err(TooWide))";

fn words_are_those_of_the_table(rt: &impl Abort, alloc: Global) {
    let nothing = value(0, 5, 5, 5);
    let low = value(11, 0xffff_ffff_8000_0000, 0, 0);
    let way = value(24, 0, 0, 1);
    let high = value(11, 0x8000_0000, 0, 0);
    shown(rt, alloc, (nothing, low, way, high), WORDS);
}

/// Returns a patch of four bytes with the address of its symbol.
fn four_bytes(entry: u32, at: usize, s: u64) -> Patch
    ensures at { result.at ≡ at }
    ensures kind { result.kind ≡ 10 }
{
    Patch {
        section: 3,
        entry,
        at,
        kind: 10,
        s,
        a: 0,
        p: 0,
    }
}

fn patches_are_applied(rt: &impl Abort, alloc: Global) {
    let mut image = Image::zeroed(alloc, 8).expect(rt, "an image");
    let patches = [four_bytes(0, 4, 0x0403_0201), four_bytes(1, 0, 1 << 32)];
    let first = Patches::from_vec(patches[..1].to_vec(alloc).expect(rt, "a copy"));
    shown(rt, alloc, apply(&mut image, &first), "Ok(())");
    same(rt, image.as_bytes(), b"\0\0\0\0\x01\x02\x03\x04");
    let both = Patches::from_vec(patches.to_vec(alloc).expect(rt, "a copy"));
    let want = "Err(Overflow { section: 3, entry: 1 })";
    shown(rt, alloc, apply(&mut image, &both), want);
}

/// Bases and sizes, and whether they are those of a region.
static REGIONS: [(u64, u64, bool); 6] = [
    (BASE, 0x3000, true),
    (0xffff_ffff_ffff_f000, 0x1000, true),
    (0xffff_ffff_ffff_f000, 0x2000, false),
    (BASE, 0, false),
    (BASE, 1, false),
    (1, 0x1000, false),
];

fn regions_are_whole_pages(rt: &impl Abort) {
    for (base, size, is_region) in &REGIONS {
        holds(rt, Region::new(*base, *size).is_some() == *is_region);
    }
}

/// Where the region of modules usually begins.
pub(crate) const BASE: u64 = 0xffff_ffff_c000_0000;

/// Reads the table of a Module.symvers.
pub(crate) fn kernel_of(rt: &impl Abort, alloc: Global, symvers: &[u8]) -> Kernel {
    holds(rt, symvers.len() <= 67_108_864);
    Kernel::from_symvers(alloc, symvers).expect(rt, "a kernel")
}

/// Reads the table of a kernel that exports `printk`, with its address.
pub(crate) fn kernel_of_printk(rt: &impl Abort, alloc: Global) -> Kernel {
    let symvers = b"0x11111111\tprintk\tvmlinux\tEXPORT_SYMBOL\n".as_slice();
    let mut kernel = kernel_of(rt, alloc, symvers);
    kernel
        .add_addresses(b"ffffffff81000000 T printk\n".as_slice())
        .expect(rt, "addresses");
    kernel
}

/// Makes a machine whose kernel exports `printk`, with so many bytes for modules.
pub(crate) fn machine(rt: &impl Abort, alloc: Global, size: u64) -> Machine {
    let kernel = kernel_of_printk(rt, alloc);
    let region = Region::new(BASE, size).expect(rt, "a region");
    Machine::new(alloc, kernel, region).expect(rt, "a machine")
}

/// Reads the module of these bytes at the path.
pub(crate) fn read(
    rt: &impl Abort,
    alloc: Global,
    at: &[u8],
    bytes: Blob,
) -> Result<Module, ModuleFault> {
    let at = PathText::from_slice(alloc, at).expect(rt, "a path");
    holds(rt, bytes.len() <= 67_108_864);
    read_module(alloc, &at, bytes)
}

/// Reads the module of a sheet.
pub(crate) fn module_of(rt: &impl Abort, alloc: Global, at: &[u8], row: &SheetRow) -> Module {
    let bytes = object_of(alloc, row).expect(rt, "an object");
    read(rt, alloc, at, bytes).expect(rt, "a module")
}

/// Loads a module.
pub(crate) fn load(machine: &mut Machine, module: &Module) -> Result<LoadedAt, LoadFault> {
    machine.load(module)
}

/// Loads the module of a sheet.
fn loaded(
    rt: &impl Abort,
    alloc: Global,
    machine: &mut Machine,
    at: &[u8],
    row: &SheetRow,
) -> Result<LoadedAt, LoadFault> {
    let module = module_of(rt, alloc, at, row);
    let place = load(machine, &module);
    drop(module);
    place
}

/// Loads `a`, which exports `fa`.
pub(crate) fn load_a(
    rt: &impl Abort,
    alloc: Global,
    machine: &mut Machine,
) -> Result<LoadedAt, LoadFault> {
    loaded(rt, alloc, machine, b"kernel/a.ko", &GIVES)
}

/// Loads `b`, which needs `fa`.
pub(crate) fn load_b(
    rt: &impl Abort,
    alloc: Global,
    machine: &mut Machine,
) -> Result<LoadedAt, LoadFault> {
    loaded(rt, alloc, machine, b"kernel/b.ko", &NEEDS)
}

/// Where both lie.
static BOTH: &str = "(Ok(LoadedAt { base: 18446744072635809792, size: 8192 }), \
     Ok(LoadedAt { base: 18446744072635817984, size: 4096 }))";

/// What the machine says of `a`, and of a module that isn't loaded.
static A: &str = r#"(LoadedModule { name: "a", base: 18446744072635809792, size: 8192 }, None)"#;

/// What it says of `b`.
static B: &str = r#"LoadedModule { name: "b", base: 18446744072635817984, size: 4096 }"#;

/// Stops unless the modules are `a` and `b`.
fn expect_a_and_b(rt: &impl Abort, alloc: Global, machine: &Machine) {
    holds(rt, machine.module_count() == 2);
    shown(rt, alloc, (machine.module_at(0), machine.image(b"c")), A);
    shown(rt, alloc, machine.module_at(1), B);
}

/// Stops unless the image of `b` begins with the address of `fa`.
fn expect_image_of_b(rt: &impl Abort, machine: &Machine) {
    let image = machine.image(b"b").expect(rt, "an image");
    holds(rt, image.len() == 0x1000);
    same(rt, &image[..8], b"\0\0\0\xc0\xff\xff\xff\xff");
}

fn modules_are_loaded(rt: &impl Abort, alloc: Global) {
    let mut machine = machine(rt, alloc, 0x3000);
    let a = load_a(rt, alloc, &mut machine);
    let b = load_b(rt, alloc, &mut machine);
    shown(rt, alloc, (a, b), BOTH);
    expect_a_and_b(rt, alloc, &machine);
    expect_image_of_b(rt, &machine);
    drop(machine);
}

/// Stops unless `b` is refused with this text.
fn expect_refused(rt: &impl Abort, alloc: Global, machine: &mut Machine, want: &str) {
    let refused = load_b(rt, alloc, machine).err();
    let fault = refused.expect(rt, "a refusal");
    shown(rt, alloc, (fault.text(alloc), fault), want);
}

/// Why `b` is refused without `a`.
static MISSING: &str = r#"(Ok("missing symbol fa"), MissingSymbol { name: "fa" })"#;

/// Why `b` is refused where only `a` has room.
static FULL: &str = r#"(Ok("region full, 1 pages"), RegionFull { pages: 1 })"#;

fn a_region_is_full(rt: &impl Abort, alloc: Global) {
    let mut machine = machine(rt, alloc, 0x2000);
    expect_refused(rt, alloc, &mut machine, MISSING);
    let _at = load_a(rt, alloc, &mut machine).expect(rt, "a place");
    expect_refused(rt, alloc, &mut machine, FULL);
    holds(rt, machine.module_count() == 1);
    drop(machine);
}

fn a_kernel_needs_addresses(rt: &impl Abort, alloc: Global) {
    let kernel = kernel_of(rt, alloc, b"0x1\tfa\tvmlinux\n");
    let region = Region::new(BASE, 0x1000).expect(rt, "a region");
    let refused = Machine::new(alloc, kernel, region).err();
    shown(
        rt,
        alloc,
        refused,
        r#"Some(KernelWithoutAddress { name: "fa" })"#,
    );
}

#[test]
fn the_machine_is_called(rt: HostRuntime) {
    words_are_put_into_an_image(&rt, rt.alloc());
    words_are_those_of_the_table(&rt, rt.alloc());
    patches_are_applied(&rt, rt.alloc());
    regions_are_whole_pages(&rt);
    modules_are_loaded(&rt, rt.alloc());
    a_region_is_full(&rt, rt.alloc());
    a_kernel_needs_addresses(&rt, rt.alloc());
}
