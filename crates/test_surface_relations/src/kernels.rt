//! The tables of kernels, by their files.

use crate::same::{holds, shown};
use kernel_exports::{Kernel, KernelExports, KernelFault, SystemMap};
use std::alloc::{AllocError, AllocFailed, Global};
use std::process::Abort;

// Each table is read by a function that promises nothing.

/// Reads the addresses of a System.map into a table.
fn add(rt: &impl Abort, kernel: &mut Kernel, map: &[u8]) -> Result<(), KernelFault> {
    holds(rt, map.len() <= 67_108_864);
    kernel.add_addresses(map)
}

/// Reads the table of a System.map.
fn mapped(rt: &impl Abort, alloc: Global, map: &[u8]) -> Result<Kernel, KernelFault> {
    holds(rt, map.len() <= 67_108_864);
    Kernel::from_map(alloc, map)
}

/// Reads the table of a Module.symvers.
fn kernel_of(rt: &impl Abort, alloc: Global, symvers: &[u8]) -> Kernel {
    holds(rt, symvers.len() <= 67_108_864);
    Kernel::from_symvers(alloc, symvers).expect(rt, "a kernel")
}

fn a_kernel_of_ones_own_is_made(rt: &impl Abort, alloc: Global) {
    let kernel = Kernel {
        known: true,
        exports: KernelExports::new(alloc),
    };
    let parts = (
        kernel.known,
        kernel.exports.len(),
        Kernel::unknown(alloc).known,
    );
    shown(rt, alloc, parts, "(true, 0, false)");
}

/// The table of a kernel that exports `printk`.
static SYMVERS: &[u8] = b"0x11111111\tprintk\tvmlinux\tEXPORT_SYMBOL\n";

/// Its addresses.
static SYSTEM_MAP: &[u8] = b"ffffffff81000000 T printk\n";

/// Reads the table of that kernel, without the addresses.
pub(crate) fn usual_kernel(rt: &impl Abort, alloc: Global) -> Kernel {
    kernel_of(rt, alloc, SYMVERS)
}

/// What that kernel exports. All modules may use it.
static EXPORTS: &str = "List { elements: [KernelExport { name: \"printk\", crc: Some(286331153), \
        address: None, gpl: false, space: \"\" }] }";

/// The same with the address.
static PLACED: &str = "List { elements: [KernelExport { name: \"printk\", crc: Some(286331153), \
        address: Some(18446744071578845184), gpl: false, space: \"\" }] }";

fn kernels_are_read(rt: &impl Abort, alloc: Global) {
    let mut kernel = usual_kernel(rt, alloc);
    shown(rt, alloc, &kernel.exports, EXPORTS);
    shown(rt, alloc, add(rt, &mut kernel, SYSTEM_MAP), "Ok(())");
    shown(rt, alloc, &kernel.exports, PLACED);
}

/// A System.map that shows an export.
static KSYMTAB: &[u8] = b"ffffffff81000000 T printk\nffffffff82000000 r __ksymtab_printk\n";

/// Whether it is known what its kernel exports, and that.
static MAPPED: &str = "(true, List { elements: [KernelExport { name: \"printk\", crc: None, \
        address: Some(18446744071578845184), gpl: false, space: \"\" }] })";

fn kernels_are_read_from_maps(rt: &impl Abort, alloc: Global) {
    let kernel = mapped(rt, alloc, KSYMTAB).expect(rt, "a kernel");
    shown(rt, alloc, (kernel.known, &kernel.exports), MAPPED);
    let refused = mapped(rt, alloc, b"\n1 T  a").err();
    shown(rt, alloc, refused, "Some(BadKernelLine { line: 2 })");
}

/// Reads the symbols of a System.map.
fn map_of<'a>(rt: &impl Abort, alloc: Global, map: &'a [u8]) -> Result<SystemMap<'a>, KernelFault> {
    holds(rt, map.len() <= 67_108_864);
    SystemMap::read(alloc, map)
}

/// Gives the exports of a kernel the addresses of a map.
fn set(kernel: &mut Kernel, map: &SystemMap<'_>) -> Result<(), AllocError> {
    kernel.set_addresses(map)
}

fn addresses_are_set(rt: &impl Abort, alloc: Global) {
    let mut kernel = usual_kernel(rt, alloc);
    let map = map_of(rt, alloc, SYSTEM_MAP).expect(rt, "a map");
    shown(rt, alloc, set(&mut kernel, &map), "Ok(())");
    shown(rt, alloc, &kernel.exports, PLACED);
    drop(map);
    let refused = map_of(rt, alloc, b"\n1 T  a").err();
    shown(rt, alloc, refused, "Some(BadKernelLine { line: 2 })");
}

/// Returns the fault of a refused allocation, by the bound of `?`.
fn refused<F: From<AllocError>>() -> F {
    F::from(AllocError)
}

/// Returns the fault of a value that isn't stored, by that bound.
fn unstored<F: From<AllocFailed<u8>>>() -> F {
    F::from(AllocFailed { value: 7 })
}

fn faults_come_from_others(rt: &impl Abort, alloc: Global) {
    let faults: (KernelFault, KernelFault) = (refused(), unstored());
    shown(rt, alloc, faults, "(Memory, Memory)");
}

#[test]
fn kernels_are_called(rt: HostRuntime) {
    a_kernel_of_ones_own_is_made(&rt, rt.alloc());
    kernels_are_read(&rt, rt.alloc());
    kernels_are_read_from_maps(&rt, rt.alloc());
    addresses_are_set(&rt, rt.alloc());
    faults_come_from_others(&rt, rt.alloc());
}
