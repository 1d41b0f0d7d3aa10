//! Machines into which small modules were loaded.

use km_names::PathText;
use model_loader::{LoadedAt, Machine, Region};
use module_facts::{Module, read_module};
use provider_rel::Kernel;
use std::alloc::Global;
use std::process::Abort;
use test_objects::{SheetRow, object_of};

/// The usual base of the region of modules.
pub(crate) const BASE: u64 = 0xffff_ffff_c000_0000;

/// A module, written out: its path and its sheet.
pub(crate) type ModuleRow = (&'static str, &'static SheetRow);

/// Returns a kernel that exports `printk`.
fn kernel(rt: &impl Abort, alloc: Global) -> Kernel {
    let symvers = b"0x11111111\tprintk\tvmlinux\tEXPORT_SYMBOL\n".as_slice();
    let mut kernel = Kernel::from_symvers(alloc, symvers).expect(rt, "a kernel");
    kernel
        .add_addresses(b"ffffffff81000000 T printk\n".as_slice())
        .expect(rt, "an address");
    kernel
}

/// Returns the module of a sheet at a path.
pub(crate) fn module_of(rt: &impl Abort, alloc: Global, path: &str, sheet: &SheetRow) -> Module {
    let path = PathText::from_slice(alloc, path.as_bytes()).expect(rt, "a path");
    let bytes = object_of(alloc, sheet).expect(rt, "an object");
    assert!(rt; bytes.len() <= 67_108_864);
    read_module(alloc, &path, bytes).expect(rt, "a module")
}

/// Loads a module. It promises nothing, so that no contract is carried along.
pub(crate) fn load(rt: &impl Abort, machine: &mut Machine, module: &Module) -> LoadedAt {
    machine.load(module).expect(rt, "a place")
}

/// Returns a machine without a module.
fn machine(rt: &impl Abort, alloc: Global) -> Machine {
    let region = Region::new(BASE, 0x10_0000).expect(rt, "a region");
    Machine::new(alloc, kernel(rt, alloc), region).expect(rt, "a machine")
}

/// Returns a machine into which these were loaded, the first one first.
pub(crate) fn machine_of(rt: &impl Abort, alloc: Global, rows: &[ModuleRow]) -> Machine {
    let mut machine = machine(rt, alloc);
    for (path, sheet) in rows {
        load(rt, &mut machine, &module_of(rt, alloc, path, sheet));
    }
    machine
}
