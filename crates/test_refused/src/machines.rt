//! Machines into which modules were loaded, and what can be seen of them.

use crate::same::{holds, same};
use km_names::{Blob, PathText};
use model_loader::{LoadFault, LoadedAt, LoadedModule, Machine, Region};
use module_facts::{Module, read_module};
use provider_rel::Kernel;
use std::alloc::{AllocError, Global};
use std::process::Abort;

/// The usual base of the region of modules.
pub(crate) const BASE: u64 = 0xffff_ffff_c000_0000;

// What prepares a test gives nothing if it is out of memory.

/// Returns the usual kernel: it exports `printk`.
fn usual_kernel(alloc: Global) -> Option<Kernel> {
    let symvers = b"0x11111111\tprintk\tvmlinux\tEXPORT_SYMBOL\n".as_slice();
    let mut kernel = Kernel::from_symvers(alloc, symvers).ok()?;
    let map = b"ffffffff81000000 T printk\n".as_slice();
    kernel.add_addresses(map).ok()?;
    Some(kernel)
}

/// Returns a machine of the usual kernel with a module.
fn machine_with(alloc: Global, module: &Module) -> Option<Machine> {
    let region = Region::new(BASE, 0x10_0000)?;
    let kernel = usual_kernel(alloc)?;
    let mut machine = Machine::new(alloc, kernel, region).ok()?;
    let is_loaded = load(&mut machine, module).is_ok();
    is_loaded.then_some(machine)
}

/// Returns a machine of the usual kernel with a module. One allocation of it may be refused.
pub(crate) fn machine_of(rt: &impl Abort, alloc: Global, module: &Module) -> Machine {
    match machine_with(alloc, module) {
        Some(machine) => machine,
        None => machine_with(alloc, module).expect(rt, "a machine"),
    }
}

/// Reads the module of these bytes at a path.
pub(crate) fn module_of(
    rt: &impl Abort,
    alloc: Global,
    path: &[u8],
    bytes: Blob,
) -> Option<Module> {
    holds(rt, bytes.len() <= 67_108_864);
    let path = PathText::from_slice(alloc, path).ok()?;
    read_module(alloc, &path, bytes).ok()
}

/// Loads a module. It promises nothing, so that no contract is carried along.
pub(crate) fn load(machine: &mut Machine, module: &Module) -> Result<LoadedAt, LoadFault> {
    machine.load(module)
}

/// Puts the name, base and size of a module at the end, and its image.
fn push_seen(text: &mut Vec<u8>, module: &LoadedModule, image: &[u8]) -> Result<(), AllocError> {
    text.extend_from_slice(module.name.as_bytes())?;
    text.extend_from_slice(&module.base.to_le_bytes())?;
    text.extend_from_slice(&module.size.to_le_bytes())?;
    text.extend_from_slice(image)
}

/// Returns each module of a machine, oldest first: its name, base and size, and its image.
fn seen(alloc: Global, machine: &Machine) -> Result<Vec<u8>, AllocError> {
    let mut text = Vec::new(alloc);
    for i in 0..machine.module_count() {
        let module = machine.module_at(i);
        let image = machine.image(module.name.as_bytes()).unwrap_or(&[]);
        push_seen(&mut text, module, image)?;
    }
    Ok(text)
}

/// Returns all that can be seen of a machine. One allocation of it may be refused.
pub(crate) fn shown(rt: &impl Abort, alloc: Global, machine: &Machine) -> Vec<u8> {
    match seen(alloc, machine) {
        Ok(text) => text,
        Err(AllocError) => seen(alloc, machine).expect(rt, "what is seen"),
    }
}

/// Stops unless this is what can be seen of a machine.
pub(crate) fn expect_shown(rt: &impl Abort, alloc: Global, machine: &Machine, want: &[u8]) {
    let text = shown(rt, alloc, machine);
    same(rt, text.as_slice(), want);
}
