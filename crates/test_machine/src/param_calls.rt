//! Modules of parameters, the places of their sections, and options that are written into copies
//! of their images.

use crate::machine_calls::{BASE, load, machine, read};
use crate::same::{holds, same_option, shown};
use elf_object::Object;
use image_layout::image_size;
use km_names::{Blob, List, Name};
use model_loader::{Machine, section_at};
use module_facts::Module;
use param_apply::{ParamFault, Params, apply_params};
use std::alloc::Global;
use std::process::Abort;
use tree_gen::{SheetParam, SheetParams, param_object};

/// Parameters, with their types.
static TWO: [(&[u8], &[u8]); 2] = [(b"depth", b"int"), (b"raw", b"bool")];

/// Returns a name.
pub(crate) fn name_of(rt: &impl Abort, alloc: Global, text: &[u8]) -> Name {
    Name::from_slice(alloc, text).expect(rt, "a name")
}

/// Returns these parameters.
fn two(rt: &impl Abort, alloc: Global) -> SheetParams {
    let mut params: SheetParams = List::new(alloc);
    for (name, kind) in &TWO {
        let name = name_of(rt, alloc, name);
        let kind = name_of(rt, alloc, kind);
        let param = SheetParam { name, kind };
        params.push(param).expect(rt, "parameters");
    }
    params
}

/// Returns the object of a module with these parameters.
fn object_of_two(rt: &impl Abort, alloc: Global) -> Blob {
    let params = two(rt, alloc);
    param_object(alloc, &params).expect(rt, "an object")
}

/// Reads the module of that object.
fn module_of_two(rt: &impl Abort, alloc: Global) -> Module {
    let bytes = object_of_two(rt, alloc);
    read(rt, alloc, b"kernel/p.ko", bytes).expect(rt, "a module")
}

/// Returns where the section of this name begins in the image.
fn offset_of(rt: &impl Abort, object: &Object, name: &[u8]) -> u64 {
    let number = object.section_named(name).expect(rt, "a section");
    holds(rt, number < object.section_count());
    let is_kept = object.section(number).kept;
    holds(rt, is_kept);
    let size = image_size(object);
    holds(rt, size < 0x1_0000_0000_0000_0000);
    section_at(object, number)
}

/// Sections, and where they begin in the image.
static OFFSETS: [(&[u8], u64); 2] = [(b"__param", 0), (b".data", 4096)];

/// Stops unless the sections of an object have these places.
fn expect_offsets(rt: &impl Abort, object: &Object) {
    for (name, offset) in &OFFSETS {
        holds(rt, offset_of(rt, object, name) == *offset);
    }
}

/// Makes a machine with that module.
fn machine_of_params(rt: &impl Abort, alloc: Global, module: &Module) -> Machine {
    let mut machine = machine(rt, alloc, 0x2000);
    load(&mut machine, module).expect(rt, "a place");
    machine
}

/// Writes options into a copy of the image.
fn applied(
    rt: &impl Abort,
    alloc: Global,
    module: &Module,
    machine: &Machine,
    options: &[u8],
) -> Result<Params, ParamFault> {
    let image = machine.image(b"p").expect(rt, "an image");
    let size = image_size(&module.object);
    holds(rt, image.len() as u128 == size);
    apply_params(alloc, module, BASE, image, options)
}

/// Writes options that are understood.
fn expect_written(rt: &impl Abort, alloc: Global, module: &Module, machine: &Machine) {
    let params = applied(rt, alloc, module, machine, b"depth=3 raw").expect(rt, "parameters");
    holds(rt, params.count == 2);
    let before = machine.image(b"p").expect(rt, "an image");
    expect_values(rt, params.image.as_bytes());
    expect_unchanged(rt, before, params.image.as_bytes());
}

/// Stops unless an image has the values, with the names behind them.
fn expect_values(rt: &impl Abort, image: &[u8]) {
    holds(rt, image.len() == 8192);
    let values = b"\x03\0\0\0\0\0\0\0\x01\0\0\0\0\0\0\0depth\0raw\0".as_slice();
    holds(rt, &image[4096..4122] == values);
}

/// Stops unless the machine's own image has no values, and is else as the other.
fn expect_unchanged(rt: &impl Abort, before: &[u8], image: &[u8]) {
    holds(rt, before.len() == 8192);
    same_option(rt, before.get(..4096), image.get(..4096));
    same_option(rt, before.get(4096..4112), Some(&[0; 16]));
    same_option(rt, before.get(4112..), image.get(4112..));
}

/// Writes options of which one is bad.
fn expect_bad_value(rt: &impl Abort, alloc: Global, module: &Module, machine: &Machine) {
    let refused = applied(rt, alloc, module, machine, b"raw depth=08").err();
    let fault = refused.expect(rt, "a refusal");
    shown(rt, alloc, fault.text(alloc), r#"Ok("bad value of depth")"#);
    shown(rt, alloc, fault, r#"BadValue { name: "depth" }"#);
}

fn parameters_are_written(rt: &impl Abort, alloc: Global) {
    let module = module_of_two(rt, alloc);
    let machine = machine_of_params(rt, alloc, &module);
    expect_offsets(rt, &module.object);
    expect_written(rt, alloc, &module, &machine);
    expect_bad_value(rt, alloc, &module, &machine);
    drop(machine);
    drop(module);
}

#[test]
fn parameters_are_called(rt: HostRuntime) {
    parameters_are_written(&rt, rt.alloc());
}
