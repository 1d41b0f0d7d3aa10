//! Options that are written into a copy of an image, while an allocation may be refused.

use crate::machines::{BASE, expect_shown, machine_of, module_of, shown};
use crate::same::{holds, same};
use image_layout::image_size;
use km_names::{List, Name};
use model_loader::Machine;
use module_facts::Module;
use param_apply::{ParamFault, Params, apply_params};
use std::alloc::{AllocError, Global};
use std::process::Abort;
use tree_gen::{SheetParam, SheetParams, param_object};

/// Adds a parameter.
fn push_param(
    alloc: Global,
    params: &mut SheetParams,
    name: &[u8],
    kind: &[u8],
) -> Result<(), AllocError> {
    params.push(SheetParam {
        name: Name::from_slice(alloc, name)?,
        kind: Name::from_slice(alloc, kind)?,
    })
}

/// Returns the parameters `depth`, an `int`, and `raw`, a `bool`.
fn two_params(alloc: Global) -> Result<SheetParams, AllocError> {
    let mut params: SheetParams = List::new(alloc);
    push_param(alloc, &mut params, b"depth", b"int")?;
    push_param(alloc, &mut params, b"raw", b"bool")?;
    Ok(params)
}

/// Reads the module of these parameters.
fn read_once(rt: &impl Abort, alloc: Global) -> Option<Module> {
    let params = two_params(alloc).ok()?;
    let bytes = param_object(alloc, &params).ok()?;
    module_of(rt, alloc, b"kernel/p.ko", bytes)
}

/// Reads the module of these parameters. One allocation of it may be refused.
fn module_p(rt: &impl Abort, alloc: Global) -> Module {
    match read_once(rt, alloc) {
        Some(module) => module,
        None => read_once(rt, alloc).expect(rt, "a module"),
    }
}

/// Writes options into a copy of the module's image.
fn applied(
    rt: &impl Abort,
    alloc: Global,
    machine: &Machine,
    p: &Module,
) -> Result<Params, ParamFault> {
    let image = machine.image(b"p").expect(rt, "an image");
    let size = image_size(&p.object);
    holds(rt, image.len() as u128 == size);
    apply_params(alloc, p, BASE, image, b"depth=3 raw")
}

/// Stops unless the options are out of memory.
fn expect_memory(rt: &impl Abort, fault: &ParamFault) {
    holds(rt, matches!(fault, ParamFault::Memory));
}

/// Writes options into a copy of the module's image. If that is out of memory, the machine is as it
/// was before, and the options are written then.
fn applied_at_last(
    rt: &impl Abort,
    alloc: Global,
    machine: &Machine,
    p: &Module,
    before: &[u8],
) -> Params {
    match applied(rt, alloc, machine, p) {
        Ok(params) => params,
        Err(fault) => {
            expect_memory(rt, &fault);
            expect_shown(rt, alloc, machine, before);
            applied(rt, alloc, machine, p).expect(rt, "parameters")
        }
    }
}

fn parameters_change_nothing(rt: &impl Abort, alloc: Global, machine: &Machine, p: &Module) {
    let before = shown(rt, alloc, machine);
    let params = applied_at_last(rt, alloc, machine, p, before.as_slice());
    holds(rt, params.count == 2);
    expect_values(rt, params.image.as_bytes());
    expect_shown(rt, alloc, machine, before.as_slice());
}

#[test]
fn refused_parameters_change_nothing(rt: HostRuntime) {
    let p = module_p(&rt, rt.alloc());
    let machine = machine_of(&rt, rt.alloc(), &p);
    parameters_change_nothing(&rt, rt.alloc(), &machine, &p);
    drop(machine);
    drop(p);
}

/// Stops unless an image has the values, with the names behind them.
fn expect_values(rt: &impl Abort, image: &[u8]) {
    holds(rt, image.len() == 8192);
    let values = b"\x03\0\0\0\0\0\0\0\x01\0\0\0\0\0\0\0depth\0raw\0";
    same(rt, &image[4096..4122], values);
}
