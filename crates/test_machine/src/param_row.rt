// Modules of parameters that are written out, and what their options are to result in.

use km_names::{Blob, FILE_LIMIT, List, Name, PathText};
use model_loader::{Machine, Region};
use module_facts::{Module, read_module};
use param_apply::{ParamFault, Params, apply_params};
use provider_rel::Kernel;
use sha2::{Digest, Sha256};
use std::alloc::{AllocError, Global};
use std::process::Abort;
use tree_gen::{SheetParam, SheetParams, param_object};

/// The usual base of the region of modules.
const BASE: u64 = 0xffff_ffff_c000_0000;

/// Where in an image of a module of parameters the values begin.
const VALUES: usize = 4096;

/// A parameter, written out: its name and the name of its type.
pub(crate) type Row = (&'static [u8], &'static [u8]);

/// A place in an object, and the byte that is put there.
pub(crate) type Change = (usize, u8);

/// What options are to result in.
#[derive(Clone, Copy)]
pub(crate) enum Answer {
    /// So many parameters are named, and these bytes are where the values begin.
    Written(u32, &'static [u8]),
    /// The digest of the image.
    Digest(&'static str),
    /// The text of the refusal.
    Refused(&'static [u8]),
}

/// Returns the list of these parameters.
fn params_of(alloc: Global, rows: &[Row]) -> Result<SheetParams, AllocError> {
    let mut params = List::new(alloc);
    for (name, kind) in rows {
        params.push(SheetParam {
            name: Name::from_slice(alloc, name)?,
            kind: Name::from_slice(alloc, kind)?,
        })?;
    }
    Ok(params)
}

// Each call is in a function of its own that promises nothing: a test compares what the call
// answered, and its contract needn't be carried along.

fn object_of(rt: &impl Abort, alloc: Global, rows: &[Row]) -> Blob {
    let params = params_of(alloc, rows).expect(rt, "parameters");
    param_object(alloc, &params).expect(rt, "an object")
}

fn module_of(rt: &impl Abort, alloc: Global, bytes: Blob) -> Module {
    assert!(rt; bytes.len() <= FILE_LIMIT);
    let path = PathText::from_slice(alloc, b"kernel/p.ko").expect(rt, "a path");
    read_module(alloc, &path, bytes).expect(rt, "a module")
}

fn apply(
    rt: &impl Abort,
    alloc: Global,
    module: &Module,
    image: &[u8],
    options: &[u8],
) -> Result<Params, ParamFault> {
    let size = image_layout::image_size(&module.object);
    assert_eq!(rt; image.len() as u128, size);
    apply_params(alloc, module, BASE, image, options)
}

/// Returns a machine without a module.
fn machine(rt: &impl Abort, alloc: Global) -> Machine {
    let region = Region::new(BASE, 0x10_0000).expect(rt, "a region");
    let map = b"ffffffff81000000 T printk\n".as_slice();
    let kernel = Kernel::from_map(alloc, map).expect(rt, "a kernel");
    Machine::new(alloc, kernel, region).expect(rt, "a machine")
}

/// Returns the machine's own image of a module.
fn image_of(rt: &impl Abort, alloc: Global, module: &Module) -> Blob {
    let mut machine = machine(rt, alloc);
    machine.load(module).expect(rt, "a place");
    let image = machine.image(b"p").expect(rt, "an image");
    Blob::from_slice(alloc, image).expect(rt, "a copy")
}

fn same(rt: &impl Abort, got: &[u8], want: &[u8]) {
    assert_eq!(rt; got, want);
}

/// Returns the digest of an image, in hexadecimal digits.
fn digest_of(rt: &impl Abort, alloc: Global, image: &[u8]) -> String {
    hex::encode(alloc, Sha256::digest(image).as_slice()).expect(rt, "digits")
}

/// Checks that these bytes are where the values begin.
fn expect_values(rt: &impl Abort, image: &[u8], bytes: &[u8]) {
    assert!(rt; bytes.len() <= 64 && VALUES + bytes.len() <= image.len());
    same(rt, &image[VALUES..VALUES + bytes.len()], bytes);
}

/// Checks the digest of an image.
fn expect_digest(rt: &impl Abort, alloc: Global, image: &[u8], digest: &str) {
    same(
        rt,
        digest_of(rt, alloc, image).as_bytes(),
        digest.as_bytes(),
    );
}

/// Checks the text of a fault.
fn expect_text(rt: &impl Abort, alloc: Global, fault: &ParamFault, text: &[u8]) {
    same(rt, fault.text(alloc).expect(rt, "a text").as_bytes(), text);
}

/// Checks that the answer is the expected one.
fn expect_answer(
    rt: &impl Abort,
    alloc: Global,
    applied: &Result<Params, ParamFault>,
    wanted: &Answer,
) {
    match (applied, wanted) {
        (Ok(params), Answer::Written(count, bytes)) => {
            assert!(rt; params.count == *count);
            expect_values(rt, params.image.as_bytes(), bytes);
        }
        (Ok(params), Answer::Digest(digest)) => {
            expect_digest(rt, alloc, params.image.as_bytes(), digest);
        }
        (Err(fault), Answer::Refused(text)) => expect_text(rt, alloc, fault, text),
        _ => panic!(rt; "another answer"),
    }
}

/// Returns the bytes with some of them changed.
fn changed(rt: &impl Abort, bytes: Blob, changes: &[Change]) -> Blob {
    let mut bytes = bytes.into_vec().expect(rt, "bytes");
    for (place, byte) in changes {
        assert!(rt; *place < bytes.len());
        bytes[*place] = *byte;
    }
    Blob::from_vec(bytes)
}

/// Checks that each of the options has its answer, in the image that a machine has of the module of
/// these parameters, some bytes of whose object are changed.
pub(crate) fn expect_changed(
    rt: &impl Abort,
    alloc: Global,
    rows: &[Row],
    changes: &[Change],
    answers: &[(&'static [u8], Answer)],
) {
    let object = changed(rt, object_of(rt, alloc, rows), changes);
    let module = module_of(rt, alloc, object);
    let image = image_of(rt, alloc, &module);
    for (options, wanted) in answers {
        let applied = apply(rt, alloc, &module, image.as_bytes(), options);
        expect_answer(rt, alloc, &applied, wanted);
    }
}
