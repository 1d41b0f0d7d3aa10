// What modinfo shows of a module.
use km_names::{Blob, Name, PathText};
use modinfo_fields::fields;
use modinfo_tool::{ShowOptions, show};
use std::alloc::Global;
use std::process::Abort;

/// The fields of a module with two parameters, one of them without a text.
const TWO_PARAMETERS: &[u8] =
    b"license=GPL\0parm=depth:how deep\0parmtype=depth:int\0parmtype=raw:bool\0alias=fs-x\0";

/// The fields of a module whose parameters are described again and in parts.
const ODD_PARAMETERS: &[u8] =
    b"parmtype=late:int\0parm=x:text\0parmtype=x:\0parm=x:other\0parm=bare\0parm=late\0\
      parmtype=x:bool\0";

/// Fields with a key of more than 15 bytes, a key of 15, a piece that is only a key, and a
/// `filename`.
const LONG_KEYS: &[u8] =
    b"license=GPL\0\0\0lone\0author=A\0import_namespace=N\0a23456789012345=v\0filename=f\0";

/// A module's path and section, the key that is asked for if any, whether NULs end the lines, and
/// what is shown.
static SHOWN: [(&[u8], &[u8], Option<&[u8]>, bool, &[u8]); 12] = [
    (
        b"/m/a.ko",
        b"license=GPL\0",
        None,
        false,
        b"filename:       /m/a.ko\nlicense:        GPL\n",
    ),
    (
        b"/m/p.ko",
        TWO_PARAMETERS,
        None,
        false,
        b"filename:       /m/p.ko\n\
          license:        GPL\n\
          alias:          fs-x\n\
          parm:           depth:how deep (int)\n\
          parm:           raw:bool\n",
    ),
    (
        b"/m/p.ko",
        TWO_PARAMETERS,
        Some(b"parm"),
        true,
        b"depth:how deep (int)\0raw:bool\0",
    ),
    (
        b"/m/p.ko",
        TWO_PARAMETERS,
        Some(b"filename"),
        false,
        b"/m/p.ko\n",
    ),
    (
        b"/m/p.ko",
        TWO_PARAMETERS,
        Some(b"parmtype"),
        false,
        b"depth:int\nraw:bool\n",
    ),
    (b"/m/p.ko", TWO_PARAMETERS, Some(b"author"), false, b""),
    (b"/m/p.ko", b"", None, true, b"filename:       /m/p.ko\0"),
    (
        b"o",
        ODD_PARAMETERS,
        None,
        false,
        b"filename:       o\n\
          parm:           late: (int)\n\
          parm:           x:text ()\n\
          parm:           bare:\n",
    ),
    (
        b"o",
        ODD_PARAMETERS,
        Some(b"parm"),
        false,
        b"late: (int)\nx:text ()\nbare:\n",
    ),
    (
        b"k",
        LONG_KEYS,
        None,
        false,
        b"filename:       k\n\
          license:        GPL\n\
          lone:           \n\
          author:         A\n\
          import_namespace:N\n\
          a23456789012345:v\n\
          filename:       f\n",
    ),
    (b"k", LONG_KEYS, Some(b"lone"), false, b"\n"),
    (b"k", LONG_KEYS, Some(b"filename"), true, b"k\0"),
];

fn shown(
    rt: &impl Abort,
    alloc: Global,
    path: &[u8],
    section: &[u8],
    key: Option<&[u8]>,
    zero: bool,
) -> Blob {
    let field = match key {
        Some(key) => Some(Name::from_slice(alloc, key).expect(rt, "a key")),
        None => None,
    };
    let path = PathText::from_slice(alloc, path).expect(rt, "a path");
    let fields = fields(alloc, section).expect(rt, "fields");
    show(alloc, &path, &fields, &ShowOptions { field, zero }).expect(rt, "shown")
}

#[test]
fn texts_are_shown_byte_for_byte(rt: HostRuntime) {
    for (path, section, key, zero, want) in &SHOWN {
        let text = shown(&rt, rt.alloc(), path, section, *key, *zero);
        assert_eq!(rt; text.as_bytes(), *want);
    }
}
