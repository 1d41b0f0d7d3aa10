// Patches that are applied to an image.
ghost use Rattle.std.specs.Prelude.{◌≡◌};

use km_names::List;
use raw_image::Image;
use std::alloc::Global;
use std::process::Abort;
use x86_relocate::{Overflow, Patch, apply};

fn patch(entry: u32, at: usize, kind: u32, s: u64) -> Patch
    ensures place { result.at ≡ at }
    ensures kind { result.kind ≡ kind }
{
    Patch {
        section: 3,
        entry,
        at,
        kind,
        s,
        a: 0,
        p: 0,
    }
}

fn same(rt: &impl Abort, got: &[u8], want: &[u8]) {
    assert_eq!(rt; got, want);
}

/// The bytes after the first two patches.
static PATCHED: [u8; 16] = [0x0d, 0x0c, 0x0b, 0x0a, 8, 7, 6, 5, 4, 3, 2, 1, 0, 0, 0, 0];

/// Applies two patches.
fn expect_two(rt: &impl Abort, alloc: Global) {
    let words = [
        patch(0, 4, 1, 0x0102_0304_0506_0708),
        patch(1, 0, 10, 0x0a0b_0c0d),
    ];
    let mut image = Image::zeroed(alloc, 16).expect(rt, "an image");
    let Ok(words) = words.to_vec(alloc) else {
        panic!(rt; "no memory");
    };
    assert!(rt; apply(&mut image, &List::from_vec(words)).is_ok());
    same(rt, image.as_bytes(), &PATCHED);
}

/// Applies these, and one that is too wide.
fn expect_overflow(rt: &impl Abort, alloc: Global) {
    let words = [
        patch(0, 4, 1, 0x0102_0304_0506_0708),
        patch(1, 0, 10, 0x0a0b_0c0d),
        patch(2, 12, 10, 0x1_0000_0000),
    ];
    let mut image = Image::zeroed(alloc, 16).expect(rt, "an image");
    let Ok(words) = words.to_vec(alloc) else {
        panic!(rt; "no memory");
    };
    let overflow = Overflow {
        section: 3,
        entry: 2,
    };
    let answer = apply(&mut image, &List::from_vec(words));
    assert_eq!(rt; answer, Err(overflow));
    same(rt, image.as_bytes(), &PATCHED);
}

/// Checks that the patches before one that is too wide are applied, and no others.
#[test]
fn a_patch_that_is_too_wide_stops_the_pass(rt: HostRuntime) {
    expect_two(&rt, rt.alloc());
    expect_overflow(&rt, rt.alloc());
}
