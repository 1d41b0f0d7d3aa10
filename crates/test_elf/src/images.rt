// Images.
use raw_image::Image;
use std::alloc::Global;
use std::process::Abort;

fn same(rt: &impl Abort, got: &[u8], want: &[u8]) {
    assert_eq!(rt; got, want);
}

/// Checks an image of no bytes, which has no block.
fn expect_none(rt: &impl Abort, alloc: Global) {
    let mut none = Image::zeroed(alloc, 0).expect(rt, "an image");
    none.copy_in(0, b"");
    assert!(rt; none.as_bytes().len() == 0);
}

/// Makes each call once, with the eight bytes at a place that isn't a multiple of eight.
fn expect_words(rt: &impl Abort, alloc: Global) {
    let mut image = Image::zeroed(alloc, 11).expect(rt, "an image");
    same(rt, image.as_bytes(), &[0; 11]);
    image.copy_in(0, b"abcd");
    assert!(rt; image.as_bytes().len() == 11);
    image.put_u64(3, 0x0123_4567_89ab_cdef);
    same(rt, image.as_bytes(), b"abc\xef\xcd\xab\x89\x67\x45\x23\x01");
    assert!(rt; image.as_bytes().len() == 11);
    image.put_u32(7, 0x0a0b_0c0d);
    same(rt, image.as_bytes(), b"abc\xef\xcd\xab\x89\x0d\x0c\x0b\x0a");
}

#[test]
fn bytes_stand_where_they_are_put(rt: HostRuntime) {
    expect_words(&rt, rt.alloc());
    expect_none(&rt, rt.alloc());
}
