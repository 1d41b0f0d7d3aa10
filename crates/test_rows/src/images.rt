// The bytes of an image.
use std::alloc::{AllocError, Global};

/// Returns the bytes of an image: zeros except for some bytes, each piece of them at a place, as
/// far as there is room. The only error is out of memory.
pub fn image(
    alloc: Global,
    length: usize,
    pieces: &[(usize, &[u8])],
) -> Result<Vec<u8>, AllocError> {
    let mut image = vec![in alloc; 0u8; length]?;
    for (at, piece) in pieces {
        put_piece(&mut image, *at, piece);
    }
    Ok(image)
}

/// Puts bytes at a place, as far as there is room.
fn put_piece(image: &mut Vec<u8>, at: usize, piece: &[u8]) {
    for (byte, new) in image.iter_mut().skip(at).zip(piece) {
        *byte = *new;
    }
}
