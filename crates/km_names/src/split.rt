// A text split at a byte.
ghost use Rattle.std.specs.Prelude.{◌≡◌, ◌==◌};
ghost use Rattle.std.specs.List.{before_first, after_first};

use memchr::memchr;

/// Returns the bytes before the first that equals `byte`, and those after it. If there is no such
/// byte, returns all bytes and none.
pub fn split_at_byte(bytes: &[u8], byte: u8) -> (&[u8], &[u8])
    ensures before { result.0.now ≡ before_first (λ b. b == byte) bytes.now }
    ensures after { result.1.now ≡ after_first (λ b. b == byte) bytes.now }
{
    match memchr(byte, bytes) {
        Some(place) => (&bytes[..place], &bytes[place + 1..]),
        None => (bytes, &bytes[bytes.len()..]),
    }
}
