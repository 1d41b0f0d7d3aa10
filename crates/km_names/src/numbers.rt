// Numbers as files have them, read at a place.
ghost use Rattle.std.specs.Prelude.{◌≡◌, ◌+◌, ◌≤◌, length};
ghost use Rattle.km_names.specs.Number.{be, le};

use byteorder::{BigEndian, ByteOrder, LittleEndian};

/// Returns the number in the 2 bytes from place `at`, the lowest first.
pub fn le_u16_at(bytes: &[u8], at: usize) -> u16
    requires { at + 2 ≤ length bytes.now }
    ensures { result ≡ le bytes.now at 2 }
{
    let rest = &bytes[at..];
    LittleEndian::read_u16(rest)
}

/// Returns the number in the 4 bytes from place `at`, the lowest first.
pub fn le_u32_at(bytes: &[u8], at: usize) -> u32
    requires { at + 4 ≤ length bytes.now }
    ensures { result ≡ le bytes.now at 4 }
{
    let rest = &bytes[at..];
    LittleEndian::read_u32(rest)
}

/// Returns the number in the 8 bytes from place `at`, the lowest first.
pub fn le_u64_at(bytes: &[u8], at: usize) -> u64
    requires { at + 8 ≤ length bytes.now }
    ensures { result ≡ le bytes.now at 8 }
{
    let rest = &bytes[at..];
    LittleEndian::read_u64(rest)
}

/// Returns the number in the 2 bytes from place `at`, the highest first.
pub fn be_u16_at(bytes: &[u8], at: usize) -> u16
    requires { at + 2 ≤ length bytes.now }
    ensures { result ≡ be bytes.now at 2 }
{
    let rest = &bytes[at..];
    BigEndian::read_u16(rest)
}

/// Returns the number in the 4 bytes from place `at`, the highest first.
pub fn be_u32_at(bytes: &[u8], at: usize) -> u32
    requires { at + 4 ≤ length bytes.now }
    ensures { result ≡ be bytes.now at 4 }
{
    let rest = &bytes[at..];
    BigEndian::read_u32(rest)
}
