// Strings that end with a NUL.
ghost use Rattle.std.specs.Prelude.{◌≡◌, ◌+◌, ◌<◌, ◌≤◌, ◌==◌, length, map, Some, IfSome, IsNone};
ghost use Rattle.std.specs.Prelude.{option_copied};
ghost use Rattle.std.specs.Simd.Lanes.{mask_l};
ghost use Rattle.memchr.specs.Find.{IsFirst, IsFirstByte, Passes, is_byte};
ghost use Rattle.km_names.specs.Strings.{first_string, string_at};

use memchr::memchr;
use std::simd::prelude::*;

/// How many bytes are looked at together before a search. Nearly all names are shorter.
const NEAR: usize = 32;

/// Returns the string that the bytes begin with: those before the first NUL. The result is `None`
/// exactly if there is no NUL. gABI 4, "String Table".
#[inline(always)]
pub fn first_string(bytes: &[u8]) -> Option<&[u8]>
    ensures string { option_copied result ≡ first_string bytes.now }
    ensures shorter { IfSome result (λ string. length string.now < length bytes.now) }
{
    match first_nul(bytes) {
        Some(end) => Some(&bytes[..end]),
        None => None,
    }
}

/// Returns the string at the place `at` of a table of strings: the bytes from there up to the next
/// NUL. The result is `None` exactly if no NUL follows in the table. gABI 4, "String Table".
#[inline(always)]
pub fn string_at(table: &[u8], at: usize) -> Option<&[u8]>
    ensures string { option_copied result ≡ string_at table.now at }
    ensures shorter { IfSome result (λ string. at + length string.now < length table.now) }
{
    if table.len() <= at {
        return None;
    }
    first_string(&table[at..])
}

/// Returns the place of the first NUL. The result is `None` exactly if there is none.
#[inline(always)]
pub fn first_nul(bytes: &[u8]) -> Option<usize>
    ensures { IsFirstByte (is_byte 0) bytes.now result }
{
    match near_nul(bytes) {
        Some(place) => Some(place),
        None => memchr(0, bytes),
    }
}

/// Returns the place of the first NUL if it is near: one of the first 32 bytes. The result is
/// `None` if it isn't, and also if there are fewer bytes. It takes the same time for all bytes.
#[inline(always)]
pub fn near_nul(bytes: &[u8]) -> Option<usize>
    ensures first { IfSome result (λ place. IsFirstByte (is_byte 0) bytes.now (Some place)) }
    ensures near { 32 ≤ length bytes.now → IsFirst (Passes (is_byte 0) bytes.now) 0 32 result }
    ensures few { length bytes.now < 32 → IsNone result }
{
    if bytes.len() < NEAR {
        return None;
    }
    let found = nuls(u8x32::from_slice(bytes));
    if found == 0 {
        return None;
    }
    Some(found.trailing_zeros() as usize)
}

/// Returns which of the bytes are NUL, with a bit for each.
#[inline(always)]
fn nuls(bytes: u8x32) -> u64
    ensures { result ≡ mask_l (map (λ b. b == 0) bytes) }
{
    bytes.simd_eq(u8x32::splat(0)).to_bitmask()
}
