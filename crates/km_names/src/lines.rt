// The lines of text files, and of configuration files.

ghost use Rattle.std.specs.Prelude.{◌≡◌, ◌+◌, ◌-◌, ◌<◌, ◌≤◌, ◌++◌, ◌∷◌, [], ℕ, length, IfOk, OnOk};
ghost use Rattle.std.specs.Prelude.{IsTrue};
ghost use Rattle.km_names.specs.Limit.{file_limit};
ghost use Rattle.km_names.specs.Lines.{lines_of, joined_lines, goes_on, statements, conf_lines};

use crate::space::trimmed;
use crate::{Blob, Line, Lines};
use memchr::memchr;
use std::alloc::{AllocError, Global};

/// Returns the first line of a text that isn't empty, without its line end, and what follows it.
pub fn first_line(text: &[u8]) -> (&[u8], &[u8])
    requires { 0 < length text.now }
    ensures lines { lines_of text.now ≡ result.0.now ∷ lines_of result.1.now }
    ensures shorter { length result.1.now < length text.now }
{
    match memchr(b'\n', text) {
        Some(place) => (&text[..place], &text[place + 1..]),
        None => (text, &text[text.len()..]),
    }
}

/// Returns the lines of a configuration file that state something, in order. Each has the number of
/// its first part in the file, from 1. A line whose last byte is `\` is joined with the next,
/// without the `\`. Then white space at either end is removed, and empty lines and those that begin
/// with `#` are left out. modprobe.d(5), depmod.d(5).
pub fn conf_lines(alloc: Global, bytes: &[u8]) -> Result<Lines, AllocError>
    requires { length bytes.now ≤ file_limit }
    ensures { IfOk result (λ lines. lines ≡ conf_lines bytes.now) }
{
    let mut lines = Lines::new(alloc);
    let mut rest = bytes;
    let mut number = 1;
    while !rest.is_empty() {
        let joined = first_joined(alloc, rest)?;
        push_statement(alloc, &mut lines, number, joined.text.as_bytes())?;
        number += joined.count;
        rest = joined.rest;
    }
    Ok(lines)
}

/// A joined line at the start of a text: its text, the number of lines it is made of, and what
/// follows it.
#[derive(Drop)]
struct Joined<'a> {
    text: Blob,
    count: u32,
    rest: &'a [u8],
}

fn first_joined(alloc: Global, text: &[u8]) -> Result<Joined<'_>, AllocError>
    requires some { 0 < length text.now }
    requires few { length text.now ≤ file_limit }
    ensures lines { IfOk result (λ joined. (number : ℕ) → joined_lines number (lines_of text.now)
        ≡ record { number = number; text = joined.text }
        ∷ joined_lines (number + joined.count) (lines_of joined.rest.now)) }
    ensures shorter { IfOk result (λ joined. length joined.rest.now < length text.now) }
    ensures count { IfOk result
        (λ joined. joined.count + length joined.rest.now ≤ length text.now) }
{
    let mut joined = Blob::new(alloc);
    let mut rest = text;
    let mut count = 0;
    while !rest.is_empty() {
        let (line, next) = first_line(rest);
        rest = next;
        count += 1;
        if !goes_on(line) {
            joined.extend(line)?;
            break;
        }
        joined.extend(&line[..line.len() - 1])?;
    }
    Ok(Joined {
        text: joined,
        count,
        rest,
    })
}

fn goes_on(line: &[u8]) -> bool
    ensures goes_on { result ≡ goes_on line.now }
    ensures some { IsTrue result → 0 < length line.now }
{
    line.ends_with(b"\\")
}

/// Puts the line at the end of the lines, trimmed, if it states something.
fn push_statement(
    alloc: Global,
    lines: &mut Lines,
    number: u32,
    text: &[u8],
) -> Result<(), AllocError>
    ensures ok { OnOk result (lines.new
        ≡ lines.old ++ statements (record { number = number; text = text.now } ∷ [])) }
{
    let text = trimmed(text);
    match text.first() {
        None => Ok(()),
        Some(b'#') => Ok(()),
        Some(_) => lines.push(Line {
            number,
            text: Blob::from_slice(alloc, text)?,
        }),
    }
}
