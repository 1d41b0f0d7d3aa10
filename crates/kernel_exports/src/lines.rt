// The lines of a table of a kernel.
ghost use Rattle.std.specs.Prelude.{◌≡◌, ◌≤◌, ◌⊎◌, ℕ, List, Option, Some, None, option_map, length};
ghost use Rattle.std.specs.Prelude.{IfOk, IfErr, OnOk};
ghost use Rattle.km_names.specs.Limit.{file_limit};
ghost use Rattle.km_names.specs.Space.{is_space};
ghost use Rattle.kernel_exports.specs.TableLines.{is_blank, refused_line, stated};

use crate::KernelFault;
use km_names::first_line;
use std::alloc::Global;

/// What a line of a table states.
pub(crate) trait TableLine<'a>: Drop + Sized {
    /// What a line states, or none if it isn't understood. A blank line states nothing.
    ghost read: { List ℕ → Option Self };

    /// Reads a line.
    fn parse(line: &'a [u8]) -> Option<Self>
        ensures { result ≡ read line.now };
}

/// Reads what the lines of a table state, in order, unless one is refused.
pub(crate) fn read_lines<'a, L: TableLine<'a>>(
    alloc: Global,
    bytes: &'a [u8],
) -> Result<Vec<L>, KernelFault>
    requires { length bytes.now ≤ file_limit }
    ensures ok { IfOk result (λ lines. lines.items ≡ stated L.read bytes.now) }
    ensures short { IfOk result (λ lines. length lines.items ≤ length bytes.now) }
    ensures passed { OnOk result (refused_line L.read bytes.now ≡ None) }
    ensures err { IfErr result (λ fault. (fault ≡ KernelFault.Memory)
        ⊎ (option_map KernelFault.BadKernelLine (refused_line L.read bytes.now) ≡ Some fault)) }
{
    let mut lines = Vec::new(alloc);
    let mut rest = bytes;
    let mut number = 1;
    while !rest.is_empty() {
        let (line, next) = first_line(rest);
        match L::parse(line) {
            Some(read) => lines.push(read)?,
            None => {
                if !is_blank(line) {
                    return Err(KernelFault::BadKernelLine { line: number });
                }
            }
        }
        rest = next;
        number += 1;
    }
    Ok(lines)
}

/// Returns whether a line has only white space.
fn is_blank(line: &[u8]) -> bool
    ensures { result ≡ is_blank line.now }
{
    line.iter().all(|byte| is_space(*byte))
}

fn is_space(byte: u8) -> bool
    ensures { result ≡ is_space byte }
{
    byte == b' ' || byte == b'\t' || byte == b'\r'
}
