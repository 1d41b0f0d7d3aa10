// The device nodes that a modules.devname states.
ghost use Rattle.std.specs.Prelude.{◌≡◌, ◌≤◌, ◌⊎◌, Some, Ok, length, option_map, IfOk, IfErr};
ghost use Rattle.std.specs.Result.{result_err};
ghost use Rattle.km_names.specs.Limit.{file_limit};
ghost use Rattle.km_names.specs.Statements.{line_fault};
ghost use Rattle.devname_nodes.specs.File.{read_of};

use crate::NodeList;
use crate::line::{is_ignored, read_line};
use km_names::{ConfFault, PathText, first_line};
use std::alloc::Global;

/// Reads the nodes of a modules.devname, whose path is `file`. A line `MODULE DEVICE TM:N` states a
/// node, with one space between words that aren't empty and whose bytes are 33 to 126. MODULE
/// doesn't begin with `#`, T is `c` or `b`, and M and N are decimal numbers below 2^32 without
/// leading zeros. Blank lines and those that begin with `#` state none. It answers `BadLine` with
/// the first other line. kmod's depmod, modules.devname.
pub fn read_nodes(alloc: Global, file: &PathText, bytes: &[u8]) -> Result<NodeList, ConfFault>
    requires { length bytes.now ≤ file_limit }
    ensures ok { IfOk result (λ nodes. read_of file.now bytes.now ≡ Ok nodes) }
    ensures err { IfErr result (λ fault.
        (fault ≡ ConfFault.Memory)
        ⊎ (option_map line_fault (result_err (read_of file.now bytes.now)) ≡ Some fault)) }
{
    let mut nodes = NodeList::new(alloc);
    let mut rest = bytes;
    let mut number = 1;
    while !rest.is_empty() {
        let (line, next) = first_line(rest);
        let stated = read_line(alloc, line)?;
        match stated {
            Some(node) => nodes.push(node)?,
            None => {
                if !is_ignored(line) {
                    let path = PathText::from_slice(alloc, file.as_bytes())?;
                    return Err(ConfFault::BadLine {
                        file: path,
                        line: number,
                    });
                }
            }
        }
        rest = next;
        number += 1;
    }
    Ok(nodes)
}
