// The lines of modules.devname.
ghost use Rattle.std.specs.Prelude.{◌≡◌, IfOk};
ghost use Rattle.devname_nodes.specs.Line.{kind_of, device_word, line_node, is_ignored};

use crate::Node;
use crate::node::is_comment;
use crate::number::plain_numbers;
use km_names::{Blob, Name, trimmed};
use std::alloc::{AllocError, Global};
use unmet_file::three_words;

/// Returns the node that a line states, if it states one.
#[tactic(auto, unfolding(crate::specs::Line::line_node))]
pub(crate) fn read_line(alloc: Global, line: &[u8]) -> Result<Option<Node>, AllocError>
    ensures { IfOk result (λ node. node ≡ line_node line.now) }
{
    let Some((module, device, last)) = three_words(line) else {
        return Ok(None);
    };
    if is_comment(module) {
        return Ok(None);
    }
    match device_word(last) {
        Some((block, (major, minor))) => Ok(Some(Node {
            module: Name::from_slice(alloc, module)?,
            device: Blob::from_slice(alloc, device)?,
            block,
            major,
            minor,
        })),
        None => Ok(None),
    }
}

/// Returns whether a line is ignored: it is a comment, or blank.
pub(crate) fn is_ignored(line: &[u8]) -> bool
    ensures { result ≡ is_ignored line.now }
{
    is_comment(line) || trimmed(line).is_empty()
}

/// Returns the kind and the numbers of the last word of a line.
fn device_word(text: &[u8]) -> Option<(bool, (u32, u32))>
    ensures { result ≡ device_word text.now }
{
    let block = kind_of(*text.first()?)?;
    let numbers = plain_numbers(&text[1..])?;
    Some((block, numbers))
}

/// Returns whether the letter means a block device, if it means a block or a character device.
fn kind_of(letter: u8) -> Option<bool>
    ensures { result ≡ kind_of letter }
{
    match letter {
        b'b' => Some(true),
        b'c' => Some(false),
        _ => None,
    }
}
