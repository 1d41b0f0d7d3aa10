// The lines of device nodes, and the text of modules.devname.
ghost use Rattle.std.specs.Prelude.{◌≡◌, ◌++◌, ◌∷◌, [], IfOk, OnOk};
ghost use Rattle.devname_nodes.specs.Line.{node_line};
ghost use Rattle.devname_nodes.specs.File.{node_lines, nodes_text};

use crate::{Node, NodeList};
use km_names::Blob;
use std::alloc::{AllocError, Global};

/// Returns the lines of nodes, in the order of the list. Each is a line `MODULE DEVICE TM:N` with T
/// being `c` or `b`, the numbers without leading zeros. Each ends with a line end.
pub fn node_lines(alloc: Global, nodes: &NodeList) -> Result<Blob, AllocError>
    ensures { IfOk result (λ text. text ≡ node_lines nodes.now) }
{
    let mut text = Blob::new(alloc);
    push_lines(alloc, &mut text, nodes)?;
    Ok(text)
}

/// Returns the text of modules.devname: a heading, and the lines of the nodes. kmod's depmod,
/// modules.devname.
#[tactic(auto, unfolding(crate::specs::File::nodes_text))]
pub fn nodes_text(alloc: Global, nodes: &NodeList) -> Result<Blob, AllocError>
    ensures { IfOk result (λ text. text ≡ nodes_text nodes.now) }
{
    let mut text = Blob::from_slice(
        alloc,
        b"# Device nodes to trigger on-demand module loading.\n",
    )?;
    push_lines(alloc, &mut text, nodes)?;
    Ok(text)
}

/// Puts a line for each node at the end.
fn push_lines(alloc: Global, text: &mut Blob, nodes: &NodeList) -> Result<(), AllocError>
    ensures { OnOk result (text.new ≡ text.old ++ node_lines nodes.now) }
{
    for node in nodes.as_slice() {
        push_line(alloc, text, node)?;
    }
    Ok(())
}

/// Puts the line of a node at the end.
#[tactic(auto, unfolding(crate::specs::Line::node_line))]
fn push_line(alloc: Global, text: &mut Blob, node: &Node) -> Result<(), AllocError>
    ensures { OnOk result (text.new ≡ text.old ++ (node_line node.now ++ 10 ∷ [])) }
{
    let (major, minor) = (node.major, node.minor);
    let number = format!(in alloc; "{major}:{minor}")?;
    text.extend(node.module.as_bytes())?;
    text.push(b' ')?;
    text.extend(node.device.as_bytes())?;
    text.push(b' ')?;
    text.push(if node.block { b'b' } else { b'c' })?;
    text.extend(number.as_bytes())?;
    text.push(b'\n')
}
