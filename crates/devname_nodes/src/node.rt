// Device nodes, and those of the modules of a tree.
ghost use Rattle.std.specs.Prelude.{◌≡◌, IfOk};
ghost use Rattle.devname_nodes.specs.Nodes.{node_of, nodes_of, is_comment};

use crate::alias::{first_device, first_number};
use km_names::{Blob, List, Name};
use module_facts::Facts;
use provider_rel::TreeFacts;
use std::alloc::{AllocError, Global};

/// A device node that a module makes.
#[derive(Debug, Drop)]
pub struct Node {
    /// The module's name.
    pub module: Name,
    /// The path of the node below `/dev`.
    pub device: Blob,
    /// Whether it is a block device. Otherwise it is a character device.
    pub block: bool,
    /// The device's major number.
    pub major: u32,
    /// The device's minor number.
    pub minor: u32,
}

/// Device nodes, in the order of the tree or of a file. Contracts see it as the list of its nodes.
pub type NodeList = List<Node>;

/// Returns whether a text begins as a comment.
pub(crate) fn is_comment(text: &[u8]) -> bool
    ensures { result ≡ is_comment text.now }
{
    !text.is_empty() && text[0] == b'#'
}

/// Returns the device nodes of the modules of a tree, in its order. A module has one if its name
/// doesn't begin with `#`, and its aliases have a device and a device number. The device is in a
/// `devname:DEVICE` whose DEVICE is a word of visible characters. The number is in a
/// `char-major-M-N` or a `block-major-M-N`, each part of 1 to 10 decimal digits and below 2^32. The
/// first of either counts. kmod's depmod, modules.devname.
#[tactic(auto, unfolding(crate::specs::Nodes::nodes_of))]
pub fn nodes(alloc: Global, tree: &TreeFacts) -> Result<NodeList, AllocError>
    ensures { IfOk result (λ list. list ≡ nodes_of tree.now) }
{
    let mut list = NodeList::new(alloc);
    for facts in tree.as_slice() {
        let made = node_of(alloc, facts)?;
        if let Some(node) = made {
            list.push(node)?;
        }
    }
    Ok(list)
}

/// Returns the node of a module, if it has one.
#[tactic(auto, unfolding(crate::specs::Nodes::node_of))]
fn node_of(alloc: Global, facts: &Facts) -> Result<Option<Node>, AllocError>
    ensures { IfOk result (λ node. node ≡ node_of facts.now) }
{
    if is_comment(facts.name.as_bytes()) {
        return Ok(None);
    }
    let aliases = facts.aliases.as_slice();
    match (first_device(aliases), first_number(aliases)) {
        (Some(device), Some(number)) => Ok(Some(Node {
            module: Name::from_slice(alloc, facts.name.as_bytes())?,
            device: Blob::from_slice(alloc, device)?,
            block: number.block,
            major: number.major,
            minor: number.minor,
        })),
        _ => Ok(None),
    }
}
