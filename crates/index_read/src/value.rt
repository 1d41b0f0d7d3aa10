// The values of an index, with and without their keys.
ghost use Rattle.std.specs.Prelude.{◌≡◌, ◌++◌, map, OnOk};
ghost use Rattle.index_format.specs.Node.{values};
ghost use Rattle.index_nodes.specs.Fields.{link_of, IsNodeOf};
ghost use Rattle.index_read.specs.Values.{found_values, shown_pairs};

use crate::room::Room;
use index_nodes::{Node, Nodes};
use km_names::{Blob, List};
use std::alloc::{AllocError, Global};
use std::mem::size_of;

/// A value of a key.
#[derive(Debug, Drop)]
pub struct Value {
    /// Its priority; a lower one comes first.
    pub priority: u32,
    /// Its text, without a NUL.
    pub text: Blob,
}

/// A key with one of its values.
#[derive(Debug, Drop)]
pub struct Pair {
    /// The bytes of the key.
    pub key: Blob,
    /// One of its values.
    pub value: Value,
}

/// A list of values.
pub type Values = List<Value>;

/// A list of keys, each with one of its values.
pub type Pairs = List<Pair>;

/// Puts the values of a node at the end, if there is room.
pub(crate) fn push_values(
    alloc: Global,
    nodes: &Nodes,
    node: &Node,
    found: &mut Vec<Value>,
    room: &mut Room,
) -> Result<(), AllocError>
    requires { IsNodeOf nodes.now node.now }
    ensures { OnOk result
        (found_values found.new.items
        ≡ found_values found.old.items ++ values nodes.now (link_of node.now)) }
{
    let mut next = nodes.first_value(node);
    while let Some(place) = next {
        let text = nodes.text(&place);
        room.take(size_of::<Value>())?;
        room.take(text.len())?;
        found.push(Value {
            priority: place.priority(),
            text: Blob::from_slice(alloc, text)?,
        })?;
        next = nodes.next_value(&place);
    }
    Ok(())
}

/// Puts the values of a node at the end, each with the node's key, if there is room.
pub(crate) fn push_pairs(
    alloc: Global,
    nodes: &Nodes,
    node: &Node,
    key: &[u8],
    found: &mut Vec<Pair>,
    room: &mut Room,
) -> Result<(), AllocError>
    requires { IsNodeOf nodes.now node.now }
    ensures { OnOk result
        (shown_pairs found.new.items
        ≡ shown_pairs found.old.items
        ++ map (λ v. (key.now, v)) (values nodes.now (link_of node.now))) }
{
    let mut next = nodes.first_value(node);
    while let Some(place) = next {
        let text = nodes.text(&place);
        room.take(size_of::<Pair>())?;
        room.take(key.len())?;
        room.take(text.len())?;
        found.push(Pair {
            key: Blob::from_slice(alloc, key)?,
            value: Value {
                priority: place.priority(),
                text: Blob::from_slice(alloc, text)?,
            },
        })?;
        next = nodes.next_value(&place);
    }
    Ok(())
}
