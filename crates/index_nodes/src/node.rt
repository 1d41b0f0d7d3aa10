// The nodes of a file, and their names.
use std::marker::Model;

/// The name of a node of a file: the offset that leads to it.
#[derive(Clone, Copy)]
pub struct NodeRef {
    pub(crate) link: u32,
}

impl Model for NodeRef {
    ghost use Rattle.std.specs.Prelude.{ℕ};

    ghost Value = { ℕ };

    ghost view = { λ r. r.link };

    ghost inverse = { λ n. record { link = n } };
}

/// A node that was read: the offset that leads to it, and where its children and its values are.
#[derive(Clone, Copy)]
pub struct Node {
    pub(crate) link: u32,
    pub(crate) children: usize,
    pub(crate) values: usize,
}
