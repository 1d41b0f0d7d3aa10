use km_names::TreeIndex;

/// Who provides a name.
#[derive(Clone, Copy, Debug, PartialEq, Eq)]
pub enum Provider {
    /// Nobody does.
    Nobody,
    /// The kernel, or an unknown one.
    Kernel,
    /// The module at this place of the tree.
    Module(TreeIndex),
}
