// The obstacles to loading the modules of a tree.
use km_names::{List, Name, PathText};

/// An obstacle to loading a module of a tree: a line of modules.unmet. Paths are the tree's; the
/// kernel is written `vmlinux`.
#[derive(Debug, Drop)]
pub enum Unbound {
    /// The module at the path needs a symbol that nobody exports.
    Missing {
        path: PathText,
        symbol: Name,
    },
    /// The module needs a symbol that its provider exports only for GPL-compatible modules, and it
    /// isn't one.
    Gpl {
        path: PathText,
        symbol: Name,
        provider: PathText,
    },
    /// The module needs the symbol in another version than its provider's.
    Version {
        path: PathText,
        symbol: Name,
        provider: PathText,
    },
    /// The provider exports the symbol in a namespace that the module doesn't import.
    Namespace {
        path: PathText,
        symbol: Name,
        provider: PathText,
    },
    /// The symbol has two exporters: one that comes first, and a later module of the tree.
    Double {
        symbol: Name,
        first: PathText,
        second: PathText,
    },
}

/// The obstacles to loading modules of a tree, in the order of modules.unmet.
pub type Obstacles = List<Unbound>;
