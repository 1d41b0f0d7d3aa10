//! The tree of a kernel's modules. For each module name it has the file that the search list puts
//! first, and it is in the order of the kernel's build. The crate also reads a module's own path
//! from a dependency line. depmod.d(5), "search"; modules.order; modules.dep(5).
//!
//! It uses `km_names` for names, lines and configuration files, and `memchr` for the ends of paths.
#![tactic(auto)]

mod chosen;
mod dependency_line;
mod listing;
mod places;
mod search;
mod tree;

pub use dependency_line::{is_line_path, line_path, own_path};
pub use search::{Search, parse_search};
pub use tree::{Tree, TreeFault, choose};
