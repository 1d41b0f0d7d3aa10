//! Who provides a symbol, what depends on what, and every obstacle, over the facts of a whole tree
//! and the exports of a kernel.
//!
//! The relation of a tree has:
//!
//! - who provides each name;
//! - what each module depends on, in an order in which each comes after what it depends on;
//! - the lines of modules.unmet.
//!
//! `symbol_binding` and `relation_order` define what these are. `kernel_exports` has the exports of
//! a kernel, and `module_facts` the facts of modules. Exported names are in one table of
//! `name_table`, in the order in which they are first exported.
#![tactic(auto)]

mod bindings;
mod doubles;
mod fault;
mod items;
mod provider;
mod relation;
mod unmet;

pub use fault::RelationFault;
pub use kernel_exports::{Kernel, KernelExport, KernelExports, KernelFault, SystemMap};
use km_names::List;
use module_facts::Facts;
pub use provider::Provider;
pub use relation::{Order, Relation};
pub use symbol_binding::{Obstacles, Unbound, agree};

/// The facts of the modules of a tree, in its order.
pub type TreeFacts = List<Facts>;
