//! The table of the names that the kernel and the loaded modules of a machine export: for each name
//! its export, with its address and its owner.
//!
//! [`kernel_table`] makes the table of a kernel. The exports of a module are entered when it is
//! loaded, and taken out with it. By a table [`check_bindings`] tests the needs and the exports of
//! a module, and [`given_addresses`] gives the addresses of its undefined symbols.
//!
//! The crate uses `indexmap` and `name_table` for the table, `module_facts` for the facts of
//! modules, `kernel_exports` for those of kernels, `symbol_binding` for the tests of needs, which
//! the lines of modules.unmet share, `load_fault` for refusals, and `km_names` for names.
#![tactic(auto)]

mod bindings;
mod given;
mod kernel;
mod named;
mod needs;
mod placed;
mod standing;

pub use bindings::check_bindings;
pub use given::given_addresses;
pub use kernel::kernel_table;
pub use named::named_exports;
pub use placed::{PlacedExport, placed_exports};
pub use standing::{ExportTable, Named, Standing};
