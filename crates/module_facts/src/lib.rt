//! The facts of a kernel module: its exports and needs with their versions, who may use the
//! exports, its aliases and its soft dependencies, or why it is refused.
//!
//! The crate uses `km_names`, `elf_object` for the object file, `module_symbols` for exports and
//! needs, and `modinfo_fields` for the texts of the section `.modinfo`. Facts own their contents,
//! and are small beside the file. `read_facts` keeps only them, `read_module` keeps the object too.
#![tactic(auto)]

mod checks;
mod facts;
mod fault;
mod module;
mod read;
mod seen;
mod texts;

pub use facts::Facts;
pub use fault::ModuleFault;
pub use module::Module;
pub use module_symbols::{Export, Exports, Need, Needs};
pub use read::{read_facts, read_module};
