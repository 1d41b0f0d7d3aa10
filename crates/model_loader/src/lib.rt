//! The modelled machine: a kernel's table of symbols with their addresses, a region of addresses
//! for modules, and the loaded modules, each with its image.
//!
//! [`Machine::load`] places a module at the lowest gap of the region. It binds the module's needs
//! to the exports of the kernel and of the modules before it, and writes the relocated words into
//! its image. Otherwise it answers the first of eight refusals, and the machine is as before.
//! Contracts see a machine as its kernel, its region and its entries, oldest first. They see a load
//! as the step that the definitions give. Every load keeps the machine sound: each strong need is
//! bound, no name is taken twice, and no two images overlap.
//!
//! The crate builds on `image_layout` for sizes, addresses and images, on `export_table` for the
//! table of exported names and the tests of needs by it, on `symbol_binding` for what a module
//! sees, and on `load_fault` for refusals. Whatever takes memory is done before the first change of
//! the machine.
#![tactic(auto)]

mod entry;
mod gap;
mod machine;
mod names;
mod parts;
mod prepare;
mod uses;

pub use entry::LoadedModule;
pub use image_layout::section_at;
pub use load_fault::{LoadFault, MachineFault};
pub use machine::{LoadedAt, Machine};
pub use module_region::Region;
