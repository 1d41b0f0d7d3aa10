//! The stages that the commands share: the file of a module, an index, the modules of a kernel, the
//! kernel's table, and the files of a tool's configuration. The value of each stage is what it
//! read, and a single file is checked as soon as it is read. Otherwise the stage ends the command
//! with the line of its refusal.
//!
//! It builds on `km_course` for the relation between a call and its stage, and on the readers of
//! the formats.
#![tactic(auto)]

mod configuration;
mod index_file;
mod kernel_modules;
mod kernel_table;
mod module_file;

pub use configuration::{ListedFolder, Tool, read_configuration, stop_of_fault};
pub use index_file::read_index;
pub use kernel_modules::{KernelModules, modules_folder, path_listed, path_of_name, read_modules};
pub use kernel_table::{read_kernel, read_map, read_symvers, stop_of_table};
pub use module_file::read_sections;
