//! The exports of a kernel, by the tables that its build writes: System.map and Module.symvers.
//!
//! A Module.symvers states names with versions, and a System.map symbols with addresses. Each is
//! read line by line, up to its end or the first line that isn't understood. A `Kernel` has each
//! name once, as it is first exported. Addresses of a System.map can be added to it later.
//!
//! The crate uses `km_names` for lines and words, and `name_table` for tables of names.
#![tactic(auto)]

mod exports;
mod fault;
mod kernel;
mod lines;
mod map;
mod symvers;

pub use fault::KernelFault;
pub use kernel::{Kernel, KernelExport, KernelExports};
pub use map::SystemMap;
