//! What a depmod that is done leaves: a folder as it indexed it. Only laws.
//!
//! If a `depmod` replaces its files in the folder of the modules, by the table of a kernel, and is
//! done, it leaves the tree that it read. Each module of the tree is a valid file, and the folder
//! has the files that are made of the tree. A modprobe that has the kernel's table of a file of the
//! same bytes finds there what the laws on courses of loads ask for.
//!
//! The crate builds on `command_depmod` for the course of depmod, and on `stages_loads` for the
//! kernels of tables. It builds on `laws_indexed_folder` for folders as they were indexed, and on
//! `laws_planned_loads` for what a load asks for.
#![tactic(auto)]

mod laws;

pub use laws::{depmod_leaves_indexed, left_for_loads};
