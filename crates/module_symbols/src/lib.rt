//! What the symbols of a kernel module state: the symbols that it exports, with their versions and
//! namespaces, and those that it needs, with the versions that it was built against. The kernel's
//! include/linux/export.h and scripts/mod/modpost.c.
//!
//! An object that exports something has [`SymbolTables`]: for each [`Role`] a table with the first
//! symbol that states each name in it. The versions of needs are in sections of their own, which
//! are read into a list with a table of its names. [`named_bytes`] returns the bytes of such
//! sections.
//!
//! Names of symbols may share their bytes in a file, so a small file can have far more of them than
//! it has bytes. Only the names of needs and of exports are copied, and at most 4,096 bytes of any
//! other are hashed.
//!
//! The crate uses `elf_object` for symbols and sections, `km_names` for numbers and strings,
//! `name_table` for tables of names, `indexmap` for those of the names that symbols state, and
//! `memchr` for searches of short version lists.
#![tactic(auto)]

mod contents;
mod exports;
mod needs;
mod role;
mod stated_names;
mod tables;
mod version_list;
mod versions;
mod work;

pub use contents::{modinfo_bytes, named_bytes, section_contents};
pub use exports::{Export, Exports, exports_by, given_space, given_version};
pub use needs::{Need, Needs, read_needs};
pub use role::Role;
pub use tables::{SymbolTables, symbol_of, tables_of};
pub use versions::is_bad_list;
