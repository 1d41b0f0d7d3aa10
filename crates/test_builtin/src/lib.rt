//! Tests of what is known of modules beside the tree: the fields and aliases of those that are
//! built into the kernel, and the device nodes that modules ask for.
//!
//! It builds on `builtin_index` and `devname_nodes`, on `index_write` for the bytes of an index,
//! and on `test_objects` for bytes in digits.
#![tactic(auto)]

#[cfg(test)]
mod aliases;
#[cfg(test)]
mod nodes;
