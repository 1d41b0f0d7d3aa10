//! Tests of relations: the order or the cycle of a small relation, its reach and its closures; the
//! orders of plans; kernel tables, the needs of a module over them, and the files of small trees;
//! and trees of two thousand modules, up to the limit of dependencies and past it, and a cycle.
//!
//! It builds on `plan_order`, `provider_rel` and `depmod_core`. The trees are made of facts,
//! without files.
#![tactic(auto)]

#[cfg(test)]
mod files;
#[cfg(test)]
mod kernels;
#[cfg(test)]
mod limits;
#[cfg(test)]
mod orders;
#[cfg(test)]
mod plan_orders;
