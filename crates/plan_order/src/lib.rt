//! Orders of plans: which modules are loaded for some requests, and in which order.
//!
//! Modules are numbers from 0, as the items of `relation_order` are. A module needs two lists: the
//! modules that come before it, and the modules that are to come after it. A request is a list of
//! modules. The requests are served one after another, each by the least order of the modules that
//! it needs and that aren't in the plan yet. Then the modules that are to come after the plan's own
//! follow, in the plan's order. The definitions are about any relation, and compute.
//!
//! Only a planned module is asked for its needs. A plan takes time in proportion to the planned
//! modules and their needs, apart from sorting each request's modules and a few bytes for each
//! module there is. Nothing recurses. The crate builds on `relation_order`.
#![tactic(auto)]

mod group;
mod groups;
mod need_lists;
mod needs;
mod plan;

pub use need_lists::NeedLists;
pub use needs::{Needed, Needs, Planned, find_planned};
pub use plan::{GroupedOrder, PlanOrCycle, plan_or_cycle};
