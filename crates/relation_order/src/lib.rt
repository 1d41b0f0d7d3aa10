//! Relations between the items of a finite set: what walks reach, the least order of the items, and
//! the cycle that keeps a set from having an order. In an order each item comes after those that it
//! goes to.
//!
//! Items are numbers from 0. A relation has for each item the list of those that it goes to. A set
//! is a mark for each item, and its members count in rising order. Definitions are about any
//! relation on numbers, and compute. Code that lists an order or finds a cycle looks at each step
//! between members a fixed number of times. The closures of a relation without a cycle are made
//! from the closures of the items before. Nothing recurses. The crate uses only std, and its only
//! error is out of memory.
#![tactic(auto)]

mod closures;
mod components;
mod cycle;
mod distances;
mod graph;
mod laws;
mod order;
mod placed;
mod reach;

pub use closures::Closures;
pub use cycle::named_cycle;
pub use laws::{distance_is_shortest, spread_is_least, walks_reach};
pub use order::{OrderBuilder, least};
pub use placed::{OrderOrCycle, order_or_cycle};
pub use reach::{all_members, find_all, marked, reachable, unmarked};
