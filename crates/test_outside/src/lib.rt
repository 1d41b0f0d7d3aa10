//! Tests of the world outside: files and outputs, in memory and real, over streams that move some
//! bytes a call or fail, and of a user's own types; and the calls that carry out the acts of a
//! course, with the lines of its ends.
//!
//! It builds on `km_outside`, and on `km_course` over files and outputs of `outside_calls` in
//! memory.
#![tactic(auto)]

#[cfg(test)]
mod courses;
#[cfg(test)]
mod one_file;
#[cfg(test)]
mod same;
#[cfg(test)]
mod streams;
#[cfg(test)]
mod world;
