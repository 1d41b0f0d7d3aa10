//! Courses: what a command is to do, as a list of acts on the files and outputs with an end, and
//! what it means that a call did it.
//!
//! A stage is a part of a course. Each function above the traits follows a stage, and the lemmas of
//! this crate compose such functions. The crate uses `outside_calls`.
#![tactic(auto)]

mod conclusion;
mod end;
mod reading;
mod refusal;
mod stop;
mod writing;

pub use conclusion::{Conclusion, conclude, concluded};
pub use end::End;
pub use reading::{
    list_conf_needed, list_conf_optional, list_tree_needed, read_needed, read_needed_into,
    read_optional,
};
pub use refusal::Refusal;
pub use stop::Stop;
pub use writing::{put, say, say_any, warn};
