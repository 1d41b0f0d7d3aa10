use km_names::{Blob, Names};

/// What is to be planned. modprobe(8).
#[derive(Drop)]
pub struct Request {
    /// The names that are looked up, in order.
    pub names: Names,
    /// Parameters for the modules that the names stand for, or empty for none.
    pub options: Blob,
    /// Blacklisted names are dropped from whatever is found, and not only from modules' own
    /// aliases.
    pub use_blacklist: bool,
    /// Commands of install rules aren't run for the modules that the names stand for.
    pub ignore_install: bool,
}
