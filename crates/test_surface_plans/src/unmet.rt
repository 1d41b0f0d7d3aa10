//! Lines of modules.unmet.

use crate::lists::path;
use crate::same::holds;
use km_names::ConfFault;
use std::alloc::Global;
use std::process::Abort;
use unmet_file::Unmet;

/// Reads the lines of a modules.unmet.
pub fn unmet_of(rt: &impl Abort, alloc: Global, text: &[u8]) -> Result<Unmet, ConfFault> {
    holds(rt, text.len() <= 67_108_864);
    Unmet::read(alloc, &path(rt, alloc, b"modules.unmet"), text)
}
