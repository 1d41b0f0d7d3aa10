//! Configurations of one file, and their rules.
ghost use Rattle.std.specs.Prelude.{◌≡◌, ◌≤◌, [], ◌∷◌, length, All};
ghost use Rattle.km_names.specs.Limit.{file_limit};

use km_names::{ConfFault, ConfFile, ConfFiles, List};
use modprobe_conf::{Rules, parse};
use std::alloc::Global;
use std::process::Abort;
use test_objects::conf_file;

/// Returns a file of configuration.
fn configuration(rt: &impl Abort, alloc: Global, text: &[u8]) -> ConfFile
    ensures { length result.bytes ≤ file_limit }
{
    conf_file(alloc, b"/e/a.conf", text).expect(rt, "a file")
}

/// Makes a configuration of the one file `/e/a.conf`.
pub fn one_file(rt: &impl Abort, alloc: Global, text: &[u8]) -> ConfFiles
    ensures { All (λ file. length file.bytes ≤ file_limit) result }
{
    only(rt, alloc, configuration(rt, alloc, text))
}

/// Returns the list of one item.
fn only<T: Drop>(rt: &impl Abort, alloc: Global, item: T) -> List<T>
    ensures { result ≡ item ∷ [] }
{
    let mut list = List::new(alloc);
    list.push(item).expect(rt, "a list");
    list
}

/// Reads the rules of a configuration of one file.
pub fn rules_of(rt: &impl Abort, alloc: Global, text: &[u8]) -> Result<Rules, ConfFault> {
    let files = one_file(rt, alloc, text);
    parse(alloc, &files)
}
