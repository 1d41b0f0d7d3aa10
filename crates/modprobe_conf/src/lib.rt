//! The rules of modprobe.d(5): aliases, blacklists, options, commands to install and remove, and
//! soft dependencies, one rule for each line of the configuration files.
//!
//! The crate uses `km_names`, which joins the lines and names the first one that isn't understood.
#![tactic(auto)]

ghost use Rattle.std.specs.Prelude.{◌≡◌, ◌≤◌, ◌⊎◌, length, option_map, All, IfOk, IfErr};
ghost use Rattle.std.specs.Result.{result_err};
ghost use Rattle.km_names.specs.Limit.{file_limit};
ghost use Rattle.km_names.specs.Statements.{line_fault};
ghost use Rattle.modprobe_conf.specs.Rules.{rules_of};

mod rule;

use km_names::{ConfFault, ConfFiles, parse_files};
pub use rule::{Rule, Rules};
use std::alloc::Global;

/// Returns the rules of the files, one for each line that states something, in order: the files in
/// their order, and each file's lines. It answers `BadLine` with the first line that isn't
/// understood. Such a line has a command that isn't one of modprobe.d(5) known here, or too little
/// after it. modprobe.d(5).
pub fn parse(alloc: Global, files: &ConfFiles) -> Result<Rules, ConfFault>
    requires { All (λ file. length file.bytes ≤ file_limit) files.now }
    ensures ok { IfOk result (λ rules. rules_of files.now ≡ Ok rules) }
    ensures err { IfErr result (λ fault.
        (fault ≡ ConfFault.Memory)
        ⊎ (option_map line_fault (result_err (rules_of files.now)) ≡ Some fault)) }
{
    parse_files(alloc, files)
}
