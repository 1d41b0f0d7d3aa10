// What the lines of configuration files state.

ghost use Rattle.std.specs.Prelude.{◌≡◌, ◌≤◌, ◌++◌, ◌⊎◌, ℕ, List, Option, length, option_map, All};
ghost use Rattle.std.specs.Prelude.{IfOk, IfErr, OnOk};
ghost use Rattle.std.specs.Result.{result_err};
ghost use Rattle.km_names.specs.First.{first};
ghost use Rattle.km_names.specs.Limit.{file_limit};
ghost use Rattle.km_names.specs.Statements.{parsed, line_fault, bad_places, file_statements};

use crate::{ConfFault, ConfFile, ConfFiles, List as Items, PathText, conf_lines};
use std::alloc::{AllocError, Global};

/// What a line of a configuration file states.
pub trait Statement: Drop + Sized {
    /// Reads a text as a statement. It is `None` if the text isn't understood.
    ghost read: { List ℕ → Option Self };

    /// Reads the text of a line, which has no white space at either end.
    fn parse(alloc: Global, text: &[u8]) -> Result<Option<Self>, AllocError>
        ensures { IfOk result (λ statement. statement ≡ read text.now) };
}

/// Returns what configuration files state, one statement for each line, in order. It answers
/// `BadLine` with the first line that isn't understood, if there is one.
pub fn parse_files<S: Statement>(alloc: Global, files: &ConfFiles) -> Result<Items<S>, ConfFault>
    requires { All (λ file. length file.bytes ≤ file_limit) files.now }
    ensures ok { IfOk result (λ statements. parsed S.read files.now ≡ Ok statements) }
    ensures err { IfErr result (λ fault.
        (fault ≡ ConfFault.Memory)
        ⊎ (option_map line_fault (result_err (parsed S.read files.now)) ≡ Some fault)) }
{
    let mut statements = Items::new(alloc);
    for file in files.as_slice() {
        parse_file(alloc, file, &mut statements)?;
    }
    Ok(statements)
}

/// Puts the statements of a file at the end.
fn parse_file<S: Statement>(
    alloc: Global,
    file: &ConfFile,
    statements: &mut Items<S>,
) -> Result<(), ConfFault>
    requires { length file.now.bytes ≤ file_limit }
    ensures ok { OnOk result (first (bad_places S.read file.now) ≡ None) }
    ensures statements { OnOk result
        (statements.new ≡ statements.old ++ file_statements S.read file.now) }
    ensures err { IfErr result (λ fault.
        (fault ≡ ConfFault.Memory)
        ⊎ (option_map line_fault (first (bad_places S.read file.now)) ≡ Some fault)) }
{
    let lines = conf_lines(alloc, file.bytes.as_bytes())?;
    for line in lines.as_slice() {
        match S::parse(alloc, line.text.as_bytes())? {
            Some(statement) => statements.push(statement)?,
            None => {
                return Err(ConfFault::BadLine {
                    file: PathText::from_slice(alloc, file.path.as_bytes())?,
                    line: line.number,
                });
            }
        }
    }
    Ok(())
}
