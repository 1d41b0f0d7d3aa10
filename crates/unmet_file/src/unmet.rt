ghost use Rattle.std.specs.Prelude.{◌≡◌, ◌≤◌, ◌⊎◌, ◌↔◌, [], ◌∷◌, ◌++◌, Some, Ok, length, IsNone};
ghost use Rattle.std.specs.Prelude.{IfOk, IfErr, OnOk, OnErr, slice_get, option_copied, option_map};
ghost use Rattle.std.specs.Result.{result_err};
ghost use Rattle.km_names.specs.Limit.{file_limit};
ghost use Rattle.km_names.specs.Statements.{line_fault};
ghost use Rattle.unmet_file.specs.Unmet.{unmet_of};

use crate::line::read_line;
use km_names::{ConfFault, PathText, first_line};
use std::alloc::{AllocError, Global};
use std::marker::Model;
use symbol_binding::{Obstacles, Unbound};

/// The obstacles to loading modules of a tree, as modules.unmet lists them. Contracts see it as the
/// list of its lines. This file of `depmod` is this project's own. depmod(8) warns of missing
/// symbols and other versions with `-e`.
#[derive(Debug, Drop)]
pub struct Unmet {
    lines: Obstacles,
}

impl Model for Unmet {
    ghost use Rattle.std.specs.Prelude.{List};
    ghost use Rattle.symbol_binding.specs.declared.unbound.Unbound.{Unbound};

    ghost Value = { List Unbound };

    ghost view = { λ u. u.lines };
}

impl Unmet {
    /// Returns the empty list. It takes no memory.
    pub fn new(alloc: Global) -> Unmet
        ensures { result ≡ [] }
    {
        Unmet {
            lines: Obstacles::new(alloc),
        }
    }

    /// Returns the lines of a modules.unmet, whose path is `file`. Each line has one of these
    /// forms:
    /// - `missing PATH SYMBOL`
    /// - `gpl PATH SYMBOL PROVIDER`
    /// - `version PATH SYMBOL PROVIDER`
    /// - `namespace PATH SYMBOL PROVIDER`
    /// - `double SYMBOL FIRST SECOND`
    ///
    /// There is one space between words, which aren't empty and whose bytes are 33 to 126. It
    /// answers `BadLine` with the first line that has none of these forms. Blank lines are refused
    /// too.
    pub fn read(alloc: Global, file: &PathText, bytes: &[u8]) -> Result<Unmet, ConfFault>
        requires { length bytes.now ≤ file_limit }
        ensures ok { IfOk result (λ unmet. unmet_of file.now bytes.now ≡ Ok unmet) }
        ensures err { IfErr result (λ fault.
            (fault ≡ ConfFault.Memory)
            ⊎ (option_map line_fault (result_err (unmet_of file.now bytes.now)) ≡ Some fault)) }
    {
        let mut lines = Obstacles::new(alloc);
        let mut rest = bytes;
        let mut number = 1;
        while !rest.is_empty() {
            let (line, next) = first_line(rest);
            match read_line(alloc, line)? {
                Some(unbound) => lines.push(unbound)?,
                None => {
                    return Err(ConfFault::BadLine {
                        file: PathText::from_slice(alloc, file.as_bytes())?,
                        line: number,
                    });
                }
            }
            rest = next;
            number += 1;
        }
        Ok(Unmet { lines })
    }

    /// Puts a line at the end. If it is refused, the line is dropped and the list is as before.
    pub fn push(&mut self, line: Unbound) -> Result<(), AllocError>
        ensures ok { OnOk result (self.new ≡ self.old ++ line ∷ []) }
        ensures err { OnErr result (self.new ≡ self.old) }
    {
        self.lines.push(line)
    }

    /// Returns the line at place `i`, from 0.
    pub fn get(&self, i: usize) -> Option<&Unbound>
        ensures item { option_copied result ≡ slice_get self.now i }
        ensures past_end { IsNone result ↔ (length self.now ≤ i) }
    {
        self.lines.get(i)
    }

    /// Returns the number of lines.
    pub fn len(&self) -> usize
        ensures { result ≡ length self.now }
    {
        self.lines.len()
    }

    /// Returns the lines as a slice.
    pub fn as_slice(&self) -> &[Unbound]
        ensures { result.now ≡ self.now }
    {
        self.lines.as_slice()
    }
}
