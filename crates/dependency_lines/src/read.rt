// The dependency lines of an index, as its walk gives them.
ghost use Rattle.std.specs.Prelude.{◌≡◌, ◌++◌, ◌∷◌, ◌⊎◌, ℕ, List, All, Some, None, true, false};
ghost use Rattle.std.specs.Prelude.{IfOk, IfErr, option_map};
ghost use Rattle.index_format.specs.Listing.{KeyValue};
ghost use Rattle.index_read.specs.Contents.{contents};
ghost use Rattle.name_lookup.specs.Maps.{has_value};
ghost use Rattle.dependency_lines.specs.GoodPaths.{begins_line};
ghost use Rattle.dependency_lines.specs.Modules.{bad_among, bad_name, first_values};
ghost use Rattle.dependency_lines.specs.Tables.{AreLines};

use crate::fault::LineFault;
use crate::line::{check_needs, own_length};
use crate::named_lines::Lines;
use crate::own_paths::OwnPaths;
use index_read::{FirstWalk, Index};
use km_names::Name;
use std::alloc::{AllocError, Global};
use std::marker::Model;

/// The dependency lines of an index, each under the name of the module whose path it begins with,
/// by the bytes of the names. Contracts see each name with its number and line.
///
/// The lines stay in the index, and the names are copied. Together they are no longer than the
/// lines: each name is part of its line, and no two names have the same line.
#[derive(Drop)]
pub struct DependencyLines<'a> {
    lines: Lines<'a>,
}

impl<'a> Model for DependencyLines<'a> {
    ghost use Rattle.std.specs.Prelude.{List};
    ghost use Rattle.index_format.specs.Listing.{KeyValue};
    ghost use Rattle.dependency_lines.specs.Tables.{AreLines};

    ghost Value = { List KeyValue };

    ghost view = { λ d. d.lines };

    ghost invariant = { λ d. AreLines d.lines };
}

impl<'a> DependencyLines<'a> {
    /// Reads the lines of an index. Whether they name modules that the index has is tested only if
    /// one of them doesn't begin with the path of its module. modules.dep(5).
    ///
    /// # Errors
    ///
    /// `BadLine` for the first name whose value isn't the dependency line of its module over names
    /// that the index has. Or `Memory`.
    pub fn read(alloc: Global, index: &'a Index) -> Result<DependencyLines<'a>, LineFault>
        ensures lines { IfOk result (λ lines. lines ≡ first_values (contents index.now.nodes)) }
        ensures err { IfErr result
            (λ fault. (fault ≡ LineFault.Memory)
            ⊎ (option_map LineFault.BadLine (bad_name (contents index.now.nodes))
            ≡ Some fault)) }
    {
        let mut lines = Lines::with_room(alloc, index.nodes.bytes().len())?;
        let mut walk = FirstWalk::start(alloc, index)?;
        while let Some(first) = walk.next()? {
            let Some(own) = own_length(first.text, walk.key()) else {
                return Err(bad_line(alloc, index, &lines, walk.key()));
            };
            lines.push(walk.key(), first.priority, own, first.text)?;
        }
        Ok(DependencyLines { lines })
    }

    /// Returns the lines.
    pub(crate) fn lines(&self) -> &Lines<'a>
        ensures same { result.now ≡ self.now }
        ensures are { AreLines self.now }
    {
        &self.lines
    }
}

/// Returns the first bad line, where each of these begins well and the next one, of this name,
/// doesn't.
fn bad_line(alloc: Global, index: &Index, lines: &Lines<'_>, name: &[u8]) -> LineFault
    requires { All (λ m. begins_line m.0 m.1.1 ≡ true) lines.now }
    ensures { (number : ℕ) (text : List ℕ) (rest : List KeyValue)
        → begins_line name.now text ≡ false
        → (result ≡ LineFault.Memory)
        ⊎ (option_map LineFault.BadLine
        (bad_among (has_value (contents index.now.nodes))
        (lines.now ++ (name.now, (number, text)) ∷ rest))
        ≡ Some result) }
{
    let own = OwnPaths::none(alloc);
    if let Err(fault) = check_needs(alloc, index, &own, lines) {
        return fault;
    }
    match Name::from_slice(alloc, name) {
        Ok(name) => LineFault::BadLine { name },
        Err(_) => LineFault::Memory,
    }
}
