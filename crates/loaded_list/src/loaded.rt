ghost use Rattle.std.specs.Prelude.{◌≡◌, ◌≤◌, ◌↔◌, [], ◌∷◌, ◌++◌, length, IsNone, IfOk, OnOk};
ghost use Rattle.std.specs.Prelude.{OnErr, slice_get, option_copied};
ghost use Rattle.loaded_list.specs.Loaded.{loaded_of, name_if_any};

use km_names::{Name, Names, first_line, split_word, trimmed};
use std::alloc::{AllocError, Global};
use std::marker::Model;

/// The names of loaded modules, the newest first. Contracts see it as the list of the names.
#[derive(Debug, Drop)]
pub struct Loaded {
    names: Names,
}

impl Model for Loaded {
    ghost use Rattle.std.specs.Prelude.{List, ℕ};

    ghost Value = { List (List ℕ) };

    ghost view = { λ l. l.names };
}

impl Loaded {
    /// Returns the empty list. It takes no memory.
    pub fn new(alloc: Global) -> Loaded
        ensures { result ≡ [] }
    {
        Loaded {
            names: Names::new(alloc),
        }
    }

    /// Returns the modules that a text in the form of /proc/modules lists: the first word of each
    /// line that isn't blank, in the order of the lines. The kernel lists the newest module first.
    /// White space is space, tab and carriage return. proc(5), `modules`.
    pub fn read(alloc: Global, bytes: &[u8]) -> Result<Loaded, AllocError>
        ensures { IfOk result (λ loaded. loaded ≡ loaded_of bytes.now) }
    {
        let mut names = Names::new(alloc);
        let mut rest = bytes;
        while !rest.is_empty() {
            let (line, next) = first_line(rest);
            push_name(alloc, &mut names, line)?;
            rest = next;
        }
        Ok(Loaded { names })
    }

    /// Puts a name at the end, as of the oldest module. If it is refused, the name is dropped and
    /// the list is as before.
    pub fn push(&mut self, name: Name) -> Result<(), AllocError>
        ensures ok { OnOk result (self.new ≡ self.old ++ name ∷ []) }
        ensures err { OnErr result (self.new ≡ self.old) }
    {
        self.names.push(name)
    }

    /// Returns the name at place `i`, from 0. The newest module is first.
    pub fn get(&self, i: usize) -> Option<&Name>
        ensures item { option_copied result ≡ slice_get self.now i }
        ensures past_end { IsNone result ↔ (length self.now ≤ i) }
    {
        self.names.get(i)
    }

    /// Returns the number of modules.
    pub fn len(&self) -> usize
        ensures { result ≡ length self.now }
    {
        self.names.len()
    }

    /// Returns the names as a slice.
    pub fn as_slice(&self) -> &[Name]
        ensures { result.now ≡ self.now }
    {
        self.names.as_slice()
    }
}

/// Puts the name that a line begins with at the end, unless the line is blank.
fn push_name(alloc: Global, names: &mut Names, line: &[u8]) -> Result<(), AllocError>
    ensures { OnOk result (names.new ≡ names.old ++ name_if_any line.now) }
{
    let text = trimmed(line);
    if text.is_empty() {
        return Ok(());
    }
    let (word, _) = split_word(text);
    names.push(Name::from_slice(alloc, word)?)
}
