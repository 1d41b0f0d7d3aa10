// The names of modules, each with the module's number in the tree and its dependency line.
ghost use Rattle.std.specs.Prelude.{◌≡◌, ◌<◌, ◌++◌, ◌∷◌, [], length, OnOk};
ghost use Rattle.std.specs.Prelude.{◌==◌, true, IfOk};
ghost use Rattle.std.specs.List.{after_first, list_any};
ghost use Rattle.mod_tree.specs.DependencyLine.{own_path};
ghost use Rattle.dependency_lines.specs.Modules.{line_at, module_at, name_at, path_at};

use std::alloc::{AllocError, Global};
use std::marker::Model;

/// Where a module's name is in the buffer of names, with its number in the tree, and its dependency
/// line with the length of the path that it begins with.
#[derive(Clone, Copy)]
pub(crate) struct Line<'a> {
    start: u32,
    end: u32,
    number: u32,
    own: u32,
    text: &'a [u8],
}

/// The names of modules, each with the module's number in the tree and its dependency line. The
/// names are in one buffer, one after the other. Contracts see each name with its number and line.
#[derive(Drop)]
pub(crate) struct Lines<'a> {
    names: Vec<u8>,
    lines: Vec<Line<'a>>,
}

impl<'a> Model for Lines<'a> {
    ghost use Rattle.std.specs.Prelude.{List, All, map};
    ghost use Rattle.index_format.specs.Listing.{KeyValue};
    ghost use Rattle.dependency_lines.specs.Tables.{IsInside, line_in};

    ghost Value = { List KeyValue };

    ghost view = { λ l. map (line_in l.names.items) l.lines.items };

    ghost invariant = { λ l. All (IsInside l.names.items) l.lines.items };
}

impl<'a> Lines<'a> {
    /// Begins without names, with room for those of a file of this many bytes. In the files of a
    /// kernel a line has 130 bytes, and a name a tenth of them.
    pub(crate) fn with_room(alloc: Global, bytes: usize) -> Result<Self, AllocError>
        ensures { IfOk result (λ lines. lines ≡ []) }
    {
        Ok(Lines {
            names: Vec::with_capacity(alloc, bytes / 10)?,
            lines: Vec::with_capacity(alloc, bytes / 130)?,
        })
    }

    /// Puts a name with its number and line behind the others. The line begins with a path of this
    /// length, and has a `:` after it.
    ///
    /// # Errors
    ///
    /// Out of memory, also if the names together had 4 GiB, or a path.
    pub(crate) fn push(
        &mut self,
        name: &[u8],
        number: u32,
        own: usize,
        text: &'a [u8],
    ) -> Result<(), AllocError>
        requires own { own ≡ length (own_path text.now) }
        requires colon { list_any (λ b. b == 58) text.now ≡ true }
        ensures { OnOk result (self.new ≡ self.old ++ (name.now, (number, text.now)) ∷ []) }
    {
        let start = self.names.len();
        self.names.extend_from_slice(name)?;
        let end = self.names.len();
        if end > u32::MAX as usize || own > u32::MAX as usize {
            return Err(AllocError);
        }
        self.lines.push(Line {
            start: start as u32,
            end: end as u32,
            number,
            own: own as u32,
            text,
        })?;
        Ok(())
    }

    /// Returns how many names there are.
    pub(crate) fn len(&self) -> usize
        ensures { result ≡ length self.now }
    {
        self.lines.len()
    }

    /// Returns the name at a place.
    pub(crate) fn name(&self, place: usize) -> &[u8]
        requires { place < length self.now }
        ensures { result.now ≡ name_at self.now place }
    {
        let line = self.lines[place];
        &self.names[line.start as usize..line.end as usize]
    }

    /// Returns the number of the module at a place, and 0 past the last place.
    pub(crate) fn number(&self, place: usize) -> u32
        ensures { result ≡ (module_at self.now place).1.0 }
    {
        match self.lines.get(place) {
            Some(line) => line.number,
            None => 0,
        }
    }

    /// Returns the dependency line of the module at a place.
    pub(crate) fn text(&self, place: usize) -> &'a [u8]
        requires { place < length self.now }
        ensures { result.now ≡ line_at self.now place }
    {
        self.lines[place].text
    }

    /// Returns the path with which the line at a place begins.
    pub(crate) fn path(&self, place: usize) -> &'a [u8]
        requires { place < length self.now }
        ensures { result.now ≡ path_at self.now place }
    {
        let line = self.lines[place];
        &line.text[..line.own as usize]
    }

    /// Returns what follows the first `:` of the line at a place.
    pub(crate) fn needs(&self, place: usize) -> &'a [u8]
        requires { place < length self.now }
        ensures { result.now ≡ after_first (λ b. b == 58) (line_at self.now place) }
    {
        let line = self.lines[place];
        &line.text[line.own as usize + 1..]
    }
}
