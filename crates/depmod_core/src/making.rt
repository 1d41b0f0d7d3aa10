// The making of the files, one after the other.
ghost use Rattle.std.specs.Prelude.{◌≡◌, None, OnOk, IfOk, IfErr};
ghost use Rattle.depmod_core.specs.Files.{size_fault};
ghost use Rattle.depmod_core.specs.Making.{IsMaking, IsMade, IsFaultBy, AreMade, made_bytes};
ghost use Rattle.depmod_core.specs.Making.{text_in, map_in, first_fault};
ghost use Rattle.stated_texts.specs.Text.{with_piece};

use crate::built_in::built_in_map;
use crate::dependencies::{dep_map, put_dep_text};
use crate::index::index;
use crate::size::checked_length;
use crate::unmet::put_unmet_text;
use crate::{OutputFault, OutputFile, OutputFiles};
use index_write::KeyMap;
use km_names::Blob;
use provider_rel::{Relation, TreeFacts};
use stated_texts::{AllStated, StatedKind, Text, put_stated_text, stated_map};
use std::alloc::{AllocError, Global};

/// What the files are made from.
#[derive(Drop)]
pub(crate) struct Making<'s, 'a> {
    pub(crate) alloc: Global,
    pub(crate) relation: &'a Relation,
    pub(crate) tree: &'a TreeFacts,
    /// What the modules of the tree state.
    pub(crate) stated: &'s AllStated<'a>,
    /// The bytes of modules.builtin.
    pub(crate) builtin: &'a [u8],
}

impl Making<'_, '_> {
    /// Makes some of the files, one after the other, up to the first that would be too large.
    pub(crate) fn make_each(
        &self,
        which: &[OutputFile],
        made: &mut OutputFiles,
    ) -> Result<(), OutputFault>
        requires { IsMaking self.now }
        ensures ok { OnOk result (AreMade self.now made.old made.new which.now) }
        ensures err { IfErr result (λ fault. IsFaultBy (first_fault self.now which.now) fault) }
    {
        for file in which {
            let bytes = self.make(*file)?;
            made.set(*file, bytes);
        }
        Ok(())
    }

    /// Makes the bytes of a file, unless they are too many.
    fn make(&self, file: OutputFile) -> Result<Blob, OutputFault>
        requires { IsMaking self.now }
        ensures ok { IfOk result (λ bytes. IsMade self.now file bytes) }
        ensures err { IfErr result (λ fault.
            IsFaultBy (size_fault file (made_bytes self.now file)) fault) }
    {
        match self.map(file)? {
            Some(map) => index(self.alloc, file, &map),
            None => self.text(file),
        }
    }

    /// Returns the map of an index. A text has none.
    fn map(&self, file: OutputFile) -> Result<Option<KeyMap>, AllocError>
        requires { IsMaking self.now }
        ensures { IfOk result (λ map. map ≡ map_in self.now file) }
    {
        match file {
            OutputFile::DepBin => Ok(Some(dep_map(self.alloc, self.relation, self.tree)?)),
            OutputFile::AliasBin => Ok(Some(stated_map(
                self.alloc,
                StatedKind::Alias,
                self.tree,
                self.stated,
            )?)),
            OutputFile::SymbolsBin => Ok(Some(stated_map(
                self.alloc,
                StatedKind::Symbol,
                self.tree,
                self.stated,
            )?)),
            OutputFile::BuiltinBin => Ok(Some(built_in_map(self.alloc, self.builtin)?)),
            OutputFile::Dep
            | OutputFile::Alias
            | OutputFile::Softdep
            | OutputFile::Symbols
            | OutputFile::Unmet => Ok(None),
        }
    }

    /// Makes the bytes of a text, unless they are too many. It is measured before it is written.
    fn text(&self, file: OutputFile) -> Result<Blob, OutputFault>
        requires { IsMaking self.now }
        ensures ok { IfOk result (λ bytes. bytes ≡ text_in self.now file) }
        ensures passed { OnOk result (size_fault file (text_in self.now file) ≡ None) }
        ensures err { IfErr result (λ fault.
            IsFaultBy (size_fault file (text_in self.now file)) fault) }
    {
        let mut text = Text::with_capacity(self.alloc, self.length(file)?)?;
        self.put(&mut text, file)?;
        Ok(text.into_bytes(self.alloc))
    }

    /// Measures a text, unless it is too long.
    fn length(&self, file: OutputFile) -> Result<usize, OutputFault>
        requires { IsMaking self.now }
        ensures passed { OnOk result (size_fault file (text_in self.now file) ≡ None) }
        ensures err { IfErr result (λ fault.
            IsFaultBy (size_fault file (text_in self.now file)) fault) }
    {
        let mut measured = Text::measured();
        self.put(&mut measured, file)?;
        checked_length(self.alloc, file, &measured)
    }

    /// Puts the text of a file. An index has none.
    #[tactic(auto, unfolding(stated_texts::specs::Text::with_piece))]
    fn put(&self, text: &mut Text, file: OutputFile) -> Result<(), AllocError>
        requires { IsMaking self.now }
        ensures { OnOk result (text.new ≡ with_piece text.old (text_in self.now file)) }
    {
        match file {
            OutputFile::Dep => put_dep_text(text, self.relation, self.tree),
            OutputFile::Alias => put_stated_text(text, StatedKind::Alias, self.tree, self.stated),
            OutputFile::Softdep => put_stated_text(
                text,
                StatedKind::Softdep,
                self.tree,
                self.stated,
            ),
            OutputFile::Symbols => put_stated_text(
                text,
                StatedKind::Symbol,
                self.tree,
                self.stated,
            ),
            OutputFile::Unmet => put_unmet_text(text, self.relation.obstacles()),
            OutputFile::DepBin
            | OutputFile::AliasBin
            | OutputFile::SymbolsBin
            | OutputFile::BuiltinBin => Ok(()),
        }
    }
}
