// The contents of all files that depmod makes.
ghost use Rattle.std.specs.Prelude.{◌≡◌, ◌⊎◌, Ok, Err, IfOk, IfErr};
ghost use Rattle.symbol_binding.specs.Symbols.{Kernel};
ghost use Rattle.provider_rel.specs.Faces.{modules_of};
ghost use Rattle.provider_rel.specs.Seen.{IsRelation};
ghost use Rattle.provider_rel.specs.Tree.{IsTree};
ghost use Rattle.depmod_core.specs.Files.{content, outputs_of, IsRelationOf, StandFor};
ghost use Rattle.depmod_core.specs.Making.{with_content};

use crate::making::Making;
use crate::{OutputFault, OutputFile};
use km_names::Blob;
use provider_rel::{Relation, TreeFacts};
use stated_texts::AllStated;
use std::alloc::Global;

/// The files, in the order in which they are made and replaced.
const FILES: [OutputFile; 9] = [
    OutputFile::Dep,
    OutputFile::DepBin,
    OutputFile::Alias,
    OutputFile::AliasBin,
    OutputFile::Softdep,
    OutputFile::Symbols,
    OutputFile::SymbolsBin,
    OutputFile::BuiltinBin,
    OutputFile::Unmet,
];

/// The contents of the files that depmod makes, in the order in which they are replaced.
/// modules.dep(5), depmod(8).
#[derive(Debug, Drop)]
pub struct OutputFiles {
    /// modules.dep: for each module the modules on which it depends.
    pub dep: Blob,
    /// modules.dep.bin: the same, by the names of modules.
    pub dep_bin: Blob,
    /// modules.alias: the aliases that modules state.
    pub alias: Blob,
    /// modules.alias.bin: the names of the modules that state them, by normal forms of aliases.
    pub alias_bin: Blob,
    /// modules.softdep: the soft dependencies that modules state.
    pub softdep: Blob,
    /// modules.symbols: the symbols that modules export, as aliases.
    pub symbols: Blob,
    /// modules.symbols.bin: the names of the modules that export them.
    pub symbols_bin: Blob,
    /// modules.builtin.bin: the names of the modules that are built into the kernel.
    pub builtin_bin: Blob,
    /// modules.unmet: the obstacles to loading modules.
    pub unmet: Blob,
}

impl OutputFiles {
    /// Returns the bytes of one of the files.
    pub fn content(&self, file: OutputFile) -> &[u8]
        ensures { result.now ≡ content self.now file }
    {
        match file {
            OutputFile::Dep => self.dep.as_bytes(),
            OutputFile::DepBin => self.dep_bin.as_bytes(),
            OutputFile::Alias => self.alias.as_bytes(),
            OutputFile::AliasBin => self.alias_bin.as_bytes(),
            OutputFile::Softdep => self.softdep.as_bytes(),
            OutputFile::Symbols => self.symbols.as_bytes(),
            OutputFile::SymbolsBin => self.symbols_bin.as_bytes(),
            OutputFile::BuiltinBin => self.builtin_bin.as_bytes(),
            OutputFile::Unmet => self.unmet.as_bytes(),
        }
    }

    /// Returns the files without any bytes.
    fn empty(alloc: Global) -> OutputFiles {
        OutputFiles {
            dep: Blob::new(alloc),
            dep_bin: Blob::new(alloc),
            alias: Blob::new(alloc),
            alias_bin: Blob::new(alloc),
            softdep: Blob::new(alloc),
            symbols: Blob::new(alloc),
            symbols_bin: Blob::new(alloc),
            builtin_bin: Blob::new(alloc),
            unmet: Blob::new(alloc),
        }
    }

    /// Replaces the bytes of one of the files.
    pub(crate) fn set(&mut self, file: OutputFile, bytes: Blob)
        ensures { self.new ≡ with_content self.old file bytes }
    {
        match file {
            OutputFile::Dep => self.dep = bytes,
            OutputFile::DepBin => self.dep_bin = bytes,
            OutputFile::Alias => self.alias = bytes,
            OutputFile::AliasBin => self.alias_bin = bytes,
            OutputFile::Softdep => self.softdep = bytes,
            OutputFile::Symbols => self.symbols = bytes,
            OutputFile::SymbolsBin => self.symbols_bin = bytes,
            OutputFile::BuiltinBin => self.builtin_bin = bytes,
            OutputFile::Unmet => self.unmet = bytes,
        }
    }
}

/// Makes the files of depmod from a tree, with the tree's relation over a kernel, and from the
/// bytes of modules.builtin. The files represent what they are made of: each index its map, and
/// modules.unmet its lines. modules.dep(5), depmod(8).
///
/// # Errors
///
/// `OutputTooLarge` if a file would have more than 67,108,864 bytes. It has the name of the first
/// such file in the order of [`OutputFiles`], and how many bytes the file would have. That is known
/// before the bytes of the file are written. Or `Memory`.
pub fn outputs(
    alloc: Global,
    relation: &Relation,
    tree: &TreeFacts,
    builtin: &[u8],
) -> Result<OutputFiles, OutputFault>
    requires tree { IsTree tree.now }
    requires relation { IsRelationOf tree.now relation.now }
    ensures ok { IfOk result (λ files. (kernel : Kernel)
        → IsRelation (modules_of tree.now) kernel relation.now →
        outputs_of tree.now kernel builtin.now ≡ Ok files) }
    ensures err { IfErr result (λ fault. (fault ≡ OutputFault.Memory)
        ⊎ ((kernel : Kernel) → IsRelation (modules_of tree.now) kernel relation.now →
        outputs_of tree.now kernel builtin.now ≡ Err fault)) }
    ensures decode { IfOk result (λ files. (kernel : Kernel)
        → IsRelation (modules_of tree.now) kernel relation.now →
        StandFor tree.now kernel builtin.now files) }
{
    let stated = AllStated::new(alloc, tree)?;
    let making = Making {
        alloc,
        relation,
        tree,
        stated: &stated,
        builtin,
    };
    let mut made = OutputFiles::empty(alloc);
    making.make_each(&FILES, &mut made).and(Ok(made))
}
