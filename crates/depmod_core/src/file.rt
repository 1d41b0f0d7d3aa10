ghost use Rattle.std.specs.Prelude.{◌≡◌};
ghost use Rattle.depmod_core.specs.Files.{file_name};

/// The files that depmod makes, in the order in which they are replaced. modules.dep(5), depmod(8).
#[derive(Clone, Copy, Debug, PartialEq, Eq)]
pub enum OutputFile {
    /// What each module depends on.
    Dep,
    /// The index of modules.dep.
    DepBin,
    /// The aliases that modules state.
    Alias,
    /// The index of the aliases.
    AliasBin,
    /// The soft dependencies that modules state.
    Softdep,
    /// The symbols that modules export.
    Symbols,
    /// The index of the symbols.
    SymbolsBin,
    /// The index of the modules that are built into the kernel.
    BuiltinBin,
    /// The obstacles to loading modules; this project's own.
    Unmet,
}

impl OutputFile {
    /// Returns the file's name in the folder of the kernel's modules.
    pub fn name(self) -> &'static [u8]
        ensures { result.now ≡ file_name self }
    {
        match self {
            OutputFile::Dep => b"modules.dep",
            OutputFile::DepBin => b"modules.dep.bin",
            OutputFile::Alias => b"modules.alias",
            OutputFile::AliasBin => b"modules.alias.bin",
            OutputFile::Softdep => b"modules.softdep",
            OutputFile::Symbols => b"modules.symbols",
            OutputFile::SymbolsBin => b"modules.symbols.bin",
            OutputFile::BuiltinBin => b"modules.builtin.bin",
            OutputFile::Unmet => b"modules.unmet",
        }
    }
}
