// The files that depmod leaves.
ghost use Rattle.std.specs.Prelude.{◌≡◌};
ghost use Rattle.command_depmod.specs.Files.{content, file_name};

use depmod_core::{OutputFile, OutputFiles};
use km_names::Blob;

/// A file that depmod leaves. modules.dep(5), depmod(8).
#[derive(Clone, Copy)]
pub enum DepmodFile {
    /// One of the nine that it always makes.
    Usual(OutputFile),
    /// The index of the aliases of built-in modules, which `--extra` adds.
    BuiltinAliasBin,
    /// The device nodes of modules, which `--extra` adds.
    Devname,
}

impl DepmodFile {
    /// Returns the file's name in the folder of the kernel's modules.
    pub(crate) fn name(self) -> &'static [u8]
        ensures { result.now ≡ file_name self }
    {
        match self {
            DepmodFile::Usual(file) => file.name(),
            DepmodFile::BuiltinAliasBin => b"modules.builtin.alias.bin",
            DepmodFile::Devname => b"modules.devname",
        }
    }
}

/// The contents of the files that `--extra` adds, in the order in which they are replaced.
#[derive(Drop)]
pub struct ExtraFiles {
    /// modules.builtin.alias.bin: the names of built-in modules, by normal forms of their aliases.
    pub builtin_alias_bin: Blob,
    /// modules.devname: the device nodes that modules ask for.
    pub devname: Blob,
}

/// The contents of the files that depmod leaves.
#[derive(Drop)]
pub struct DepmodFiles {
    /// The nine that it always makes.
    pub usual: OutputFiles,
    /// Those that `--extra` adds.
    pub extra: Option<ExtraFiles>,
}

impl DepmodFiles {
    /// Returns the bytes of one of the files. One that isn't made has none.
    pub(crate) fn content(&self, file: DepmodFile) -> &[u8]
        ensures { result.now ≡ content self.now file }
    {
        match file {
            DepmodFile::Usual(file) => self.usual.content(file),
            DepmodFile::BuiltinAliasBin => match &self.extra {
                Some(extra) => extra.builtin_alias_bin.as_bytes(),
                None => b"",
            },
            DepmodFile::Devname => match &self.extra {
                Some(extra) => extra.devname.as_bytes(),
                None => b"",
            },
        }
    }
}
