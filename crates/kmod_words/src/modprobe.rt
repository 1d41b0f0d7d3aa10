// What modprobe is asked for.
ghost use Rattle.std.specs.Prelude.{T};
ghost use Rattle.kmod_words.specs.Modes.{goes_with};
ghost use Rattle.module_region.specs.Regions.{IsRegion};

use km_names::{Name, Names, PathText};

/// What `modprobe` is to do with the modules of the names.
#[derive(Clone, Copy, Debug, PartialEq, Eq)]
pub enum Mode {
    /// Load them.
    Load,
    /// Print the plan.
    DryRun,
    /// Print the plan as if no module were loaded.
    ShowDepends,
    /// Print what each name stands for.
    ResolveAlias,
    /// Take them out, or only print the steps of the removal.
    Remove { dry_run: bool },
}

/// What `modprobe` is asked for.
#[derive(Debug, Drop)]
pub struct ModprobeWords {
    /// What is to be done.
    pub mode: Mode,
    /// Whether every word is a name. Otherwise the words after the first are options of the module.
    pub all: bool,
    /// Whether the blacklist applies to names too.
    pub use_blacklist: bool,
    /// Whether install commands of the requested modules are ignored.
    pub ignore_install: bool,
    /// The root below which the modules are.
    pub dirname: PathText,
    /// The kernel's version, which names the folder of its modules.
    pub version: Name,
    /// The file or folder of configuration in place of the usual folders.
    pub config: Option<PathText>,
    /// The file that lists the loaded modules, in the form of /proc/modules.
    pub loaded: Option<PathText>,
    /// The System.map of the kernel, which is always given for a load or a removal.
    pub system_map: Option<PathText>,
    /// The Module.symvers of the kernel.
    pub symvers: Option<PathText>,
    /// Where the region begins in which modules are placed, a multiple of 4096.
    pub region_base: u64,
    /// How many bytes the region has, a multiple of 4096 and not 0. It ends at 2^64 at most.
    pub region_size: u64,
    /// The folder into which images are written. It is never given for a removal.
    pub image: Option<PathText>,
    /// Whether the options of each loaded module are applied to a copy of its image. It is given
    /// only for a load.
    pub params: bool,
    /// The name and all further words, at least one.
    pub words: Names,
    ghost pages: { IsRegion region_base region_size },
    pub ghost fits: { T (goes_with mode system_map image params) },
}
