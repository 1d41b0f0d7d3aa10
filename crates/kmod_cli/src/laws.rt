// Laws.
ghost use Rattle.kmod_cli.specs.Halves.{HalvesMeet};
ghost use Rattle.kmod_cli.specs.Lookups.{LookupsMeet};

/// States that the two halves of the headline meet. First a depmod replaced its files in the folder
/// of the modules, by the table of a kernel, and is done. Then a modprobe loads over the files that
/// it left, with the same bytes as the kernel's table. It finds tree and kernel as they were
/// indexed. If its plan runs no command and the listed modules load, what it loads binds.
/// depmod(8), modprobe(8).
pub fn halves_meet()
    ensures { HalvesMeet }
{}

/// States what lookups answer over the files that a depmod with `--extra` left. The name that
/// `builtin-alias` is asked for prints exactly the built-in modules that state a matching alias,
/// each once, in the order in which modules are first seen. It isn't found exactly if there is
/// none. And `static-nodes` prints exactly the lines of the device nodes of the tree's modules.
/// kmod(8).
pub fn lookups_meet()
    ensures { LookupsMeet }
{}
