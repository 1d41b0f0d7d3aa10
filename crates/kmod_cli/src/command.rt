ghost use Rattle.std.specs.Prelude.{◌≡◌};
ghost use Rattle.kmod_cli.specs.Program.{command_named};

/// A command of the program. Each has a course, which the words after its name decide.
#[derive(Clone, Copy)]
pub(crate) enum Command {
    /// Indexes the modules of a kernel. depmod(8).
    Depmod,
    /// Shows what modules say of themselves. modinfo(8).
    Modinfo,
    /// Plans and loads modules into the modelled machine, and prints what names stand for.
    /// modprobe(8).
    Modprobe,
    /// Prints the device nodes that depmod listed. kmod(8), "static-nodes".
    StaticNodes,
    /// Prints the built-in modules that a name stands for.
    BuiltinAlias,
    /// Makes a tree of modules in memory, indexes it and loads its modules there.
    Trial,
}

/// Returns the command of this name.
#[tactic(auto, unfolding(crate::specs::Program::command_named))]
pub(crate) fn command_named(word: &[u8]) -> Option<Command>
    ensures { result ≡ command_named word.now }
{
    if word == b"depmod".as_slice() {
        return Some(Command::Depmod);
    }
    if word == b"modinfo".as_slice() {
        return Some(Command::Modinfo);
    }
    if word == b"modprobe".as_slice() {
        return Some(Command::Modprobe);
    }
    if word == b"trial".as_slice() {
        return Some(Command::Trial);
    }
    if word == b"static-nodes".as_slice() {
        return Some(Command::StaticNodes);
    }
    if word == b"builtin-alias".as_slice() {
        return Some(Command::BuiltinAlias);
    }
    None
}
