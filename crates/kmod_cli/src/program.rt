// The program: the function that follows the course of its words, and those of its commands.
ghost use Rattle.std.specs.Prelude.{◌≡◌, ◌∷◌, ℕ, List, codes};
ghost use Rattle.outside_calls.specs.FilesSeen.{FilesSeen};
ghost use Rattle.km_course.specs.World.{world};
ghost use Rattle.km_course.specs.Carries.{Carries};
ghost use Rattle.command_builtin_alias.specs.BuiltinAlias.{builtin_alias_course};
ghost use Rattle.command_depmod.specs.Depmod.{depmod_course};
ghost use Rattle.command_modinfo.specs.Modinfo.{modinfo_course};
ghost use Rattle.command_modprobe.specs.Modprobe.{modprobe_course};
ghost use Rattle.command_static_nodes.specs.StaticNodes.{static_nodes_course};
ghost use Rattle.command_trial.specs.Trial.{trial_course};
ghost use Rattle.kmod_cli.specs.Extra.{Extra};
ghost use Rattle.kmod_cli.specs.Headline.{Headline};
ghost use Rattle.kmod_cli.specs.Indexes.{Indexes};
ghost use Rattle.kmod_cli.specs.Plans.{Plans};
ghost use Rattle.kmod_cli.specs.Program.{course, course_named};
ghost use Rattle.kmod_cli.specs.TakesBack.{TakesBack};

use crate::command::{Command, command_named};
use km_course::{End, Stop, conclude};
use km_names::Word;
use outside_calls::{Files, Out, Reads, Writes};
use std::alloc::Global;

/// Does all that the program does: carries out the course of the words, which are those after the
/// program's name, and answers the exit status.
///
/// Status 0 is done, 1 refused, 2 not understood, 3 a failed call on files, `out` or `err`, and 4
/// out of memory. All but 0 have a line on `err`, as far as it can be written.
///
/// The first word names the command. For `depmod` it indexes a tree or names the obstacle, as
/// [`depmod`] says. For `modprobe` it plans, its plan binds, and what it prints and writes is of
/// these loads, as [`modprobe`] says.
pub fn run<F: Files, O: Out, E: Out>(
    alloc: Global,
    words: &[Word],
    files: &mut F,
    out: &mut O,
    err: &mut E,
) -> u8
    ensures carries { Carries (course words.now)
        (world (F.seen files.old) (O.seen out.old) (E.seen err.old))
        (world (F.seen files.new) (O.seen out.new) (E.seen err.new)) result }
    ensures indexes { (rest : List (List ℕ)) → words.now ≡ codes "depmod" ∷ rest →
        Indexes rest (world (F.seen files.old) (O.seen out.old) (E.seen err.old))
        (world (F.seen files.new) (O.seen out.new) (E.seen err.new)) result }
    ensures extra { (rest : List (List ℕ)) → words.now ≡ codes "depmod" ∷ rest →
        Extra rest (world (F.seen files.old) (O.seen out.old) (E.seen err.old))
        (world (F.seen files.new) (O.seen out.new) (E.seen err.new)) result }
    ensures plans { (rest : List (List ℕ)) → words.now ≡ codes "modprobe" ∷ rest →
        Plans rest (world (F.seen files.old) (O.seen out.old) (E.seen err.old))
        (world (F.seen files.new) (O.seen out.new) (E.seen err.new)) result }
    ensures headline { (rest : List (List ℕ)) → words.now ≡ codes "modprobe" ∷ rest →
        Headline rest (world (F.seen files.old) (O.seen out.old) (E.seen err.old))
        (world (F.seen files.new) (O.seen out.new) (E.seen err.new)) result }
    ensures takes_back { (rest : List (List ℕ)) → words.now ≡ codes "modprobe" ∷ rest →
        TakesBack rest (world (F.seen files.old) (O.seen out.old) (E.seen err.old))
        (world (F.seen files.new) (O.seen out.new) (E.seen err.new)) result }
{
    match words {
        [] => command(alloc, None, words, files, out, err),
        [name, rest @ ..] => {
            let named = command_named(name.as_bytes());
            command(alloc, named, rest, files, out, err)
        }
    }
}

/// Does what `depmod` does with these words after its name, and answers the exit status, as [`run`]
/// does: indexes the modules of a kernel.
///
/// If it is done, it has replaced its files, or printed their texts with `-n`. They are exactly the
/// files of the tree in the folder, whose modules are all valid, over the kernel's table that is
/// named, and they decode. If it is refused, it names the first obstacle, such as the first bad
/// module or the cycle, and replaces no file. Whatever else stops it, it has replaced a first part
/// of its files, each whole. There are nine files, or eleven with `--extra`. The two more are the
/// index of the aliases that the kernel's modules.builtin.modinfo states, and the device nodes of
/// the tree's modules. depmod(8).
pub fn depmod<F: Files, O: Out, E: Out>(
    alloc: Global,
    words: &[Word],
    files: &mut F,
    out: &mut O,
    err: &mut E,
) -> u8
    ensures carries { Carries (depmod_course words.now)
        (world (F.seen files.old) (O.seen out.old) (E.seen err.old))
        (world (F.seen files.new) (O.seen out.new) (E.seen err.new)) result }
    ensures indexes { Indexes words.now
        (world (F.seen files.old) (O.seen out.old) (E.seen err.old))
        (world (F.seen files.new) (O.seen out.new) (E.seen err.new)) result }
    ensures extra { Extra words.now
        (world (F.seen files.old) (O.seen out.old) (E.seen err.old))
        (world (F.seen files.new) (O.seen out.new) (E.seen err.new)) result }
{
    let outcome = command_depmod::depmod(alloc, words, files, out, err);
    conclude(alloc, outcome, err)
}

/// Does what `modprobe` does with these words after its name, and answers the exit status, as
/// [`run`] does. It prints the plan for names and loads its modules into the modelled machine, or
/// only prints the plan, or prints what names stand for.
///
/// It lists no folder of modules, so that their paths come only from the index. If what it reads is
/// understood, it plans exactly if an order exists, and otherwise names the first obstacle.
///
/// The modules that it loads bind while tree and kernel are as depmod indexed them, no install
/// command is chosen, and the listed modules load. Then status 0 means that all modules of the plan
/// are loaded, and 1 that one of them finds no room or has a word that doesn't fit. The images that
/// it put and the lines that it printed are the loaded modules' own. modprobe(8).
///
/// With `-r` it takes modules out of the modelled machine of the listed ones, the youngest first,
/// and no step is refused. What is left is the machine without them. If the removed modules are the
/// ones that were loaded last, it is the machine from before.
pub fn modprobe<F: Writes, O: Out, E: Out>(
    alloc: Global,
    words: &[Word],
    files: &mut F,
    out: &mut O,
    err: &mut E,
) -> u8
    ensures carries { Carries (modprobe_course words.now)
        (world (F.seen files.old) (O.seen out.old) (E.seen err.old))
        (world (F.seen files.new) (O.seen out.new) (E.seen err.new)) result }
    ensures plans { Plans words.now
        (world (F.seen files.old) (O.seen out.old) (E.seen err.old))
        (world (F.seen files.new) (O.seen out.new) (E.seen err.new)) result }
    ensures headline { Headline words.now
        (world (F.seen files.old) (O.seen out.old) (E.seen err.old))
        (world (F.seen files.new) (O.seen out.new) (E.seen err.new)) result }
    ensures takes_back { TakesBack words.now
        (world (F.seen files.old) (O.seen out.old) (E.seen err.old))
        (world (F.seen files.new) (O.seen out.new) (E.seen err.new)) result }
{
    let outcome = command_modprobe::modprobe(alloc, words, files, out);
    conclude(alloc, outcome, err)
}

/// Does what the words after a command's name ask for.
fn command<F: Files, O: Out, E: Out>(
    alloc: Global,
    named: Option<Command>,
    words: &[Word],
    files: &mut F,
    out: &mut O,
    err: &mut E,
) -> u8
    ensures { Carries (course_named named words.now)
        (world (F.seen files.old) (O.seen out.old) (E.seen err.old))
        (world (F.seen files.new) (O.seen out.new) (E.seen err.new)) result }
{
    match named {
        Some(command) => match command {
            Command::Depmod => depmod(alloc, words, files, out, err),
            Command::Modinfo => modinfo(alloc, words, files, out, err),
            Command::Modprobe => modprobe(alloc, words, files, out, err),
            Command::Trial => trial(alloc, words, out, err),
            Command::StaticNodes => static_nodes(alloc, words, files, out, err),
            Command::BuiltinAlias => builtin_alias(alloc, words, files, out, err),
        },
        None => conclude(alloc, Err(Stop::from(End::NotUnderstood)), err),
    }
}

/// Does what `modinfo` does with these words after its name. modinfo(8).
fn modinfo<F: Reads, O: Out, E: Out>(
    alloc: Global,
    words: &[Word],
    files: &mut F,
    out: &mut O,
    err: &mut E,
) -> u8
    ensures { Carries (modinfo_course words.now)
        (world (F.seen files.old) (O.seen out.old) (E.seen err.old))
        (world (F.seen files.new) (O.seen out.new) (E.seen err.new)) result }
{
    let outcome = command_modinfo::modinfo(alloc, words, files, out);
    conclude(alloc, outcome, err)
}

/// Does what `trial` does with these words after its name: tries the tools on a tree that it makes
/// in memory. It makes no call on files.
fn trial<O: Out, E: Out>(alloc: Global, words: &[Word], out: &mut O, err: &mut E) -> u8
    ensures { (files : FilesSeen) → Carries (trial_course words.now)
        (world files (O.seen out.old) (E.seen err.old))
        (world files (O.seen out.new) (E.seen err.new)) result }
{
    let outcome = command_trial::trial(alloc, words, out);
    conclude(alloc, outcome, err)
}

/// Does what `static-nodes` does with these words after its name: prints the lines of the device
/// nodes in a kernel's modules.devname. kmod(8), "static-nodes".
fn static_nodes<F: Reads, O: Out, E: Out>(
    alloc: Global,
    words: &[Word],
    files: &mut F,
    out: &mut O,
    err: &mut E,
) -> u8
    ensures { Carries (static_nodes_course words.now)
        (world (F.seen files.old) (O.seen out.old) (E.seen err.old))
        (world (F.seen files.new) (O.seen out.new) (E.seen err.new)) result }
{
    let outcome = command_static_nodes::static_nodes(alloc, words, files, out);
    conclude(alloc, outcome, err)
}

/// Does what `builtin-alias` does with these words after its name: prints the built-in modules that
/// a name stands for.
fn builtin_alias<F: Reads, O: Out, E: Out>(
    alloc: Global,
    words: &[Word],
    files: &mut F,
    out: &mut O,
    err: &mut E,
) -> u8
    ensures { Carries (builtin_alias_course words.now)
        (world (F.seen files.old) (O.seen out.old) (E.seen err.old))
        (world (F.seen files.new) (O.seen out.new) (E.seen err.new)) result }
{
    let outcome = command_builtin_alias::builtin_alias(alloc, words, files, out);
    conclude(alloc, outcome, err)
}
