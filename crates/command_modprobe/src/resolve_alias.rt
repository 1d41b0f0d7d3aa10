// What names stand for: `modprobe -R`.
ghost use Rattle.std.specs.Prelude.{◌≡◌, ⊤, IfOk};
ghost use Rattle.km_course.specs.Course.{says_any};
ghost use Rattle.km_course.specs.FollowsOn.{FollowsOnFilesAndOut, FollowsOnOut};
ghost use Rattle.command_modprobe.specs.Parts.{prints_names};
ghost use Rattle.km_names.specs.Lines.{lines_text};
ghost use Rattle.command_modprobe.specs.Resolved.{resolves_alias};

use crate::basis::read_basis;
use km_course::{Stop, say_any};
use km_names::{Blob, Names};
use kmod_words::ModprobeWords;
use outside_calls::{Out, Reads};
use plan_builder::Request;
use stages_known::{Known, names_found};
use std::alloc::{AllocError, Global};

/// Prints the names of what each requested name stands for, one a line. Nothing is printed if a
/// name stands for nothing. modprobe(8), `--resolve-alias`.
pub(crate) fn resolve_alias<F: Reads, O: Out>(
    alloc: Global,
    asked: ModprobeWords,
    files: &mut F,
    out: &mut O,
) -> Result<(), Stop>
    ensures { FollowsOnFilesAndOut (resolves_alias asked)
        F.seen files.old files.new O.seen out.old out.new result }
{
    let basis = read_basis(alloc, asked, files)?;
    print_names(alloc, &basis.known, &basis.request, out)
}

/// Prints the names of what each name of a request stands for, by what is known.
fn print_names<O: Out>(
    alloc: Global,
    known: &Known,
    request: &Request,
    out: &mut O,
) -> Result<(), Stop>
    ensures { FollowsOnOut (prints_names request.now known.now) O.seen out.old out.new result }
{
    let names = names_found(
        alloc,
        known,
        request.use_blacklist,
        request.names.as_slice(),
    )?;
    say_names(alloc, &names, out)
}

/// Prints a line for each name.
fn say_names<O: Out>(alloc: Global, names: &Names, out: &mut O) -> Result<(), Stop>
    ensures { FollowsOnOut (says_any (lines_text names.now)) O.seen out.old out.new result }
{
    let text = lines_of_names(alloc, names)?;
    say_any(out, text.as_bytes())
}

/// Returns a line for each name.
fn lines_of_names(alloc: Global, names: &Names) -> Result<Blob, AllocError>
    ensures { IfOk result (λ text. text ≡ lines_text names.now) }
{
    let mut text = Blob::new(alloc);
    for name in names.as_slice() {
        text.extend(name.as_bytes())?;
        text.push(b'\n')?;
    }
    Ok(text)
}
