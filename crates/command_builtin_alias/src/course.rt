// The course of builtin-alias.
ghost use Rattle.std.specs.Prelude.{◌≡◌, ◌++◌, IfOk, OnOk};
ghost use Rattle.km_course.specs.FollowsOn.{FollowsOnFilesAndOut, Returns};
ghost use Rattle.command_builtin_alias.specs.BuiltinAlias.{builtin_alias_course, found_outcome};
ghost use Rattle.km_names.specs.Lines.{lines_text};
ghost use Rattle.command_builtin_alias.specs.BuiltinAlias.{shows_names};

use index_read::{Index, distinct_texts};
use km_course::{End, Refusal, Stop, say_any};
use km_names::{Blob, Name, Word, join, normal_alias};
use kmod_words::{BuiltinAliasWords, read_builtin_alias};
use name_table::NameSet;
use outside_calls::{Out, Reads};
use stages_files::{modules_folder, read_index};
use std::alloc::{AllocError, Global};

/// Does what the words after `builtin-alias` ask for: it prints the names of the built-in modules
/// that a name stands for.
pub fn builtin_alias<F: Reads, O: Out>(
    alloc: Global,
    words: &[Word],
    files: &mut F,
    out: &mut O,
) -> Result<(), Stop>
    ensures { FollowsOnFilesAndOut (builtin_alias_course words.now)
        F.seen files.old files.new O.seen out.old out.new result }
{
    match read_builtin_alias(alloc, words)? {
        Some(asked) => show_names(alloc, asked, files, out),
        None => Err(Stop::from(End::NotUnderstood)),
    }
}

/// Prints the names that are asked for.
fn show_names<F: Reads, O: Out>(
    alloc: Global,
    asked: BuiltinAliasWords,
    files: &mut F,
    out: &mut O,
) -> Result<(), Stop>
    ensures { FollowsOnFilesAndOut (shows_names asked)
        F.seen files.old files.new O.seen out.old out.new result }
{
    let folder = modules_folder(alloc, &asked.dirname, &asked.version)?;
    let file = join(alloc, &folder, b"modules.builtin.alias.bin")?;
    let index = read_index(alloc, file, files)?;
    let text = found_text(alloc, &index, &asked.name)?;
    say_any(out, text.as_bytes())
}

/// Returns the lines of the modules that a name stands for, unless it stands for none.
fn found_text(alloc: Global, index: &Index, name: &Name) -> Result<Blob, Stop>
    ensures { Returns (found_outcome index.now name.now) result }
{
    match normal_alias(alloc, name.as_bytes())? {
        Some(normal) => {
            let names = distinct_texts(alloc, index, normal.as_bytes())?;
            if names.len() == 0 {
                let name: Name = normal.into_kind();
                return Err(Stop::from(Refusal::NotFound { name }));
            }
            Ok(lines_of(alloc, &names)?)
        }
        None => {
            let name = Name::from_slice(alloc, name.as_bytes())?;
            Err(Stop::from(Refusal::NotFound { name }))
        }
    }
}

/// Writes a line for each name.
fn lines_of(alloc: Global, names: &NameSet) -> Result<Blob, AllocError>
    ensures { IfOk result (λ text. text ≡ lines_text names.now) }
{
    let mut text = Blob::new(alloc);
    for place in 0..names.len() {
        if let Some(name) = names.get(place) {
            text.extend(name)?;
            text.push(b'\n')?;
        }
    }
    Ok(text)
}
