// Dependency lines by what they name.
ghost use Rattle.std.specs.Prelude.{◌≡◌, ◌==◌, ◌&&◌, ◌⊎◌, ℕ, List, Bool, true, All, Some, None};
ghost use Rattle.std.specs.Prelude.{IfOk, IfErr, OnOk, drop, length, option_copied, option_map};
ghost use Rattle.std.specs.Prelude.{MatchOption, false};
ghost use Rattle.std.specs.List.{before_first, list_any};
ghost use Rattle.std.specs.Str.{bytes_eq};
ghost use Rattle.km_names.specs.Path.{module_name};
ghost use Rattle.index_read.specs.Contents.{contents};
ghost use Rattle.mod_tree.specs.DependencyLine.{own_path};
ghost use Rattle.dependency_lines.specs.GoodPaths.{AreKept, AreOwnGood, are_good_needs};
ghost use Rattle.dependency_lines.specs.GoodPaths.{begins_line, is_good};
ghost use Rattle.dependency_lines.specs.Modules.{is_line_of, is_well_formed, bad_among};
ghost use Rattle.dependency_lines.specs.Spaces.{IsAfterSpace};

use crate::fault::LineFault;
use crate::good_texts::{GoodTexts, hash_of, slot_of};
use crate::named_lines::Lines;
use crate::own_paths::OwnPaths;
use crate::path_name::{ends_with_name, has_name, is_plain, stem, write_name};
use index_read::{Index, plain};
use km_names::{Name, split_at_byte};
use memchr::memchr;
use mod_tree::{is_line_path, own_path};
use name_lookup::Indexes;
use std::alloc::{AllocError, Global};

/// Who knows which names modules.dep.bin has a value of.
pub(crate) trait KnownNames {
    /// Whether it has a value of the name.
    ghost has: { Self → List ℕ → Bool };

    fn has(&self, name: &[u8]) -> bool
        ensures { result ≡ has self.now name.now };
}

impl KnownNames for Index {
    ghost use Rattle.index_read.specs.Contents.{contents};
    ghost use Rattle.name_lookup.specs.Maps.{has_value};

    ghost has = { λ index. has_value (contents index.nodes) };

    fn has(&self, name: &[u8]) -> bool {
        plain::has_value(self, name)
    }
}

/// Returns whether modules.dep.bin has a value of the name, whose first value is the dependency
/// line of the module of this name. Each module that is needed has a value too. modules.dep(5).
pub fn well_formed(alloc: Global, name: &Name, indexes: &Indexes) -> Result<bool, AllocError>
    ensures { IfOk result
        (λ good. good ≡ is_well_formed (contents indexes.now.dep.nodes) name.now) }
{
    match plain::first_text(&indexes.dep, name.as_bytes()) {
        Some(line) => {
            let own = OwnPaths::none(alloc);
            let mut paths = GoodTexts::without_slots(alloc);
            let mut lists = GoodTexts::without_slots(alloc);
            let mut buffer = Vec::new(alloc);
            is_line(
                &own,
                &mut paths,
                &mut lists,
                &mut buffer,
                &indexes.dep,
                name.as_bytes(),
                line,
            )
        }
        None => Ok(false),
    }
}

/// Tests that each module that lines need is known. The modules of `own` are.
pub(crate) fn check_needs<K: KnownNames>(
    alloc: Global,
    known: &K,
    own: &OwnPaths<'_>,
    lines: &Lines<'_>,
) -> Result<(), LineFault>
    requires own { AreOwnGood (K.has known.now) own.now }
    requires begin { All (λ m. begins_line m.0 m.1.1 ≡ true) lines.now }
    ensures passed { OnOk result (bad_among (K.has known.now) lines.now ≡ None) }
    ensures err { IfErr result
        (λ fault. (fault ≡ LineFault.Memory)
        ⊎ (option_map LineFault.BadLine (bad_among (K.has known.now) lines.now) ≡ Some fault)) }
{
    let mut paths = GoodTexts::new(alloc)?;
    let mut lists = GoodTexts::new(alloc)?;
    let mut buffer = Vec::new(alloc);
    for place in 0..lines.len() {
        let needs = lines.needs(place);
        if !are_found_good(own, &mut paths, &mut lists, &mut buffer, known, needs)? {
            return Err(LineFault::BadLine {
                name: Name::from_slice(alloc, lines.name(place))?,
            });
        }
    }
    Ok(())
}

/// Returns the length of the path with which a text begins, if it begins as the dependency line of
/// the module of this name does.
pub(crate) fn own_length(line: &[u8], name: &[u8]) -> Option<usize>
    ensures { MatchOption result (begins_line name.now line.now ≡ false)
        (λ own. (begins_line name.now line.now ≡ true) × (own ≡ length (own_path line.now))) }
{
    let own = own_path(line)?;
    if names_module(own, name) {
        Some(own.len())
    } else {
        None
    }
}

/// Returns what follows the first space of a text, if there is one.
pub(crate) fn after_space(text: &[u8]) -> Option<&[u8]>
    ensures { IsAfterSpace text.now (option_copied result) }
{
    split_at_space(text).1
}

/// Returns whether a text is the dependency line of the module of this name, and each module that
/// it needs is known. Names that aren't as in their paths are written to a buffer, one after the
/// other.
fn is_line<'a, K: KnownNames>(
    own: &OwnPaths<'_>,
    paths: &mut GoodTexts<'a>,
    lists: &mut GoodTexts<'a>,
    buffer: &mut Vec<u8>,
    known: &K,
    name: &[u8],
    line: &'a [u8],
) -> Result<bool, AllocError>
    requires own { AreOwnGood (K.has known.now) own.now }
    requires paths { AreKept (is_good (K.has known.now)) paths.old.slots.items }
    requires lists { AreKept (are_good_needs (K.has known.now)) lists.old.slots.items }
    ensures good { IfOk result (λ good. good ≡ is_line_of (K.has known.now) name.now line.now) }
    ensures paths { OnOk result (AreKept (is_good (K.has known.now)) paths.new.slots.items) }
    ensures lists { OnOk result (AreKept (are_good_needs (K.has known.now)) lists.new.slots.items) }
{
    let Some(length) = own_length(line, name) else {
        return Ok(false);
    };
    are_found_good(own, paths, lists, buffer, known, &line[length + 1..])
}

/// Returns whether what follows the `:` of a line is a sequence of paths of known modules, as
/// [`are_good`] does. Many lines need the same modules in the same order, so the whole text is
/// looked for first.
fn are_found_good<'a, K: KnownNames>(
    own: &OwnPaths<'_>,
    paths: &mut GoodTexts<'a>,
    lists: &mut GoodTexts<'a>,
    buffer: &mut Vec<u8>,
    known: &K,
    needs: &'a [u8],
) -> Result<bool, AllocError>
    requires own { AreOwnGood (K.has known.now) own.now }
    requires paths { AreKept (is_good (K.has known.now)) paths.old.slots.items }
    requires lists { AreKept (are_good_needs (K.has known.now)) lists.old.slots.items }
    ensures good { IfOk result (λ good. good ≡ are_good_needs (K.has known.now) needs.now) }
    ensures paths { OnOk result (AreKept (is_good (K.has known.now)) paths.new.slots.items) }
    ensures lists { OnOk result (AreKept (are_good_needs (K.has known.now)) lists.new.slots.items) }
{
    let slot = slot_of(hash_of(needs));
    if lists.has(slot, needs) {
        return Ok(true);
    }
    if !are_good(own, paths, buffer, known, needs)? {
        return Ok(false);
    }
    lists.put(slot, needs);
    Ok(true)
}

/// Returns whether the module at a path has this name.
fn names_module(path: &[u8], name: &[u8]) -> bool
    ensures { result ≡ bytes_eq (module_name path.now) name.now }
{
    // Most files have a name and `.ko`, and no other `.`.
    ends_with_name(path, name) || has_name(stem(path), name)
}

/// Splits a text at its first space, if there is one: what comes before it, and what follows it.
fn split_at_space(text: &[u8]) -> (&[u8], Option<&[u8]>)
    ensures before { result.0.now ≡ before_first (λ b. b == 32) text.now }
    ensures after { IsAfterSpace text.now (option_copied result.1) }
{
    let (before, after) = split_at_byte(text, b' ');
    if before.len() < text.len() {
        (before, Some(after))
    } else {
        (before, None)
    }
}

/// Returns whether what follows the `:` of a line is a sequence of paths of known modules, maybe
/// none, with a space before each.
fn are_good<'a, K: KnownNames>(
    own: &OwnPaths<'_>,
    paths: &mut GoodTexts<'a>,
    buffer: &mut Vec<u8>,
    known: &K,
    needs: &'a [u8],
) -> Result<bool, AllocError>
    requires own { AreOwnGood (K.has known.now) own.now }
    requires kept { AreKept (is_good (K.has known.now)) paths.old.slots.items }
    ensures good { IfOk result (λ good. good ≡ are_good_needs (K.has known.now) needs.now) }
    ensures kept { OnOk result (AreKept (is_good (K.has known.now)) paths.new.slots.items) }
{
    let mut rest = needs;
    while !rest.is_empty() {
        if rest[0] != b' ' {
            return Ok(false);
        }
        let (path, after) = up_to_space(&rest[1..]);
        if !is_good(own, paths, buffer, known, path)? {
            return Ok(false);
        }
        rest = after;
    }
    Ok(true)
}

/// Returns the bytes before the first space of a text, and the rest, which begins with it.
fn up_to_space(text: &[u8]) -> (&[u8], &[u8])
    ensures before { result.0.now ≡ before_first (λ b. b == 32) text.now }
    ensures rest { result.1.now ≡ drop (length result.0.now) text.now }
{
    match memchr(b' ', text) {
        Some(place) => text.split_at(place),
        None => (text, &text[text.len()..]),
    }
}

/// Returns whether a text is the path of a known module. Most are those of lines themselves, or
/// were tested before.
fn is_good<'a, K: KnownNames>(
    own: &OwnPaths<'_>,
    paths: &mut GoodTexts<'a>,
    buffer: &mut Vec<u8>,
    known: &K,
    path: &'a [u8],
) -> Result<bool, AllocError>
    requires own { AreOwnGood (K.has known.now) own.now }
    requires kept { AreKept (is_good (K.has known.now)) paths.old.slots.items }
    ensures good { IfOk result (λ good. good ≡ is_good (K.has known.now) path.now) }
    ensures kept { OnOk result (AreKept (is_good (K.has known.now)) paths.new.slots.items) }
{
    let hash = hash_of(path);
    let slot = slot_of(hash);
    if own.has(hash, path) || paths.has(slot, path) {
        return Ok(true);
    }
    if !is_line_path(path) || !is_known(buffer, known, path)? {
        return Ok(false);
    }
    paths.put(slot, path);
    Ok(true)
}

/// Returns whether the module at a path is known. Most names are the same as in their paths, and
/// aren't copied.
fn is_known<K: KnownNames>(buffer: &mut Vec<u8>, known: &K, path: &[u8]) -> Result<bool, AllocError>
    ensures { IfOk result (λ there. there ≡ K.has known.now (module_name path.now)) }
{
    let text = stem(path);
    if is_plain(text) {
        return Ok(known.has(text));
    }
    write_name(buffer, path)?;
    Ok(known.has(buffer.as_slice()))
}
