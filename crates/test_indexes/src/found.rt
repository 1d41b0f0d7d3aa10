// What a name stands for.
ghost use Rattle.std.specs.Prelude.{◌≤◌, length, All, IfOk};
ghost use Rattle.km_names.specs.Limit.{file_limit};

use index_read::Index;
use km_names::{Blob, ConfFiles, Name};
use modprobe_conf::{Rules, parse};
use name_lookup::{Found, Indexes, resolve};
use std::alloc::{AllocError, Global};
use std::process::Abort;
use test_objects::{RowFault, conf_file};

/// Returns the bytes of an index file of one key with one value, or of none.
fn file_of(alloc: Global, entry: Option<(&[u8], &[u8])>) -> Result<Blob, AllocError> {
    let mut file = Blob::from_slice(alloc, &[0xb0, 0x07, 0xf4, 0x57, 0, 2, 0, 1])?;
    match entry {
        // A root with a prefix and one value: of priority 1.
        Some((key, text)) => {
            file.extend(&[0xc0, 0, 0, 12])?;
            file.extend(key)?;
            file.extend(&[0, 0, 0, 0, 1, 0, 0, 0, 1])?;
            file.extend(text)?;
            file.push(0)?;
        }
        None => file.extend(&[0, 0, 0, 12])?,
    }
    Ok(file)
}

/// Returns that index.
fn index_of(rt: &impl Abort, alloc: Global, entry: Option<(&[u8], &[u8])>) -> Index {
    let file = file_of(alloc, entry).expect(rt, "a file");
    Index::adopt(alloc, file).expect(rt, "an index")
}

fn one_file(alloc: Global, text: &[u8]) -> Result<ConfFiles, RowFault>
    ensures { IfOk result (λ files. All (λ file. length file.bytes ≤ file_limit) files) }
{
    let mut files = ConfFiles::new(alloc);
    files.push(conf_file(alloc, b"f", text)?)?;
    Ok(files)
}

fn rules_of(rt: &impl Abort, alloc: Global, text: &[u8]) -> Rules {
    let files = one_file(alloc, text).expect(rt, "a file");
    parse(alloc, &files).expect(rt, "rules")
}

/// Returns what is found: the list's number, and the names, each after a space.
fn written(alloc: Global, found: &Found) -> Result<Blob, AllocError> {
    let mut text = Blob::new(alloc);
    text.push(b'0' + found.list % 10)?;
    for name in found.names.as_slice() {
        text.push(b' ')?;
        text.extend(name.as_bytes())?;
    }
    Ok(text)
}

/// Which index files have a name: `dep`, `symbols`, `alias` and `builtin`.
type Having = (bool, bool, bool, bool);

/// Returns what the index files have under a name that each may have.
fn indexes_of(rt: &impl Abort, alloc: Global, (dep, symbols, alias, builtin): Having) -> Indexes {
    let name = b"symbol:f".as_slice();
    Indexes {
        dep: index_of(rt, alloc, dep.then_some((name, b"kernel/f.ko:".as_slice()))),
        alias: index_of(
            rt,
            alloc,
            alias.then_some((b"symbol:[a-f]*".as_slice(), b"own".as_slice())),
        ),
        symbols: index_of(rt, alloc, symbols.then_some((name, b"gives_f".as_slice()))),
        builtin: index_of(rt, alloc, builtin.then_some((name, b"".as_slice()))),
    }
}

/// Rules of each kind for the name `symbol:f`.
const RULES: &[u8] = b"alias symbol:? by-rule\n\
    install symbol:f /bin/true\n\
    alias symbol:f by_rule\n\
    alias symbol:* last";

/// A command that is only for its loading.
const INSTALL: &[u8] = b"install symbol:f /bin/true";

/// Rules that blacklist.
const BLACKLIST: &[u8] = b"blacklist own\nblacklist symbol:f";

/// A name, rules, whether each index has it, whether the blacklist counts for all lists, and what
/// is found.
type FoundRow = (&'static [u8], &'static [u8], Having, bool, &'static [u8]);

/// A name that all six lists have, with one list after the other taken away: the first that isn't
/// empty decides. Blacklisted names are dropped from modules' own aliases, and with the option from
/// every list. The list keeps its number. A name without a normal form is found nowhere.
static FOUND: [FoundRow; 11] = [
    (
        b"symbol:f",
        RULES,
        (true, true, true, true),
        false,
        b"1 by_rule last",
    ),
    (
        b"symbol:f",
        INSTALL,
        (true, true, true, true),
        false,
        b"2 symbol:f",
    ),
    (
        b"symbol:f",
        INSTALL,
        (false, true, true, true),
        false,
        b"3 gives_f",
    ),
    (
        b"symbol:f",
        INSTALL,
        (false, false, true, true),
        false,
        b"4 symbol:f",
    ),
    (
        b"symbol:f",
        b"",
        (false, false, true, true),
        false,
        b"5 own",
    ),
    (
        b"symbol:f",
        b"",
        (false, false, false, true),
        false,
        b"6 symbol:f",
    ),
    (b"symbol:f", b"", (false, false, false, false), false, b"0"),
    (
        b"symbol:f",
        BLACKLIST,
        (false, false, true, true),
        false,
        b"5",
    ),
    (
        b"symbol:f",
        BLACKLIST,
        (true, false, true, true),
        false,
        b"2 symbol:f",
    ),
    (
        b"symbol:f",
        BLACKLIST,
        (true, false, true, true),
        true,
        b"2",
    ),
    (
        b"symbol:]",
        BLACKLIST,
        (true, false, true, true),
        false,
        b"0",
    ),
];

/// Looks up a name by rules and indexes.
fn looked_up(
    rt: &impl Abort,
    alloc: Global,
    name: &[u8],
    use_blacklist: bool,
    rules: &Rules,
    indexes: &Indexes,
) -> Found {
    let name = Name::from_slice(alloc, name).expect(rt, "a name");
    resolve(alloc, &name, use_blacklist, rules, indexes).expect(rt, "an answer")
}

/// Compares how the name of a row is found.
fn expect_found(rt: &impl Abort, alloc: Global, row: &FoundRow) {
    let (name, text, having, use_blacklist, want) = row;
    let rules = rules_of(rt, alloc, text);
    let indexes = indexes_of(rt, alloc, *having);
    let found = looked_up(rt, alloc, name, *use_blacklist, &rules, &indexes);
    let text = written(alloc, &found).expect(rt, "a text");
    assert_eq!(rt; text.as_bytes(), *want);
}

#[test]
fn names_stand_for_what_is_found(rt: HostRuntime) {
    for row in &FOUND {
        expect_found(&rt, rt.alloc(), row);
    }
}
