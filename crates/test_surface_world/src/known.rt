//! What modprobe reads before it looks a name up, and what names stand for by it.

use crate::lists::{names, path};
use crate::outside::put;
use crate::same::{holds, shown};
use km_course::Stop;
use km_names::Names;
use km_outside::{MemFiles, Reads};
use modprobe_conf::{Rule, Rules};
use stages_known::{Known, names_found, read_known};
use std::alloc::Global;
use std::process::Abort;

// Each call is made by a function that promises nothing.

/// Reads what modprobe has to know from any files: the configuration in `/e`, the folder `/m`, and
/// the list `/l` of loaded modules.
fn known<F: Reads>(rt: &impl Abort, alloc: Global, files: &mut F) -> Result<Known, Stop> {
    let config = Some(path(rt, alloc, b"/e"));
    let loaded = Some(path(rt, alloc, b"/l"));
    read_known(alloc, config, &path(rt, alloc, b"/m"), loaded, files)
}

/// Finds what names stand for.
fn found(
    rt: &impl Abort,
    alloc: Global,
    known: &Known,
    use_blacklist: bool,
    texts: &[&[u8]],
) -> Result<Names, Stop> {
    let asked = names(rt, alloc, texts);
    names_found(alloc, known, use_blacklist, asked.as_slice())
}

/// The index of the dependency line of `a`.
const DEP: &[u8] = b"\xb0\x07\xf4\x57\0\x02\0\x01\xc0\0\0\x0c\
    a\0\0\0\0\x01\0\0\0\0kernel/a.ko:\0";

/// The index of an alias of `a`.
const ALIAS: &[u8] = b"\xb0\x07\xf4\x57\0\x02\0\x01\xc0\0\0\x0c\
    usb:v*\0\0\0\0\x01\0\0\0\0a\0";

/// The index of a symbol that `b` exports.
const SYMBOLS: &[u8] = b"\xb0\x07\xf4\x57\0\x02\0\x01\xc0\0\0\x0c\
    symbol:fb\0\0\0\0\x01\0\0\0\0b\0";

/// The index of a built-in module.
const BUILTIN: &[u8] = b"\xb0\x07\xf4\x57\0\x02\0\x01\xc0\0\0\x0c\
    built\0\0\0\0\x01\0\0\0\0\0";

/// Files, with their bytes.
static FILES: [(&[u8], &[u8]); 8] = [
    (b"/e/a.conf", b"options a raw=1\nblacklist b\n"),
    (b"/m/modules.dep.bin", DEP),
    (b"/m/modules.alias.bin", ALIAS),
    (b"/m/modules.symbols.bin", SYMBOLS),
    (b"/m/modules.builtin.bin", BUILTIN),
    (b"/m/modules.softdep", b"softdep a pre: b\n"),
    (b"/m/modules.unmet", b"missing kernel/a.ko x\n"),
    (b"/l", b"a 8192 0 - Live 0x0\n"),
];

/// Makes the first of these files.
fn first_files(rt: &impl Abort, alloc: Global, count: usize) -> MemFiles {
    let mut files = MemFiles::new(alloc);
    for (at, bytes) in FILES.iter().take(count) {
        put(rt, alloc, &mut files, at, bytes);
    }
    files
}

/// The fields of three rules.
static RULES: &str = r#"(("a", "raw=1"), "b", ("a", List { elements: ["b"] }))"#;

/// Stops unless these are the rules: those of the configuration, and then one of modules.softdep.
fn expect_rules(rt: &impl Abort, alloc: Global, rules: &Rules) {
    holds(rt, rules.len() == 3);
    let (
        Some(Rule::Options { name, text }),
        Some(Rule::Blacklist { name: listed }),
        Some(
            Rule::Softdep {
                name: owner,
                pre,
                post,
            },
        ),
    ) = (rules.get(0), rules.get(1), rules.get(2))
    else {
        panic!(rt; "other rules");
    };
    holds(rt, post.is_empty());
    shown(rt, alloc, ((name, text), listed, (owner, pre)), RULES);
}

/// The numbers of lines and of loaded modules, with the first of each.
static LISTS: &str = r#"((1, Some(Missing { path: "kernel/a.ko", symbol: "x" })), (1, Some("a")))"#;

/// Stops unless these are the obstacles and the loaded modules.
fn expect_lists(rt: &impl Abort, alloc: Global, known: &Known) {
    let unmet = (known.unmet.len(), known.unmet.get(0));
    let loaded = (known.loaded.len(), known.loaded.get(0));
    shown(rt, alloc, (unmet, loaded), LISTS);
}

/// Names that each of the indexes has.
static NAMES: [&[u8]; 4] = [b"a", b"usb:v1", b"symbol:fb", b"built"];

/// Stops unless names stand for these, with the blacklist or not.
fn expect_names(rt: &impl Abort, alloc: Global, known: &Known) {
    let all = found(rt, alloc, known, false, &NAMES);
    let want = r#"Ok(List { elements: ["a", "a", "b", "built"] })"#;
    shown(rt, alloc, all, want);
    let left = found(rt, alloc, known, true, &NAMES);
    let want = r#"Ok(List { elements: ["a", "a", "built"] })"#;
    shown(rt, alloc, left, want);
    let none = found(rt, alloc, known, false, &[b"a", b"no-such"]);
    let want = r#"Err(Ended(Refused(NotFound { name: "no_such" })))"#;
    shown(rt, alloc, none, want);
}

fn all_is_read(rt: &impl Abort, alloc: Global) {
    let mut files = first_files(rt, alloc, 8);
    let known = known(rt, alloc, &mut files).expect(rt, "what is known");
    expect_rules(rt, alloc, &known.rules);
    expect_lists(rt, alloc, &known);
    expect_names(rt, alloc, &known);
    drop(known);
    drop(files);
}

fn an_index_is_missing(rt: &impl Abort, alloc: Global) {
    let mut files = first_files(rt, alloc, 2);
    let stop = known(rt, alloc, &mut files).err();
    let want = r#"Some(Ended(NoFile { path: "/m/modules.alias.bin" }))"#;
    shown(rt, alloc, stop, want);
    drop(files);
}

#[test]
fn what_is_known_is_called(rt: HostRuntime) {
    all_is_read(&rt, rt.alloc());
    an_index_is_missing(&rt, rt.alloc());
}
