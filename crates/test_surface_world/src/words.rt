//! Words after each command, and what they ask for.

use crate::lists::words;
use crate::same::shown;
use kmod_words::{
    read_builtin_alias, read_depmod, read_modinfo, read_modprobe, read_static_nodes, read_trial,
};
use std::alloc::Global;
use std::process::Abort;

// Each reader is called by a function that promises nothing.

/// What a depmod of a tree over a kernel's table asks for.
static DEPMOD: &str =
    "Ok(Some(DepmodWords { dry_run: false, errsyms: false, extra: false, basedir: \"/r\", \
        outdir: \"/r\", config: None, filesyms: None, symvers: Some(\"/r/Module.symvers\"), \
        version: \"6.1.0\" }))";

fn words_of_depmod_are_read(rt: &impl Abort, alloc: Global) {
    let words = words(rt, alloc, "-b /r -E /r/Module.symvers 6.1.0");
    let asked = read_depmod(alloc, words.as_slice());
    shown(rt, alloc, asked, DEPMOD);
}

/// What a removal asks for.
static MODPROBE: &str =
    "Ok(Some(ModprobeWords { mode: Remove { dry_run: true }, all: false, use_blacklist: false, \
        ignore_install: false, dirname: \"/\", version: \"6.1.0\", config: None, loaded: None, \
        system_map: Some(\"m\"), symvers: None, region_base: 18446744072635809792, \
        region_size: 1056964608, image: None, params: false, words: List { elements: [\"b\"] } }))";

fn words_of_modprobe_are_read(rt: &impl Abort, alloc: Global) {
    let words = words(rt, alloc, "-r -n -S 6.1.0 --system-map m b");
    let asked = read_modprobe(alloc, words.as_slice());
    shown(rt, alloc, asked, MODPROBE);
}

/// What one field of a file asks for.
static MODINFO: &str =
    "Ok(Some(ModinfoWords { field: Some(\"license\"), zero: false, version: None, basedir: \"/\", \
        words: List { elements: [\"/m/a.ko\"] } }))";

fn words_of_modinfo_are_read(rt: &impl Abort, alloc: Global) {
    let words = words(rt, alloc, "-F license /m/a.ko");
    let asked = read_modinfo(alloc, words.as_slice());
    shown(rt, alloc, asked, MODINFO);
}

fn words_of_trial_are_read(rt: &impl Abort, alloc: Global) {
    let words = words(rt, alloc, "1 2");
    let asked = read_trial(alloc, words.as_slice());
    shown(
        rt,
        alloc,
        asked,
        "Ok(Some(TrialWords { seed: 1, count: 2 }))",
    );
}

/// What a name of a built-in module asks for.
static BUILTIN_ALIAS: &str =
    r#"Ok(Some(BuiltinAliasWords { dirname: "/r", version: "6.1.0", name: "tty-x" }))"#;

fn words_of_builtin_alias_are_read(rt: &impl Abort, alloc: Global) {
    let words = words(rt, alloc, "-d /r -S 6.1.0 tty-x");
    let asked = read_builtin_alias(alloc, words.as_slice());
    shown(rt, alloc, asked, BUILTIN_ALIAS);
}

fn words_of_static_nodes_are_read(rt: &impl Abort, alloc: Global) {
    let words = words(rt, alloc, "-S 6.1.0 --format devname");
    let asked = read_static_nodes(alloc, words.as_slice());
    let want = r#"Ok(Some(StaticNodesWords { dirname: "/", version: "6.1.0" }))"#;
    shown(rt, alloc, asked, want);
}

#[test]
fn readers_of_words_are_called(rt: HostRuntime) {
    words_of_depmod_are_read(&rt, rt.alloc());
    words_of_modprobe_are_read(&rt, rt.alloc());
    words_of_modinfo_are_read(&rt, rt.alloc());
    words_of_trial_are_read(&rt, rt.alloc());
    words_of_builtin_alias_are_read(&rt, rt.alloc());
    words_of_static_nodes_are_read(&rt, rt.alloc());
}
