// Tests of the words of each command: what they ask for, and which are not understood.

use km_names::Word;
use kmod_words::{
    read_builtin_alias, read_depmod, read_modinfo, read_modprobe, read_static_nodes, read_trial,
};
use std::alloc::{AllocError, Global};
use std::fmt::Debug;
use std::process::Abort;

/// Words after `depmod`, and what they ask for.
static DEPMOD: [(&str, &str); 6] = [
    (
        "6.1.0",
        "DepmodWords { dry_run: false, errsyms: false, extra: false, basedir: \"/\", \
            outdir: \"/\", config: None, filesyms: None, symvers: None, version: \"6.1.0\" }",
    ),
    (
        "-b /r -E /r/Module.symvers 6.1.0",
        "DepmodWords { dry_run: false, errsyms: false, extra: false, basedir: \"/r\", \
            outdir: \"/r\", config: None, filesyms: None, symvers: Some(\"/r/Module.symvers\"), \
            version: \"6.1.0\" }",
    ),
    (
        "-aneb/r 6.1.0 -o /out -C=/c.conf",
        "DepmodWords { dry_run: true, errsyms: true, extra: false, basedir: \"/r\", \
            outdir: \"/out\", config: Some(\"/c.conf\"), filesyms: None, symvers: None, \
            version: \"6.1.0\" }",
    ),
    (
        "--all --dry-run --errsyms --basedir=/r --filesyms m 6.1.0",
        "DepmodWords { dry_run: true, errsyms: true, extra: false, basedir: \"/r\", \
            outdir: \"/r\", config: None, filesyms: Some(\"m\"), symvers: None, \
            version: \"6.1.0\" }",
    ),
    (
        "--outdir - --config d --symvers s -- -6",
        "DepmodWords { dry_run: false, errsyms: false, extra: false, basedir: \"/\", \
            outdir: \"-\", config: Some(\"d\"), filesyms: None, symvers: Some(\"s\"), \
            version: \"-6\" }",
    ),
    (
        "--extra -n 6.1.0",
        "DepmodWords { dry_run: true, errsyms: false, extra: true, basedir: \"/\", outdir: \"/\", \
            config: None, filesyms: None, symvers: None, version: \"6.1.0\" }",
    ),
];

/// Words after `depmod` that aren't understood. `''` is an empty word.
static NO_DEPMOD: [&str; 19] = [
    "--extra --extra 6.1.0",
    "--extra=yes 6.1.0",
    "",
    "-n",
    "-F x -E y 6.1.0",
    "6.1.0 6.2.0",
    "6/1",
    "/",
    "-n -n 6.1.0",
    "-nn 6.1.0",
    "-b /r --basedir=/s 6.1.0",
    "-A 6.1.0",
    "-b -n 6.1.0",
    "''",
    "-b",
    "--basedir= 6.1.0",
    "-h",
    "--all=yes 6.1.0",
    "-V",
];

/// Words after `modprobe`, and what they ask for.
static MODPROBE: [(&str, &str); 13] = [
    (
        "-n b -S 6.1.0",
        "ModprobeWords { mode: DryRun, all: false, use_blacklist: false, ignore_install: false, \
            dirname: \"/\", version: \"6.1.0\", config: None, loaded: None, system_map: None, \
            symvers: None, region_base: 18446744072635809792, region_size: 1056964608, \
            image: None, params: false, words: List { elements: [\"b\"] } }",
    ),
    (
        "-d /r -S 6.1.0 -D -i a",
        "ModprobeWords { mode: ShowDepends, all: false, use_blacklist: false, \
            ignore_install: true, dirname: \"/r\", version: \"6.1.0\", config: None, loaded: None, \
            system_map: None, symvers: None, region_base: 18446744072635809792, \
            region_size: 1056964608, image: None, params: false, \
            words: List { elements: [\"a\"] } }",
    ),
    (
        "-R -b -S6.1.0 symbol:fa",
        "ModprobeWords { mode: ResolveAlias, all: false, use_blacklist: true, \
            ignore_install: false, dirname: \"/\", version: \"6.1.0\", config: None, loaded: None, \
            system_map: None, symvers: None, region_base: 18446744072635809792, \
            region_size: 1056964608, image: None, params: false, \
            words: List { elements: [\"symbol:fa\"] } }",
    ),
    (
        "-S 6.1.0 --system-map m b depth=3",
        "ModprobeWords { mode: Load, all: false, use_blacklist: false, ignore_install: false, \
            dirname: \"/\", version: \"6.1.0\", config: None, loaded: None, \
            system_map: Some(\"m\"), symvers: None, region_base: 18446744072635809792, \
            region_size: 1056964608, image: None, params: false, words: List { elements: [\"b\", \
            \"depth=3\"] } }",
    ),
    (
        "-abin -S=6.1.0 b c",
        "ModprobeWords { mode: DryRun, all: true, use_blacklist: true, ignore_install: true, \
            dirname: \"/\", version: \"6.1.0\", config: None, loaded: None, system_map: None, \
            symvers: None, region_base: 18446744072635809792, region_size: 1056964608, \
            image: None, params: false, words: List { elements: [\"b\", \"c\"] } }",
    ),
    (
        "--all --use-blacklist --ignore-install --show-depends --dirname=/r --set-version=6.1.0 \
         --config=c --loaded=l --symvers=s --image=i b",
        "ModprobeWords { mode: ShowDepends, all: true, use_blacklist: true, ignore_install: true, \
            dirname: \"/r\", version: \"6.1.0\", config: Some(\"c\"), loaded: Some(\"l\"), \
            system_map: None, symvers: Some(\"s\"), region_base: 18446744072635809792, \
            region_size: 1056964608, image: Some(\"i\"), params: false, \
            words: List { elements: [\"b\"] } }",
    ),
    (
        "-d /r -S 6.1.0 --system-map /r/System.map --symvers /r/Module.symvers \
         --region 0xffffffffc0000000:0x3000 b",
        "ModprobeWords { mode: Load, all: false, use_blacklist: false, ignore_install: false, \
            dirname: \"/r\", version: \"6.1.0\", config: None, loaded: None, \
            system_map: Some(\"/r/System.map\"), symvers: Some(\"/r/Module.symvers\"), \
            region_base: 18446744072635809792, region_size: 12288, image: None, params: false, \
            words: List { elements: [\"b\"] } }",
    ),
    (
        "-n -S 6.1.0 --region=0xFFFFFFFFFFFFF000:0x1000 b",
        "ModprobeWords { mode: DryRun, all: false, use_blacklist: false, ignore_install: false, \
            dirname: \"/\", version: \"6.1.0\", config: None, loaded: None, system_map: None, \
            symvers: None, region_base: 18446744073709547520, region_size: 4096, image: None, \
            params: false, words: List { elements: [\"b\"] } }",
    ),
    (
        "--dry-run -S 6.1.0 --region 0x0:0x0000000000001000 -- -r -C",
        "ModprobeWords { mode: DryRun, all: false, use_blacklist: false, ignore_install: false, \
            dirname: \"/\", version: \"6.1.0\", config: None, loaded: None, system_map: None, \
            symvers: None, region_base: 0, region_size: 4096, image: None, params: false, \
            words: List { elements: [\"-r\", \"-C\"] } }",
    ),
    (
        "-S 6.1.0 --system-map m --params p depth=3 raw",
        "ModprobeWords { mode: Load, all: false, use_blacklist: false, ignore_install: false, \
            dirname: \"/\", version: \"6.1.0\", config: None, loaded: None, \
            system_map: Some(\"m\"), symvers: None, region_base: 18446744072635809792, \
            region_size: 1056964608, image: None, params: true, words: List { elements: [\"p\", \
            \"depth=3\", \"raw\"] } }",
    ),
    (
        "--params -S 6.1.0 --system-map m --image /i p",
        "ModprobeWords { mode: Load, all: false, use_blacklist: false, ignore_install: false, \
            dirname: \"/\", version: \"6.1.0\", config: None, loaded: None, \
            system_map: Some(\"m\"), symvers: None, region_base: 18446744072635809792, \
            region_size: 1056964608, image: Some(\"/i\"), params: true, \
            words: List { elements: [\"p\"] } }",
    ),
    (
        "-r -S 6.1.0 --system-map m --loaded /l a b",
        "ModprobeWords { mode: Remove { dry_run: false }, all: false, use_blacklist: false, \
            ignore_install: false, dirname: \"/\", version: \"6.1.0\", config: None, \
            loaded: Some(\"/l\"), system_map: Some(\"m\"), symvers: None, \
            region_base: 18446744072635809792, region_size: 1056964608, image: None, \
            params: false, words: List { elements: [\"a\", \"b\"] } }",
    ),
    (
        "--remove -abin -d /r --symvers s --region 0x0:0x1000 -S 6.1.0 --system-map m b",
        "ModprobeWords { mode: Remove { dry_run: true }, all: true, use_blacklist: true, \
            ignore_install: true, dirname: \"/r\", version: \"6.1.0\", config: None, loaded: None, \
            system_map: Some(\"m\"), symvers: Some(\"s\"), region_base: 0, region_size: 4096, \
            image: None, params: false, words: List { elements: [\"b\"] } }",
    ),
];

/// Words after `modprobe` that aren't understood. `''` is an empty word.
static NO_MODPROBE: [&str; 37] = [
    "-S 6.1.0 b",
    "-n b",
    "-n -S 6.1.0",
    "-n -D -S 6.1.0 b",
    "-R -n -S 6.1.0 b",
    "-n -S 6/1 b",
    "-r -S 6.1.0 b",
    "-r -S 6.1.0 --system-map m",
    "-r -r -S 6.1.0 --system-map m b",
    "-r -n -S 6.1.0 b",
    "-r -D -S 6.1.0 --system-map m b",
    "-r -R -S 6.1.0 --system-map m b",
    "-r --image /i -S 6.1.0 --system-map m b",
    "-r --params -S 6.1.0 --system-map m b",
    "--params -n -S 6.1.0 b",
    "--params -D -S 6.1.0 --system-map m b",
    "--params -R -S 6.1.0 --system-map m b",
    "--params --params -S 6.1.0 --system-map m b",
    "--extra x -n -S 6.1.0 b",
    "-n -S 6.1.0 --region 0x1000 b",
    "-n -S 6.1.0 --region 0x1000:0x0 b",
    "-n -S 6.1.0 --region 0x1:0x1000 b",
    "-n -S 6.1.0 --region 0x1000:0x1001 b",
    "-n -S 6.1.0 --region 0xfffffffffffff000:0x2000 b",
    "-n -S 6.1.0 --region 1000:0x1000 b",
    "-n -S 6.1.0 --region 0x:0x1000 b",
    "-n -S 6.1.0 --region 0X1000:0x1000 b",
    "-n -S 6.1.0 --region 0x00000000000001000:0x1000 b",
    "-n -S 6.1.0 --region 4096:4096 b",
    "-n -S 6.1.0 --region 0x1000:0x1000:0x1000 b",
    "--system-map m -S 6.1.0 --region 0x1g00:0x1000 b",
    "-n -S 6.1.0 --system-map '' b",
    "-n -S 6.1.0 b ''",
    "-n -S -- b",
    "-n -S 6.1.0 -S 6.1.0 b",
    "--help",
    "-V",
];

/// Words after `modinfo`, and what they ask for.
static MODINFO: [(&str, &str); 14] = [
    (
        "-F license /m/a.ko",
        "ModinfoWords { field: Some(\"license\"), zero: false, version: None, basedir: \"/\", \
            words: List { elements: [\"/m/a.ko\"] } }",
    ),
    (
        "-Flicense /m/a.ko",
        "ModinfoWords { field: Some(\"license\"), zero: false, version: None, basedir: \"/\", \
            words: List { elements: [\"/m/a.ko\"] } }",
    ),
    (
        "-F=license /m/a.ko",
        "ModinfoWords { field: Some(\"license\"), zero: false, version: None, basedir: \"/\", \
            words: List { elements: [\"/m/a.ko\"] } }",
    ),
    (
        "/m/a.ko --field=license",
        "ModinfoWords { field: Some(\"license\"), zero: false, version: None, basedir: \"/\", \
            words: List { elements: [\"/m/a.ko\"] } }",
    ),
    (
        "-- /m/a.ko",
        "ModinfoWords { field: None, zero: false, version: None, basedir: \"/\", \
            words: List { elements: [\"/m/a.ko\"] } }",
    ),
    (
        "-- -F -n",
        "ModinfoWords { field: None, zero: false, version: None, basedir: \"/\", \
            words: List { elements: [\"-F\", \"-n\"] } }",
    ),
    (
        "a -n b -0 -",
        "ModinfoWords { field: Some(\"filename\"), zero: true, version: None, basedir: \"/\", \
            words: List { elements: [\"a\", \"b\", \"-\"] } }",
    ),
    (
        "-p0 a",
        "ModinfoWords { field: Some(\"parm\"), zero: true, version: None, basedir: \"/\", \
            words: List { elements: [\"a\"] } }",
    ),
    (
        "-0Fparm a",
        "ModinfoWords { field: Some(\"parm\"), zero: true, version: None, basedir: \"/\", \
            words: List { elements: [\"a\"] } }",
    ),
    (
        "-F - a",
        "ModinfoWords { field: Some(\"-\"), zero: false, version: None, basedir: \"/\", \
            words: List { elements: [\"a\"] } }",
    ),
    (
        "-F=-x a",
        "ModinfoWords { field: Some(\"-x\"), zero: false, version: None, basedir: \"/\", \
            words: List { elements: [\"a\"] } }",
    ),
    (
        "-l -k 6.1.0 -b /r no-such",
        "ModinfoWords { field: Some(\"license\"), zero: false, version: Some(\"6.1.0\"), \
            basedir: \"/r\", words: List { elements: [\"no-such\"] } }",
    ),
    (
        "--author --set-version=6 a",
        "ModinfoWords { field: Some(\"author\"), zero: false, version: Some(\"6\"), \
            basedir: \"/\", words: List { elements: [\"a\"] } }",
    ),
    (
        "--null --description a",
        "ModinfoWords { field: Some(\"description\"), zero: true, version: None, basedir: \"/\", \
            words: List { elements: [\"a\"] } }",
    ),
];

/// Words after `modinfo` that aren't understood. `''` is an empty word.
static NO_MODINFO: [&str; 20] = [
    "",
    "-F license",
    "-l -l a",
    "-F x -F y a",
    "-F -x a",
    "-F",
    "a -F",
    "-b /r a",
    "-l -d a",
    "-F license -n a",
    "-k 6/1 a",
    "-q a",
    "--fields=x a",
    "--help",
    "--version",
    "-h",
    "--null=x a",
    "-F= a",
    "a ''",
    "-k '' a",
];

/// Words after `builtin-alias`, and what they ask for.
static BUILTIN_ALIAS: [(&str, &str); 2] = [
    (
        "-d /r -S 6.1.0 tty-x",
        r#"BuiltinAliasWords { dirname: "/r", version: "6.1.0", name: "tty-x" }"#,
    ),
    (
        "usb -S=6.1.0",
        r#"BuiltinAliasWords { dirname: "/", version: "6.1.0", name: "usb" }"#,
    ),
];

/// Words after `builtin-alias` that aren't understood. `''` is an empty word.
static NO_BUILTIN_ALIAS: [&str; 8] = [
    "--set-version=6.1.0 usb",
    "",
    "-S 6.1.0",
    "tty-x",
    "-S 6.1.0 a b",
    "-S 6/1 a",
    "-S 6.1.0 ''",
    "-b /r -S 6.1.0 a",
];

/// Words after `static-nodes`, and what they ask for.
static STATIC_NODES: [(&str, &str); 2] = [
    (
        "-d /r -S 6.1.0 --format devname",
        r#"StaticNodesWords { dirname: "/r", version: "6.1.0" }"#,
    ),
    (
        "-fdevname -S=6.1.0",
        r#"StaticNodesWords { dirname: "/", version: "6.1.0" }"#,
    ),
];

/// Words after `static-nodes` that aren't understood. `''` is an empty word.
static NO_STATIC_NODES: [&str; 7] = [
    "",
    "-S 6.1.0",
    "-f devname",
    "-S 6.1.0 -f human",
    "-S 6.1.0 -f tmpfiles",
    "-S 6.1.0 -f devname a",
    "-S 6/1 -f devname",
];

/// Words after `trial`, and what they ask for.
static TRIAL: [(&str, &str); 4] = [
    ("1 2", "TrialWords { seed: 1, count: 2 }"),
    (
        "18446744073709551615 2000",
        "TrialWords { seed: 18446744073709551615, count: 2000 }",
    ),
    (
        "00000000000000000007 0001",
        "TrialWords { seed: 7, count: 1 }",
    ),
    ("-- 1 3", "TrialWords { seed: 1, count: 3 }"),
];

/// Words after `trial` that aren't understood. `''` is an empty word.
static NO_TRIAL: [&str; 14] = [
    "",
    "1",
    "1 0",
    "1 2001",
    "18446744073709551616 1",
    "000000000000000000001 1",
    "1 00001",
    "+1 1",
    "-1 1",
    "1 1 1",
    "0x1 1",
    "1 1.",
    "'' 1",
    "1 --",
];

fn words_of(alloc: Global, line: &str) -> Result<Vec<Word>, AllocError> {
    let mut words = Vec::new(alloc);
    for word in line.split_whitespace() {
        let text = if word == "''" { "" } else { word };
        words.push(Word::from_text(alloc, text)?)?;
    }
    Ok(words)
}

/// A command.
#[derive(Clone, Copy)]
enum Command {
    Depmod,
    Modprobe,
    Modinfo,
    Trial,
    BuiltinAlias,
    StaticNodes,
}

// What the words after each command ask for is returned as it is shown, if they are understood.
// Each call is in a function of its own that promises nothing.

fn asked_of_depmod(rt: &impl Abort, alloc: Global, words: &[Word]) -> Option<String> {
    shown(
        rt,
        alloc,
        &read_depmod(alloc, words).expect(rt, "an answer"),
    )
}

fn asked_of_modprobe(rt: &impl Abort, alloc: Global, words: &[Word]) -> Option<String> {
    shown(
        rt,
        alloc,
        &read_modprobe(alloc, words).expect(rt, "an answer"),
    )
}

fn asked_of_modinfo(rt: &impl Abort, alloc: Global, words: &[Word]) -> Option<String> {
    shown(
        rt,
        alloc,
        &read_modinfo(alloc, words).expect(rt, "an answer"),
    )
}

fn asked_of_trial(rt: &impl Abort, alloc: Global, words: &[Word]) -> Option<String> {
    shown(rt, alloc, &read_trial(alloc, words).expect(rt, "an answer"))
}

fn asked_of_builtin_alias(rt: &impl Abort, alloc: Global, words: &[Word]) -> Option<String> {
    shown(
        rt,
        alloc,
        &read_builtin_alias(alloc, words).expect(rt, "an answer"),
    )
}

fn asked_of_static_nodes(rt: &impl Abort, alloc: Global, words: &[Word]) -> Option<String> {
    shown(
        rt,
        alloc,
        &read_static_nodes(alloc, words).expect(rt, "an answer"),
    )
}

/// Returns what the words of a line ask for as it is shown, if they are understood.
fn asked(rt: &impl Abort, alloc: Global, command: Command, line: &str) -> Option<String> {
    let words = words_of(alloc, line).expect(rt, "words");
    match command {
        Command::Depmod => asked_of_depmod(rt, alloc, words.as_slice()),
        Command::Modprobe => asked_of_modprobe(rt, alloc, words.as_slice()),
        Command::Modinfo => asked_of_modinfo(rt, alloc, words.as_slice()),
        Command::Trial => asked_of_trial(rt, alloc, words.as_slice()),
        Command::BuiltinAlias => asked_of_builtin_alias(rt, alloc, words.as_slice()),
        Command::StaticNodes => asked_of_static_nodes(rt, alloc, words.as_slice()),
    }
}

/// Returns a request as it is shown.
fn shown<T: Debug>(rt: &impl Abort, alloc: Global, asked: &Option<T>) -> Option<String> {
    match asked {
        Some(asked) => Some(format!(in alloc; "{asked:?}").expect(rt, "a text")),
        None => None,
    }
}

/// Checks words after a command, and what they ask for.
fn expect_words(rt: &impl Abort, alloc: Global, command: Command, rows: &[(&str, &str)]) {
    for (line, want) in rows {
        let got = asked(rt, alloc, command, line).expect(rt, line);
        assert_eq!(rt; got.as_str(), *want, "{line}");
    }
}

/// Checks words after a command that aren't understood.
fn expect_refused(rt: &impl Abort, alloc: Global, command: Command, rows: &[&str]) {
    for line in rows {
        assert!(rt; asked(rt, alloc, command, line).is_none(), "{line}");
    }
}

#[test]
fn words_of_each_command(rt: HostRuntime) {
    let alloc = rt.alloc();
    expect_words(&rt, alloc, Command::Depmod, &DEPMOD);
    expect_refused(&rt, alloc, Command::Depmod, &NO_DEPMOD);
    expect_words(&rt, alloc, Command::Modprobe, &MODPROBE);
    expect_refused(&rt, alloc, Command::Modprobe, &NO_MODPROBE);
    expect_words(&rt, alloc, Command::Modinfo, &MODINFO);
    expect_refused(&rt, alloc, Command::Modinfo, &NO_MODINFO);
    expect_words(&rt, alloc, Command::Trial, &TRIAL);
    expect_refused(&rt, alloc, Command::Trial, &NO_TRIAL);
    expect_words(&rt, alloc, Command::BuiltinAlias, &BUILTIN_ALIAS);
    expect_refused(&rt, alloc, Command::BuiltinAlias, &NO_BUILTIN_ALIAS);
    expect_words(&rt, alloc, Command::StaticNodes, &STATIC_NODES);
    expect_refused(&rt, alloc, Command::StaticNodes, &NO_STATIC_NODES);
}
