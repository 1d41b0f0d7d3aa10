// The rules of modprobe.d.
ghost use Rattle.std.specs.Prelude.{◌≤◌, length, All, IfOk};
ghost use Rattle.km_names.specs.Limit.{file_limit};

use crate::same::{same, same_number};
use km_names::{ConfFault, ConfFiles, Names};
use modprobe_conf::{Rule, Rules, parse};
use std::alloc::{AllocError, Global};
use std::process::Abort;
use test_objects::{RowFault, conf_file};

/// Returns the two files `0` and `1`.
fn files_of(alloc: Global, first: &[u8], second: &[u8]) -> Result<ConfFiles, RowFault>
    ensures { IfOk result (λ files. All (λ file. length file.bytes ≤ file_limit) files) }
{
    let mut files = ConfFiles::new(alloc);
    files.push(conf_file(alloc, b"0", first)?)?;
    files.push(conf_file(alloc, b"1", second)?)?;
    Ok(files)
}

fn put_names(names: &Names, text: &mut Vec<u8>) -> Result<(), AllocError> {
    for name in names.as_slice() {
        text.push(b' ')?;
        text.extend_from_slice(name.as_bytes())?;
    }
    Ok(())
}

/// Puts a rule as a line of its own.
fn put_rule(rule: &Rule, text: &mut Vec<u8>) -> Result<(), AllocError> {
    let (kind, name, rest) = match rule {
        Rule::Alias { pattern, name } => (b"alias ".as_slice(), name, pattern.as_bytes()),
        Rule::Blacklist { name } => (b"blacklist ".as_slice(), name, b"".as_slice()),
        Rule::Options { name, text } => (b"options ".as_slice(), name, text.as_bytes()),
        Rule::Install { name, command } => (b"install ".as_slice(), name, command.as_bytes()),
        Rule::Remove { name, command } => (b"remove ".as_slice(), name, command.as_bytes()),
        Rule::Softdep { name, .. } => (b"softdep ".as_slice(), name, b"".as_slice()),
    };
    text.extend_from_slice(kind)?;
    text.extend_from_slice(name.as_bytes())?;
    text.push(b'|')?;
    text.extend_from_slice(rest)?;
    if let Rule::Softdep { pre, post, .. } = rule {
        put_names(pre, text)?;
        text.push(b'/')?;
        put_names(post, text)?;
    }
    text.push(b'\n')?;
    Ok(())
}

fn text_of(alloc: Global, rules: &Rules) -> Result<Vec<u8>, AllocError> {
    let mut text = Vec::new(alloc);
    for rule in rules.as_slice() {
        put_rule(rule, &mut text)?;
    }
    Ok(text)
}

/// The texts of two files, and the name of the file and the number of the first line that isn't
/// understood.
static BAD_LINES: [(&[u8], &[u8], u8, u32); 10] = [
    (b"options x", b"", b'0', 1),
    (b"options x y", b"blacklist", b'1', 1),
    (b"alias a", b"alias a", b'0', 1),
    (b"# c\n\nalias \\\n bad[x b", b"", b'0', 3),
    (b"install a", b"", b'0', 1),
    (b"remove a", b"", b'0', 1),
    (b"softdep a", b"", b'0', 1),
    (b"search updates", b"", b'0', 1),
    (b"weakdep a b", b"", b'0', 1),
    (b"Options a b", b"", b'0', 1),
];

/// A file with a rule of each kind.
static RULES: &[u8] = b"alias pci-x[a-b]* snd-hda more\n\
    blacklist u-2 more\n\
    options b-1 depth=3  raw-x=1\n\
    install a /bin/true\n\
    remove a /bin/false -x\n softdep m\tq pre: gone a-v[-] post: late pre: zed";

/// Its rules, each as a line.
static RULES_READ: &[u8] = b"alias snd_hda|pci_x[a-b]*\n\
    blacklist u_2|\n\
    options b_1|depth=3  raw-x=1\n\
    install a|/bin/true\n\
    remove a|/bin/false -x\n\
    softdep m| gone a_v[_] zed/ late\n";

/// Reads the rules of two files.
fn rules_of(
    rt: &impl Abort,
    alloc: Global,
    first: &[u8],
    second: &[u8],
) -> Result<Rules, ConfFault> {
    let files = files_of(alloc, first, second).expect(rt, "files");
    parse(alloc, &files)
}

/// Compares the file and the number of the first bad line of two files.
fn expect_bad_line(
    rt: &impl Abort,
    alloc: Global,
    (first, second): (&[u8], &[u8]),
    name: u8,
    number: u32,
) {
    match rules_of(rt, alloc, first, second) {
        Err(ConfFault::BadLine { file, line }) => {
            same(rt, file.as_bytes(), &[name]);
            same_number(rt, line as u64, number as u64);
        }
        _ => panic!(rt; "no bad line"),
    }
}

#[test]
fn rules_of_lines(rt: HostRuntime) {
    let alloc = rt.alloc();
    for (first, second, name, number) in &BAD_LINES {
        expect_bad_line(&rt, alloc, (first, second), *name, *number);
    }
    let rules = rules_of(&rt, alloc, RULES, b"").expect(&rt, "rules");
    let text = text_of(alloc, &rules).expect(&rt, "a text");
    same(&rt, text.as_slice(), RULES_READ);
}
