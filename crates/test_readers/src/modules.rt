// Modules as they read, and the texts of faults.

use elf_object::{ObjectFault, SectionFault};
use km_names::{Blob, Name, PathText};
use module_facts::{Facts, Module, ModuleFault, read_facts, read_module};
use std::alloc::Global;
use std::process::Abort;
use test_objects::LICENSE_OBJECT;

/// Returns a path.
fn path_of(rt: &impl Abort, alloc: Global, path: &[u8]) -> PathText {
    PathText::from_slice(alloc, path).expect(rt, "a path")
}

/// Reads the first bytes of `LICENSE_OBJECT` as a module at a path, with its object.
fn module_of(
    rt: &impl Abort,
    alloc: Global,
    path: &[u8],
    length: usize,
) -> Result<Module, ModuleFault> {
    let start = LICENSE_OBJECT.get(..length).unwrap_or(&[]);
    assert!(rt; start.len() <= 300);
    let bytes = Blob::from_slice(alloc, start).expect(rt, "bytes");
    read_module(alloc, &path_of(rt, alloc, path), bytes)
}

/// Reads the same bytes without an object.
fn facts_of(
    rt: &impl Abort,
    alloc: Global,
    path: &[u8],
    length: usize,
) -> Result<Facts, ModuleFault> {
    let start = LICENSE_OBJECT.get(..length).unwrap_or(&[]);
    assert!(rt; start.len() <= 300);
    read_facts(alloc, &path_of(rt, alloc, path), start)
}

fn same(rt: &impl Abort, got: &[u8], want: &[u8]) {
    assert_eq!(rt; got, want);
}

/// Checks the facts of a module that states only a license.
fn expect_license_alone(rt: &impl Abort, facts: &Facts) {
    same(rt, facts.path.as_bytes(), b"/m/a-b.c.ko");
    same(rt, facts.name.as_bytes(), b"a_b");
    assert!(rt; facts.exports.is_empty());
    assert!(rt; facts.needs.is_empty());
    assert!(rt; facts.aliases.is_empty());
    assert!(rt; facts.softdeps.is_empty());
    assert!(rt; facts.free);
    assert!(rt; facts.imports.is_empty());
}

/// Checks such a module, with and without its object, which is kept with its facts.
fn expect_license(rt: &impl Abort, alloc: Global) {
    let module = module_of(rt, alloc, b"/m/a-b.c.ko", 288).expect(rt, "a module");
    expect_license_alone(rt, &module.facts);
    assert_eq!(rt; module.object.section_count(), 3);
    let facts = facts_of(rt, alloc, b"/m/a-b.c.ko", 288).expect(rt, "facts");
    expect_license_alone(rt, &facts);
}

/// Paths, how many bytes of `LICENSE_OBJECT` are read, and the text of the fault.
static REFUSED: [(&[u8], usize, &str); 6] = [
    (b"/m/x.ko.zst", 0, "compressed"),
    (b"/m/x.ko", 0, "not an ELF file"),
    (b"/m/x.ko", 63, "truncated at 0 need 64"),
    (
        b"/m/abcdefghabcdefghabcdefghabcdefghabcdefghabcdefghabcdefgh.ko",
        288,
        "name too long",
    ),
    (b"/m/.ko", 288, "bad name"),
    (b"/m/a b.ko", 288, "bad name"),
];

/// Returns why no module is read.
fn fault_of_module(
    rt: &impl Abort,
    alloc: Global,
    path: &[u8],
    length: usize,
    want: &str,
) -> ModuleFault {
    let refused = module_of(rt, alloc, path, length).err();
    refused.expect(rt, want)
}

/// Returns why no facts are read.
fn fault_of_facts(
    rt: &impl Abort,
    alloc: Global,
    path: &[u8],
    length: usize,
    want: &str,
) -> ModuleFault {
    let refused = facts_of(rt, alloc, path, length).err();
    refused.expect(rt, want)
}

#[test]
fn modules_are_read_or_refused(rt: HostRuntime) {
    let alloc = rt.alloc();
    expect_license(&rt, alloc);
    for (path, length, want) in &REFUSED {
        expect_text(
            &rt,
            alloc,
            fault_of_module(&rt, alloc, path, *length, want),
            want,
        );
        expect_text(
            &rt,
            alloc,
            fault_of_facts(&rt, alloc, path, *length, want),
            want,
        );
    }
}

/// Returns the name of a symbol.
fn fa(rt: &impl Abort, alloc: Global) -> Name {
    Name::from_slice(alloc, b"fa").expect(rt, "a name")
}

fn export_twice(rt: &impl Abort, alloc: Global) -> ModuleFault {
    let name = fa(rt, alloc);
    ModuleFault::ExportTwice { name }
}

fn export_undefined(rt: &impl Abort, alloc: Global) -> ModuleFault {
    let name = fa(rt, alloc);
    ModuleFault::ExportUndefined { name }
}

fn bad_namespace(rt: &impl Abort, alloc: Global) -> ModuleFault {
    let name = fa(rt, alloc);
    ModuleFault::BadNamespace { name }
}

#[test]
fn faults_have_texts(rt: HostRuntime) {
    let alloc = rt.alloc();
    let shape = ObjectFault::Shape(SectionFault::BadSection { index: 2 });
    expect_text(&rt, alloc, ModuleFault::Object(shape), "bad section 2");
    expect_text(&rt, alloc, export_twice(&rt, alloc), "export fa twice");
    expect_text(
        &rt,
        alloc,
        export_undefined(&rt, alloc),
        "export fa undefined",
    );
    expect_text(&rt, alloc, bad_namespace(&rt, alloc), "bad namespace of fa");
    expect_text(&rt, alloc, ModuleFault::BadVersions, "bad versions");
    expect_text(&rt, alloc, ModuleFault::Memory, "out of memory");
}

/// Returns what a fault's `Display` writes.
fn shown(rt: &impl Abort, alloc: Global, fault: &ModuleFault) -> String {
    format!(in alloc; "{fault}").expect(rt, "shown")
}

/// Checks the fault's text, and what its `Display` writes.
fn expect_text(rt: &impl Abort, alloc: Global, fault: ModuleFault, want: &str) {
    let text = fault.text(alloc).expect(rt, "a text");
    same(rt, text.as_bytes(), want.as_bytes());
    same(rt, shown(rt, alloc, &fault).as_bytes(), want.as_bytes());
}
