//! Objects, the fields of `.modinfo`, and the facts of modules.

use crate::same::{holds, same, shown};
use elf_object::{Object, ObjectFault, SectionFault, Sections};
use km_names::{Blob, List, Name, PathText};
use modinfo_fields::{Field, FieldList, fields};
use modinfo_tool::{ShowOptions, show};
use module_facts::{Module, ModuleFault, read_module};
use std::alloc::Global;
use std::process::Abort;
use test_objects::{
    EMPTY_MORE, EMPTY_SHEET, GIVES_ALONE, GPL_ONLY, IN_SPACE, LICENSE_OBJECT, MoreRow, NO_MORE,
    NeedRow, SheetRow, VersionRow, object_with,
};
use tree_gen::{
    Sheet, SheetMore, SheetNeed, SheetPlace, SheetVersion, is_sheet, object, object_more,
};

/// Returns a path.
fn path(rt: &impl Abort, alloc: Global, text: &[u8]) -> PathText {
    PathText::from_slice(alloc, text).expect(rt, "a path")
}

// Each reader is called by a function that promises nothing.

/// Reads the module of these bytes at the path.
fn read(rt: &impl Abort, alloc: Global, at: &[u8], bytes: Blob) -> Result<Module, ModuleFault> {
    holds(rt, bytes.len() <= 67_108_864);
    read_module(alloc, &path(rt, alloc, at), bytes)
}

/// Reads the sections of the first bytes of the small object.
fn sections_of(rt: &impl Abort, alloc: Global, length: usize) -> Result<Sections, SectionFault> {
    let start = LICENSE_OBJECT.get(..length).unwrap_or(&[]);
    let bytes = Blob::from_slice(alloc, start).expect(rt, "bytes");
    Sections::read(alloc, bytes)
}

/// The second section of the small object.
static MODINFO: &str =
    "Section { name: \".modinfo\", kind: 1, flags: 2, offset: 64, size: 12, link: 0, info: 0, \
        align: 1, kept: false }";

/// Stops unless these are the sections of the small object.
fn expect_license(rt: &impl Abort, alloc: Global, sections: &Sections) {
    holds(rt, sections.section_count() == 3);
    shown(rt, alloc, sections.section(1), MODINFO);
    same(rt, sections.section_bytes(1), b"license=GPL\0");
    let modinfo = sections.section_named(b".modinfo");
    let text = sections.section_named(b".text");
    shown(rt, alloc, (modinfo, text), "(Some(1), None)");
}

fn sections_are_read(rt: &impl Abort, alloc: Global) {
    let sections = sections_of(rt, alloc, 288).expect(rt, "sections");
    expect_license(rt, alloc, &sections);
    drop(sections);
}

fn a_file_that_is_cut_is_refused(rt: &impl Abort, alloc: Global) {
    let refused = sections_of(rt, alloc, 287).err();
    let fault = refused.expect(rt, "a refusal");
    shown(rt, alloc, fault, "Truncated { offset: 96, need: 192 }");
    shown(
        rt,
        alloc,
        fault.text(alloc),
        r#"Ok("truncated at 96 need 192")"#,
    );
}

/// Returns the name of the symbol.
fn fa(rt: &impl Abort, alloc: Global) -> Name {
    Name::from_slice(alloc, b"fa").expect(rt, "a name")
}

/// Makes a sheet that needs `fa`, with one word for it.
fn needs_fa(rt: &impl Abort, alloc: Global, kind: u32) -> Sheet {
    let mut sheet = Sheet {
        texts: List::new(alloc),
        versions: List::new(alloc),
        exports: List::new(alloc),
        needs: List::new(alloc),
        places: List::new(alloc),
    };
    push_need(rt, alloc, &mut sheet);
    push_place(rt, alloc, &mut sheet, kind);
    sheet
}

/// Puts the need of `fa` into a sheet.
fn push_need(rt: &impl Abort, alloc: Global, sheet: &mut Sheet) {
    let need = SheetNeed {
        name: fa(rt, alloc),
        weak: false,
    };
    sheet.needs.push(need).expect(rt, "needs");
}

/// Puts a word for `fa` into a sheet.
fn push_place(rt: &impl Abort, alloc: Global, sheet: &mut Sheet, kind: u32) {
    let place = SheetPlace {
        kind,
        symbol: fa(rt, alloc),
        addend: -7,
    };
    sheet.places.push(place).expect(rt, "places");
}

/// Returns the object of a sheet.
fn written(rt: &impl Abort, alloc: Global, sheet: &Sheet) -> Blob {
    let can_be_written = is_sheet(alloc, sheet, &SheetMore::none(alloc)).expect(rt, "an answer");
    holds(rt, can_be_written);
    object(alloc, sheet).expect(rt, "an object")
}

/// Returns the object of that sheet.
fn object_that_needs_fa(rt: &impl Abort, alloc: Global, kind: u32) -> Blob {
    let sheet = needs_fa(rt, alloc, kind);
    let bytes = written(rt, alloc, &sheet);
    drop(sheet);
    bytes
}

/// Reads that object.
fn read_object(rt: &impl Abort, alloc: Global, kind: u32) -> Result<Object, ObjectFault> {
    let bytes = object_that_needs_fa(rt, alloc, kind);
    holds(rt, bytes.len() <= 67_108_864);
    Object::read(alloc, bytes)
}

/// The section of the words of that object.
static DATA: &str =
    "Section { name: \".data\", kind: 1, flags: 3, offset: 64, size: 8, link: 0, info: 0, \
        align: 8, kept: true }";

/// Its symbol, which isn't defined.
static SYMBOL: &str = r#"Symbol { name: "fa", binding: 1, section: 0, value: 0 }"#;

/// Its place.
static PLACE: &str =
    "RelaPlace { section: 5, entry: 0, target: 2, offset: 0, symbol: 1, kind: 1, addend: -7 }";

fn an_object_is_read(rt: &impl Abort, alloc: Global) {
    let object = read_object(rt, alloc, 1).expect(rt, "an object");
    expect_sections(rt, alloc, &object);
    expect_entries(rt, alloc, &object);
    drop(object);
}

/// Stops unless an object has nine sections, the second of them for its word.
fn expect_sections(rt: &impl Abort, alloc: Global, object: &Object) {
    holds(rt, object.section_count() == 9);
    holds(rt, object.section_named(b".data") == Some(2));
    shown(rt, alloc, object.section(2), DATA);
    same(rt, object.section_bytes(2), &[0; 8]);
}

/// Stops unless an object has the one symbol, and the one place.
fn expect_entries(rt: &impl Abort, alloc: Global, object: &Object) {
    holds(rt, object.symbol_count() == 2);
    shown(rt, alloc, object.symbol(1), SYMBOL);
    holds(rt, object.place_count() == 1);
    shown(rt, alloc, object.place(0), PLACE);
}

/// Returns what an object has besides its sheet: a version in the extended form.
fn version_of_fa(rt: &impl Abort, alloc: Global) -> SheetMore {
    let mut more = SheetMore::none(alloc);
    let version = SheetVersion {
        name: fa(rt, alloc),
        crc: 0x11,
    };
    more.ext.push(version).expect(rt, "one more");
    more
}

/// Returns the object of a sheet with more.
fn written_more(rt: &impl Abort, alloc: Global, sheet: &Sheet, more: &SheetMore) -> Blob {
    let can_be_written = is_sheet(alloc, sheet, more).expect(rt, "an answer");
    holds(rt, can_be_written);
    object_more(alloc, sheet, more).expect(rt, "an object")
}

/// Returns the object of that sheet with that version.
fn object_with_version(rt: &impl Abort, alloc: Global) -> Blob {
    let sheet = needs_fa(rt, alloc, 1);
    let more = version_of_fa(rt, alloc);
    let bytes = written_more(rt, alloc, &sheet, &more);
    drop(sheet);
    drop(more);
    bytes
}

/// Stops unless a module has these facts, and so many places.
fn expect_module(rt: &impl Abort, alloc: Global, at: &[u8], bytes: Blob, want: &str) {
    let module = read(rt, alloc, at, bytes).expect(rt, "a module");
    shown(
        rt,
        alloc,
        (&module.facts, module.object.place_count()),
        want,
    );
    drop(module);
}

/// The facts of its module.
static VERSION_OF_FA: &str =
    "(Facts { path: \"kernel/b.ko\", name: \"b\", exports: List { elements: [] }, \
        needs: List { elements: [Need { name: \"fa\", symbol: 1, weak: false, crc: Some(17) }] }, \
        aliases: List { elements: [] }, softdeps: List { elements: [] }, \
        free: false, imports: List { elements: [] } }, 1)";

fn an_object_has_more(rt: &impl Abort, alloc: Global) {
    let bytes = object_with_version(rt, alloc);
    expect_module(rt, alloc, b"kernel/b.ko", bytes, VERSION_OF_FA);
}

/// Stops unless a module is refused with this text.
fn expect_refusal(rt: &impl Abort, alloc: Global, at: &[u8], kind: u32, want: &str) {
    let bytes = object_that_needs_fa(rt, alloc, kind);
    let refused = read(rt, alloc, at, bytes).err();
    let fault = refused.expect(rt, "a refusal");
    shown(rt, alloc, fault.text(alloc), want);
    drop(fault);
}

/// Paths of modules that are refused, the types of their places, and why.
static REFUSALS: [(&[u8], u32, &str); 3] = [
    (b"/m/a.ko", 9, r#"Ok("unknown relocation 5 0 9")"#),
    (b"/m/x.ko.zst", 1, r#"Ok("compressed")"#),
    (b"/m/.ko", 1, r#"Ok("bad name")"#),
];

fn faults_of_modules_have_texts(rt: &impl Abort, alloc: Global) {
    for (at, kind, want) in &REFUSALS {
        expect_refusal(rt, alloc, at, *kind, want);
    }
}

fn an_unknown_relocation_is_reported(rt: &impl Abort, alloc: Global) {
    let refused = read_object(rt, alloc, 9).err();
    let fault = refused.expect(rt, "a refusal");
    let want = "UnknownType { section: 5, entry: 0, kind: 9 }";
    shown(rt, alloc, fault, want);
    shown(
        rt,
        alloc,
        fault.text(alloc),
        r#"Ok("unknown relocation 5 0 9")"#,
    );
}

/// The facts of a module that exports nothing, needs only `fa` and isn't free.
static FACTS: &str =
    "(Facts { path: \"kernel/b-c.ko\", name: \"b_c\", exports: List { elements: [] }, \
        needs: List { elements: [Need { name: \"fa\", symbol: 1, weak: false, crc: None }] }, \
        aliases: List { elements: [] }, softdeps: List { elements: [] }, \
        free: false, imports: List { elements: [] } }, 1)";

fn a_module_has_its_facts(rt: &impl Abort, alloc: Global) {
    let bytes = object_that_needs_fa(rt, alloc, 1);
    expect_module(rt, alloc, b"kernel/b-c.ko", bytes, FACTS);
}

/// A name of 60 bytes, for which an entry of `__versions` has no room.
const LONG: &[u8] = &[b'x'; 60];

/// A module that needs that name in a version.
const NEEDS_LONG: SheetRow = SheetRow {
    needs: &[NeedRow {
        name: LONG,
        weak: false,
    }],
    ..EMPTY_SHEET
};

/// The version, in the extended form.
const LONG_VERSION: MoreRow = MoreRow {
    ext: &[VersionRow {
        name: LONG,
        crc: 0x11,
    }],
    ..EMPTY_MORE
};

/// Modules, with their facts. Three exports are the same but for their kind: whether only GPL
/// modules use them, and their namespace.
static MODULES: [(SheetRow, MoreRow, &str); 4] = [
    (
        GIVES_ALONE,
        NO_MORE,
        "(Facts { path: \"kernel/a.ko\", name: \"a\", \
            exports: List { elements: [Export { name: \"fa\", symbol: 2, crc: None, gpl: false, \
            space: \"\" }] }, needs: List { elements: [] }, aliases: List { elements: [] }, \
            softdeps: List { elements: [] }, free: false, imports: List { elements: [] } }, 0)",
    ),
    (
        GIVES_ALONE,
        GPL_ONLY,
        "(Facts { path: \"kernel/a.ko\", name: \"a\", \
            exports: List { elements: [Export { name: \"fa\", symbol: 2, crc: None, gpl: true, \
            space: \"\" }] }, needs: List { elements: [] }, aliases: List { elements: [] }, \
            softdeps: List { elements: [] }, free: false, imports: List { elements: [] } }, 0)",
    ),
    (
        GIVES_ALONE,
        IN_SPACE,
        "(Facts { path: \"kernel/a.ko\", name: \"a\", \
            exports: List { elements: [Export { name: \"fa\", symbol: 3, crc: None, gpl: false, \
            space: \"NS\" }] }, needs: List { elements: [] }, aliases: List { elements: [] }, \
            softdeps: List { elements: [] }, free: false, imports: List { elements: [] } }, 0)",
    ),
    (
        NEEDS_LONG,
        LONG_VERSION,
        "(Facts { path: \"kernel/a.ko\", name: \"a\", exports: List { elements: [] }, \
            needs: List { elements: [Need { name: \
            \"xxxxxxxxxxxxxxxxxxxxxxxxxxxxxxxxxxxxxxxxxxxxxxxxxxxxxxxxxxxx\", symbol: 1, \
            weak: false, crc: Some(17) }] }, aliases: List { elements: [] }, \
            softdeps: List { elements: [] }, free: false, imports: List { elements: [] } }, 0)",
    ),
];

fn exports_and_needs_have_their_kind(rt: &impl Abort, alloc: Global) {
    for (sheet, more, want) in &MODULES {
        let bytes = object_with(alloc, sheet, more).expect(rt, "an object");
        expect_module(rt, alloc, b"kernel/a.ko", bytes, want);
    }
}

/// Fields with NULs between them, one without `=`.
const TEXTS: &[u8] = b"license=GPL\0\0\0lone\0author=A\0";

fn fields_stand_between_nuls(rt: &impl Abort, alloc: Global) {
    let list = fields(alloc, TEXTS).expect(rt, "fields");
    let values = list.values_of(alloc, b"license");
    shown(rt, alloc, values, r#"Ok(List { elements: ["GPL"] })"#);
    let field = (list.len(), list.get(1));
    shown(
        rt,
        alloc,
        field,
        r#"(3, Some(Field { key: "lone", value: "" }))"#,
    );
}

/// Returns a list of one field.
fn one_field(rt: &impl Abort, alloc: Global) -> FieldList {
    let mut list = FieldList::new(alloc);
    list.push(Field {
        key: Name::from_slice(alloc, b"alias").expect(rt, "bytes"),
        value: Blob::from_slice(alloc, b"fs-x").expect(rt, "bytes"),
    })
    .expect(rt, "one more");
    list
}

fn fields_of_ones_own_have_values(rt: &impl Abort, alloc: Global) {
    let list = one_field(rt, alloc);
    let values = (list.len(), list.values_of(alloc, b"alias"));
    shown(rt, alloc, values, r#"(1, Ok(List { elements: ["fs-x"] }))"#);
}

/// Returns the only field that is shown, if there is one.
fn field_of(rt: &impl Abort, alloc: Global, key: Option<&[u8]>) -> Option<Name> {
    match key {
        Some(key) => Some(Name::from_slice(alloc, key).expect(rt, "a name")),
        None => None,
    }
}

/// Returns what is shown of these fields of a module.
fn text_of(rt: &impl Abort, alloc: Global, list: &FieldList, options: &ShowOptions) -> Blob {
    show(alloc, &path(rt, alloc, b"/m/a.ko"), list, options).expect(rt, "a text")
}

/// Fields of two parameters, with others before and after them.
const PARAMETERS: &[u8] =
    b"license=GPL\0parm=depth:how deep\0parmtype=depth:int\0parmtype=raw:bool\0alias=fs-x\0";

/// Fields, the only one that is shown, if there is one, whether its lines end with NULs, and what
/// is shown.
type ShownRow = (&'static [u8], Option<&'static [u8]>, bool, &'static [u8]);

/// These rows.
static ROWS: [ShownRow; 4] = [
    (
        TEXTS,
        None,
        false,
        b"filename:       /m/a.ko\nlicense:        GPL\nlone:           \nauthor:         A\n",
    ),
    (TEXTS, Some(b"license"), true, b"GPL\0"),
    (
        PARAMETERS,
        None,
        false,
        b"filename:       /m/a.ko\n\
            license:        GPL\n\
            alias:          fs-x\n\
            parm:           depth:how deep (int)\n\
            parm:           raw:bool\n",
    ),
    (
        PARAMETERS,
        Some(b"parm"),
        true,
        b"depth:how deep (int)\0raw:bool\0",
    ),
];

/// Stops unless this is shown of fields.
fn expect_text(rt: &impl Abort, alloc: Global, row: ShownRow) {
    let (texts, key, zero, want) = row;
    let list = fields(alloc, texts).expect(rt, "fields");
    let field = field_of(rt, alloc, key);
    let text = text_of(rt, alloc, &list, &ShowOptions { field, zero });
    same(rt, text.as_bytes(), want);
}

fn fields_are_shown(rt: &impl Abort, alloc: Global) {
    for row in &ROWS {
        expect_text(rt, alloc, *row);
    }
}

#[test]
fn objects_are_called(rt: HostRuntime) {
    sections_are_read(&rt, rt.alloc());
    a_file_that_is_cut_is_refused(&rt, rt.alloc());
    an_object_is_read(&rt, rt.alloc());
    faults_of_modules_have_texts(&rt, rt.alloc());
    an_object_has_more(&rt, rt.alloc());
    an_unknown_relocation_is_reported(&rt, rt.alloc());
    a_module_has_its_facts(&rt, rt.alloc());
    exports_and_needs_have_their_kind(&rt, rt.alloc());
    fields_stand_between_nuls(&rt, rt.alloc());
    fields_of_ones_own_have_values(&rt, rt.alloc());
    fields_are_shown(&rt, rt.alloc());
}
