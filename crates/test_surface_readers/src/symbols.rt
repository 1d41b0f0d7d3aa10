//! What the symbols of a module state: its exports and needs, with their versions.
ghost use Rattle.module_symbols.specs.SymbolTables.{HasTables};

use crate::same::{holds, same, shown};
use crate::written::{push_bytes, written};
use elf_object::ObjectView;
use elf_write::push_further;
use km_names::Blob;
use module_symbols::{
    Role, SymbolTables, exports_by, given_space, given_version, is_bad_list, modinfo_bytes,
    named_bytes, read_needs, section_contents, symbol_of, tables_of,
};
use std::alloc::Global;
use std::process::Abort;
use test_objects::{
    EMPTY_MORE, EMPTY_SHEET, ExportRow, LICENSE_OBJECT, MoreRow, NeedRow, SheetRow, SpaceRow,
    VersionRow, object_with,
};

/// A module that exports `fa` with a version, and needs `printk` in one.
const SHEET: SheetRow = SheetRow {
    texts: &[b"license=GPL"],
    versions: &[VersionRow {
        name: b"printk",
        crc: 0x22,
    }],
    exports: &[ExportRow {
        name: b"fa",
        crc: Some(0x11),
    }],
    needs: &[NeedRow {
        name: b"printk",
        weak: false,
    }],
    ..EMPTY_SHEET
};

/// The export is only for GPL-compatible modules, and in a namespace. The section 9 is for the one,
/// and the section 10 for the other.
const MORE: MoreRow = MoreRow {
    gpl: &[b"fa"],
    spaces: &[SpaceRow {
        name: b"fa",
        space: b"NS",
    }],
    ..EMPTY_MORE
};

/// Reads an object.
fn view_of<'a>(rt: &impl Abort, alloc: Global, bytes: &'a [u8]) -> ObjectView<'a> {
    holds(rt, bytes.len() <= 67_108_864);
    ObjectView::read(alloc, bytes).expect(rt, "an object")
}

/// Stops unless the sections of an object have their bytes.
fn expect_contents(rt: &impl Abort, alloc: Global, object: &ObjectView<'_>) {
    same(rt, modinfo_bytes(object), b"license=GPL\0");
    same(rt, section_contents(object, 10), b"NS\0");
    same(rt, section_contents(object, 11), b"");
    let strings = named_bytes(object, b"__ksymtab_strings");
    let none = named_bytes(object, b"__ksymtab_none");
    shown(rt, alloc, (strings, none), "(Some([78, 83, 0]), None)");
}

/// The need of an object.
static NEEDS: &str =
    r#"Ok(List { elements: [Need { name: "printk", symbol: 5, weak: false, crc: Some(34) }] })"#;

/// Its export.
static EXPORTS: &str = "Ok(List { elements: [Export { name: \"fa\", symbol: 4, crc: Some(17), \
        gpl: true, space: \"NS\" }] })";

/// Stops unless these are the needs and the exports of an object.
fn expect_symbols(rt: &impl Abort, alloc: Global, object: &ObjectView<'_>) {
    shown(rt, alloc, read_needs(alloc, object), NEEDS);
    holds(rt, !is_bad_list(object));
    let tables = tables_of(alloc, object).expect(rt, "an answer");
    let exports = exports_by(alloc, object, tables.as_ref());
    shown(rt, alloc, exports, EXPORTS);
    let Some(tables) = tables else {
        panic!(rt; "no tables");
    };
    expect_first(rt, alloc, &tables);
    expect_given(rt, alloc, object, &tables);
    drop(tables);
}

/// Stops unless these are the first symbols of `fa` in each role. `fb` has none.
fn expect_first(rt: &impl Abort, alloc: Global, tables: &SymbolTables<'_>) {
    let first = (
        tables.first_symbol(Role::Export, b"fa"),
        tables.first_symbol(Role::Version, b"fa"),
        tables.first_symbol(Role::Space, b"fa"),
        tables.first_symbol(Role::Definition, b"fa"),
        tables.first_symbol(Role::Export, b"fb"),
    );
    let want = "(Some(1), Some(2), Some(3), Some(4), None)";
    shown(rt, alloc, first, want);
}

/// Stops unless the symbols of `fa` give its version and its namespace. A symbol of a section with
/// less than 4 bytes gives no version, and an absolute one no namespace.
fn expect_given(rt: &impl Abort, alloc: Global, object: &ObjectView<'_>, tables: &SymbolTables<'_>)
    requires { HasTables tables.now object.now }
{
    let crc = symbol_of(object, tables, Role::Version, b"fa").expect(rt, "a symbol");
    let space = symbol_of(object, tables, Role::Space, b"fa").expect(rt, "a symbol");
    let versions = (given_version(object, crc), given_version(object, space));
    let spaces = (given_space(object, crc), given_space(object, space));
    let want = "((Some(17), None), (None, Some([78, 83])))";
    shown(rt, alloc, (versions, spaces), want);
}

fn symbols_are_read(rt: &impl Abort, alloc: Global) {
    let bytes = object_with(alloc, &SHEET, &MORE).expect(rt, "an object");
    let object = view_of(rt, alloc, bytes.as_bytes());
    expect_contents(rt, alloc, &object);
    expect_symbols(rt, alloc, &object);
    drop(object);
}

fn an_object_without_exports_has_no_tables(rt: &impl Abort, alloc: Global) {
    let object = view_of(rt, alloc, &LICENSE_OBJECT);
    let tables = tables_of(alloc, &object).expect(rt, "an answer");
    holds(rt, tables.is_none());
    let exports = exports_by(alloc, &object, tables.as_ref());
    shown(rt, alloc, exports, "Ok(List { elements: [] })");
    drop(tables);
    drop(object);
}

/// Returns an object whose only version has 63 of 64 bytes.
fn cut_version(rt: &impl Abort, alloc: Global) -> Vec<u8> {
    let mut parts = Vec::new(alloc);
    push_bytes(rt, alloc, &mut parts, b"__versions", &[0; 63]);
    push_further(alloc, &mut parts, Vec::new(alloc)).expect(rt, "sections");
    written(rt, alloc, &parts)
}

fn a_cut_version_is_bad(rt: &impl Abort, alloc: Global) {
    let bytes = cut_version(rt, alloc);
    let object = view_of(rt, alloc, &bytes);
    holds(rt, is_bad_list(&object));
    drop(object);
}

#[test]
fn symbols_are_called(rt: HostRuntime) {
    symbols_are_read(&rt, rt.alloc());
    an_object_without_exports_has_no_tables(&rt, rt.alloc());
    a_cut_version_is_bad(&rt, rt.alloc());
}
