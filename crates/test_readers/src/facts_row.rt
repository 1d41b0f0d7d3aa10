//! Modules that are written out, and the facts that they are to be read with.

use crate::same::{same, same_number};
use km_names::{Blob, Bytes, List, PathText};
use module_facts::{Export, Exports, Facts, Module, ModuleFault, Need, Needs, read_module};
use std::alloc::Global;
use std::process::Abort;
use test_objects::{EMPTY_MORE, EMPTY_SHEET, MoreRow, SheetRow, object_with};

/// An export, written out.
#[derive(Clone, Copy)]
pub(crate) struct ExportFact {
    pub(crate) name: &'static [u8],
    pub(crate) crc: Option<u64>,
    pub(crate) gpl: bool,
    pub(crate) space: &'static [u8],
}

/// A need, written out.
#[derive(Clone, Copy)]
pub(crate) struct NeedFact {
    pub(crate) name: &'static [u8],
    pub(crate) weak: bool,
    pub(crate) crc: Option<u64>,
}

/// A module, written out, and what it is to be read with.
#[derive(Clone, Copy)]
pub(crate) struct FactsRow {
    pub(crate) path: &'static [u8],
    pub(crate) sheet: SheetRow,
    pub(crate) more: MoreRow,
    pub(crate) name: &'static [u8],
    pub(crate) exports: &'static [ExportFact],
    pub(crate) needs: &'static [NeedFact],
    pub(crate) aliases: &'static [&'static [u8]],
    pub(crate) softdeps: &'static [&'static [u8]],
    pub(crate) free: bool,
    pub(crate) imports: &'static [&'static [u8]],
}

/// A module of nothing.
pub(crate) const NO_FACTS: FactsRow = FactsRow {
    path: b"kernel/b.ko",
    sheet: EMPTY_SHEET,
    more: EMPTY_MORE,
    name: b"b",
    exports: &[],
    needs: &[],
    aliases: &[],
    softdeps: &[],
    free: false,
    imports: &[],
};

/// Reads the module of these bytes at the path.
pub(crate) fn module_at(
    rt: &impl Abort,
    alloc: Global,
    path: &[u8],
    bytes: Blob,
) -> Result<Module, ModuleFault> {
    let path = PathText::from_slice(alloc, path).expect(rt, "a path");
    assert!(rt; bytes.len() <= 67_108_864);
    read_module(alloc, &path, bytes)
}

/// Returns the module of a sheet, with more, at the path.
pub(crate) fn module_of(
    rt: &impl Abort,
    alloc: Global,
    path: &[u8],
    sheet: &SheetRow,
    more: &MoreRow,
) -> Module {
    let bytes = object_with(alloc, sheet, more).expect(rt, "an object");
    module_at(rt, alloc, path, bytes).expect(rt, "a module")
}

/// Stops unless these are the same CRC, or there is none.
fn same_crc(rt: &impl Abort, got: Option<u64>, want: Option<u64>) {
    assert_eq!(rt; got, want);
}

fn expect_export(rt: &impl Abort, export: &Export, fact: &ExportFact) {
    same(rt, export.name.as_bytes(), fact.name);
    same_crc(rt, export.crc, fact.crc);
    assert!(rt; export.gpl == fact.gpl);
    same(rt, export.space.as_bytes(), fact.space);
}

fn expect_exports(rt: &impl Abort, exports: &Exports, wanted: &[ExportFact]) {
    same_number(rt, exports.len() as u64, wanted.len() as u64);
    for (export, fact) in exports.as_slice().iter().zip(wanted) {
        expect_export(rt, export, fact);
    }
}

fn expect_need(rt: &impl Abort, need: &Need, fact: &NeedFact) {
    same(rt, need.name.as_bytes(), fact.name);
    assert!(rt; need.weak == fact.weak);
    same_crc(rt, need.crc, fact.crc);
}

pub(crate) fn expect_needs(rt: &impl Abort, needs: &Needs, wanted: &[NeedFact]) {
    same_number(rt, needs.len() as u64, wanted.len() as u64);
    for (need, fact) in needs.as_slice().iter().zip(wanted) {
        expect_need(rt, need, fact);
    }
}

fn expect_texts<K>(rt: &impl Abort, texts: &List<Bytes<K>>, wanted: &[&[u8]]) {
    same_number(rt, texts.len() as u64, wanted.len() as u64);
    for (text, want) in texts.as_slice().iter().zip(wanted) {
        same(rt, text.as_bytes(), want);
    }
}

/// Checks that the facts are those that are written out.
fn expect_read(rt: &impl Abort, facts: &Facts, row: &FactsRow) {
    same(rt, facts.name.as_bytes(), row.name);
    expect_exports(rt, &facts.exports, row.exports);
    expect_needs(rt, &facts.needs, row.needs);
    expect_texts(rt, &facts.aliases, row.aliases);
    expect_texts(rt, &facts.softdeps, row.softdeps);
    assert!(rt; facts.free == row.free);
    expect_texts(rt, &facts.imports, row.imports);
}

/// Reads the module of a row, and compares its facts.
fn expect_row(rt: &impl Abort, alloc: Global, row: &FactsRow) {
    let module = module_of(rt, alloc, row.path, &row.sheet, &row.more);
    expect_read(rt, &module.facts, row);
    drop(module);
}

/// Reads the module of each row, and compares its facts.
pub(crate) fn expect_facts(rt: &impl Abort, alloc: Global, rows: &[FactsRow]) {
    for row in rows {
        expect_row(rt, alloc, row);
    }
}
