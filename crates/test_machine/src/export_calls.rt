//! The table of exported names: those of a kernel and of modules, and the tests of a module by it.
ghost use Rattle.std.specs.Prelude.{◌≡◌, ◌<◌, ◌↔◌, [], ◌∷◌, All, IsTrue};

use crate::machine_calls::{kernel_of, kernel_of_printk, module_of};
use crate::param_calls::name_of;
use crate::same::{holds, shown};
use export_table::{
    ExportTable, Named, PlacedExport, Standing, check_bindings, given_addresses, kernel_table,
    named_exports, placed_exports,
};
use km_names::{List, Name};
use load_fault::{LoadFault, MachineFault};
use module_facts::{Export, Exports, Facts, Needs};
use provider_rel::Kernel;
use std::alloc::Global;
use std::collections::VecDeque;
use std::process::Abort;
use test_objects::{FREE, GIVES_ALONE, IMPORTS, MAY_NEED_VERSION_2, NEEDS, NEEDS_NOSUCH, SheetRow};

/// What a table has of a name: the version, whether only GPL-compatible modules may use it, the
/// namespace, the address, and the owner.
type Kept<'a> = (Option<u64>, bool, &'a Name, u64, Option<&'a Name>);

/// Returns what a table has of a name.
fn kept<'a>(table: &'a ExportTable, name: &[u8]) -> Option<Kept<'a>> {
    match table.get(name) {
        Some(standing) => Some((
            standing.crc,
            standing.gpl,
            &standing.space,
            standing.address,
            standing.owner.as_ref(),
        )),
        None => None,
    }
}

/// Makes the table of a kernel.
fn table_of(alloc: Global, kernel: &Kernel) -> Result<ExportTable, MachineFault> {
    kernel_table(alloc, kernel)
}

/// Makes the table of a kernel that exports `printk`.
fn table_of_printk(rt: &impl Abort, alloc: Global) -> ExportTable {
    let kernel = kernel_of_printk(rt, alloc);
    table_of(alloc, &kernel).expect(rt, "a table")
}

/// What that table has of `printk` and of `fa`.
static OF_KERNEL: &str =
    r#"(Some((Some(286331153), false, "", 18446744071578845184, None)), None)"#;

fn a_kernel_has_a_table(rt: &impl Abort, alloc: Global) {
    let table = table_of_printk(rt, alloc);
    let names = (kept(&table, b"printk"), kept(&table, b"fa"));
    shown(rt, alloc, names, OF_KERNEL);
}

fn a_table_needs_addresses(rt: &impl Abort, alloc: Global) {
    let kernel = kernel_of(rt, alloc, b"0x1\tfa\tvmlinux\n");
    let refused = table_of(alloc, &kernel).err();
    let want = r#"Some(KernelWithoutAddress { name: "fa" })"#;
    shown(rt, alloc, refused, want);
}

/// What a table is to have of `fa`, besides its address and its owner.
#[derive(Clone, Copy)]
struct FaRow {
    crc: Option<u64>,
    gpl: bool,
    space: &'static [u8],
}

/// `fa` for all modules.
const PLAIN: FaRow = FaRow {
    crc: None,
    gpl: false,
    space: b"",
};

/// Returns the entry of `fa`, which `a` exports.
fn entry_of_fa(rt: &impl Abort, alloc: Global, row: FaRow) -> Named {
    let standing = Standing {
        crc: row.crc,
        gpl: row.gpl,
        space: name_of(rt, alloc, row.space),
        address: 0x1000,
        owner: Some(name_of(rt, alloc, b"a")),
    };
    Named {
        name: Vec::from_slice(alloc, b"fa").expect(rt, "a name"),
        standing,
    }
}

/// Enters a name into a table.
fn enter(rt: &impl Abort, table: &mut ExportTable, named: Named) {
    table.reserve(1).expect(rt, "room");
    table.enter(named);
}

/// Makes a table of only `fa`.
fn table_of_fa(rt: &impl Abort, alloc: Global, row: FaRow) -> ExportTable {
    let mut table = ExportTable::new(alloc);
    enter(rt, &mut table, entry_of_fa(rt, alloc, row));
    table
}

/// `fa` in a version and a namespace, for GPL-compatible modules only.
const VERSION_1: FaRow = FaRow {
    crc: Some(1),
    gpl: true,
    space: b"NS",
};

/// What a table has of that.
static OF_VERSION_1: &str = r#"Some((Some(1), true, "NS", 4096, Some("a")))"#;

fn a_name_is_entered_once(rt: &impl Abort, alloc: Global) {
    let mut table = table_of_fa(rt, alloc, VERSION_1);
    enter(rt, &mut table, entry_of_fa(rt, alloc, PLAIN));
    shown(rt, alloc, kept(&table, b"fa"), OF_VERSION_1);
    table.forget(b"fa");
    shown(rt, alloc, kept(&table, b"fa"), "None");
    drop(table);
}

/// Returns an export of a module, with what `row` says.
fn export(rt: &impl Abort, alloc: Global, name: &[u8], symbol: u32, row: FaRow) -> Export
    ensures { result.symbol ≡ symbol }
{
    Export {
        name: name_of(rt, alloc, name),
        symbol,
        crc: row.crc,
        gpl: row.gpl,
        space: name_of(rt, alloc, row.space),
    }
}

/// Returns the list of two items.
fn pair<T: Drop>(rt: &impl Abort, alloc: Global, first: T, second: T) -> List<T>
    ensures { result ≡ first ∷ second ∷ [] }
{
    let mut list = List::new(alloc);
    list.push(first).expect(rt, "a list");
    list.push(second).expect(rt, "a list");
    list
}

/// Returns the exports `fa` and `fb`, by their symbols.
fn two_exports(rt: &impl Abort, alloc: Global) -> Exports
    ensures { All (λ export. export.symbol < 2) result }
{
    let fa = export(rt, alloc, b"fa", 1, VERSION_1);
    let fb = export(rt, alloc, b"fb", 0, PLAIN);
    pair(rt, alloc, fa, fb)
}

/// Returns these exports at the addresses of their symbols.
fn two_placed(rt: &impl Abort, alloc: Global) -> List<PlacedExport> {
    let exports = two_exports(rt, alloc);
    placed_exports(alloc, &exports, &[0x10, 0x20]).expect(rt, "exports")
}

/// Stops unless the export at a place is shown as this text.
fn expect_placed(
    rt: &impl Abort,
    alloc: Global,
    exports: &List<PlacedExport>,
    place: usize,
    want: &str,
) {
    let export = exports.get(place).expect(rt, "an export");
    let fields = (
        &export.name,
        export.crc,
        export.gpl,
        &export.space,
        export.address,
    );
    shown(rt, alloc, fields, want);
}

/// Enters these exports of `b` into a table.
fn enter_both(
    rt: &impl Abort,
    alloc: Global,
    table: &mut ExportTable,
    exports: &List<PlacedExport>,
) {
    let named = named_exports(alloc, b"b", exports).expect(rt, "names");
    table.reserve(named.len()).expect(rt, "room");
    table.enter_all(named);
}

/// Stops unless a table has this of `fa`, `fb` and `printk`.
fn expect_kept(rt: &impl Abort, alloc: Global, table: &ExportTable, want: &str) {
    let names = (
        kept(table, b"fa"),
        kept(table, b"fb"),
        kept(table, b"printk"),
    );
    shown(rt, alloc, names, want);
}

/// What a table has of the three names.
static ALL_THREE: &str =
    "(Some((Some(1), true, \"NS\", 32, Some(\"b\"))), Some((None, false, \"\", 16, Some(\"b\"))), \
        Some((Some(286331153), false, \"\", 18446744071578845184, None)))";

/// The same without the exports of `b`.
static ONLY_PRINTK: &str =
    r#"(None, None, Some((Some(286331153), false, "", 18446744071578845184, None)))"#;

fn exports_are_entered_and_forgotten(rt: &impl Abort, alloc: Global) {
    let exports = two_placed(rt, alloc);
    let want = r#"("fa", Some(1), true, "NS", 32)"#;
    expect_placed(rt, alloc, &exports, 0, want);
    let want = r#"("fb", None, false, "", 16)"#;
    expect_placed(rt, alloc, &exports, 1, want);
    let mut table = table_of_printk(rt, alloc);
    enter_both(rt, alloc, &mut table, &exports);
    expect_kept(rt, alloc, &table, ALL_THREE);
    table.forget_all(exports.as_slice());
    expect_kept(rt, alloc, &table, ONLY_PRINTK);
    drop(table);
    drop(exports);
}

/// Tests the needs and the exports of a module.
fn checked(alloc: Global, table: &ExportTable, facts: &Facts) -> Result<(), LoadFault> {
    check_bindings(alloc, table, facts)
}

/// A module, what a table has of `fa`, and whether the module passes the tests.
type BindingRow = (SheetRow, FaRow, &'static str);

/// `fa` for GPL-compatible modules only.
const GPL: FaRow = FaRow { gpl: true, ..PLAIN };

/// `fa` in a namespace.
const SPACE: FaRow = FaRow {
    space: b"NS",
    ..PLAIN
};

/// Modules that pass the tests, and one for each of these.
static BINDINGS: [BindingRow; 8] = [
    (NEEDS, PLAIN, "Ok(())"),
    (FREE, GPL, "Ok(())"),
    (IMPORTS, SPACE, "Ok(())"),
    (
        NEEDS_NOSUCH,
        PLAIN,
        r#"Err(MissingSymbol { name: "nosuch" })"#,
    ),
    (NEEDS, GPL, r#"Err(GplOnly { name: "fa" })"#),
    (
        MAY_NEED_VERSION_2,
        FaRow {
            crc: Some(1),
            ..PLAIN
        },
        r#"Err(VersionDiffers { name: "fa" })"#,
    ),
    (NEEDS, SPACE, r#"Err(NotImported { name: "fa" })"#),
    (
        GIVES_ALONE,
        PLAIN,
        r#"Err(ExportTaken { name: "fa", owner: "a" })"#,
    ),
];

/// Stops unless the tests of a module say this.
fn expect_bindings(rt: &impl Abort, alloc: Global, row: BindingRow) {
    let (sheet, fa, want) = row;
    let table = table_of_fa(rt, alloc, fa);
    let module = module_of(rt, alloc, b"kernel/b.ko", &sheet);
    shown(rt, alloc, checked(alloc, &table, &module.facts), want);
    drop(module);
    drop(table);
}

fn modules_are_tested(rt: &impl Abort, alloc: Global) {
    for row in &BINDINGS {
        expect_bindings(rt, alloc, *row);
    }
}

/// Returns whether the numbers of the symbols of needs are less than this.
fn are_below(needs: &Needs, count: u32) -> bool
    ensures { IsTrue result ↔ All (λ need. need.symbol < count) needs.now }
{
    needs.as_slice().iter().all(|need| need.symbol < count)
}

/// Returns the addresses of the symbols of a module.
fn given(
    rt: &impl Abort,
    alloc: Global,
    table: &ExportTable,
    facts: &Facts,
    count: u32,
) -> Vec<u64> {
    holds(rt, are_below(&facts.needs, count));
    given_addresses(alloc, table, facts, count).expect(rt, "addresses")
}

/// Stops unless these are the addresses of three symbols of a module that needs only `fa`, by its
/// symbol 1.
fn expect_given(rt: &impl Abort, alloc: Global, fa: FaRow, want: &str) {
    let table = table_of_fa(rt, alloc, fa);
    let module = module_of(rt, alloc, b"kernel/b.ko", &NEEDS);
    shown(rt, alloc, given(rt, alloc, &table, &module.facts, 3), want);
    drop(module);
    drop(table);
}

fn needs_are_given_addresses(rt: &impl Abort, alloc: Global) {
    expect_given(rt, alloc, PLAIN, "[0, 4096, 0]");
    expect_given(rt, alloc, GPL, "[0, 0, 0]");
}

#[test]
fn tables_of_exports_are_called(rt: HostRuntime) {
    a_kernel_has_a_table(&rt, rt.alloc());
    a_table_needs_addresses(&rt, rt.alloc());
    a_name_is_entered_once(&rt, rt.alloc());
    exports_are_entered_and_forgotten(&rt, rt.alloc());
    modules_are_tested(&rt, rt.alloc());
    needs_are_given_addresses(&rt, rt.alloc());
}
