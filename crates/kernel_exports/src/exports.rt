// The exports of a kernel, each name once, as it is first exported.
ghost use Rattle.std.specs.Prelude.{◌≡◌, ◌+◌, ◌-◌, ◌<◌, ◌≤◌, ◌^◌, length, OnOk, IfOk, map};
ghost use Rattle.std.specs.Prelude.{option_copied};
ghost use Rattle.std.specs.List.{filter_map};
ghost use Rattle.km_names.specs.Limit.{file_limit};
ghost use Rattle.kernel_exports.specs.KernelTable.{IsTable, AreFirst, first_of_each, with_export};
ghost use Rattle.kernel_exports.specs.KernelTable.{with_its_address, with_addresses, exported_name};
ghost use Rattle.kernel_exports.specs.KernelTable.{export_of_entry, stated_export};
ghost use Rattle.kernel_exports.specs.KernelTable.{export_of_symbol, export_of_line};

use crate::map::SystemMap;
use crate::symvers::SymversLine;
use crate::{KernelExport, KernelExports};
use km_names::Name;
use name_table::NameTable;
use std::alloc::{AllocError, Global};

/// Makes the exports that symbols of a map state, the first of each name, at their addresses.
pub(crate) fn exports_of_symbols(
    alloc: Global,
    symbols: &SystemMap,
) -> Result<KernelExports, AllocError>
    requires { length symbols.now ≤ file_limit }
    ensures list { IfOk result
        (λ list. list
        ≡ with_addresses symbols.now
        (first_of_each (filter_map export_of_symbol symbols.now))) }
    ensures table { IfOk result (λ list. IsTable list) }
{
    let mut names = NameTable::new(alloc);
    let mut list = KernelExports::new(alloc);
    let lines = symbols.lines();
    for symbol in lines {
        if let Some(name) = exported_name(symbol.name()) {
            add_first(
                &mut names,
                &mut list,
                name,
                entry_export(alloc, name, symbols)?,
            )?;
        }
    }
    Ok(list)
}

/// Makes the kernel's exports that lines of a Module.symvers state, the first of each name.
pub(crate) fn exports_of_lines(
    alloc: Global,
    lines: &[SymversLine],
) -> Result<KernelExports, AllocError>
    requires { length lines.now ≤ file_limit }
    ensures list { IfOk result
        (λ list. list ≡ first_of_each (filter_map export_of_line lines.now)) }
    ensures table { IfOk result (λ list. IsTable list) }
{
    let mut names = NameTable::new(alloc);
    let mut list = KernelExports::new(alloc);
    for line in lines {
        if line.is_of_kernel() {
            add_first(
                &mut names,
                &mut list,
                line.name(),
                line_export(alloc, line)?,
            )?;
        }
    }
    Ok(list)
}

/// Makes exports with the addresses that symbols state.
pub(crate) fn with_all_addresses(
    alloc: Global,
    exports: &KernelExports,
    symbols: &SystemMap,
) -> Result<KernelExports, AllocError>
    requires { IsTable exports.now }
    ensures list { IfOk result (λ list. list ≡ with_addresses symbols.now exports.now) }
    ensures table { IfOk result (λ list. IsTable list) }
{
    let mut list = KernelExports::new(alloc);
    for export in exports.as_slice() {
        list.push(with_address(alloc, export, symbols)?)?;
    }
    Ok(list)
}

/// Returns what follows `__ksymtab_` in a name that begins with it.
fn exported_name(name: &[u8]) -> Option<&[u8]>
    ensures { option_copied result ≡ exported_name name.now }
{
    if name.starts_with(b"__ksymtab_") {
        Some(&name[10..])
    } else {
        None
    }
}

/// Adds an export of this name, unless there is one.
fn add_first<'a>(
    names: &mut NameTable<'a>,
    list: &mut KernelExports,
    name: &'a [u8],
    export: KernelExport,
) -> Result<(), AllocError>
    requires name { name.now ≡ export.name }
    requires few { names.old.count < 2 ^ 32 - 1 }
    ensures list { OnOk result
        (AreFirst names.old list.old → list.new ≡ with_export list.old export) }
    ensures first { OnOk result (AreFirst names.old list.old → AreFirst names.new list.new) }
    ensures count { OnOk result (names.new.count ≤ names.old.count + 1) }
{
    if names.place(name).is_none() {
        names.push(Some(name))?;
        list.push(export)?;
    }
    Ok(())
}

/// Makes the export of the name N that a symbol `__ksymtab_N` states, at the address of the symbol
/// N, if there is one.
fn entry_export(alloc: Global, name: &[u8], symbols: &SystemMap) -> Result<KernelExport, AllocError>
    ensures { IfOk result
        (λ export. export ≡ with_its_address symbols.now (export_of_entry name.now)) }
{
    Ok(KernelExport {
        name: Name::from_slice(alloc, name)?,
        crc: None,
        address: symbols.address(name),
        gpl: false,
        space: Name::new(alloc),
    })
}

/// Makes the export of a line.
fn line_export(alloc: Global, line: &SymversLine) -> Result<KernelExport, AllocError>
    ensures { IfOk result (λ export. export ≡ stated_export line.now) }
{
    Ok(KernelExport {
        name: Name::from_slice(alloc, line.name())?,
        crc: Some(line.crc()),
        address: None,
        gpl: line.gpl(),
        space: Name::from_slice(alloc, line.space())?,
    })
}

/// Makes an export with the address that symbols state, or with its own if they state none.
fn with_address(
    alloc: Global,
    export: &KernelExport,
    symbols: &SystemMap,
) -> Result<KernelExport, AllocError>
    ensures { IfOk result (λ copy. copy ≡ with_its_address symbols.now export.now) }
{
    let address = match symbols.address(export.name.as_bytes()) {
        Some(address) => Some(address),
        None => export.address,
    };
    Ok(KernelExport {
        name: Name::from_slice(alloc, export.name.as_bytes())?,
        crc: export.crc,
        address,
        gpl: export.gpl,
        space: Name::from_slice(alloc, export.space.as_bytes())?,
    })
}
