// The names in a sheet.
ghost use Rattle.std.specs.Prelude.{◌≡◌, ◌≤◌, ◌++◌, ℕ, List, [], length, map, Some, OnOk, IfOk};
ghost use Rattle.name_table.specs.NameTable.{IsTableOf};
ghost use Rattle.sheet_object.specs.Sheet.{symbol_names};
ghost use Rattle.sheet_object.specs.Writing.{names_of};

use crate::sheet::{Sheet, SheetExport, SheetNeed, SheetPlace, SheetSpace};
use km_names::Name;
use name_table::NameTable;
use std::alloc::{AllocError, Global};

/// An item of a sheet that has the name of a symbol.
pub(crate) trait Named {
    ghost name: { Self → List ℕ };

    fn name(&self) -> &[u8]
        ensures { result.now ≡ name self.now };
}

impl Named for SheetExport {
    ghost name = { λ e. e.name };

    fn name(&self) -> &[u8] {
        self.name.as_bytes()
    }
}

impl Named for SheetNeed {
    ghost name = { λ n. n.name };

    fn name(&self) -> &[u8] {
        self.name.as_bytes()
    }
}

impl Named for SheetPlace {
    ghost name = { λ p. p.symbol };

    fn name(&self) -> &[u8] {
        self.symbol.as_bytes()
    }
}

impl Named for SheetSpace {
    ghost name = { λ p. p.name };

    fn name(&self) -> &[u8] {
        self.name.as_bytes()
    }
}

impl Named for Name {
    ghost name = { λ n. n };

    fn name(&self) -> &[u8] {
        self.as_bytes()
    }
}

impl<'a> Named for &'a [u8] {
    ghost name = { λ n. n.now };

    fn name(&self) -> &[u8] {
        self
    }
}

/// Returns the names of the exported symbols, and then of the undefined symbols.
pub(crate) fn symbol_names(alloc: Global, sheet: &Sheet) -> Result<Vec<&[u8]>, AllocError>
    ensures { IfOk result (λ v. names_of v.items ≡ symbol_names sheet.now) }
{
    let mut symbols = Vec::new(alloc);
    push_names(&mut symbols, sheet.exports.as_slice())?;
    push_names(&mut symbols, sheet.needs.as_slice())?;
    Ok(symbols)
}

/// Returns the table of the names of items.
pub(crate) fn table_of<'a, T: Named>(
    alloc: Global,
    items: &'a [T],
) -> Result<NameTable<'a>, AllocError>
    requires { length items.now ≤ 131070 }
    ensures { IfOk result (λ t. IsTableOf t (map (λ n. Some n) (map T.name items.now))) }
{
    let mut table = NameTable::new(alloc);
    fill_table(&mut table, items)?;
    Ok(table)
}

/// Puts the names of items at the end, in their order.
fn push_names<'a, T: Named>(names: &mut Vec<&'a [u8]>, items: &'a [T]) -> Result<(), AllocError>
    ensures { OnOk result
        (names_of names.new.items ≡ names_of names.old.items ++ map T.name items.now) }
{
    for item in items {
        names.push(item.name())?;
    }
    Ok(())
}

/// Puts the names of items into a table that has none.
fn fill_table<'a, T: Named>(table: &mut NameTable<'a>, items: &'a [T]) -> Result<(), AllocError>
    requires few { length items.now ≤ 131070 }
    requires none { IsTableOf table.old [] }
    requires count { table.old.count ≡ 0 }
    ensures { OnOk result (IsTableOf table.new (map (λ n. Some n) (map T.name items.now))) }
{
    for item in items {
        table.push(Some(item.name()))?;
    }
    Ok(())
}
