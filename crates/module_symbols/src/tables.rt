// The tables of the names that an object's symbols state.

ghost use Rattle.std.specs.Prelude.{◌≡◌, ◌<◌, ◌-◌, ◌^◌, [], ◌∷◌, ◌++◌, List, IfOk, IsTrue, OnOk};
ghost use Rattle.std.specs.Prelude.{option_map};
ghost use Rattle.elf_object.specs.Object.{FileObject};
ghost use Rattle.elf_object.specs.Symbols.{owned_symbol};
ghost use Rattle.elf_object.specs.declared.symbol.Symbol.{Symbol};
ghost use Rattle.module_symbols.specs.Roles.{first_symbol, symbol_of};
ghost use Rattle.module_symbols.specs.Exports.{exports_of};
ghost use Rattle.module_symbols.specs.SymbolTables.{AreTablesFor, AreTablesOf, HasTables};

use crate::role::{Role, stated_name};
use crate::stated_names::StatedNames;
use crate::work::check_work;
use elf_object::{ObjectView, SymbolRef};
use std::alloc::{AllocError, Global};

/// For each role the table of the names that the symbols of an object state in it.
#[derive(Drop)]
pub struct SymbolTables<'a> {
    pub(crate) exports: StatedNames<'a>,
    pub(crate) versions: StatedNames<'a>,
    pub(crate) spaces: StatedNames<'a>,
    pub(crate) definitions: StatedNames<'a>,
}

impl<'a> SymbolTables<'a> {
    /// Returns the tables of no symbols.
    fn empty(alloc: Global) -> Self
        ensures { AreTablesOf result [] }
    {
        SymbolTables {
            exports: StatedNames::new(alloc),
            versions: StatedNames::new(alloc),
            spaces: StatedNames::new(alloc),
            definitions: StatedNames::new(alloc),
        }
    }

    /// Adds the names that the next symbol states.
    fn push(&mut self, symbol: SymbolRef<'a>) -> Result<(), AllocError>
        requires exports { self.old.exports.count < 2 ^ 32 - 1 }
        requires versions { self.old.versions.count < 2 ^ 32 - 1 }
        requires spaces { self.old.spaces.count < 2 ^ 32 - 1 }
        requires definitions { self.old.definitions.count < 2 ^ 32 - 1 }
        ensures { OnOk result ((symbols : List Symbol) → AreTablesOf self.old symbols
            → AreTablesOf self.new (symbols ++ owned_symbol symbol.entry ∷ [])) }
    {
        self.exports.push(stated_name(Role::Export, symbol))?;
        self.versions.push(stated_name(Role::Version, symbol))?;
        self.spaces.push(stated_name(Role::Space, symbol))?;
        self.definitions
            .push(stated_name(Role::Definition, symbol))?;
        Ok(())
    }

    /// Returns the tables of an object.
    ///
    /// # Errors
    ///
    /// Out of memory, also if telling the names apart might take too long.
    fn new(alloc: Global, object: &ObjectView<'a>) -> Result<SymbolTables<'a>, AllocError>
        ensures { IfOk result (λ tables. HasTables tables object.now) }
    {
        check_work(object)?;
        let mut tables = SymbolTables::empty(alloc);
        for i in 0..object.symbol_count() {
            tables.push(object.symbol(i))?;
        }
        Ok(tables)
    }

    /// Returns the number of the first symbol that states a name in a role.
    pub fn first_symbol(&self, role: Role, name: &[u8]) -> Option<u32>
        ensures { (object : FileObject) → HasTables self.now object
            → result ≡ first_symbol role object name.now }
    {
        match role {
            Role::Export => self.exports.place(name),
            Role::Version => self.versions.place(name),
            Role::Space => self.spaces.place(name),
            Role::Definition => self.definitions.place(name),
        }
    }
}

/// Returns the tables of an object that exports something. Most modules export nothing, and need no
/// tables.
pub fn tables_of<'a>(
    alloc: Global,
    object: &ObjectView<'a>,
) -> Result<Option<SymbolTables<'a>>, AllocError>
    ensures { IfOk result (AreTablesFor (exports_of object.now) object.now) }
{
    if exports_nothing(object) {
        return Ok(None);
    }
    Ok(Some(SymbolTables::new(alloc, object)?))
}

/// Returns the first symbol that states a name in a role.
#[tactic(auto, unfolding(crate::specs::Roles::symbol_of))]
pub fn symbol_of<'a>(
    object: &ObjectView<'a>,
    tables: &SymbolTables,
    role: Role,
    name: &[u8],
) -> Option<SymbolRef<'a>>
    requires { HasTables tables.now object.now }
    ensures { option_map owned_symbol result ≡ symbol_of role object.now name.now }
{
    match tables.first_symbol(role, name) {
        Some(i) => Some(object.symbol(i)),
        None => None,
    }
}

/// Returns whether no symbol states an export.
fn exports_nothing(object: &ObjectView) -> bool
    ensures { IsTrue result → exports_of object.now ≡ [] }
{
    for i in 0..object.symbol_count() {
        if stated_name(Role::Export, object.symbol(i)).is_some() {
            return false;
        }
    }
    true
}
