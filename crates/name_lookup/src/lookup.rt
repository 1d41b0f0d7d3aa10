ghost use Rattle.std.specs.Prelude.{◌≡◌, IfOk, if◌then◌else◌, []};
ghost use Rattle.index_format.specs.Map.{values_of};
ghost use Rattle.index_read.specs.Contents.{contents};
ghost use Rattle.name_lookup.specs.Maps.{maps_of, texts};
ghost use Rattle.name_lookup.specs.Found.{found, asks_symbol, first_list, kept};
ghost use Rattle.name_lookup.specs.Seen.{seen_lists};

use crate::aliases::AliasTable;
use crate::found::{Found, itself, names_left, nothing};
use crate::index_names::{names_matching, names_under};
use crate::indexes::Indexes;
use crate::rules::{blacklisted_names, installed_names};
use index_read::plain;
use km_names::{Name, Names, normal_alias};
use modprobe_conf::Rules;
use name_table::NameSet;
use std::alloc::{AllocError, Global};
use std::marker::Model;

/// What names are looked up in: the rules of a configuration, put into tables once, and the index
/// files of a folder. Contracts see the rules and the index files.
#[derive(Drop)]
pub struct Lookup<'a> {
    rules: &'a Rules,
    indexes: &'a Indexes,
    aliases: AliasTable<'a>,
    installed: NameSet<'a>,
    blacklisted: NameSet<'a>,
}

impl<'a> Model for Lookup<'a> {
    ghost use Rattle.name_lookup.specs.Lookups.{RulesAndIndexes};
    ghost use Rattle.name_lookup.specs.Tables.{AreTables};

    ghost Value = { RulesAndIndexes };

    ghost view = { λ l. record { rules = l.rules.now; indexes = l.indexes.now } };

    ghost invariant = { λ l. AreTables l.aliases l.installed l.blacklisted l.rules.now };
}

/// Finds what a name stands for: the first list that isn't empty, of these for the name in its
/// normal form.
///
/// 1. the names of all aliases of the configuration whose pattern matches, in the order of the
///    rules;
/// 2. the name itself, if modules.dep.bin has it;
/// 3. if it begins with `symbol:`, its values in modules.symbols.bin;
/// 4. the name itself, if an install rule names it;
/// 5. the values of all patterns of modules.alias.bin that match, by their place in the tree;
/// 6. the name itself, if modules.builtin.bin has it.
///
/// Of repeated names the first is kept. Blacklisted names are dropped from list 5, and with
/// `use_blacklist` from each. If many names are looked up, a [`Lookup`] is made once. modprobe(8),
/// modprobe.d(5).
pub fn resolve(
    alloc: Global,
    name: &Name,
    use_blacklist: bool,
    rules: &Rules,
    indexes: &Indexes,
) -> Result<Found, AllocError>
    ensures { IfOk result (λ f. f ≡ found rules.now (maps_of indexes.now) use_blacklist name.now) }
{
    let lookup = Lookup::new(alloc, rules, indexes)?;
    lookup.find(alloc, name, use_blacklist)
}

impl<'a> Lookup<'a> {
    /// Puts the rules into tables, in time in proportion to them.
    pub fn new(
        alloc: Global,
        rules: &'a Rules,
        indexes: &'a Indexes,
    ) -> Result<Lookup<'a>, AllocError>
        ensures { IfOk result
            (λ lookup. lookup ≡ record { rules = rules.now; indexes = indexes.now }) }
    {
        let aliases = AliasTable::new(alloc, rules)?;
        let installed = installed_names(alloc, rules)?;
        let blacklisted = blacklisted_names(alloc, rules)?;
        Ok(Lookup {
            rules,
            indexes,
            aliases,
            installed,
            blacklisted,
        })
    }

    /// Returns the rules.
    pub fn rules(&self) -> &'a Rules
        ensures { result.now ≡ self.now.rules }
    {
        self.rules
    }

    /// Returns the index files.
    pub fn indexes(&self) -> &'a Indexes
        ensures { result.now ≡ self.now.indexes }
    {
        self.indexes
    }

    /// Finds what a name stands for, as [`resolve`] says. A rule costs nothing here, except for
    /// aliases whose pattern has a wildcard.
    #[tactic(auto, unfolding(crate::specs::Found::found))]
    pub fn find(&self, alloc: Global, name: &Name, use_blacklist: bool) -> Result<Found, AllocError>
        ensures { IfOk result
            (λ f. f ≡ found self.now.rules (maps_of self.now.indexes) use_blacklist name.now) }
    {
        match normal_alias(alloc, name.as_bytes())? {
            Some(name) => {
                let first = self.first_found(alloc, name.as_bytes())?;
                self.kept(alloc, first, use_blacklist)
            }
            None => Ok(nothing(alloc)),
        }
    }

    /// Finds the first list that isn't empty. The names of modules' own aliases are each in it
    /// once.
    fn first_found(&self, alloc: Global, name: &[u8]) -> Result<Found, AllocError>
        ensures { IfOk result
            (λ f. f
            ≡ first_list 1 (seen_lists self.now.rules (maps_of self.now.indexes) name.now)) }
    {
        let names = self.aliases.names(alloc, name)?;
        if !names.is_empty() {
            return Ok(Found { list: 1, names });
        }
        if plain::has_value(&self.indexes.dep, name) {
            return itself(alloc, 2, name);
        }
        let names = symbol_modules(alloc, name, self.indexes)?;
        if !names.is_empty() {
            return Ok(Found { list: 3, names });
        }
        if self.installed.contains(name) {
            return itself(alloc, 4, name);
        }
        let names = names_matching(alloc, &self.indexes.alias, name)?;
        if !names.is_empty() {
            return Ok(Found { list: 5, names });
        }
        if plain::has_value(&self.indexes.builtin, name) {
            return itself(alloc, 6, name);
        }
        Ok(nothing(alloc))
    }

    /// Returns what is left of a list without repeats and dropped names.
    fn kept(&self, alloc: Global, first: Found, use_blacklist: bool) -> Result<Found, AllocError>
        ensures { IfOk result (λ f. f ≡ kept self.now.rules use_blacklist first) }
    {
        let Found { list, names } = first;
        let drops = use_blacklist || list == 5;
        Ok(Found {
            list,
            names: names_left(alloc, names, drops, &self.blacklisted)?,
        })
    }
}

/// Finds the modules of the symbol that a name asks for.
fn symbol_modules(alloc: Global, name: &[u8], indexes: &Indexes) -> Result<Names, AllocError>
    ensures { IfOk result (λ names. names
        ≡ (if asks_symbol name.now
        then texts (values_of (contents indexes.now.symbols.nodes) name.now)
        else [])) }
{
    if name.starts_with(b"symbol:".as_slice()) {
        names_under(alloc, &indexes.symbols, name)
    } else {
        Ok(Names::new(alloc))
    }
}
