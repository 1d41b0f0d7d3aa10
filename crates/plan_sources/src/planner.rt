// What plans are made from.
ghost use Rattle.std.specs.Prelude.{◌≡◌, ◌<◌, false, ℕ, List, length, All, IfOk};
ghost use Rattle.std.specs.List.{list_any};
ghost use Rattle.std.specs.Option.{option_map_or};
ghost use Rattle.std.specs.Str.{bytes_eq};
ghost use Rattle.symbol_binding.specs.Unmet.{belongs};
ghost use Rattle.name_lookup.specs.Found.{found};
ghost use Rattle.name_table.specs.FirstSeen.{is_among};
ghost use Rattle.name_lookup.specs.Maps.{maps_of, has_value};
ghost use Rattle.dependency_lines.specs.Modules.{modules_of, path_at, line_places};
ghost use Rattle.plan_sources.specs.Sources.{modules as modules_spec, is_troubled, is_available};
ghost use Rattle.plan_sources.specs.Planner.{sources_of};

use crate::rule_table::RuleTable;
use dependency_lines::Modules;
use index_read::plain;
use km_names::Name;
use modprobe_conf::Rules;
use name_lookup::{Found, Indexes, Lookup};
use name_table::NameSet;
use std::alloc::{AllocError, Global};
use std::marker::Model;
use symbol_binding::Unbound;

/// What plans are made from. Contracts see the sources.
#[derive(Drop)]
pub struct Planner<'a> {
    rules: RuleTable<'a>,
    lookup: Lookup<'a>,
    unmet: &'a [Unbound],
    loaded: &'a [Name],
    use_blacklist: bool,
    modules: &'a Modules<'a>,
    troubled: NameSet<'a>,
}

impl<'a> Model for Planner<'a> {
    ghost use Rattle.plan_sources.specs.Planner.{Held};
    ghost use Rattle.plan_sources.specs.Kept.{IsPlanner};

    ghost Value = { Held };

    ghost view = { λ p. record {
      rules = p.rules;
      indexes = p.lookup.indexes;
      unmet = p.unmet.now;
      loaded = p.loaded.now;
      use_blacklist = p.use_blacklist;
    } };

    ghost invariant = { λ p. IsPlanner p.modules.now p.troubled p.lookup.rules
        (record {
          rules = p.rules;
          indexes = p.lookup.indexes;
          unmet = p.unmet.now;
          loaded = p.loaded.now;
          use_blacklist = p.use_blacklist;
        }) };
}

/// Lists the paths of modules with a line on a need.
fn troubled_paths(alloc: Global, unmet: &[Unbound]) -> Result<NameSet<'_>, AllocError>
    ensures { IfOk result
        (λ paths. (path : List ℕ) → is_among paths path ≡ is_troubled unmet.now path) }
{
    let mut paths = NameSet::new(alloc);
    for line in unmet {
        if let Some(path) = path_of(line) {
            paths.insert(path)?;
        }
    }
    Ok(paths)
}

/// Returns the path of the module that a line is on, if the line is on a need.
fn path_of(line: &Unbound) -> Option<&[u8]>
    ensures { (path : List ℕ)
        → belongs path line.now ≡ option_map_or (λ own. bytes_eq own.now path) result false }
{
    match line {
        Unbound::Missing { path, .. }
        | Unbound::Gpl { path, .. }
        | Unbound::Version { path, .. }
        | Unbound::Namespace { path, .. } => Some(path.as_bytes()),
        Unbound::Double { .. } => None,
    }
}

impl<'a> Planner<'a> {
    /// Makes what plans are made from.
    pub fn new(
        alloc: Global,
        rules: &'a Rules,
        indexes: &'a Indexes,
        unmet: &'a [Unbound],
        loaded: &'a [Name],
        use_blacklist: bool,
        modules: &'a Modules<'a>,
    ) -> Result<Planner<'a>, AllocError>
        requires { modules.now ≡ modules_of (maps_of indexes.now).dep }
        ensures { IfOk result
            (λ planner. planner
            ≡ record {
              rules = rules.now;
              indexes = indexes.now;
              unmet = unmet.now;
              loaded = loaded.now;
              use_blacklist = use_blacklist;
            }) }
    {
        let troubled = troubled_paths(alloc, unmet)?;
        let table = RuleTable::new(alloc, rules)?;
        let lookup = Lookup::new(alloc, rules, indexes)?;
        Ok(Planner {
            rules: table,
            lookup,
            unmet,
            loaded,
            use_blacklist,
            modules,
            troubled,
        })
    }

    /// Returns the modules, by their numbers in the tree.
    pub fn modules(&self) -> &'a Modules<'a>
        ensures { result.now ≡ modules_spec (sources_of self.now) }
    {
        self.modules
    }

    /// Returns the names of loaded modules.
    pub fn loaded(&self) -> &'a [Name]
        ensures { result.now ≡ self.now.loaded }
    {
        self.loaded
    }

    /// Returns the lines of modules.unmet.
    pub fn unmet(&self) -> &'a [Unbound]
        ensures { result.now ≡ self.now.unmet }
    {
        self.unmet
    }

    /// Returns the rules of the configuration.
    pub fn rules(&self) -> &RuleTable<'a>
        ensures { result.now ≡ self.now.rules }
    {
        &self.rules
    }

    /// Returns whether a built-in module has this name.
    pub fn is_builtin(&self, name: &[u8]) -> bool
        ensures { result ≡ has_value (sources_of self.now).maps.builtin name.now }
    {
        plain::has_value(&self.lookup.indexes().builtin, name)
    }

    /// Finds what a name stands for.
    pub fn found(&self, alloc: Global, name: &Name) -> Result<Found, AllocError>
        ensures { IfOk result
            (λ f. f
            ≡ found (sources_of self.now).rules (sources_of self.now).maps
            (sources_of self.now).use_blacklist name.now) }
    {
        self.lookup.find(alloc, name, self.use_blacklist)
    }

    /// Finds the places of the modules that the dependency line of a module names.
    pub fn line_places(&self, alloc: Global, place: usize) -> Result<Vec<usize>, AllocError>
        requires { place < length (modules_spec (sources_of self.now)) }
        ensures { IfOk result
            (λ places. places.items ≡ line_places (modules_spec (sources_of self.now)) place) }
    {
        self.modules.line_places(alloc, place)
    }

    /// Returns whether a line is on a need of a module.
    fn is_troubled(&self, place: usize) -> bool
        requires { place < length (modules_spec (sources_of self.now)) }
        ensures { result
            ≡ is_troubled (sources_of self.now).unmet
            (path_at (modules_spec (sources_of self.now)) place) }
    {
        self.troubled.contains(self.modules.path(place))
    }

    /// Returns whether a line is on a need of one of some modules.
    fn any_troubled(&self, places: &[usize]) -> bool
        requires { All (λ y. y < length (modules_spec (sources_of self.now))) places.now }
        ensures { result
            ≡ list_any (λ y. is_troubled (sources_of self.now).unmet
            (path_at (modules_spec (sources_of self.now)) y)) places.now }
    {
        for y in places {
            if self.is_troubled(*y) {
                return true;
            }
        }
        false
    }

    /// Returns whether a module can be loaded: no line is on a need of it, or of a module of its
    /// dependency line.
    pub(crate) fn is_available(&self, alloc: Global, place: usize) -> Result<bool, AllocError>
        requires { place < length (modules_spec (sources_of self.now)) }
        ensures { IfOk result
            (λ available. available
            ≡ is_available (modules_spec (sources_of self.now)) (sources_of self.now).unmet
            place) }
    {
        if self.is_troubled(place) {
            return Ok(false);
        }
        let line = self.line_places(alloc, place)?;
        Ok(!self.any_troubled(&line))
    }
}
