// The aliases of a configuration, in tables.
ghost use Rattle.std.specs.Prelude.{◌≡◌, ◌≤◌, ◌++◌, ◌∷◌, [], List, length, map, filter_map, IfOk};
ghost use Rattle.std.specs.Prelude.{OnOk, option_map};
ghost use Rattle.modprobe_conf.specs.declared.rule.Rule.{Rule};
ghost use Rattle.name_lookup.specs.Found.{alias_name};
ghost use Rattle.name_lookup.specs.Aliases.{IsAliasTable, HasMore, alias_parts, count_before};
ghost use Rattle.name_lookup.specs.Aliases.{names_before, shown_plain};

use crate::groups::NameGroups;
use crate::wildcards::{WildAlias, split_at_wildcard};
use km_names::{Name, Names};
use modprobe_conf::{Rule, Rules};
use std::alloc::{AllocError, Global};

/// An alias whose pattern has no wildcard, by its place among the rules. It is kept under its
/// pattern.
#[derive(Clone, Copy)]
pub(crate) struct PlainAlias<'a> {
    pub(crate) place: usize,
    pub(crate) name: &'a [u8],
}

/// The aliases of a configuration: those without wildcards by their patterns, the others in the
/// order of the rules.
#[derive(Drop)]
pub(crate) struct AliasTable<'a> {
    pub(crate) plain: NameGroups<'a, PlainAlias<'a>>,
    pub(crate) wild: Vec<WildAlias<'a>>,
}

/// Returns the pattern and the name of an alias.
fn alias_in(rule: &Rule) -> Option<(&[u8], &[u8])>
    ensures { option_map (λ parts. (parts.0.now, parts.1.now)) result ≡ alias_parts rule.now }
{
    match rule {
        Rule::Alias { pattern, name } => Some((pattern.as_bytes(), name.as_bytes())),
        Rule::Blacklist { .. }
        | Rule::Options { .. }
        | Rule::Install { .. }
        | Rule::Remove { .. }
        | Rule::Softdep { .. } => None,
    }
}

impl<'a> AliasTable<'a> {
    /// Makes the table of the aliases of some rules.
    pub(crate) fn new(alloc: Global, rules: &'a Rules) -> Result<AliasTable<'a>, AllocError>
        ensures { IfOk result (λ table. IsAliasTable table rules.now) }
    {
        let mut table = AliasTable {
            plain: NameGroups::new(alloc),
            wild: Vec::new(alloc),
        };
        for (place, rule) in rules.as_slice().iter().enumerate() {
            if let Some((pattern, name)) = alias_in(rule) {
                table.push(alloc, place, pattern, name)?;
            }
        }
        Ok(table)
    }

    /// Adds the alias at a place.
    fn push(
        &mut self,
        alloc: Global,
        place: usize,
        pattern: &'a [u8],
        name: &'a [u8],
    ) -> Result<(), AllocError>
        ensures { OnOk result (HasMore self.old self.new place pattern.now name.now) }
    {
        match split_at_wildcard(pattern) {
            Some((front, rest)) => self.wild.push(WildAlias {
                place,
                front,
                rest,
                name,
            })?,
            None => self.plain.push(alloc, pattern, PlainAlias { place, name })?,
        }
        Ok(())
    }

    /// Returns the names of all aliases whose pattern matches the name, in the order of the rules.
    pub(crate) fn names(&self, alloc: Global, name: &[u8]) -> Result<Names, AllocError>
        ensures { (rules : List Rule) → IsAliasTable self.now rules
            → IfOk result (λ names. names ≡ filter_map (alias_name name.now) rules) }
    {
        let mut names = Names::new(alloc);
        let plain = self.plain.of(name);
        let mut done = 0;
        for wild in &self.wild {
            if wild.matches(name) {
                done += push_before(alloc, &mut names, &plain[done..], wild.place)?;
                push_name(alloc, &mut names, wild.name)?;
            }
        }
        push_all(alloc, &mut names, &plain[done..])?;
        Ok(names)
    }
}

/// Adds the names of the aliases that come before a place, and returns their number.
fn push_before(
    alloc: Global,
    names: &mut Names,
    aliases: &[PlainAlias<'_>],
    place: usize,
) -> Result<usize, AllocError>
    ensures names { OnOk result
        (names.new ≡ names.old ++ names_before place (map shown_plain aliases.now)) }
    ensures count { IfOk result
        (λ count. count ≡ count_before place (map shown_plain aliases.now)) }
    ensures within { IfOk result (λ count. count ≤ length aliases.now) }
{
    let count = count_before(aliases, place);
    push_all(alloc, names, &aliases[..count])?;
    Ok(count)
}

/// Counts the aliases that come before the first one at a place or after it.
fn count_before(aliases: &[PlainAlias<'_>], place: usize) -> usize
    ensures count { result ≡ count_before place (map shown_plain aliases.now) }
    ensures within { result ≤ length aliases.now }
{
    for (count, alias) in aliases.iter().enumerate() {
        if alias.place >= place {
            return count;
        }
    }
    aliases.len()
}

/// Adds the names of some aliases.
fn push_all(alloc: Global, names: &mut Names, aliases: &[PlainAlias<'_>]) -> Result<(), AllocError>
    ensures { OnOk result (names.new ≡ names.old ++ map (λ p. p.1) (map shown_plain aliases.now)) }
{
    for alias in aliases {
        push_name(alloc, names, alias.name)?;
    }
    Ok(())
}

/// Adds a name.
fn push_name(alloc: Global, names: &mut Names, name: &[u8]) -> Result<(), AllocError>
    ensures { OnOk result (names.new ≡ names.old ++ name.now ∷ []) }
{
    names.push(Name::from_slice(alloc, name)?)
}
