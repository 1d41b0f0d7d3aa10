// What the rules of the configuration say of names, except for aliases.
ghost use Rattle.std.specs.Prelude.{◌≡◌, ℕ, List, IfOk, option_map};
ghost use Rattle.name_table.specs.FirstSeen.{is_among};
ghost use Rattle.name_lookup.specs.Found.{has_install, blacklisted_name, is_blacklisted};
ghost use Rattle.name_lookup.specs.Tables.{installed_name};

use modprobe_conf::{Rule, Rules};
use name_table::NameSet;
use std::alloc::{AllocError, Global};

/// Returns the names that install rules have.
pub(crate) fn installed_names(alloc: Global, rules: &Rules) -> Result<NameSet<'_>, AllocError>
    ensures { IfOk result
        (λ names. (name : List ℕ) → is_among names name ≡ has_install rules.now name) }
{
    let mut names = NameSet::new(alloc);
    for rule in rules.as_slice() {
        if let Some(name) = installed_name(rule) {
            names.insert(name)?;
        }
    }
    Ok(names)
}

/// Returns the names that blacklist rules have.
pub(crate) fn blacklisted_names(alloc: Global, rules: &Rules) -> Result<NameSet<'_>, AllocError>
    ensures { IfOk result
        (λ names. (name : List ℕ) → is_among names name ≡ is_blacklisted rules.now name) }
{
    let mut names = NameSet::new(alloc);
    for rule in rules.as_slice() {
        if let Some(name) = blacklisted_name(rule) {
            names.insert(name)?;
        }
    }
    Ok(names)
}

/// Returns the module that the rule has a command for loading.
fn installed_name(rule: &Rule) -> Option<&[u8]>
    ensures { option_map (λ name. name.now) result ≡ installed_name rule.now }
{
    match rule {
        Rule::Install { name, .. } => Some(name.as_bytes()),
        Rule::Alias { .. }
        | Rule::Blacklist { .. }
        | Rule::Options { .. }
        | Rule::Remove { .. }
        | Rule::Softdep { .. } => None,
    }
}

/// Returns the module that the rule blacklists.
fn blacklisted_name(rule: &Rule) -> Option<&[u8]>
    ensures { option_map (λ name. name.now) result ≡ blacklisted_name rule.now }
{
    match rule {
        Rule::Blacklist { name } => Some(name.as_bytes()),
        Rule::Alias { .. }
        | Rule::Options { .. }
        | Rule::Install { .. }
        | Rule::Remove { .. }
        | Rule::Softdep { .. } => None,
    }
}
