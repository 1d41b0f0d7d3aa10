// The commands that are run instead of removing a module.
ghost use Rattle.std.specs.Prelude.{◌≡◌, ◌<◌, ℕ, List, IfOk, map, option_and_then, option_copied};
ghost use Rattle.std.specs.Prelude.{option_map, slice_get};
ghost use Rattle.name_table.specs.NameTable.{IsTableOf};
ghost use Rattle.remove_plan.specs.Steps.{removed_name, removing_command, remove_command};

use modprobe_conf::{Rule, Rules};
use name_table::NameTable;
use std::alloc::{AllocError, Global};

/// Returns the places of the rules that have a remove command, by the module's name.
pub(crate) fn table_of<'a>(alloc: Global, rules: &'a Rules) -> Result<NameTable<'a>, AllocError>
    ensures { IfOk result (λ t. IsTableOf t (map removed_name rules.now)) }
{
    let rules = rules.as_slice();
    if rules.len() >= u32::MAX as usize {
        return Err(AllocError);
    }
    let mut table = NameTable::new(alloc);
    for rule in rules {
        table.push(removed_name(rule))?;
    }
    Ok(table)
}

/// Returns the command of the first rule for removing the module of this name.
pub(crate) fn command_for<'a>(rules: &'a Rules, table: &NameTable, name: &[u8]) -> Option<&'a [u8]>
    requires { IsTableOf table.now (map removed_name rules.now) }
    ensures { option_map (λ command. command.now) result ≡ remove_command rules.now name.now }
{
    command_at(rules.as_slice(), table.place(name))
}

/// Returns the name of the module that the rule has a remove command for.
fn removed_name(rule: &Rule) -> Option<&[u8]>
    ensures { option_map (λ name. name.now) result ≡ removed_name rule.now }
{
    let Rule::Remove { name, .. } = rule else {
        return None;
    };
    Some(name.as_bytes())
}

/// Returns the remove command of the rule at a place.
fn command_at(rules: &[Rule], place: Option<u32>) -> Option<&[u8]>
    ensures { option_map (λ command. command.now) result
        ≡ option_and_then removing_command (option_and_then (slice_get rules.now) place) }
{
    match rule_at(rules, place) {
        Some(rule) => removing_command(rule),
        None => None,
    }
}

/// Returns the rule at a place, if there is one.
fn rule_at(rules: &[Rule], place: Option<u32>) -> Option<&Rule>
    ensures { option_copied result ≡ option_and_then (slice_get rules.now) place }
{
    match place {
        Some(place) => rules.get(place as usize),
        None => None,
    }
}

/// Returns the remove command of the rule.
fn removing_command(rule: &Rule) -> Option<&[u8]>
    ensures { option_map (λ command. command.now) result ≡ removing_command rule.now }
{
    let Rule::Remove { command, .. } = rule else {
        return None;
    };
    Some(command.as_bytes())
}
