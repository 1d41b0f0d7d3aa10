// What names stand for.
ghost use Rattle.std.specs.Prelude.{◌≡◌, ◌<◌, ◌⊎◌, not, ℕ, List, map, length, All, Some, None};
ghost use Rattle.std.specs.Prelude.{IfOk, IfErr, OnOk, option_map};
ghost use Rattle.std.specs.List.{find};
ghost use Rattle.relation_order.specs.Sets.{below, marked};
ghost use Rattle.relation_order.specs.Search.{Inside};
ghost use Rattle.plan_order.specs.Lists.{items_of};
ghost use Rattle.name_table.specs.FirstSeen.{is_among};
ghost use Rattle.dependency_lines.specs.Modules.{places_of, name_at};
ghost use Rattle.plan_sources.specs.Sources.{modules as modules_spec};
ghost use Rattle.planned_modules.specs.Needs.{unloaded};
ghost use Rattle.plan_sources.specs.Planner.{sources_of};
ghost use Rattle.plan_sources.specs.Kept.{texts};
ghost use Rattle.planned_modules.specs.Members.{founds_of, chosen_command, install_command};
ghost use Rattle.planned_modules.specs.Members.{command_of, unfound, is_unfound, is_unknown};
ghost use Rattle.planned_modules.specs.Members.{all_names};

use crate::fault::ResolveFault;
use crate::needs::push_all;
use dependency_lines::Modules;
use km_names::{Name, Names, normal_or_itself};
use modprobe_conf::Rule;
use name_lookup::Found;
use name_table::NameSet;
use plan_sources::{Planner, RuleTable};
use std::alloc::{AllocError, Global};

/// Finds what each name stands for, or the first name for which nothing is found.
pub fn find_each(
    alloc: Global,
    planner: &Planner<'_>,
    names: &Names,
) -> Result<Vec<Found>, ResolveFault>
    ensures found { IfOk result
        (λ founds. founds.items ≡ founds_of (sources_of planner.now) names.now) }
    ensures passed { OnOk result (find (is_unfound (sources_of planner.now)) names.now ≡ None) }
    ensures err { IfErr result
        (λ fault. (fault ≡ ResolveFault.Memory)
        ⊎ (option_map unfound (find (is_unfound (sources_of planner.now)) names.now)
        ≡ Some fault)) }
{
    let mut founds = Vec::new(alloc);
    for name in names.as_slice() {
        let found = planner.found(alloc, name)?;
        if found.list == 0 {
            return Err(not_found(alloc, name)?);
        }
        founds.push(found)?;
    }
    Ok(founds)
}

/// Tests that all that was found is known.
pub fn check_known(
    alloc: Global,
    planner: &Planner<'_>,
    ignored: bool,
    founds: &[Found],
) -> Result<(), ResolveFault>
    ensures passed { OnOk result
        (find (is_unknown (sources_of planner.now) ignored) (all_names founds.now) ≡ None) }
    ensures err { IfErr result
        (λ fault. (fault ≡ ResolveFault.Memory)
        ⊎ (option_map unfound
        (find (is_unknown (sources_of planner.now) ignored) (all_names founds.now))
        ≡ Some fault)) }
{
    let names = names_in(alloc, founds)?;
    for name in &names {
        if is_unknown(planner, ignored, name.as_bytes()) {
            return Err(not_found(alloc, name)?);
        }
    }
    Ok(())
}

/// Lists the modules of what was found for each name, by their places.
pub(crate) fn requests_of(
    alloc: Global,
    planner: &Planner<'_>,
    founds: &[Found],
) -> Result<Vec<Vec<usize>>, AllocError>
    ensures items { IfOk result
        (λ requests. items_of requests.items
        ≡ map (λ f. places_of (modules_spec (sources_of planner.now)) f.names) founds.now) }
    ensures inside { IfOk result
        (λ requests. Inside (length (modules_spec (sources_of planner.now))) requests.items) }
{
    let mut requests = Vec::new(alloc);
    for found in founds {
        requests.push(request_of(alloc, planner, &found.names)?)?;
    }
    Ok(requests)
}

/// Makes a mark for each module that isn't loaded.
pub(crate) fn free_marks(alloc: Global, planner: &Planner<'_>) -> Result<Vec<bool>, AllocError>
    ensures long { IfOk result
        (λ free. length free.items ≡ length (modules_spec (sources_of planner.now))) }
    ensures marks { IfOk result (λ free. marked free.items ≡ unloaded (sources_of planner.now)) }
{
    let loaded = name_set(alloc, planner.loaded())?;
    marks_but(alloc, planner.modules(), &loaded)
}

/// Returns the command that is run in place of loading the module of this name, unless commands are
/// ignored.
pub fn chosen_command<'a>(rules: &'a RuleTable<'_>, ignored: bool, name: &[u8]) -> Option<&'a [u8]>
    ensures { option_map (λ command. command.now) result
        ≡ chosen_command rules.now ignored name.now }
{
    if ignored {
        None
    } else {
        install_command(rules, name)
    }
}

/// Returns the name that isn't found, in its normal form if it has one.
fn not_found(alloc: Global, name: &Name) -> Result<ResolveFault, AllocError>
    ensures { IfOk result (λ fault. fault ≡ unfound name.now) }
{
    Ok(ResolveFault::NotFound {
        name: normal_or_itself(alloc, name.as_bytes())?,
    })
}

/// Returns the names of all that was found.
fn names_in<'a>(alloc: Global, founds: &'a [Found]) -> Result<Vec<&'a Name>, AllocError>
    ensures { IfOk result (λ names. texts names.items ≡ all_names founds.now) }
{
    let mut names = Vec::new(alloc);
    for found in founds {
        push_all(&mut names, &found.names)?;
    }
    Ok(names)
}

/// Returns whether a member is unknown: no module, no install rule, and not built in.
fn is_unknown(planner: &Planner<'_>, ignored: bool, name: &[u8]) -> bool
    ensures { result ≡ is_unknown (sources_of planner.now) ignored name.now }
{
    if planner.modules().place(name).is_some() {
        return false;
    }
    if chosen_command(planner.rules(), ignored, name).is_some() {
        return false;
    }
    !planner.is_builtin(name)
}

/// Finds the places of the names that are modules.
fn request_of(alloc: Global, planner: &Planner<'_>, names: &Names) -> Result<Vec<usize>, AllocError>
    ensures items { IfOk result
        (λ places. places.items ≡ places_of (modules_spec (sources_of planner.now)) names.now) }
    ensures inside { IfOk result
        (λ places. All (λ y. y < length (modules_spec (sources_of planner.now))) places.items) }
{
    let places = planner.modules().places_of(alloc, names.as_slice())?;
    Ok(places)
}

/// Returns the set of these names.
fn name_set<'a>(alloc: Global, names: &'a [Name]) -> Result<NameSet<'a>, AllocError>
    ensures { IfOk result (λ set. (name : List ℕ) → is_among set name ≡ is_among names.now name) }
{
    let mut set = NameSet::new(alloc);
    for name in names {
        set.insert(name.as_bytes())?;
    }
    Ok(set)
}

/// Makes a mark for each module whose name isn't among some.
fn marks_but(
    alloc: Global,
    modules: &Modules<'_>,
    names: &NameSet<'_>,
) -> Result<Vec<bool>, AllocError>
    ensures { IfOk result
        (λ marks. marks.items
        ≡ map (λ x. not (is_among names.now (name_at modules.now x)))
        (below (length modules.now))) }
{
    let mut marks = Vec::new(alloc);
    for place in 0..modules.len() {
        marks.push(!names.contains(modules.name(place)))?;
    }
    Ok(marks)
}

/// Finds the first command that a rule has for loading the module of this name.
fn install_command<'a>(rules: &'a RuleTable<'_>, name: &[u8]) -> Option<&'a [u8]>
    ensures { option_map (λ command. command.now) result ≡ install_command rules.now name.now }
{
    let own = rules.on(name);
    for rule in own {
        if let Some(command) = command_in(*rule, name) {
            return Some(command);
        }
    }
    None
}

fn command_in<'a>(rule: &'a Rule, wanted: &[u8]) -> Option<&'a [u8]>
    ensures { option_map (λ command. command.now) result ≡ command_of wanted.now rule.now }
{
    match rule {
        Rule::Install { name, command } if name.as_bytes() == wanted => Some(command.as_bytes()),
        Rule::Install { .. }
        | Rule::Alias { .. }
        | Rule::Blacklist { .. }
        | Rule::Options { .. }
        | Rule::Remove { .. }
        | Rule::Softdep { .. } => None,
    }
}
