// What each module needs.
ghost use Rattle.std.specs.Prelude.{◌≡◌, ◌<◌, ◌++◌, length, IfOk, OnOk};
ghost use Rattle.std.specs.List.{flat_map};
ghost use Rattle.dependency_lines.specs.Modules.{name_at};
ghost use Rattle.plan_sources.specs.Sources.{modules as modules_spec, soft_places};
ghost use Rattle.plan_sources.specs.Planner.{sources_of};
ghost use Rattle.plan_sources.specs.Kept.{texts};
ghost use Rattle.plan_sources.specs.Softdeps.{once};
ghost use Rattle.planned_modules.specs.Kept.{names_on, names_of_side};

use km_names::{Name, Names};
use modprobe_conf::Rule;
use plan_order::{Needed, Needs};
use plan_sources::{RuleTable, SoftTable};
use std::alloc::{AllocError, Global};
use std::marker::Model;

/// On which side of a module a soft dependency is.
#[derive(Clone, Copy)]
pub(crate) enum Side {
    Before,
    After,
}

/// Puts more names at the end of a list of names.
pub(crate) fn push_all<'a>(names: &mut Vec<&'a Name>, more: &'a Names) -> Result<(), AllocError>
    ensures { OnOk result (texts names.new.items ≡ texts names.old.items ++ more.now) }
{
    for name in more.as_slice() {
        names.push(name)?;
    }
    Ok(())
}

/// What each module needs, over what the names of soft dependencies stand for. Contracts see what
/// plans are made from.
#[derive(Drop)]
pub(crate) struct ModuleNeeds<'p, 'a> {
    soft: SoftTable<'p, 'a>,
}

impl<'p, 'a> Model for ModuleNeeds<'p, 'a> {
    ghost use Rattle.plan_sources.specs.Planner.{Held};

    ghost Value = { Held };

    ghost view = { λ n. n.soft };
}

impl<'p, 'a> ModuleNeeds<'p, 'a> {
    /// Makes the needs of modules.
    pub(crate) fn new(soft: SoftTable<'p, 'a>) -> ModuleNeeds<'p, 'a>
        ensures { result ≡ soft.entry }
    {
        ModuleNeeds { soft }
    }

    /// Returns the modules that soft dependencies name on one side of a module, each once.
    fn soft_places(
        &mut self,
        alloc: Global,
        place: usize,
        side: Side,
    ) -> Result<Vec<usize>, AllocError>
        requires { place < length (modules_spec (sources_of self.old)) }
        ensures stays { self.new ≡ self.old }
        ensures places { IfOk result
            (λ places. places.items
            ≡ once (soft_places (sources_of self.old) place
            (flat_map (names_on side (name_at (modules_spec (sources_of self.old)) place))
            (sources_of self.old).rules))) }
    {
        let planner = self.soft.planner();
        let name = planner.modules().name(place);
        let names = soft_names(alloc, planner.rules(), name, side)?;
        self.soft.places(alloc, place, &names)
    }
}

impl<'p, 'a> Needs for ModuleNeeds<'p, 'a> {
    ghost use Rattle.std.specs.Prelude.{length};
    ghost use Rattle.plan_sources.specs.Sources.{modules};
    ghost use Rattle.planned_modules.specs.Kept.{before_once, after_once};
    ghost use Rattle.plan_sources.specs.Planner.{sources_of};

    ghost count = { λ needs. length (modules (sources_of needs)) };

    ghost before = { λ needs. before_once (sources_of needs) };

    ghost after = { λ needs. after_once (sources_of needs) };

    fn needed(&mut self, alloc: Global, place: usize) -> Result<Needed, AllocError> {
        let mut before = self.soft.planner().line_places(alloc, place)?;
        let soft = self.soft_places(alloc, place, Side::Before)?;
        before.extend_from_slice(&soft)?;
        let after = self.soft_places(alloc, place, Side::After)?;
        Ok(Needed { before, after })
    }
}

/// Returns the names that soft dependencies have on one side of a module.
fn soft_names<'a>(
    alloc: Global,
    rules: &RuleTable<'a>,
    name: &[u8],
    side: Side,
) -> Result<Vec<&'a Name>, AllocError>
    ensures { IfOk result
        (λ names. texts names.items ≡ flat_map (names_on side name.now) rules.now) }
{
    let mut names = Vec::new(alloc);
    let own = rules.on(name);
    for rule in own {
        push_soft_names(&mut names, *rule, name, side)?;
    }
    Ok(names)
}

fn push_soft_names<'a>(
    names: &mut Vec<&'a Name>,
    rule: &'a Rule,
    wanted: &[u8],
    side: Side,
) -> Result<(), AllocError>
    ensures { OnOk result
        (texts names.new.items ≡ texts names.old.items ++ names_on side wanted.now rule.now) }
{
    match rule {
        Rule::Softdep { name, pre, post } if name.as_bytes() == wanted => {
            push_all(names, on_side(side, pre, post))
        }
        Rule::Softdep { .. }
        | Rule::Alias { .. }
        | Rule::Blacklist { .. }
        | Rule::Options { .. }
        | Rule::Install { .. }
        | Rule::Remove { .. } => Ok(()),
    }
}

fn on_side<'a>(side: Side, pre: &'a Names, post: &'a Names) -> &'a Names
    ensures { result.now ≡ names_of_side side pre.now post.now }
{
    match side {
        Side::Before => pre,
        Side::After => post,
    }
}
