// The plan for a request, or its first obstacle.
ghost use Rattle.std.specs.Prelude.{◌≡◌, ◌<◌, ◌⊎◌, ℕ, List, Some, None, map, length, All, IfOk};
ghost use Rattle.std.specs.Prelude.{IfErr, OnOk, option_map};
ghost use Rattle.km_names.specs.First.{first};
ghost use Rattle.name_table.specs.FirstSeen.{is_among};
ghost use Rattle.plan_order.specs.Lists.{among};
ghost use Rattle.plan_order.specs.Answer.{IsPlan, IsAnswer};
ghost use Rattle.name_lookup.specs.Maps.{maps_of};
ghost use Rattle.dependency_lines.specs.Modules.{name_at, bad_name, modules_of};
ghost use Rattle.plan_sources.specs.Sources.{modules as modules_spec};
ghost use Rattle.planned_modules.specs.Needs.{before, after, unloaded};
ghost use Rattle.planned_modules.specs.Members.{asked, planned as planned_spec};
ghost use Rattle.plan_builder.specs.Steps.{plan_steps};
ghost use Rattle.plan_builder.specs.Closed.{IsClosedPlan};
ghost use Rattle.plan_builder.specs.Obstacles.{as_obstacle, is_path_of, stands, plan_tests};
ghost use Rattle.plan_builder.specs.Obstacles.{obstacle_of};
ghost use Rattle.plan_builder.specs.Answers.{ShortCycle, IsCycleOf};
ghost use Rattle.plan_builder.specs.Sources.{sources};
ghost use Rattle.plan_sources.specs.Planner.{sources_of};

use crate::check::{ComparedPaths, check_needs, check_unmet, compared_paths};
use crate::obstacle::Obstacle;
use crate::request::Request;
use crate::step::PlanSteps;
use crate::steps::all_steps;
use dependency_lines::{DependencyLines, Modules};
use km_names::{Name, Names};
use loaded_list::Loaded;
use modprobe_conf::Rules;
use name_lookup::{Found, Indexes};
use plan_order::{GroupedOrder, PlanOrCycle};
use planned_modules::{Planner, Planning, check_known, find_each, planned_answer};
use std::alloc::{AllocError, Global};
use unmet_file::{LineKind, Unmet};

/// Makes the plan for a request: what is done for its names, in order, each module after those that
/// it needs and that aren't loaded. Or it answers exactly the first obstacle. modprobe(8),
/// modules.dep(5), modprobe.d(5).
///
/// A name stands for what `name_lookup::resolve` finds. A module is planned after the modules of
/// its dependency line and after those that its soft dependencies name before it. Those that they
/// name after it are planned last. A module that a soft dependency names is left out if
/// modules.unmet has a line on a need of it or of a module of its dependency line. What is loaded
/// is left out everywhere. A member that is no module has a step of its own before the modules of
/// its name: its command, or that it is built in.
///
/// Every plan is closed:
///
/// - its modules are distinct, and none is loaded;
/// - each comes after those that its dependency line names and that aren't loaded;
/// - no line of modules.unmet is on a need of one;
/// - no line says that one exports what the kernel, a loaded module or another of them does.
///
/// # Errors
///
/// The first of these that is so, or `Memory` if memory runs out:
///
/// - `BadDepLine` exactly if a value of modules.dep.bin isn't the dependency line of its module
///   over names that the file has;
/// - `NotFound` if a name is found nowhere, or if a member is neither a module, nor named by an
///   install rule that isn't ignored, nor built in;
/// - `Missing`, `Gpl`, `Version`, `Namespace` if modules.unmet has such a line on a planned module;
/// - `Cycle` if a planned module comes before itself;
/// - `Double` if both sides of a double line are planned, loaded or the kernel, and one is planned.
pub fn plan(
    alloc: Global,
    request: &Request,
    rules: &Rules,
    indexes: &Indexes,
    unmet: &Unmet,
    loaded: &Loaded,
) -> Result<PlanSteps, Obstacle>
    ensures plan { IfOk result
        (λ steps. steps
        ≡ plan_steps (sources rules.now indexes.now unmet.now loaded.now request.now)
        request.now) }
    ensures passed { OnOk result
        (obstacle_of (sources rules.now indexes.now unmet.now loaded.now request.now) request.now
        ≡ None) }
    ensures closed { IfOk result
        (IsClosedPlan (sources rules.now indexes.now unmet.now loaded.now request.now)) }
    ensures err { IfErr result
        (λ o. (o ≡ Obstacle.Memory)
        ⊎ (option_map as_obstacle
        (obstacle_of
        (sources rules.now indexes.now unmet.now loaded.now request.now)
        request.now)
        ≡ Some o)) }
{
    let lines = DependencyLines::read(alloc, &indexes.dep)?;
    let modules = Modules::new(alloc, &lines)?;
    planned_over(alloc, request, rules, indexes, unmet, loaded, &modules)
}

/// Makes the plan for a request over the modules of an index, or finds the first obstacle.
fn planned_over(
    alloc: Global,
    request: &Request,
    rules: &Rules,
    indexes: &Indexes,
    unmet: &Unmet,
    loaded: &Loaded,
    modules: &Modules<'_>,
) -> Result<PlanSteps, Obstacle>
    requires modules { modules.now ≡ modules_of (maps_of indexes.now).dep }
    requires sound { bad_name (maps_of indexes.now).dep ≡ None }
    ensures plan { IfOk result
        (λ steps. steps
        ≡ plan_steps (sources rules.now indexes.now unmet.now loaded.now request.now)
        request.now) }
    ensures passed { OnOk result
        (obstacle_of (sources rules.now indexes.now unmet.now loaded.now request.now) request.now
        ≡ None) }
    ensures closed { IfOk result
        (IsClosedPlan (sources rules.now indexes.now unmet.now loaded.now request.now)) }
    ensures err { IfErr result
        (λ o. (o ≡ Obstacle.Memory)
        ⊎ (option_map as_obstacle
        (obstacle_of
        (sources rules.now indexes.now unmet.now loaded.now request.now)
        request.now)
        ≡ Some o)) }
{
    let planner = Planner::new(
        alloc,
        rules,
        indexes,
        unmet.as_slice(),
        loaded.as_slice(),
        request.use_blacklist,
        modules,
    )?;
    let steps = planned_steps(alloc, &planner, request);
    drop(planner);
    steps
}

/// Makes the plan for a request over sound dependency lines, or finds the first obstacle.
fn planned_steps(
    alloc: Global,
    planner: &Planner<'_>,
    request: &Request,
) -> Result<PlanSteps, Obstacle>
    requires { bad_name (sources_of planner.now).maps.dep ≡ None }
    ensures plan { IfOk result (λ steps. steps ≡ plan_steps (sources_of planner.now) request.now) }
    ensures passed { OnOk result (obstacle_of (sources_of planner.now) request.now ≡ None) }
    ensures closed { IfOk result (IsClosedPlan (sources_of planner.now)) }
    ensures err { IfErr result
        (λ o. (o ≡ Obstacle.Memory)
        ⊎ (option_map as_obstacle (obstacle_of (sources_of planner.now) request.now)
        ≡ Some o)) }
{
    let founds = find_each(alloc, planner, &request.names)?;
    check_known(alloc, planner, request.ignore_install, &founds)?;
    let plan = checked_plan(alloc, planner, &founds)?;
    let steps = all_steps(alloc, planner, request, &founds, &plan)?;
    Ok(steps)
}

/// Returns the order, unless there is a cycle.
fn order_of(
    alloc: Global,
    planner: &Planner<'_>,
    answer: PlanOrCycle,
) -> Result<GroupedOrder, Obstacle>
    requires { ShortCycle (length (modules_spec (sources_of planner.now))) answer }
    ensures order { IfOk result (λ order. answer ≡ PlanOrCycle.Plan order) }
    ensures err { IfErr result
        (λ o. (o ≡ Obstacle.Memory) ⊎ IsCycleOf (modules_spec (sources_of planner.now)) answer o) }
{
    match answer {
        PlanOrCycle::Plan(order) => Ok(order),
        PlanOrCycle::Cycle(found) => Err(Obstacle::Cycle {
            names: names_at(alloc, planner.modules(), &found)?,
        }),
    }
}

/// Returns the names of the modules at some places.
fn names_at(alloc: Global, modules: &Modules<'_>, places: &[usize]) -> Result<Names, AllocError>
    requires { All (λ y. y < length modules.now) places.now }
    ensures { IfOk result (λ names. names ≡ map (name_at modules.now) places.now) }
{
    let mut names = Names::new(alloc);
    for place in places {
        names.push(Name::from_slice(alloc, modules.name(*place))?)?;
    }
    Ok(names)
}

/// Makes the order of the plan for what was found, or finds the first obstacle of what is planned.
/// If modules.unmet has no line, that can only be a cycle, and no paths are compared.
fn checked_plan(
    alloc: Global,
    planner: &Planner<'_>,
    founds: &[Found],
) -> Result<GroupedOrder, Obstacle>
    ensures plan { IfOk result
        (IsPlan (among (before (sources_of planner.now))) (unloaded (sources_of planner.now))
        (after (sources_of planner.now)) (asked (sources_of planner.now) founds.now)) }
    ensures passed { OnOk result (first (plan_tests (sources_of planner.now) founds.now) ≡ None) }
    ensures err { IfErr result
        (λ o. (o ≡ Obstacle.Memory)
        ⊎ (option_map as_obstacle (first (plan_tests (sources_of planner.now) founds.now))
        ≡ Some o)) }
{
    let Planning { marks, answer } = planned_answer(alloc, planner, founds)?;
    if planner.unmet().is_empty() {
        return order_without_lines(alloc, planner, founds, answer);
    }
    let paths = compared_paths(alloc, planner, &marks)?;
    checked_order(alloc, planner, founds, answer, &paths)
}

/// Returns the order that was found, unless there is a cycle. modules.unmet has no line. `founds`
/// is only for the contract.
fn order_without_lines(
    alloc: Global,
    planner: &Planner<'_>,
    founds: &[Found],
    answer: PlanOrCycle,
) -> Result<GroupedOrder, Obstacle>
    requires lines { length (sources_of planner.now).unmet ≡ 0 }
    requires answer { IsAnswer (among (before (sources_of planner.now)))
        (unloaded (sources_of planner.now)) (after (sources_of planner.now))
        (asked (sources_of planner.now) founds.now) answer }
    ensures plan { IfOk result
        (IsPlan (among (before (sources_of planner.now))) (unloaded (sources_of planner.now))
        (after (sources_of planner.now)) (asked (sources_of planner.now) founds.now)) }
    ensures passed { OnOk result (first (plan_tests (sources_of planner.now) founds.now) ≡ None) }
    ensures err { IfErr result
        (λ o. (o ≡ Obstacle.Memory)
        ⊎ (option_map as_obstacle (first (plan_tests (sources_of planner.now) founds.now))
        ≡ Some o)) }
{
    let order = order_of(alloc, planner, answer)?;
    Ok(order)
}

/// Returns the order that was found, or finds the first obstacle of what is planned. `founds` is
/// only for the contract.
fn checked_order(
    alloc: Global,
    planner: &Planner<'_>,
    founds: &[Found],
    answer: PlanOrCycle,
    paths: &ComparedPaths<'_>,
) -> Result<GroupedOrder, Obstacle>
    requires answer { IsAnswer (among (before (sources_of planner.now)))
        (unloaded (sources_of planner.now)) (after (sources_of planner.now))
        (asked (sources_of planner.now) founds.now) answer }
    requires planned { (path : List ℕ)
        → is_among paths.now.planned path
        ≡ is_path_of (modules_spec (sources_of planner.now))
        (planned_spec (sources_of planner.now) founds.now) path }
    requires there { (path : List ℕ)
        → is_among paths.now.there path ≡ stands (sources_of planner.now) path }
    ensures plan { IfOk result
        (IsPlan (among (before (sources_of planner.now))) (unloaded (sources_of planner.now))
        (after (sources_of planner.now)) (asked (sources_of planner.now) founds.now)) }
    ensures passed { OnOk result (first (plan_tests (sources_of planner.now) founds.now) ≡ None) }
    ensures err { IfErr result
        (λ o. (o ≡ Obstacle.Memory)
        ⊎ (option_map as_obstacle (first (plan_tests (sources_of planner.now) founds.now))
        ≡ Some o)) }
{
    let unmet = planner.unmet();
    check_needs(alloc, unmet, &paths.planned, &paths.there)?;
    let order = order_of(alloc, planner, answer)?;
    check_unmet(alloc, LineKind::Double, unmet, &paths.planned, &paths.there)?;
    Ok(order)
}
