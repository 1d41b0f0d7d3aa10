// What is planned for what was found, and in which order.
ghost use Rattle.std.specs.Prelude.{◌≡◌, length, IfOk};
ghost use Rattle.relation_order.specs.Sets.{marked};
ghost use Rattle.relation_order.specs.Search.{Inside};
ghost use Rattle.plan_order.specs.Plan.{planned as planned_for};
ghost use Rattle.plan_order.specs.Lists.{among, items_of, IsPlanned};
ghost use Rattle.plan_order.specs.Answer.{IsAnswer};
ghost use Rattle.plan_sources.specs.Sources.{modules as modules_spec};
ghost use Rattle.planned_modules.specs.Needs.{before, after, unloaded};
ghost use Rattle.planned_modules.specs.Members.{asked, planned as planned_spec};
ghost use Rattle.plan_sources.specs.Planner.{sources_of};
ghost use Rattle.planned_modules.specs.Kept.{before_once, after_once};

use crate::members::{free_marks, requests_of};
use crate::needs::ModuleNeeds;
use name_lookup::Found;
use plan_order::{PlanOrCycle, Planned, find_planned, plan_or_cycle};
use plan_sources::{Planner, SoftTable};
use std::alloc::{AllocError, Global};

/// What is planned, with a mark for each module, and the order of it, or a cycle.
#[derive(Drop)]
pub struct Planning {
    /// Whether a module is planned, by its place.
    pub marks: Vec<bool>,
    /// The order of what is planned, or a cycle in it.
    pub answer: PlanOrCycle,
}

/// Finds what is planned for what was found.
pub fn planned_answer(
    alloc: Global,
    planner: &Planner<'_>,
    founds: &[Found],
) -> Result<Planning, AllocError>
    ensures marks { IfOk result
        (λ p. marked p.marks.items ≡ planned_spec (sources_of planner.now) founds.now) }
    ensures long { IfOk result
        (λ p. length p.marks.items ≡ length (modules_spec (sources_of planner.now))) }
    ensures answer { IfOk result
        (λ p. IsAnswer (among (before (sources_of planner.now))) (unloaded (sources_of planner.now))
        (after (sources_of planner.now)) (asked (sources_of planner.now) founds.now) p.answer) }
{
    let requests = requests_of(alloc, planner, founds)?;
    let free = free_marks(alloc, planner)?;
    planned_among(alloc, planner, &free, &requests)
}

/// Finds what is planned for some requests among the modules that are marked as free.
fn planned_among(
    alloc: Global,
    planner: &Planner<'_>,
    free: &[bool],
    requests: &[Vec<usize>],
) -> Result<Planning, AllocError>
    requires free { length free.now ≡ length (modules_spec (sources_of planner.now)) }
    requires requests { Inside (length (modules_spec (sources_of planner.now))) requests.now }
    ensures marks { IfOk result
        (λ p. marked p.marks.items
        ≡ planned_for (among (before (sources_of planner.now))) (marked free.now)
        (after (sources_of planner.now)) (items_of requests.now)) }
    ensures long { IfOk result
        (λ p. length p.marks.items ≡ length (modules_spec (sources_of planner.now))) }
    ensures answer { IfOk result
        (λ p. IsAnswer (among (before (sources_of planner.now))) (marked free.now)
        (after (sources_of planner.now)) (items_of requests.now) p.answer) }
{
    let planned = planned_and_needed(alloc, planner, free, requests)?;
    let answer = plan_or_cycle(alloc, &planned, free, requests)?;
    let Planned { marks, .. } = planned;
    Ok(Planning { marks, answer })
}

/// Finds what is planned for some requests among the modules that are marked as free, and what each
/// planned module needs.
fn planned_and_needed(
    alloc: Global,
    planner: &Planner<'_>,
    free: &[bool],
    requests: &[Vec<usize>],
) -> Result<Planned, AllocError>
    requires free { length free.now ≡ length (modules_spec (sources_of planner.now)) }
    requires requests { Inside (length (modules_spec (sources_of planner.now))) requests.now }
    ensures { IfOk result
        (IsPlanned (length free.now) (before_once (sources_of planner.now)) (marked free.now)
        (after_once (sources_of planner.now)) (items_of requests.now)) }
{
    let soft = SoftTable::new(alloc, planner)?;
    let mut needs = ModuleNeeds::new(soft);
    find_planned(alloc, &mut needs, free, requests)
}
