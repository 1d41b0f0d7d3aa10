// The order of a plan, or the cycle that keeps the requests from having one.
ghost use Rattle.std.specs.Prelude.{◌≡◌, [], ℕ, List, length, IfOk};
ghost use Rattle.relation_order.specs.Sets.{goes, marked as marked_spec, successors};
ghost use Rattle.relation_order.specs.Answer.{IsAnswer as IsOrderOrCycle};
ghost use Rattle.relation_order.specs.Search.{Inside};
ghost use Rattle.relation_order.specs.Cycle.{cycle};
ghost use Rattle.plan_order.specs.Plan.{planned as planned_spec};
ghost use Rattle.plan_order.specs.Lists.{items_of, among, IsPlanned, AreKnown};
ghost use Rattle.plan_order.specs.Answer.{IsPlan, IsAnswer};

use crate::group::order_among;
use crate::groups::Groups;
use crate::need_lists::NeedLists;
use crate::needs::Planned;
use relation_order::{OrderOrCycle, marked, named_cycle};
use std::alloc::{AllocError, Global};

/// The order of a plan.
#[derive(Drop)]
pub struct GroupedOrder {
    /// All that is planned, each module after those that come before it.
    pub order: Vec<usize>,
    /// For each request, where its group ends in the order.
    pub ends: Vec<usize>,
}

/// A plan, or the cycle that keeps the requests from having one.
#[derive(Drop)]
pub enum PlanOrCycle {
    /// All that is planned, in order.
    Plan(GroupedOrder),
    /// Modules in a cycle: each comes after the next, and the last after the first.
    Cycle(Vec<usize>),
}

/// Makes the plan for some requests, or finds the named cycle, exactly if something planned comes
/// before itself. `planned` has what is planned for these requests.
pub fn plan_or_cycle(
    alloc: Global,
    planned: &Planned,
    free: &[bool],
    requests: &[Vec<usize>],
) -> Result<PlanOrCycle, AllocError>
    requires known { AreKnown (length free.now) (marked_spec free.now) (items_of requests.now)
        planned.now }
    requires requests { Inside (length free.now) requests.now }
    ensures { IfOk result (λ answer. (before after : ℕ → List ℕ) →
        IsPlanned (length free.now) before (marked_spec free.now) after (items_of requests.now)
        planned.now
        →
        IsAnswer (among before) (marked_spec free.now) after (items_of requests.now) answer) }
{
    match order_or_cycle(alloc, &planned.before, &planned.marks)? {
        OrderOrCycle::Order(_) => {
            let plan = plan_without_cycle(alloc, &planned.before, &planned.after, free, requests)?;
            Ok(PlanOrCycle::Plan(plan))
        }
        OrderOrCycle::Cycle(found) => Ok(PlanOrCycle::Cycle(found)),
    }
}

/// Finds the least order of the marked modules, or the named cycle. The order takes memory in
/// proportion to the members and their lists, since most plans are of few modules.
fn order_or_cycle(
    alloc: Global,
    lists: &NeedLists,
    marks: &[bool],
) -> Result<OrderOrCycle, AllocError>
    requires long { length marks.now ≡ length lists.now }
    requires inside { Inside (length lists.now) lists.now }
    ensures { IfOk result (IsOrderOrCycle (goes lists.now) (marked_spec marks.now)) }
{
    let members = marked(alloc, marks)?;
    let order = order_among(alloc, lists, &members)?;
    if order.len() == members.len() {
        return Ok(OrderOrCycle::Order(order));
    }
    let copies = lists.copies(alloc)?;
    Ok(OrderOrCycle::Cycle(named_cycle(alloc, &copies, marks)?))
}

/// Makes the plan, if nothing planned comes before itself.
fn plan_without_cycle(
    alloc: Global,
    before: &NeedLists,
    post: &NeedLists,
    free: &[bool],
    requests: &[Vec<usize>],
) -> Result<GroupedOrder, AllocError>
    requires long { length free.now ≡ length before.now }
    requires post_long { length post.now ≡ length before.now }
    requires inside { Inside (length before.now) before.now }
    requires post { Inside (length before.now) post.now }
    requires requests { Inside (length before.now) requests.now }
    requires cycle { cycle (goes before.now)
        (planned_spec (goes before.now) (marked_spec free.now) (successors post.now)
        (items_of requests.now))
        ≡ [] }
    ensures { IfOk result
        (IsPlan (goes before.now) (marked_spec free.now) (successors post.now)
        (items_of requests.now)) }
{
    let mut groups = Groups::new(alloc, before.len())?;
    let ends = groups.add_all(alloc, before, free, requests)?;
    let mut next = 0;
    while next < groups.order.len() {
        let place = groups.order[next];
        groups.add_each(alloc, before, free, post.get(place))?;
        next += 1;
    }
    let Groups { order, .. } = groups;
    Ok(GroupedOrder { order, ends })
}
