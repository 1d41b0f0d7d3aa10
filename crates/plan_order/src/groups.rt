ghost use Rattle.std.specs.Prelude.{◌≡◌, ◌<◌, [], suc, take, slice_index, ℕ, List, length, All};
ghost use Rattle.std.specs.Prelude.{IfOk, OnOk, true};
ghost use Rattle.std.specs.Global.{Vec};
ghost use Rattle.relation_order.specs.Sets.{has, goes, marked};
ghost use Rattle.relation_order.specs.Search.{Inside, Marks};
ghost use Rattle.relation_order.specs.Placing.{Closed};
ghost use Rattle.plan_order.specs.Plan.{members as members_spec, group, with_group, with_groups};
ghost use Rattle.plan_order.specs.Plan.{singles};
ghost use Rattle.plan_order.specs.Lists.{items_of};
ghost use Rattle.plan_order.specs.NoCycle.{NoCycle};
ghost use Rattle.plan_order.specs.Finding.{FoundMore};
ghost use Rattle.plan_order.specs.Groups.{Whole};

use crate::group::{order_among, rising};
use crate::need_lists::NeedLists;
use relation_order::{find_all, unmarked};
use std::alloc::{AllocError, Global};

/// Groups one after another: a mark for each module that was found, and the order of these modules.
#[derive(Drop)]
pub(crate) struct Groups {
    pub(crate) found: Vec<usize>,
    pub(crate) seen: Vec<bool>,
    pub(crate) order: Vec<usize>,
}

/// Finds the members of a request's group, after those that were found before.
fn find_group(
    seen: &mut Vec<bool>,
    found: &mut Vec<usize>,
    lists: &NeedLists,
    free: &[bool],
    request: &[usize],
) -> Result<(), AllocError>
    requires long { length free.now ≡ length lists.now }
    requires seen_long { length seen.old.items ≡ length lists.now }
    requires inside { Inside (length lists.now) lists.now }
    requires request { All (λ y. y < length lists.now) request.now }
    requires marks { Marks found.old.items seen.old.items }
    requires closed { Closed (goes lists.now) (marked free.now) found.old.items }
    ensures long { OnOk result (length seen.new.items ≡ length seen.old.items) }
    ensures marks { OnOk result (Marks found.new.items seen.new.items) }
    ensures found { OnOk result
        (FoundMore (goes lists.now) (marked free.now) request.now found.old.items found.new.items) }
{
    let mut next = found.len();
    find_all(seen, found, free, request)?;
    while next < found.len() {
        let item = found[next];
        find_all(seen, found, free, lists.get(item))?;
        next += 1;
    }
    Ok(())
}

impl Groups {
    /// Begins without groups.
    pub(crate) fn new(alloc: Global, count: usize) -> Result<Groups, AllocError>
        ensures order { IfOk result (λ groups. groups.order.items ≡ []) }
        ensures whole { IfOk result
            (λ groups. (lists : List (Vec ℕ)) (set : List ℕ)
            → Whole (goes lists) set count groups) }
    {
        Ok(Groups {
            found: Vec::new(alloc),
            seen: unmarked(alloc, count)?,
            order: Vec::new(alloc),
        })
    }

    /// Adds a request's group to the order.
    fn add(
        &mut self,
        alloc: Global,
        lists: &NeedLists,
        free: &[bool],
        request: &[usize],
    ) -> Result<(), AllocError>
        requires long { length free.now ≡ length lists.now }
        requires inside { Inside (length lists.now) lists.now }
        requires request { All (λ y. y < length lists.now) request.now }
        requires whole { Whole (goes lists.now) (marked free.now) (length lists.now) self.old }
        requires all { (y : ℕ)
            → has (members_spec (goes lists.now) (marked free.now) self.old.order.items request.now)
            y
            ≡ true
            → has (group (goes lists.now) (marked free.now) self.old.order.items request.now) y
            ≡ true }
        ensures order { OnOk result
            (self.new.order.items
            ≡ with_group (goes lists.now) (marked free.now) self.old.order.items request.now) }
        ensures whole { OnOk result
            (Whole (goes lists.now) (marked free.now) (length lists.now) self.new) }
    {
        let start = self.found.len();
        find_group(&mut self.seen, &mut self.found, lists, free, request)?;
        let members = rising(alloc, &self.found[start..])?;
        let group = order_among(alloc, lists, &members)?;
        self.order.extend_from_slice(&group)?;
        Ok(())
    }

    /// Adds the groups of some requests, one after another, and returns where each ends in the
    /// order.
    pub(crate) fn add_all(
        &mut self,
        alloc: Global,
        lists: &NeedLists,
        free: &[bool],
        requests: &[Vec<usize>],
    ) -> Result<Vec<usize>, AllocError>
        requires long { length free.now ≡ length lists.now }
        requires inside { Inside (length lists.now) lists.now }
        requires requests { Inside (length lists.now) requests.now }
        requires whole { Whole (goes lists.now) (marked free.now) (length lists.now) self.old }
        requires cycle { NoCycle (goes lists.now) (marked free.now) (items_of requests.now) }
        ensures long { IfOk result (λ ends. length ends.items ≡ length requests.now) }
        ensures ends { IfOk result
            (λ ends. (k : ℕ) → k < length requests.now
            → slice_index ends.items k
            ≡ length (with_groups (goes lists.now) (marked free.now) self.old.order.items
            (items_of (take (suc k) requests.now)))) }
        ensures order { OnOk result
            (self.new.order.items
            ≡ with_groups (goes lists.now) (marked free.now) self.old.order.items
            (items_of requests.now)) }
        ensures whole { OnOk result
            (Whole (goes lists.now) (marked free.now) (length lists.now) self.new) }
    {
        let mut ends = Vec::new(alloc);
        for request in requests {
            self.add(alloc, lists, free, request)?;
            ends.push(self.order.len())?;
        }
        Ok(ends)
    }

    /// Adds the groups of some modules, each a request of its own.
    pub(crate) fn add_each(
        &mut self,
        alloc: Global,
        lists: &NeedLists,
        free: &[bool],
        modules: &[usize],
    ) -> Result<(), AllocError>
        requires long { length free.now ≡ length lists.now }
        requires inside { Inside (length lists.now) lists.now }
        requires modules { All (λ y. y < length lists.now) modules.now }
        requires whole { Whole (goes lists.now) (marked free.now) (length lists.now) self.old }
        requires cycle { NoCycle (goes lists.now) (marked free.now) (singles modules.now) }
        ensures order { OnOk result
            (self.new.order.items
            ≡ with_groups (goes lists.now) (marked free.now) self.old.order.items
            (singles modules.now)) }
        ensures whole { OnOk result
            (Whole (goes lists.now) (marked free.now) (length lists.now) self.new) }
    {
        for module in modules {
            self.add(alloc, lists, free, &[*module])?;
        }
        Ok(())
    }
}
