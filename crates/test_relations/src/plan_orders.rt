// Tests of the orders of plans, and of their cycles.

ghost use Rattle.std.specs.Prelude.{◌-◌, ◌==◌, ◌∷◌, [], if◌then◌else◌};

use plan_order::{Needed, Needs, PlanOrCycle, find_planned, plan_or_cycle};
use std::alloc::{AllocError, Global};
use std::process::Abort;

/// Modules in a ring. Before each comes the one of the number below, before 0 the last. After each
/// comes the one that is as far from the last as it is from 0.
#[derive(Drop)]
struct Ring {
    count: usize,
}

impl Needs for Ring {
    ghost count = { λ r. r.count };

    ghost before = { λ r n. (if n == 0 then r.count - 1 else n - 1) ∷ [] };

    ghost after = { λ r n. (r.count - 1 - n) ∷ [] };

    fn needed(&mut self, alloc: Global, place: usize) -> Result<Needed, AllocError> {
        let below = if place == 0 {
            self.count - 1
        } else {
            place - 1
        };
        Ok(Needed {
            before: vec![in alloc; below]?,
            after: vec![in alloc; self.count - 1 - place]?,
        })
    }
}

/// Which of a ring are free, which one is requested, and the order with the end of its group, or
/// the cycle.
static ROWS: [(&[bool], usize, &[usize], Option<usize>); 4] = [
    // 3 needs 2, which is loaded, and asks for 1, which needs 0, which needs 4, which is loaded
    (&[true, true, false, true, false], 3, &[3, 0, 1], Some(1)),
    // what isn't free isn't planned
    (&[false, true], 0, &[], Some(0)),
    (&[true, true, true], 1, &[0, 2, 1], None),
    (&[true], 0, &[0], None),
];

/// Returns the plan or the cycle of one requested module of a ring.
fn found(rt: &impl Abort, alloc: Global, free: &[bool], request: usize) -> PlanOrCycle {
    let mut ring = Ring { count: free.len() };
    assert!(rt; request < free.len());
    let group = vec![in alloc; request].expect(rt, "no memory");
    let requests = vec![in alloc; group].expect(rt, "no memory");
    let planned = find_planned(alloc, &mut ring, free, &requests).expect(rt, "no memory");
    plan_or_cycle(alloc, &planned, free, &requests).expect(rt, "no memory")
}

fn same(rt: &impl Abort, got: &[usize], want: &[usize]) {
    assert_eq!(rt; got, want);
}

/// Compares a plan with its first end, or a cycle.
fn expect_found(rt: &impl Abort, found: &PlanOrCycle, want: &[usize], end: Option<usize>) {
    match found {
        PlanOrCycle::Plan(plan) => {
            same(rt, plan.order.as_slice(), want);
            assert!(rt; plan.ends.first().copied() == end);
        }
        PlanOrCycle::Cycle(cycle) => {
            same(rt, cycle.as_slice(), want);
            assert!(rt; end.is_none());
        }
    }
}

#[test]
fn plans_and_cycles(rt: HostRuntime) {
    for (free, request, want, end) in &ROWS {
        expect_found(&rt, &found(&rt, rt.alloc(), free, *request), want, *end);
    }
}
