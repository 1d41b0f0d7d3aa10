// Orders, cycles, reach and closures of small relations.
ghost use Rattle.std.specs.Prelude.{◌≡◌, ◌<◌, length, All, IfOk};
ghost use Rattle.relation_order.specs.Search.{Inside};

use relation_order::{Closures, OrderOrCycle, all_members, order_or_cycle, reachable};
use std::alloc::{AllocError, Global};
use std::process::Abort;

/// Returns as many lists. Each pair adds its second to the list of its first, if both are items.
fn lists(
    alloc: Global,
    count: usize,
    pairs: &[(usize, usize)],
) -> Result<Vec<Vec<usize>>, AllocError>
    ensures long { IfOk result (λ lists. length lists.items ≡ count) }
    ensures inside { IfOk result (λ lists. Inside count lists.items) }
{
    let mut lists = Vec::new(alloc);
    for item in 0..count {
        lists.push(list(alloc, item, pairs, count)?)?;
    }
    Ok(lists)
}

fn list(
    alloc: Global,
    item: usize,
    pairs: &[(usize, usize)],
    count: usize,
) -> Result<Vec<usize>, AllocError>
    ensures { IfOk result (λ list. All (λ y. y < count) list.items) }
{
    let mut list = Vec::new(alloc);
    for (x, y) in pairs {
        if *x == item && *y < count {
            list.push(*y)?;
        }
    }
    Ok(list)
}

/// How many items, which go to which, and the order or the cycle.
static ROWS: [(usize, &[(usize, usize)], bool, &[usize]); 6] = [
    (0, &[], true, &[]),
    (
        6,
        &[(0, 3), (0, 1), (1, 2), (3, 2), (4, 0)],
        true,
        &[2, 1, 3, 0, 4, 5],
    ),
    // p needs a, a needs b, b needs c, c needs a
    (4, &[(0, 1), (1, 2), (2, 3), (3, 1)], false, &[1, 2, 3]),
    (1, &[(0, 0)], false, &[0]),
    // the shorter way round
    (3, &[(0, 1), (1, 2), (2, 0), (0, 2)], false, &[0, 2]),
    // of two ways as short the one through the lesser item
    (
        4,
        &[(0, 2), (0, 1), (1, 3), (2, 3), (3, 0)],
        false,
        &[0, 1, 3],
    ),
];

fn same(rt: &impl Abort, got: &[usize], want: &[usize]) {
    assert_eq!(rt; got, want);
}

/// Returns the order or the cycle of the lists of a row.
fn found(rt: &impl Abort, alloc: Global, count: usize, pairs: &[(usize, usize)]) -> OrderOrCycle {
    let lists = lists(alloc, count, pairs).expect(rt, "no memory");
    let members = all_members(alloc, count).expect(rt, "no memory");
    order_or_cycle(alloc, &lists, &members).expect(rt, "no memory")
}

/// Compares an order or a cycle.
fn expect_found(rt: &impl Abort, found: &OrderOrCycle, ordered: bool, want: &[usize]) {
    match found {
        OrderOrCycle::Order(order) => {
            assert!(rt; ordered);
            same(rt, order.as_slice(), want);
        }
        OrderOrCycle::Cycle(cycle) => {
            assert!(rt; !ordered);
            same(rt, cycle.as_slice(), want);
        }
    }
}

#[test]
fn orders_and_cycles(rt: HostRuntime) {
    for (count, pairs, ordered, want) in &ROWS {
        let found = found(&rt, rt.alloc(), *count, pairs);
        expect_found(&rt, &found, *ordered, want);
    }
}

fn expect_reachable(rt: &impl Abort, alloc: Global) {
    let lists = lists(alloc, 6, ROWS[1].1).expect(rt, "no memory");
    let members = [true, false, true, true, true, false];
    let found = reachable(alloc, &lists, &members, 4).expect(rt, "no memory");
    same(rt, found.as_slice(), &[0, 2, 3]);
}

/// What each item of the second row reaches, in the order in which each follows those that it goes
/// to.
static CLOSURES: [&[usize]; 6] = [&[2, 1, 3], &[2], &[], &[2], &[2, 1, 3, 0], &[]];

fn expect_closures(rt: &impl Abort, alloc: Global) {
    let lists = lists(alloc, 6, ROWS[1].1).expect(rt, "no memory");
    let members = all_members(alloc, 6).expect(rt, "no memory");
    let found = order_or_cycle(alloc, &lists, &members).expect(rt, "no memory");
    let OrderOrCycle::Order(order) = found else {
        panic!(rt; "a cycle");
    };
    let closures = Closures::new(alloc, &lists, order).expect(rt, "no memory");
    assert!(rt; closures.count() == 9);
    for x in 0..6 {
        let closure = closures.closure(alloc, x).expect(rt, "a closure");
        same(rt, closure.as_slice(), CLOSURES[x]);
    }
}

#[test]
fn members_and_closures(rt: HostRuntime) {
    expect_reachable(&rt, rt.alloc());
    expect_closures(&rt, rt.alloc());
}
