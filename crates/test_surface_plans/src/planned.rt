//! What names stand for, and which modules are planned for them.

use crate::configuration::rules_of;
use crate::lists::names;
use crate::same::{holds, same_option, shown};
use crate::sources::{Basis, lines_of, make_basis, modules_by, planner_over};
use km_names::{Name, Names};
use name_lookup::Found;
use plan_order::PlanOrCycle;
use planned_modules::{
    Planner, Planning, ResolveFault, check_known, chosen_command, find_each, planned_answer,
};
use std::alloc::{AllocError, AllocFailed, Global};
use std::process::Abort;

// Each call is made by a function that promises nothing.

/// Finds what names stand for.
fn found(
    rt: &impl Abort,
    alloc: Global,
    planner: &Planner<'_>,
    texts: &[&[u8]],
) -> Result<Vec<Found>, ResolveFault> {
    let asked = names(rt, alloc, texts);
    find_each(alloc, planner, &asked)
}

/// Tests that what was found is known.
fn known(
    alloc: Global,
    planner: &Planner<'_>,
    ignored: bool,
    founds: &[Found],
) -> Result<(), ResolveFault> {
    check_known(alloc, planner, ignored, founds)
}

/// Finds what is planned.
fn planned(rt: &impl Abort, alloc: Global, planner: &Planner<'_>, founds: &[Found]) -> Planning {
    planned_answer(alloc, planner, founds).expect(rt, "an answer")
}

/// Returns the name that isn't found; none if out of memory.
fn name_in(fault: ResolveFault) -> Option<Name> {
    match fault {
        ResolveFault::NotFound { name } => Some(name),
        ResolveFault::Memory => None,
    }
}

/// Aliases of a module and of nothing that is known, and an install rule.
static RULES: &[u8] = b"alias net-* b\nalias old gone\ninstall x /bin/true\n";

/// Returns what was found for the name at a place: the list, and the names.
fn found_at<'a>(rt: &impl Abort, founds: &'a [Found], place: usize) -> (u8, &'a Names) {
    let found = founds.get(place).expect(rt, "names");
    (found.list, &found.names)
}

/// What is found by an alias, by an install rule, and among the built-in modules.
static FOUND: &str = "((1, List { elements: [\"b\"] }), (4, List { elements: [\"x\"] }), \
        (6, List { elements: [\"built\"] }))";

/// Stops unless these are found.
fn expect_found(rt: &impl Abort, alloc: Global, planner: &Planner<'_>) {
    let founds = found(rt, alloc, planner, &[b"net-1", b"x", b"built"]).ok();
    let founds = founds.expect(rt, "names");
    holds(rt, founds.len() == 3);
    let all = (
        found_at(rt, &founds, 0),
        found_at(rt, &founds, 1),
        found_at(rt, &founds, 2),
    );
    shown(rt, alloc, all, FOUND);
}

/// Returns why names aren't resolved to what is known, if they aren't.
fn fault_of(
    rt: &impl Abort,
    alloc: Global,
    planner: &Planner<'_>,
    ignored: bool,
    texts: &[&[u8]],
) -> Option<ResolveFault> {
    match found(rt, alloc, planner, texts) {
        Ok(founds) => known(alloc, planner, ignored, &founds).err(),
        Err(fault) => Some(fault),
    }
}

/// Stops unless names are known, or the one of this text isn't found.
fn expect_fault(rt: &impl Abort, alloc: Global, fault: Option<ResolveFault>, want: &str) {
    match fault {
        Some(fault) => shown(rt, alloc, name_in(fault), want),
        None => holds(rt, want == "known"),
    }
}

/// Whether install rules are ignored, names, and the one that isn't known.
static NAMES: [(bool, [&[u8]; 2], &str); 4] = [
    (false, [b"net-1", b"x"], "known"),
    (true, [b"built", b"x"], r#"Some("x")"#),
    (false, [b"b", b"no-such"], r#"Some("no_such")"#),
    (false, [b"b", b"old"], r#"Some("gone")"#),
];

/// Asks for these.
fn expect_faults(rt: &impl Abort, alloc: Global, planner: &Planner<'_>) {
    for (ignored, texts, want) in &NAMES {
        let fault = fault_of(rt, alloc, planner, *ignored, texts);
        expect_fault(rt, alloc, fault, want);
    }
}

/// Stops unless only `x` has a command, unless commands are ignored.
fn expect_commands(rt: &impl Abort, planner: &Planner<'_>) {
    let rules = planner.rules();
    same_option(rt, chosen_command(rules, false, b"x"), Some(b"/bin/true"));
    same_option(rt, chosen_command(rules, true, b"x"), None);
    same_option(rt, chosen_command(rules, false, b"b"), None);
}

/// Returns what plans by these rules are made from, with these loaded modules.
fn basis_of(rt: &impl Abort, alloc: Global, rules: &[u8], loaded: &[u8]) -> Basis {
    let rules = rules_of(rt, alloc, rules).expect(rt, "rules");
    make_basis(rt, alloc, rules, b"", loaded)
}

fn names_are_found_and_known(rt: &impl Abort, alloc: Global) {
    let basis = basis_of(rt, alloc, RULES, b"");
    let lines = lines_of(rt, alloc, &basis.indexes.dep);
    let modules = modules_by(rt, alloc, &basis.indexes.dep, &lines);
    let planner = planner_over(rt, alloc, &basis, &modules);
    expect_found(rt, alloc, &planner);
    expect_faults(rt, alloc, &planner);
    expect_commands(rt, &planner);
    drop(planner);
    drop(modules);
    drop(lines);
    drop(basis);
}

/// Stops unless this is planned: a mark for each module, and the order with the ends of its groups,
/// or the cycle.
fn expect_planning(rt: &impl Abort, alloc: Global, planning: Planning, want: &str) {
    let Planning { marks, answer } = planning;
    match answer {
        PlanOrCycle::Plan(plan) => shown(rt, alloc, (marks, plan.order, plan.ends), want),
        PlanOrCycle::Cycle(cycle) => shown(rt, alloc, (marks, cycle), want),
    }
}

/// Rules, loaded modules, and what is planned for `b`, which needs `a`, and then for `a`.
static PLANNED: [(&[u8], &[u8], &str); 4] = [
    (b"", b"", "([true, true], [0, 1], [2, 2])"),
    (
        b"",
        b"a 8192 0 - Live 0x0\n",
        "([false, true], [1], [1, 1])",
    ),
    (b"softdep a pre: b\n", b"", "([true, true], [0, 1])"),
    (
        b"softdep a pre: nosuch\n",
        b"",
        "([true, true], [0, 1], [2, 2])",
    ),
];

/// Plans for these.
fn plan_both(rt: &impl Abort, alloc: Global, rules: &[u8], loaded: &[u8], want: &str) {
    let basis = basis_of(rt, alloc, rules, loaded);
    let lines = lines_of(rt, alloc, &basis.indexes.dep);
    let modules = modules_by(rt, alloc, &basis.indexes.dep, &lines);
    let planner = planner_over(rt, alloc, &basis, &modules);
    expect_both(rt, alloc, &planner, want);
    drop(planner);
    drop(modules);
    drop(lines);
    drop(basis);
}

/// Stops unless this is planned for `b`, and then for `a`.
fn expect_both(rt: &impl Abort, alloc: Global, planner: &Planner<'_>, want: &str) {
    let founds = found(rt, alloc, planner, &[b"b", b"a"]).ok();
    let founds = founds.expect(rt, "names");
    let planning = planned(rt, alloc, planner, &founds);
    expect_planning(rt, alloc, planning, want);
}

fn modules_are_planned(rt: &impl Abort, alloc: Global) {
    for (rules, loaded, want) in &PLANNED {
        plan_both(rt, alloc, rules, loaded, want);
    }
}

/// Returns the fault of a refused allocation, by the bound of `?`.
pub(crate) fn refused<F: From<AllocError>>() -> F {
    F::from(AllocError)
}

/// Returns the fault of a value that isn't stored, by that bound.
pub(crate) fn unstored<F: From<AllocFailed<u8>>>() -> F {
    F::from(AllocFailed { value: 7 })
}

fn faults_come_from_others(rt: &impl Abort) {
    holds(rt, name_in(refused()).is_none());
    holds(rt, name_in(unstored()).is_none());
}

#[test]
fn planned_modules_are_called(rt: HostRuntime) {
    names_are_found_and_known(&rt, rt.alloc());
    modules_are_planned(&rt, rt.alloc());
    faults_come_from_others(&rt);
}
