//! The modules of the dependency lines of an index.

use crate::indexes::{index_of, two_indexes};
use crate::lists::names;
use crate::planned::{refused, unstored};
use crate::same::{holds, same_option, shown};
use crate::sources::lines_of;
use dependency_lines::{DependencyLines, LineFault, Modules};
use km_names::Name;
use std::alloc::Global;
use std::process::Abort;

/// Stops unless these are the two modules, of which `b` needs `a`.
fn expect_two(rt: &impl Abort, alloc: Global, modules: &Modules<'_>) {
    holds(rt, modules.len() == 2);
    same_option(rt, Some(modules.name(1)), Some(b"b"));
    same_option(rt, Some(modules.path(1)), Some(b"kernel/b.ko"));
    let needed = modules.line_places(alloc, 1);
    let asked = names(rt, alloc, &[b"b", b"nosuch"]);
    let found = modules.places_of(alloc, asked.as_slice());
    drop(asked);
    let places = (modules.place(b"b"), needed, found);
    shown(rt, alloc, places, "(Some(1), Ok([0]), Ok([1]))");
}

fn lines_have_modules(rt: &impl Abort, alloc: Global) {
    let indexes = two_indexes(rt, alloc);
    let lines = lines_of(rt, alloc, &indexes.dep);
    let modules = Modules::new(alloc, &lines).ok().expect(rt, "modules");
    expect_two(rt, alloc, &modules);
    drop(modules);
    drop(lines);
    drop(indexes);
}

/// Returns the name whose line is bad; none if out of memory.
fn name_in(fault: LineFault) -> Option<Name> {
    match fault {
        LineFault::BadLine { name } => Some(name),
        LineFault::Memory => None,
    }
}

/// Stops unless a fault names this.
fn expect_bad(rt: &impl Abort, alloc: Global, fault: Option<LineFault>, want: &str) {
    let fault = fault.expect(rt, "a fault");
    shown(rt, alloc, name_in(fault), want);
}

fn a_line_of_another_module_is_bad(rt: &impl Abort, alloc: Global) {
    let index = index_of(rt, alloc, b"a", b"kernel/b.ko:");
    let refused = DependencyLines::read(alloc, &index).err();
    expect_bad(rt, alloc, refused, r#"Some("a")"#);
    drop(index);
}

fn a_line_with_an_unknown_module_is_bad(rt: &impl Abort, alloc: Global) {
    let index = index_of(rt, alloc, b"b", b"kernel/b.ko: kernel/a.ko");
    let lines = lines_of(rt, alloc, &index);
    let refused = Modules::new(alloc, &lines).err();
    expect_bad(rt, alloc, refused, r#"Some("b")"#);
    drop(lines);
    drop(index);
}

fn faults_come_from_others(rt: &impl Abort) {
    holds(rt, name_in(refused()).is_none());
    holds(rt, name_in(unstored()).is_none());
}

#[test]
fn lines_are_called(rt: HostRuntime) {
    lines_have_modules(&rt, rt.alloc());
    a_line_of_another_module_is_bad(&rt, rt.alloc());
    a_line_with_an_unknown_module_is_bad(&rt, rt.alloc());
    faults_come_from_others(&rt);
}
