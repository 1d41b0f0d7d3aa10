//! What plans are made from, and the modules that soft dependencies name.
ghost use Rattle.std.specs.Prelude.{◌≡◌};
ghost use Rattle.index_read.specs.Contents.{contents};
ghost use Rattle.dependency_lines.specs.Modules.{first_values, modules_of};

use crate::configuration::rules_of;
use crate::indexes::two_indexes;
use crate::same::{holds, shown};
use crate::unmet::unmet_of;
use dependency_lines::{DependencyLines, Modules};
use index_read::Index;
use km_names::Name;
use loaded_list::Loaded;
use modprobe_conf::{Rule, Rules};
use name_lookup::Indexes;
use plan_sources::{Planner, RuleTable, SoftTable};
use std::alloc::{AllocError, Global};
use std::process::Abort;
use unmet_file::Unmet;

/// What a plan is made from.
#[derive(Drop)]
pub(crate) struct Basis {
    pub(crate) rules: Rules,
    pub(crate) indexes: Indexes,
    pub(crate) unmet: Unmet,
    pub(crate) loaded: Loaded,
}

/// Returns what plans are made from: these rules, the indexes of the two modules, and what is read
/// of a modules.unmet and of a list of loaded modules.
pub(crate) fn make_basis(
    rt: &impl Abort,
    alloc: Global,
    rules: Rules,
    unmet: &[u8],
    loaded: &[u8],
) -> Basis {
    Basis {
        rules,
        indexes: two_indexes(rt, alloc),
        unmet: unmet_of(rt, alloc, unmet).expect(rt, "lines"),
        loaded: Loaded::read(alloc, loaded).expect(rt, "names"),
    }
}

/// Reads the lines of an index.
pub(crate) fn lines_of<'a>(rt: &impl Abort, alloc: Global, index: &'a Index) -> DependencyLines<'a>
    ensures { result ≡ first_values (contents index.now.nodes) }
{
    let lines = DependencyLines::read(alloc, index).ok();
    lines.expect(rt, "lines")
}

/// Returns the modules of the lines of an index.
pub(crate) fn modules_by<'a>(
    rt: &impl Abort,
    alloc: Global,
    index: &Index,
    lines: &'a DependencyLines<'_>,
) -> Modules<'a>
    requires { lines.now ≡ first_values (contents index.now.nodes) }
    ensures { result ≡ modules_of (contents index.now.nodes) }
{
    let Ok(modules) = Modules::new(alloc, lines) else {
        panic!(rt; "refused");
    };
    modules
}

/// Makes a planner.
pub(crate) fn planner_over<'a>(
    rt: &impl Abort,
    alloc: Global,
    basis: &'a Basis,
    modules: &'a Modules<'_>,
) -> Planner<'a>
    requires { modules.now ≡ modules_of (contents basis.now.indexes.dep.nodes) }
{
    let planner = Planner::new(
        alloc,
        &basis.rules,
        &basis.indexes,
        basis.unmet.as_slice(),
        basis.loaded.as_slice(),
        false,
        modules,
    );
    planner.expect(rt, "a planner")
}

/// A configuration of two rules.
static TWO_RULES: &[u8] = b"softdep b pre: a\noptions a depth=3\n";

/// Stops unless a rule is the soft dependency of `b`.
fn expect_softdep(rt: &impl Abort, alloc: Global, rule: Option<&Rule>) {
    let Some(Rule::Softdep { name, pre, post }) = rule else {
        panic!(rt; "another rule");
    };
    let want = r#"("b", List { elements: ["a"] }, List { elements: [] })"#;
    shown(rt, alloc, (name, pre, post), want);
}

/// Stops unless a rule is the options of `a`.
fn expect_options(rt: &impl Abort, alloc: Global, rule: Option<&Rule>) {
    let Some(Rule::Options { name, text }) = rule else {
        panic!(rt; "another rule");
    };
    shown(rt, alloc, (name, text), r#"("a", "depth=3")"#);
}

/// Stops unless these are the rules that a planner has.
fn expect_rules(rt: &impl Abort, alloc: Global, rules: &RuleTable<'_>) {
    holds(rt, rules.all().len() == 2);
    expect_softdep(rt, alloc, rules.on(b"b").first().copied());
    expect_options(rt, alloc, rules.on(b"a").first().copied());
    holds(rt, rules.on(b"c").is_empty());
}

/// What a planner has: the loaded modules and the lines of modules.unmet, whether `built` and `a`
/// are built in, what `b` stands for, and the places of the modules that its line names.
static SOURCES: &str =
    "(([\"b\"], [Missing { path: \"kernel/a.ko\", symbol: \"x\" }]), (true, false), \
        (2, List { elements: [\"b\"] }), Ok([0]))";

/// Stops unless a planner has that.
fn expect_sources(rt: &impl Abort, alloc: Global, planner: &Planner<'_>) {
    holds(rt, planner.modules().len() == 2);
    let name = Name::from_slice(alloc, b"b").expect(rt, "a name");
    let found = planner.found(alloc, &name).expect(rt, "names");
    let sources = (
        (planner.loaded(), planner.unmet()),
        (planner.is_builtin(b"built"), planner.is_builtin(b"a")),
        (found.list, found.names),
        planner.line_places(alloc, 1),
    );
    shown(rt, alloc, sources, SOURCES);
}

/// A line on a need of `a`.
const MISSING: &[u8] = b"missing kernel/a.ko x\n";

fn sources_are_handed_out(rt: &impl Abort, alloc: Global) {
    let rules = rules_of(rt, alloc, TWO_RULES).expect(rt, "rules");
    let basis = make_basis(rt, alloc, rules, MISSING, b"b 4096 0 - Live 0x0\n");
    let lines = lines_of(rt, alloc, &basis.indexes.dep);
    let modules = modules_by(rt, alloc, &basis.indexes.dep, &lines);
    let planner = planner_over(rt, alloc, &basis, &modules);
    expect_rules(rt, alloc, planner.rules());
    expect_sources(rt, alloc, &planner);
    drop(planner);
    drop(modules);
    drop(lines);
    drop(basis);
}

/// Returns the first name that the first rule wants before its module.
fn first_before(rules: &Rules) -> Option<&Name> {
    match rules.get(0)? {
        Rule::Softdep { pre, .. } => pre.get(0),
        _ => None,
    }
}

/// Returns the modules that the name of a soft dependency stands for, without the one at a place.
fn places_of<'a>(
    alloc: Global,
    soft: &mut SoftTable<'_, 'a>,
    place: usize,
    name: &'a Name,
) -> Result<Vec<usize>, AllocError> {
    let names = [name];
    soft.places(alloc, place, &names)
}

/// A modules.unmet, the place of a module, and the modules that `a` stands for as its soft
/// dependency.
static PLACES: [(&[u8], usize, &str); 3] = [
    (b"", 1, "Ok([0])"),
    (b"", 0, "Ok([])"),
    (MISSING, 1, "Ok([])"),
];

/// Looks up that soft dependency twice: the second time its name is in the table.
fn look_up_twice<'a>(
    rt: &impl Abort,
    alloc: Global,
    basis: &'a Basis,
    planner: &Planner<'a>,
    place: usize,
    want: &str,
) {
    let name = first_before(&basis.rules).expect(rt, "a name");
    let mut soft = SoftTable::new(alloc, planner).expect(rt, "a table");
    holds(rt, soft.planner().modules().len() == 2);
    for _ in 0..2 {
        let places = places_of(alloc, &mut soft, place, name);
        shown(rt, alloc, places, want);
    }
    drop(soft);
}

/// Looks it up over this modules.unmet.
fn look_up_softdep(rt: &impl Abort, alloc: Global, unmet: &[u8], place: usize, want: &str) {
    let rules = rules_of(rt, alloc, TWO_RULES).expect(rt, "rules");
    let basis = make_basis(rt, alloc, rules, unmet, b"");
    let lines = lines_of(rt, alloc, &basis.indexes.dep);
    let modules = modules_by(rt, alloc, &basis.indexes.dep, &lines);
    let lent = &basis;
    let planner = planner_over(rt, alloc, lent, &modules);
    look_up_twice(rt, alloc, lent, &planner, place, want);
    drop(planner);
    drop(modules);
    drop(lines);
    drop(basis);
}

fn soft_dependencies_are_looked_up(rt: &impl Abort, alloc: Global) {
    for (unmet, place, want) in &PLACES {
        look_up_softdep(rt, alloc, unmet, *place, want);
    }
}

#[test]
fn sources_are_called(rt: HostRuntime) {
    sources_are_handed_out(&rt, rt.alloc());
    soft_dependencies_are_looked_up(&rt, rt.alloc());
}
