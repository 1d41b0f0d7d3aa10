//! Rules of the configuration, what names stand for, and plans.

use crate::configuration::rules_of;
use crate::indexes::two_indexes;
use crate::lists::{names, path};
use crate::same::{holds, same_option, shown};
use crate::unmet::unmet_of;
use km_names::{Blob, Name};
use modprobe_conf::{Rule, Rules};
use name_lookup::{Found, Indexes, resolve};
use plan_builder::{
    Loaded, Obstacle, PlanStep, PlanSteps, Request, Unmet, line_path, plan, well_formed,
};
use provider_rel::Unbound;
use std::alloc::Global;
use std::process::Abort;

/// Stops unless a rule is the soft dependencies of `m_b`.
fn expect_softdep(rt: &impl Abort, alloc: Global, rule: Option<&Rule>) {
    let Some(Rule::Softdep { name, pre, post }) = rule else {
        panic!(rt; "another rule");
    };
    let want = r#"("m_b", List { elements: ["gone", "a_b"] }, List { elements: ["late"] })"#;
    shown(rt, alloc, (name, pre, post), want);
}

/// Stops unless a rule is the options of `a`.
fn expect_options(rt: &impl Abort, alloc: Global, rule: Option<&Rule>) {
    let Some(Rule::Options { name, text }) = rule else {
        panic!(rt; "another rule");
    };
    shown(rt, alloc, (name, text), r#"("a", "depth=3  raw")"#);
}

/// A configuration of two rules.
static TWO_RULES: &[u8] = b"softdep m-b x pre: gone a-b post: late\noptions a depth=3  raw\n";

fn rules_are_read(rt: &impl Abort, alloc: Global) {
    let rules = rules_of(rt, alloc, TWO_RULES).expect(rt, "rules");
    holds(rt, rules.len() == 2);
    expect_softdep(rt, alloc, rules.get(0));
    expect_options(rt, alloc, rules.get(1));
}

fn a_bad_line_is_reported(rt: &impl Abort, alloc: Global) {
    let refused = rules_of(rt, alloc, b"options x").err();
    let want = r#"Some(BadLine { file: "/e/a.conf", line: 1 })"#;
    shown(rt, alloc, refused, want);
}

/// Looks up a name.
fn found(
    rt: &impl Abort,
    alloc: Global,
    name: &[u8],
    use_blacklist: bool,
    rules: &Rules,
    indexes: &Indexes,
) -> Found {
    let name = Name::from_slice(alloc, name).expect(rt, "a name");
    resolve(alloc, &name, use_blacklist, rules, indexes).expect(rt, "names")
}

/// An alias, an install rule and a blacklisted name.
static THREE_RULES: &[u8] = b"alias net-* b\ninstall x /bin/true\nblacklist a\n";

/// Names, whether the blacklist applies to them, and the list and the names that are found.
static LOOKUPS: [(&[u8], bool, &str); 8] = [
    (b"net-1", false, r#"(1, List { elements: ["b"] })"#),
    (b"b", false, r#"(2, List { elements: ["b"] })"#),
    (b"symbol:fa", false, r#"(3, List { elements: ["a"] })"#),
    (b"symbol:fa", true, "(3, List { elements: [] })"),
    (b"x", false, r#"(4, List { elements: ["x"] })"#),
    (b"usb:v1", false, "(5, List { elements: [] })"),
    (b"built", false, r#"(6, List { elements: ["built"] })"#),
    (b"nosuch", false, "(0, List { elements: [] })"),
];

/// Looks up these names.
fn look_up_names(rt: &impl Abort, alloc: Global, indexes: &Indexes) {
    let rules = rules_of(rt, alloc, THREE_RULES).expect(rt, "rules");
    for (name, use_blacklist, want) in &LOOKUPS {
        let found = found(rt, alloc, name, *use_blacklist, &rules, indexes);
        shown(rt, alloc, (found.list, found.names), want);
    }
}

/// Names, and whether their values are dependency lines.
static LINES: [(&[u8], &str); 2] = [(b"b", "Ok(true)"), (b"nosuch", "Ok(false)")];

fn dependency_lines_have_paths(rt: &impl Abort) {
    let line = b"kernel/b.ko: kernel/a.ko".as_slice();
    same_option(rt, line_path(line), Some(b"kernel/b.ko"));
    same_option(rt, line_path(b"kernel/b.ko"), None);
}

/// Asks for the dependency lines of these names.
fn ask_for_lines(rt: &impl Abort, alloc: Global, indexes: &Indexes) {
    for (name, want) in &LINES {
        let name = Name::from_slice(alloc, name).expect(rt, "a name");
        shown(rt, alloc, well_formed(alloc, &name, indexes), want);
    }
}

/// A list of two loaded modules.
static LOADED: &[u8] = b"b 4096 0 - Live 0x0\n \t\na 8192 1 b, Live 0x0";

fn loaded_modules_are_read(rt: &impl Abort, alloc: Global) {
    let loaded = Loaded::read(alloc, LOADED).expect(rt, "names");
    let names = (loaded.len(), loaded.get(0), loaded.get(1));
    shown(rt, alloc, names, r#"(2, Some("b"), Some("a"))"#);
}

fn a_list_of_ones_own_is_made(rt: &impl Abort, alloc: Global) {
    let mut loaded = Loaded::new(alloc);
    let name = Name::from_slice(alloc, b"a").expect(rt, "a name");
    loaded.push(name).expect(rt, "names");
    let names = (loaded.len(), loaded.get(0), loaded.get(1));
    shown(rt, alloc, names, r#"(1, Some("a"), None)"#);
}

/// Returns the line of a missing symbol.
fn missing(rt: &impl Abort, alloc: Global) -> Unbound {
    Unbound::Missing {
        path: path(rt, alloc, b"m.ko"),
        symbol: Name::from_slice(alloc, b"x").expect(rt, "a name"),
    }
}

fn lines_of_ones_own_are_made(rt: &impl Abort, alloc: Global) {
    let mut unmet = Unmet::new(alloc);
    unmet.push(missing(rt, alloc)).expect(rt, "one more");
    let lines = (unmet.len(), unmet.get(0), unmet.get(1));
    let want = r#"(1, Some(Missing { path: "m.ko", symbol: "x" }), None)"#;
    shown(rt, alloc, lines, want);
}

/// A modules.unmet with a line of each kind.
static FIVE_LINES: &[u8] = b"missing m.ko x\n\
    gpl m.ko x p.ko\n\
    version m.ko x vmlinux\n\
    namespace m.ko x p.ko\n\
    double x m.ko p.ko\n";

/// Its number of lines, and the line of a namespace.
static NAMESPACE: &str = r#"(5, Some(Namespace { path: "m.ko", symbol: "x", provider: "p.ko" }))"#;

fn obstacle_lines_are_read(rt: &impl Abort, alloc: Global) {
    let unmet = unmet_of(rt, alloc, FIVE_LINES).expect(rt, "lines");
    shown(rt, alloc, (unmet.len(), unmet.get(3)), NAMESPACE);
    let bad = unmet_of(rt, alloc, b"missing m.ko x\n\n");
    let want = r#"Err(BadLine { file: "modules.unmet", line: 2 })"#;
    shown(rt, alloc, bad, want);
}

/// A name, the rules, the lines of modules.unmet, the loaded modules, and the plan or the obstacle.
#[derive(Clone, Copy)]
struct PlanRow {
    name: &'static [u8],
    rules: &'static [u8],
    unmet: &'static [u8],
    loaded: &'static [u8],
    want: &'static str,
}

/// A request for `b`.
const B: PlanRow = PlanRow {
    name: b"b",
    rules: b"",
    unmet: b"",
    loaded: b"",
    want: "",
};

/// Returns the request for a name, with one word of options.
fn request(rt: &impl Abort, alloc: Global, name: &[u8]) -> Request {
    Request {
        names: names(rt, alloc, &[name]),
        options: Blob::from_slice(alloc, b"raw=1").expect(rt, "bytes"),
        use_blacklist: false,
        ignore_install: false,
    }
}

/// Makes the plan of a row.
fn planned(
    rt: &impl Abort,
    alloc: Global,
    indexes: &Indexes,
    row: &PlanRow,
) -> Result<PlanSteps, Obstacle> {
    let rules = rules_of(rt, alloc, row.rules).expect(rt, "rules");
    let unmet = unmet_of(rt, alloc, row.unmet).expect(rt, "lines");
    let loaded = Loaded::read(alloc, row.loaded).expect(rt, "names");
    let request = request(rt, alloc, row.name);
    plan(alloc, &request, &rules, indexes, &unmet, &loaded)
}

/// Requests with their plans.
static PLANS: [PlanRow; 4] = [
    PlanRow {
        rules: b"options a raw=0\n",
        want: "Ok(List { elements: [Insert { name: \"a\", path: \"kernel/a.ko\", \
            options: \"raw=0\" }, Insert { name: \"b\", path: \"kernel/b.ko\", \
            options: \"raw=1\" }] })",
        ..B
    },
    PlanRow {
        loaded: b"a 8192 0 - Live 0x0\n",
        rules: b"options b depth=3\n",
        want: "Ok(List { elements: [Insert { name: \"b\", path: \"kernel/b.ko\", \
            options: \"depth=3 raw=1\" }] })",
        ..B
    },
    PlanRow {
        rules: b"install a /bin/true\n",
        want: "Ok(List { elements: [Install { name: \"a\", command: \"/bin/true\" }, \
            Insert { name: \"b\", path: \"kernel/b.ko\", options: \"raw=1\" }] })",
        ..B
    },
    PlanRow {
        name: b"built",
        want: r#"Ok(List { elements: [Builtin { name: "built" }] })"#,
        ..B
    },
];

/// Makes these plans.
fn make_plans(rt: &impl Abort, alloc: Global, indexes: &Indexes) {
    for row in &PLANS {
        shown(rt, alloc, planned(rt, alloc, indexes, row), row.want);
    }
}

/// Requests with what keeps them from having a plan.
static OBSTACLES: [PlanRow; 3] = [
    PlanRow {
        name: b"nosuch",
        want: r#"(Ok("not found nosuch"), NotFound { name: "nosuch" })"#,
        ..B
    },
    PlanRow {
        unmet: b"missing kernel/a.ko x\n",
        want: r#"(Ok("missing kernel/a.ko x"), Missing { path: "kernel/a.ko", symbol: "x" })"#,
        ..B
    },
    PlanRow {
        rules: b"softdep a pre: b\n",
        want: r#"(Ok("cycle a -> b -> a"), Cycle { names: List { elements: ["a", "b"] } })"#,
        ..B
    },
];

/// Asks for plans that there aren't.
fn meet_obstacles(rt: &impl Abort, alloc: Global, indexes: &Indexes) {
    for row in &OBSTACLES {
        let refused = planned(rt, alloc, indexes, row).err();
        let obstacle = refused.expect(rt, "an obstacle");
        shown(rt, alloc, (obstacle.text(alloc), obstacle), row.want);
    }
}

fn names_are_looked_up_and_planned(rt: &impl Abort, alloc: Global) {
    let indexes = two_indexes(rt, alloc);
    look_up_names(rt, alloc, &indexes);
    ask_for_lines(rt, alloc, &indexes);
    make_plans(rt, alloc, &indexes);
    meet_obstacles(rt, alloc, &indexes);
    drop(indexes);
}

#[test]
fn plans_are_called(rt: HostRuntime) {
    rules_are_read(&rt, rt.alloc());
    a_bad_line_is_reported(&rt, rt.alloc());
    dependency_lines_have_paths(&rt);
    loaded_modules_are_read(&rt, rt.alloc());
    a_list_of_ones_own_is_made(&rt, rt.alloc());
    lines_of_ones_own_are_made(&rt, rt.alloc());
    obstacle_lines_are_read(&rt, rt.alloc());
    names_are_looked_up_and_planned(&rt, rt.alloc());
}
