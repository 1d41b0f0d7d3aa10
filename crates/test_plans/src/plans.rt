// What no clause says: worked plans, by the maps of a folder.
ghost use Rattle.std.specs.Prelude.{◌≤◌, length, All, IfOk};
ghost use Rattle.km_names.specs.Limit.{file_limit};

use index_read::Index;
use index_write::{KeyMap, encode};
use km_names::{Blob, ConfFiles, Name, Names, PathText};
use loaded_list::Loaded;
use modprobe_conf::{Rules, parse};
use name_lookup::Indexes;
use plan_builder::{Obstacle, PlanStep, PlanSteps, Request, plan, well_formed};
use std::alloc::{AllocError, Global};
use std::process::Abort;
use test_objects::{RowFault, conf_file, is_key, is_text};
use unmet_file::Unmet;

/// Keys with their values. The priority of each value is its place.
type Pairs = &'static [(&'static str, &'static str)];

/// A folder, what is requested of it, and the plan or the obstacle.
#[derive(Clone, Copy)]
struct PlanRow {
    dep: Pairs,
    builtin: Pairs,
    rules: &'static str,
    unmet: &'static str,
    loaded: &'static str,
    names: &'static [&'static str],
    options: &'static str,
    ignore_install: bool,
    want: &'static str,
}

/// A folder of no module.
const EMPTY: PlanRow = PlanRow {
    dep: &[],
    builtin: &[],
    rules: "",
    unmet: "",
    loaded: "",
    names: &[],
    options: "",
    ignore_install: false,
    want: "",
};

/// `b` needs `a`.
const PAIR: PlanRow = PlanRow {
    dep: &[("a", "kernel/a.ko:"), ("b", "kernel/b.ko: kernel/a.ko")],
    ..EMPTY
};

/// The same with a command for loading `a`.
const COMMAND: PlanRow = PlanRow {
    rules: "install a /bin/true",
    ..PAIR
};

/// `a` and `b` export what `c` needs.
const DOUBLE: PlanRow = PlanRow {
    dep: &[
        ("a", "kernel/a.ko:"),
        ("b", "kernel/b.ko:"),
        ("c", "kernel/c.ko: kernel/a.ko"),
    ],
    unmet: "double x kernel/a.ko kernel/b.ko\n",
    ..EMPTY
};

/// Adds a value to a map.
fn add(rt: &impl Abort, map: &mut KeyMap, key: &str, place: u32, text: &str) {
    assert!(rt; is_key(key.as_bytes()));
    assert!(rt; is_text(text.as_bytes()));
    map.add(key.as_bytes(), place, text.as_bytes())
        .expect(rt, "added");
}

/// Returns the index file of some pairs.
fn index_of(rt: &impl Abort, alloc: Global, pairs: Pairs) -> Index {
    let mut map = KeyMap::new(alloc);
    let mut place: u32 = 0;
    for (key, text) in pairs {
        add(rt, &mut map, key, place, text);
        place = place.wrapping_add(1);
    }
    let file = encode(alloc, &map).expect(rt, "a file");
    Index::adopt(alloc, file).expect(rt, "an index")
}

/// Returns the index files of a row.
fn indexes_of(rt: &impl Abort, alloc: Global, row: &PlanRow) -> Indexes {
    Indexes {
        dep: index_of(rt, alloc, row.dep),
        alias: index_of(rt, alloc, &[]),
        symbols: index_of(rt, alloc, &[]),
        builtin: index_of(rt, alloc, row.builtin),
    }
}

/// Returns a file of the configuration.
fn one_file(alloc: Global, text: &str) -> Result<ConfFiles, RowFault>
    ensures { IfOk result (λ files. All (λ file. length file.bytes ≤ file_limit) files) }
{
    let mut files = ConfFiles::new(alloc);
    files.push(conf_file(alloc, b"f", text.as_bytes())?)?;
    Ok(files)
}

/// Returns the rules of a text.
fn rules_of(rt: &impl Abort, alloc: Global, text: &str) -> Rules {
    let files = one_file(alloc, text).expect(rt, "a file");
    parse(alloc, &files).expect(rt, "rules")
}

/// Returns the lines of a modules.unmet.
fn unmet_of(rt: &impl Abort, alloc: Global, text: &str) -> Unmet {
    let path = PathText::from_slice(alloc, b"modules.unmet").expect(rt, "a path");
    assert!(rt;
        text.as_bytes().len() <= 67_108_864,
        "a file of more bytes than are taken"
    );
    Unmet::read(alloc, &path, text.as_bytes()).expect(rt, "lines")
}

/// Returns the names of loaded modules.
fn loaded_of(rt: &impl Abort, alloc: Global, text: &str) -> Loaded {
    Loaded::read(alloc, text.as_bytes()).expect(rt, "loaded modules")
}

/// Returns the names that are requested.
fn names_of(rt: &impl Abort, alloc: Global, texts: &[&str]) -> Names {
    let mut names = Names::new(alloc);
    for text in texts {
        let name = Name::from_slice(alloc, text.as_bytes()).expect(rt, "a name");
        names.push(name).expect(rt, "names");
    }
    names
}

/// Returns what a row requests.
fn request_of(rt: &impl Abort, alloc: Global, row: &PlanRow) -> Request {
    Request {
        names: names_of(rt, alloc, row.names),
        options: Blob::from_slice(alloc, row.options.as_bytes()).expect(rt, "options"),
        use_blacklist: false,
        ignore_install: row.ignore_install,
    }
}

/// Puts parameters after a space, if there are any.
fn push_options(text: &mut Blob, options: &Blob) -> Result<(), AllocError> {
    if !options.is_empty() {
        text.push(b' ')?;
        text.extend(options.as_bytes())?;
    }
    Ok(())
}

/// Puts a step as a line.
fn push_step(text: &mut Blob, step: &PlanStep) -> Result<(), AllocError> {
    match step {
        PlanStep::Insert { path, options, .. } => {
            text.extend(b"insmod ")?;
            text.extend(path.as_bytes())?;
            push_options(text, options)?;
        }
        PlanStep::Install { command, .. } => {
            text.extend(b"install ")?;
            text.extend(command.as_bytes())?;
        }
        PlanStep::Builtin { name } => {
            text.extend(b"builtin ")?;
            text.extend(name.as_bytes())?;
        }
    }
    text.push(b'\n')?;
    Ok(())
}

/// Returns steps as lines.
fn lines_of(alloc: Global, steps: &PlanSteps) -> Result<Blob, AllocError> {
    let mut text = Blob::new(alloc);
    for step in steps.as_slice() {
        push_step(&mut text, step)?;
    }
    Ok(text)
}

/// Makes the plan of a row.
fn planned(rt: &impl Abort, alloc: Global, row: &PlanRow) -> Result<PlanSteps, Obstacle> {
    let request = request_of(rt, alloc, row);
    let rules = rules_of(rt, alloc, row.rules);
    let indexes = indexes_of(rt, alloc, row);
    let unmet = unmet_of(rt, alloc, row.unmet);
    let loaded = loaded_of(rt, alloc, row.loaded);
    plan(alloc, &request, &rules, &indexes, &unmet, &loaded)
}

/// Returns the steps of a plan, or the text of the obstacle.
fn answer_of(rt: &impl Abort, alloc: Global, planned: &Result<PlanSteps, Obstacle>) -> Blob {
    match planned {
        Ok(steps) => lines_of(alloc, steps).expect(rt, "lines"),
        Err(obstacle) => obstacle.text(alloc).expect(rt, "a text"),
    }
}

/// Checks that the rows answer as they are to.
fn expect_rows(rt: &impl Abort, alloc: Global, rows: &[PlanRow]) {
    for row in rows {
        let answer = answer_of(rt, alloc, &planned(rt, alloc, row));
        assert_eq!(rt; answer.as_bytes(), row.want.as_bytes());
    }
}

/// Plans of modules, in order.
static STEPS: [PlanRow; 4] = [
    PlanRow {
        dep: &[
            ("avail", "kernel/avail.ko:"),
            ("late", "kernel/late.ko:"),
            ("m", "kernel/m.ko: kernel/late.ko"),
            ("zed", "kernel/zed.ko:"),
        ],
        rules: "softdep m pre: gone avail post: late zed",
        names: &["m"],
        want: "insmod kernel/avail.ko\n\
               insmod kernel/late.ko\n\
               insmod kernel/m.ko\n\
               insmod kernel/zed.ko\n",
        ..EMPTY
    },
    PlanRow {
        loaded: "a 8192 0 - Live 0x0",
        names: &["b"],
        want: "insmod kernel/b.ko\n",
        ..PAIR
    },
    PlanRow {
        builtin: &[("built", "")],
        names: &["built"],
        want: "builtin built\n",
        ..EMPTY
    },
    PlanRow {
        rules: "options b depth=3",
        names: &["b"],
        options: "raw=1",
        want: "insmod kernel/a.ko\ninsmod kernel/b.ko depth=3 raw=1\n",
        ..PAIR
    },
];

/// Plans with a command in place of a module.
static COMMANDS: [PlanRow; 3] = [
    PlanRow {
        names: &["b"],
        want: "install /bin/true\ninsmod kernel/b.ko\n",
        ..COMMAND
    },
    PlanRow {
        names: &["b"],
        ignore_install: true,
        want: "install /bin/true\ninsmod kernel/b.ko\n",
        ..COMMAND
    },
    PlanRow {
        names: &["a"],
        ignore_install: true,
        want: "insmod kernel/a.ko\n",
        ..COMMAND
    },
];

/// What prevents plans, and plans beside it.
static OBSTACLES: [PlanRow; 5] = [
    PlanRow {
        names: &["c"],
        want: "insmod kernel/a.ko\ninsmod kernel/c.ko\n",
        ..DOUBLE
    },
    PlanRow {
        names: &["b"],
        want: "insmod kernel/b.ko\n",
        ..DOUBLE
    },
    PlanRow {
        names: &["b", "c"],
        want: "double x kernel/a.ko kernel/b.ko",
        ..DOUBLE
    },
    PlanRow {
        dep: &[("a", "kernel/a.ko:"), ("b", "kernel/b.ko:")],
        rules: "softdep a pre: b\nsoftdep b pre: a",
        names: &["a"],
        want: "cycle a -> b -> a",
        ..EMPTY
    },
    PlanRow {
        dep: &[("n", "kernel/n.ko:")],
        unmet: "missing kernel/n.ko nosuch\n",
        names: &["n"],
        want: "missing kernel/n.ko nosuch",
        ..EMPTY
    },
];

/// Returns whether the value of a name is a dependency line, in the folder of two modules.
fn is_well_formed(rt: &impl Abort, alloc: Global, name: &str) -> bool {
    let indexes = indexes_of(rt, alloc, &PAIR);
    let name = Name::from_slice(alloc, name.as_bytes()).expect(rt, "a name");
    well_formed(alloc, &name, &indexes).expect(rt, "an answer")
}

#[test]
fn plans_and_obstacles(rt: HostRuntime) {
    let alloc = rt.alloc();
    expect_rows(&rt, alloc, &STEPS);
    expect_rows(&rt, alloc, &COMMANDS);
    expect_rows(&rt, alloc, &OBSTACLES);
    assert!(rt; is_well_formed(&rt, alloc, "b"));
    assert!(rt; !is_well_formed(&rt, alloc, "c"));
}
