//! The relation of a tree, and depmod's files.
ghost use Rattle.std.specs.Prelude.{◌≡◌, ◌==◌, [], ◌∷◌, not, length, All, AllPairs};
ghost use Rattle.std.specs.Prelude.{IfOk, IsTrue};
ghost use Rattle.std.specs.List.{list_any};
ghost use Rattle.km_names.specs.Ascii.{is_graphic};
ghost use Rattle.provider_rel.specs.Seen.{closures_by};
ghost use Rattle.provider_rel.specs.Tree.{IsTree, IsTreeModule};
ghost use Rattle.depmod_core.specs.Files.{IsRelationOf};

use crate::kernels::usual_kernel;
use crate::lists::texts;
use crate::same::{holds, shown};
use depmod_core::{OutputFault, OutputFiles, outputs};
use km_names::{List, Name, Names, PathText, TreeIndex, is_graphic};
use module_facts::{Export, Exports, Facts, Need, Needs};
use provider_rel::{Relation, RelationFault, TreeFacts, agree};
use std::alloc::Global;
use std::process::Abort;

fn versions_agree(rt: &impl Abort) {
    holds(rt, agree(Some(0x1234_5678), None));
    holds(rt, !agree(Some(0x1_1234_5678), Some(0x1234_5678)));
}

/// What a module of a test states: its path, its name, its export, its need, its aliases, and the
/// texts of its soft dependencies.
#[derive(Clone, Copy)]
pub(crate) struct ModuleRow {
    pub(crate) path: &'static [u8],
    pub(crate) name: &'static [u8],
    pub(crate) export: &'static [u8],
    pub(crate) need: &'static [u8],
    pub(crate) aliases: &'static [&'static [u8]],
    pub(crate) softdeps: &'static [&'static [u8]],
}

/// Returns a word of visible characters.
fn word(rt: &impl Abort, alloc: Global, text: &[u8]) -> Name
    ensures same { result ≡ text.now }
    ensures graphic { IsTrue (is_graphic result) }
{
    holds(rt, is_graphic(text));
    Name::from_slice(alloc, text).expect(rt, "a name")
}

/// Whether a text has a `:`.
fn has_colon(text: &[u8]) -> bool
    ensures { result ≡ list_any (λ b. b == 58) text.now }
{
    text.iter().any(|byte| *byte == b':')
}

/// Returns a path of visible characters without a `:`.
fn path(rt: &impl Abort, alloc: Global, text: &[u8]) -> PathText
    ensures graphic { IsTrue (is_graphic result) }
    ensures colon { IsTrue (not (list_any (λ b. b == 58) result)) }
{
    holds(rt, is_graphic(text));
    holds(rt, !has_colon(text));
    PathText::from_slice(alloc, text).expect(rt, "a path")
}

/// Returns the list of one item.
fn only<T: Drop>(rt: &impl Abort, alloc: Global, item: T) -> List<T>
    ensures { result ≡ item ∷ [] }
{
    let mut list = List::new(alloc);
    list.push(item).expect(rt, "a list");
    list
}

/// Returns the list of two items.
fn pair<T: Drop>(rt: &impl Abort, alloc: Global, first: T, second: T) -> List<T>
    ensures { result ≡ first ∷ second ∷ [] }
{
    let mut list = only(rt, alloc, first);
    list.push(second).expect(rt, "a list");
    list
}

/// Returns the one symbol that a module exports.
fn one_export(rt: &impl Abort, alloc: Global, name: &[u8]) -> Exports
    ensures distinct { AllPairs (λ a b. a.name ≡ b.name → ⊥) result }
    ensures graphic { All (λ export. IsTrue (is_graphic export.name)) result }
{
    let export = Export {
        name: word(rt, alloc, name),
        symbol: 1,
        crc: None,
        gpl: false,
        space: Name::new(alloc),
    };
    only(rt, alloc, export)
}

/// Returns the one symbol that a module needs.
fn one_need(rt: &impl Abort, alloc: Global, name: &[u8]) -> Needs
    ensures { All (λ need. IsTrue (is_graphic need.name)) result }
{
    let need = Need {
        name: word(rt, alloc, name),
        symbol: 2,
        weak: false,
        crc: None,
    };
    only(rt, alloc, need)
}

/// Returns the facts of a module.
fn facts(rt: &impl Abort, alloc: Global, row: ModuleRow) -> Facts
    ensures good { IsTreeModule result }
    ensures named { result.name ≡ row.name.now }
{
    Facts {
        path: path(rt, alloc, row.path),
        name: word(rt, alloc, row.name),
        exports: one_export(rt, alloc, row.export),
        needs: one_need(rt, alloc, row.need),
        aliases: texts(rt, alloc, row.aliases),
        softdeps: texts(rt, alloc, row.softdeps),
        free: true,
        imports: Names::new(alloc),
    }
}

/// Stops unless two names differ.
fn expect_apart(rt: &impl Abort, first: &[u8], second: &[u8])
    ensures { first.now ≡ second.now → ⊥ }
{
    let same = first == second;
    holds(rt, !same);
}

/// Makes a tree of two modules.
pub(crate) fn tree_of_two(
    rt: &impl Abort,
    alloc: Global,
    first: ModuleRow,
    second: ModuleRow,
) -> TreeFacts
    ensures tree { IsTree result }
    ensures long { length result ≡ 2 }
{
    expect_apart(rt, first.name, second.name);
    let first = facts(rt, alloc, first);
    let second = facts(rt, alloc, second);
    pair(rt, alloc, first, second)
}

/// `a`, which exports `fa` and needs a symbol.
fn a_that_needs(need: &'static [u8]) -> ModuleRow {
    ModuleRow {
        path: b"kernel/a.ko",
        name: b"a",
        export: b"fa",
        need,
        aliases: &[],
        softdeps: &[],
    }
}

/// `b`, which exports `fb` and needs `fa`.
pub(crate) const B: ModuleRow = ModuleRow {
    path: b"kernel/b.ko",
    name: b"b",
    export: b"fb",
    need: b"fa",
    aliases: &[],
    softdeps: &[],
};

/// Makes the relation of a tree of two modules.
fn related(rt: &impl Abort, alloc: Global, tree: &TreeFacts) -> Result<Relation, RelationFault>
    requires tree { IsTree tree.now }
    requires long { length tree.now ≡ 2 }
    ensures long { IfOk result (λ relation. length (closures_by relation) ≡ 2) }
    ensures relation { IfOk result (IsRelationOf tree.now) }
{
    let kernel = usual_kernel(rt, alloc);
    Relation::make(alloc, tree, &kernel)
}

/// Who provides `fa`, `printk` and `nosuch`.
static PROVIDERS: &str = "(Module(TreeIndex(0)), Kernel, Nobody)";

/// Stops unless `a` provides `fa`, the kernel `printk`, and nobody `nosuch`.
fn expect_providers(rt: &impl Abort, alloc: Global, relation: &Relation) {
    let fa = relation.provider(b"fa");
    let printk = relation.provider(b"printk");
    let nosuch = relation.provider(b"nosuch");
    shown(rt, alloc, (fa, printk, nosuch), PROVIDERS);
}

/// On what `a` and `b` depend.
static CLOSURES: &str = "(List { elements: [] }, List { elements: [TreeIndex(0)] })";

/// Stops unless only `b` depends on a module, `a`.
fn expect_closures(rt: &impl Abort, alloc: Global, relation: &Relation)
    requires { length (closures_by relation.now) ≡ 2 }
{
    let a = relation.closure(TreeIndex(0));
    let b = relation.closure(TreeIndex(1));
    shown(rt, alloc, (a, b), CLOSURES);
}

/// The one obstacle: `a` needs `nosuch`.
static NOSUCH: &str = r#"List { elements: [Missing { path: "kernel/a.ko", symbol: "nosuch" }] }"#;

fn a_tree_is_related(rt: &impl Abort, alloc: Global) {
    let tree = tree_of_two(rt, alloc, a_that_needs(b"nosuch"), B);
    let Ok(relation) = related(rt, alloc, &tree) else {
        panic!(rt; "refused");
    };
    expect_providers(rt, alloc, &relation);
    expect_closures(rt, alloc, &relation);
    shown(rt, alloc, relation.obstacles(), NOSUCH);
    drop(relation);
}

fn a_cycle_is_named(rt: &impl Abort, alloc: Global) {
    let tree = tree_of_two(rt, alloc, a_that_needs(b"fb"), B);
    let refused = related(rt, alloc, &tree).err();
    let want = r#"Some(Cycle { names: List { elements: ["a", "b"] } })"#;
    shown(rt, alloc, refused, want);
}

/// The index of two modules, the second of which needs the first: dependency lines by names.
static TWO_MODULES: &[u8] = b"\xb0\x07\xf4\x57\0\x02\0\x01\x20\0\0\x42\
    \0\0\0\x01\0\0\0\0kernel/a.ko:\0\
    \0\0\0\x01\0\0\0\x01kernel/b.ko: kernel/a.ko\0\
    ab\x40\0\0\x0c\x40\0\0\x21";

/// The index of only `built`, with an empty text.
static BUILT: &[u8] = b"\xb0\x07\xf4\x57\0\x02\0\x01\x20\0\0\x1a\
    uilt\0\0\0\0\x01\0\0\0\0\0\
    bb\xc0\0\0\x0c";

/// Makes the files of a tree, with one built-in module.
fn files_of(
    alloc: Global,
    relation: &Relation,
    tree: &TreeFacts,
) -> Result<OutputFiles, OutputFault>
    requires tree { IsTree tree.now }
    requires relation { IsRelationOf tree.now relation.now }
{
    outputs(alloc, relation, tree, b"kernel/lib/built.ko\n")
}

fn a_tree_has_files(rt: &impl Abort, alloc: Global) {
    let tree = tree_of_two(rt, alloc, a_that_needs(b"printk"), B);
    let Ok(relation) = related(rt, alloc, &tree) else {
        panic!(rt; "refused");
    };
    let files = files_of(alloc, &relation, &tree).expect(rt, "files");
    expect_files(rt, alloc, &files);
    drop(files);
    drop(relation);
}

/// Stops unless these are the files of the tree.
fn expect_files(rt: &impl Abort, alloc: Global, files: &OutputFiles) {
    holds(rt, files.dep_bin.as_bytes() == TWO_MODULES);
    holds(rt, files.builtin_bin.as_bytes() == BUILT);
    shown(rt, alloc, (&files.dep, &files.unmet, &files.symbols), TEXTS);
}

/// The texts of three of the files: modules.dep, modules.unmet and modules.symbols.
static TEXTS: &str =
    "(\"kernel/a.ko:\\nkernel/b.ko: kernel/a.ko\\n\", \"\", \"# Aliases for symbols, \
        used by symbol_request().\\nalias symbol:fa a\\nalias symbol:fb b\\n\")";

#[test]
fn relations_are_called(rt: HostRuntime) {
    versions_agree(&rt);
    a_tree_is_related(&rt, rt.alloc());
    a_cycle_is_named(&rt, rt.alloc());
    a_tree_has_files(&rt, rt.alloc());
}
