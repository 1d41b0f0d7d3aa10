// The files of trees with no module and with one, as bytes that were written by hand.
ghost use Rattle.std.specs.Prelude.{IfOk};
ghost use Rattle.provider_rel.specs.Tree.{IsTree, IsTreeModule};

use depmod_core::{OutputFile, OutputFiles, outputs};
use km_names::{Blob, Name, Names, PathText, Texts};
use module_facts::{Export, Exports, Facts, Need, Needs};
use provider_rel::{Kernel, Relation, TreeFacts};
use std::alloc::{AllocError, Global};
use std::process::Abort;

/// An index without keys.
const NO_KEYS: &[u8] = b"\xb0\x07\xf4\x57\x00\x02\x00\x01\x00\x00\x00\x0c";

/// Returns the files of a tree over a kernel that exports nothing.
fn files(rt: &impl Abort, alloc: Global, tree: &TreeFacts, builtin: &[u8]) -> OutputFiles
    requires { IsTree tree.now }
{
    let Ok(kernel) = Kernel::from_symvers(alloc, b"") else {
        panic!(rt; "no kernel");
    };
    let Ok(relation) = Relation::make(alloc, tree, &kernel) else {
        panic!(rt; "no relation");
    };
    outputs(alloc, &relation, tree, builtin).expect(rt, "files")
}

/// Returns the list of some texts.
fn texts(alloc: Global, all: &[&[u8]]) -> Result<Texts, AllocError> {
    let mut texts = Texts::new(alloc);
    for text in all {
        texts.push(Blob::from_slice(alloc, text)?)?;
    }
    Ok(texts)
}

/// Returns the facts of a module that exports one symbol and needs another.
fn facts(alloc: Global) -> Result<Facts, AllocError>
    ensures { IfOk result IsTreeModule }
{
    let mut exports = Exports::new(alloc);
    exports.push(Export {
        name: Name::from_slice(alloc, b"fa")?,
        symbol: 1,
        crc: None,
        gpl: false,
        space: Name::new(alloc),
    })?;
    let mut needs = Needs::new(alloc);
    needs.push(Need {
        name: Name::from_slice(alloc, b"nosuch")?,
        symbol: 2,
        weak: false,
        crc: None,
    })?;
    Ok(Facts {
        path: PathText::from_slice(alloc, b"kernel/a.ko")?,
        name: Name::from_slice(alloc, b"a")?,
        exports,
        needs,
        aliases: texts(
            alloc,
            &[b"pci-x:v0000[!a-f]d*".as_slice(), b"bad[x", b"two words"],
        )?,
        softdeps: texts(alloc, &[b"pre: b-c".as_slice(), b"  ", b"", b"post: c \\"])?,
        free: true,
        imports: Names::new(alloc),
    })
}

/// Returns the tree of one module.
fn tree_of_one(alloc: Global, facts: Facts) -> Result<TreeFacts, AllocError>
    requires { IsTreeModule facts }
    ensures { IfOk result IsTree }
{
    let mut tree = TreeFacts::new(alloc);
    tree.push(facts)?;
    Ok(tree)
}

/// The files of no module.
static OF_NO_MODULE: [(OutputFile, &[u8]); 9] = [
    (OutputFile::Dep, b""),
    (OutputFile::DepBin, NO_KEYS),
    (
        OutputFile::Alias,
        b"# Aliases extracted from modules themselves.\n",
    ),
    (OutputFile::AliasBin, NO_KEYS),
    (
        OutputFile::Softdep,
        b"# Soft dependencies extracted from modules themselves.\n",
    ),
    (
        OutputFile::Symbols,
        b"# Aliases for symbols, used by symbol_request().\n",
    ),
    (OutputFile::SymbolsBin, NO_KEYS),
    (OutputFile::BuiltinBin, NO_KEYS),
    (OutputFile::Unmet, b""),
];

/// The files of one module, and of two built-in modules.
static OF_ONE_MODULE: [(OutputFile, &[u8]); 9] = [
    (OutputFile::Dep, b"kernel/a.ko:\n"),
    (
        OutputFile::DepBin,
        b"\xb0\x07\xf4\x57\x00\x02\x00\x01\x20\x00\x00\x21\
          \x00\x00\x00\x01\x00\x00\x00\x00kernel/a.ko:\x00\
          aa\x40\x00\x00\x0c",
    ),
    (
        OutputFile::Alias,
        b"# Aliases extracted from modules themselves.\nalias pci-x:v0000[!a-f]d* a\n",
    ),
    (
        OutputFile::AliasBin,
        b"\xb0\x07\xf4\x57\x00\x02\x00\x01\x20\x00\x00\x29\
          ci_x:v0000[!a-f]d*\x00\x00\x00\x00\x01\x00\x00\x00\x00a\x00\
          pp\xc0\x00\x00\x0c",
    ),
    (
        OutputFile::Softdep,
        b"# Soft dependencies extracted from modules themselves.\nsoftdep a pre: b-c\n",
    ),
    (
        OutputFile::Symbols,
        b"# Aliases for symbols, used by symbol_request().\nalias symbol:fa a\n",
    ),
    (
        OutputFile::SymbolsBin,
        b"\xb0\x07\xf4\x57\x00\x02\x00\x01\x20\x00\x00\x1f\
          ymbol:fa\x00\x00\x00\x00\x01\x00\x00\x00\x00a\x00\
          ss\xc0\x00\x00\x0c",
    ),
    (
        OutputFile::BuiltinBin,
        b"\xb0\x07\xf4\x57\x00\x02\x00\x01\x20\x00\x00\x18\
          _c\x00\x00\x00\x00\x01\x00\x00\x00\x00\x00\
          bb\xc0\x00\x00\x0c",
    ),
    (OutputFile::Unmet, b"missing kernel/a.ko nosuch\n"),
];

/// Compares the files of a table.
fn expect_files(rt: &impl Abort, files: &OutputFiles, rows: &[(OutputFile, &[u8])]) {
    for (file, bytes) in rows {
        assert_eq!(rt; files.content(*file), *bytes, "{file:?}");
    }
}

fn expect_no_module(rt: &impl Abort, alloc: Global) {
    let tree = TreeFacts::new(alloc);
    expect_files(rt, &files(rt, alloc, &tree, b""), &OF_NO_MODULE);
}

fn expect_one_module(rt: &impl Abort, alloc: Global) {
    let Ok(facts) = facts(alloc) else {
        panic!(rt; "no memory");
    };
    let Ok(tree) = tree_of_one(alloc, facts) else {
        panic!(rt; "no memory");
    };
    let builtin = b"kernel/lib/b-c.ko\n\nkernel/b_c.ko\nkernel/a a.ko";
    expect_files(rt, &files(rt, alloc, &tree, builtin), &OF_ONE_MODULE);
}

#[test]
fn the_files_of_small_trees(rt: HostRuntime) {
    expect_no_module(&rt, rt.alloc());
    expect_one_module(&rt, rt.alloc());
}
