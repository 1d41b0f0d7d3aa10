//! Device nodes, their text, and its reader.

use crate::lists::texts;
use crate::same::{holds, shown};
use devname_nodes::{NodeList, nodes, nodes_text, read_nodes};
use km_names::{ConfFault, Name, Names, PathText, Texts};
use module_facts::{Exports, Facts, Needs};
use provider_rel::TreeFacts;
use std::alloc::Global;
use std::process::Abort;

/// Returns a path.
fn path(rt: &impl Abort, alloc: Global, text: &[u8]) -> PathText {
    PathText::from_slice(alloc, text).expect(rt, "a path")
}

/// The aliases of `fuse`, which state its device and its number.
static ALIASES: [&[u8]; 2] = [b"devname:fuse", b"char-major-10-229"];

/// Returns the facts of `fuse`.
fn facts_of_fuse(rt: &impl Abort, alloc: Global) -> Facts {
    Facts {
        path: path(rt, alloc, b"kernel/fuse.ko"),
        name: Name::from_slice(alloc, b"fuse").expect(rt, "a name"),
        exports: Exports::new(alloc),
        needs: Needs::new(alloc),
        aliases: texts(rt, alloc, &ALIASES),
        softdeps: Texts::new(alloc),
        free: true,
        imports: Names::new(alloc),
    }
}

/// Returns the nodes of a tree of only that module.
fn nodes_of_fuse(rt: &impl Abort, alloc: Global) -> NodeList {
    let mut tree = TreeFacts::new(alloc);
    tree.push(facts_of_fuse(rt, alloc)).expect(rt, "a tree");
    nodes(alloc, &tree).expect(rt, "nodes")
}

/// Reads the nodes of a modules.devname.
fn read(rt: &impl Abort, alloc: Global, text: &[u8]) -> Result<NodeList, ConfFault> {
    holds(rt, text.len() <= 67_108_864);
    read_nodes(alloc, &path(rt, alloc, b"modules.devname"), text)
}

fn nodes_are_written(rt: &impl Abort, alloc: Global) {
    let list = nodes_of_fuse(rt, alloc);
    let want =
        r##"Ok("# Device nodes to trigger on-demand module loading.\nfuse fuse c10:229\n")"##;
    shown(rt, alloc, nodes_text(alloc, &list), want);
    let want =
        "List { elements: [Node { module: \"fuse\", device: \"fuse\", block: false, major: 10, \
            minor: 229 }] }";
    shown(rt, alloc, list, want);
}

/// Texts of modules.devname, and what is read.
static TEXTS: [(&[u8], &str); 2] = [
    (
        b"# Device nodes to trigger on-demand module loading.\nfuse fuse c10:229\n",
        "Ok(List { elements: [Node { module: \"fuse\", device: \"fuse\", block: false, major: 10, \
            minor: 229 }] })",
    ),
    (
        b"# x\nfuse fuse c10\n",
        r#"Err(BadLine { file: "modules.devname", line: 2 })"#,
    ),
];

fn nodes_are_read(rt: &impl Abort, alloc: Global) {
    for (text, want) in &TEXTS {
        shown(rt, alloc, read(rt, alloc, text), want);
    }
}

#[test]
fn device_nodes_are_called(rt: HostRuntime) {
    nodes_are_written(&rt, rt.alloc());
    nodes_are_read(&rt, rt.alloc());
}
