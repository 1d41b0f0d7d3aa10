// The device nodes of trees, and the lines of modules.devname.
use devname_nodes::{NodeList, nodes, nodes_text, read_nodes};
use km_names::{Blob, ConfFault, Name, Names, PathText, Texts};
use module_facts::{Exports, Facts, Needs};
use provider_rel::TreeFacts;
use std::alloc::{AllocError, Global};
use std::process::Abort;

/// Returns the facts of a module of this name that states these aliases.
fn facts(alloc: Global, name: &[u8], aliases: &[&[u8]]) -> Result<Facts, AllocError> {
    let mut texts = Texts::new(alloc);
    for alias in aliases {
        texts.push(Blob::from_slice(alloc, alias)?)?;
    }
    Ok(Facts {
        path: PathText::from_slice(alloc, b"kernel/a.ko")?,
        name: Name::from_slice(alloc, name)?,
        exports: Exports::new(alloc),
        needs: Needs::new(alloc),
        aliases: texts,
        softdeps: Texts::new(alloc),
        free: true,
        imports: Names::new(alloc),
    })
}

/// Returns the text of nodes.
fn text_of(rt: &impl Abort, alloc: Global, list: &NodeList) -> Blob {
    nodes_text(alloc, list).expect(rt, "a text")
}

/// Returns the nodes of a tree.
fn nodes_of(rt: &impl Abort, alloc: Global, tree: &TreeFacts) -> NodeList {
    nodes(alloc, tree).expect(rt, "nodes")
}

/// Reads the nodes of a text.
fn read(rt: &impl Abort, alloc: Global, text: &[u8]) -> Result<NodeList, ConfFault> {
    assert!(rt; text.len() <= 4096, "too long");
    let file = PathText::from_slice(alloc, b"/m/modules.devname").expect(rt, "a path");
    read_nodes(alloc, &file, text)
}

fn same(rt: &impl Abort, got: &[u8], want: &[u8]) {
    assert_eq!(rt; got, want);
}

/// The heading of a modules.devname.
static HEADING: &[u8] = b"# Device nodes to trigger on-demand module loading.\n";

/// Checks that a text is the heading and these lines.
fn expect_lines(rt: &impl Abort, text: &[u8], lines: &[u8]) {
    assert!(rt; HEADING.len() <= text.len());
    let (heading, rest) = text.split_at(HEADING.len());
    same(rt, heading, HEADING);
    same(rt, rest, lines);
}

/// Checks what a text is read as: these nodes, or the number of the line that is refused.
fn expect_read(rt: &impl Abort, alloc: Global, text: &[u8], want: Result<&[u8], u32>) {
    match (read(rt, alloc, text), want) {
        (Ok(list), Ok(lines)) => {
            expect_lines(rt, text_of(rt, alloc, &list).as_bytes(), lines);
        }
        (Err(ConfFault::BadLine { line, .. }), Err(number)) => assert!(rt; line == number),
        (Err(ConfFault::Memory), _) => panic!(rt; "out of memory"),
        _ => panic!(rt; "another answer"),
    }
}

/// Puts a module of this name with these aliases into a tree.
fn put(rt: &impl Abort, alloc: Global, tree: &mut TreeFacts, name: &[u8], aliases: &[&[u8]]) {
    let facts = facts(alloc, name, aliases).expect(rt, "facts");
    tree.push(facts).expect(rt, "a module more");
}

/// Names of modules with their aliases, and the lines of their nodes.
static NODES: [(&[u8], &[&[u8]], &[u8]); 14] = [
    (
        b"fuse",
        &[b"devname:fuse", b"char-major-10-229"],
        b"fuse fuse c10:229\n",
    ),
    (
        b"loop",
        &[b"block-major-7-0", b"devname:loop-control"],
        b"loop loop-control b7:0\n",
    ),
    // The first device and the first number count, of either kind.
    (
        b"a",
        &[
            b"devname:x",
            b"devname:y",
            b"block-major-7-*",
            b"char-major-1-2",
            b"block-major-3-4",
        ],
        b"a x c1:2\n",
    ),
    (
        b"a",
        &[b"devname:", b"devname:x y", b"devname:z", b"char-major-1-2"],
        b"a z c1:2\n",
    ),
    // Numbers have 1 to 10 digits and are below 2^32.
    (
        b"a",
        &[b"devname:x", b"char-major-0000000010-00"],
        b"a x c10:0\n",
    ),
    (
        b"a",
        &[b"devname:x", b"char-major-4294967295-1"],
        b"a x c4294967295:1\n",
    ),
    (b"a", &[b"devname:x", b"char-major-4294967296-1"], b""),
    (b"a", &[b"devname:x", b"char-major-00000000001-1"], b""),
    (
        b"a",
        &[
            b"devname:x",
            b"char-major-1-",
            b"char-major-1",
            b"char-major--1",
        ],
        b"",
    ),
    (
        b"a",
        &[
            b"devname:x",
            b"char-major-1-2-3",
            b"char-major-+1-2",
            b"char-1-2",
        ],
        b"",
    ),
    (b"a", &[b"devname:x"], b""),
    (b"a", &[b"char-major-1-2"], b""),
    (b"#a", &[b"devname:x", b"char-major-1-2"], b""),
    (b"a#", &[b"devname:#", b"char-major-1-2"], b"a# # c1:2\n"),
];

/// Checks the nodes of one module, and that their text is read again.
fn expect_nodes(rt: &impl Abort, alloc: Global, name: &[u8], aliases: &[&[u8]], line: &[u8]) {
    let mut tree = TreeFacts::new(alloc);
    put(rt, alloc, &mut tree, name, aliases);
    let text = text_of(rt, alloc, &nodes_of(rt, alloc, &tree));
    expect_lines(rt, text.as_bytes(), line);
    let Ok(back) = read(rt, alloc, text.as_bytes()) else {
        panic!(rt; "what is written is read");
    };
    expect_lines(rt, text_of(rt, alloc, &back).as_bytes(), line);
}

/// Checks the nodes of a tree of three modules, and of none.
fn expect_nodes_of_trees(rt: &impl Abort, alloc: Global) {
    let mut tree = TreeFacts::new(alloc);
    assert!(rt; nodes_of(rt, alloc, &tree).len() == 0);
    put(
        rt,
        alloc,
        &mut tree,
        b"z",
        &[b"devname:y", b"char-major-1-2"],
    );
    put(rt, alloc, &mut tree, b"m", &[]);
    put(
        rt,
        alloc,
        &mut tree,
        b"a",
        &[b"devname:b/c", b"block-major-3-4"],
    );
    let text = text_of(rt, alloc, &nodes_of(rt, alloc, &tree));
    expect_lines(rt, text.as_bytes(), b"z y c1:2\na b/c b3:4\n");
}

#[test]
fn nodes_of_modules(rt: HostRuntime) {
    let alloc = rt.alloc();
    for (name, aliases, line) in &NODES {
        expect_nodes(&rt, alloc, name, aliases, line);
    }
    expect_nodes_of_trees(&rt, alloc);
}

/// Texts, and the lines of the nodes that they are read as, or the number of the line that is
/// refused.
static LINES: [(&[u8], Result<&[u8], u32>); 26] = [
    (b"", Ok(b"")),
    (b"a b c1:2", Ok(b"a b c1:2\n")),
    (
        b"# x\n\n \t\r\na b b4294967295:0\n",
        Ok(b"a b b4294967295:0\n"),
    ),
    (b"a b c1:2\na b c1:2\n", Ok(b"a b c1:2\na b c1:2\n")),
    (b"a #b c1:2\n", Ok(b"a #b c1:2\n")),
    (b"#a b c1:2\n", Ok(b"")),
    (b" # x\n", Err(1)),
    (b"a  b c1:2\n", Err(1)),
    (b"a b  c1:2\n", Err(1)),
    (b" a b c1:2\n", Err(1)),
    (b"a b c1:2 \n", Err(1)),
    (b"a b c1:2\r\n", Err(1)),
    (b"a b\n", Err(1)),
    (b"a b c1:2 d\n", Err(1)),
    (b"a b d1:2\n", Err(1)),
    (b"a b 1:2\n", Err(1)),
    (b"a b c\n", Err(1)),
    (b"a b c1\n", Err(1)),
    (b"a b c1:\n", Err(1)),
    (b"a b c:2\n", Err(1)),
    (b"a b c01:2\n", Err(1)),
    (b"a b c1:00\n", Err(1)),
    (b"a b c4294967296:0\n", Err(1)),
    (b"a b c1-2\n", Err(1)),
    (b"a b c1:2:3\n", Err(1)),
    (b"# x\na b c0:0\nx\ny\n", Err(3)),
];

#[test]
fn lines_of_nodes(rt: HostRuntime) {
    for (text, want) in &LINES {
        expect_read(&rt, rt.alloc(), text, *want);
    }
}
