// Tables of kernels, and the needs of a module over them.
ghost use Rattle.std.specs.Prelude.{IfOk};
ghost use Rattle.provider_rel.specs.Tree.{IsTree, IsTreeModule};

use km_names::{FILE_LIMIT, Name, Names, PathText, Texts};
use module_facts::{Exports, Facts, Need, Needs};
use provider_rel::{
    Kernel, KernelExport, KernelFault, Provider, Relation, TreeFacts, Unbound, agree,
};
use std::alloc::{AllocError, Global};
use std::process::Abort;

// Each call is in a function of its own that promises nothing.

fn kernel_of_symvers(alloc: Global, bytes: &[u8]) -> Result<Kernel, KernelFault> {
    if bytes.len() > FILE_LIMIT {
        return Err(KernelFault::Memory);
    }
    Kernel::from_symvers(alloc, bytes)
}

fn kernel_of_map(alloc: Global, bytes: &[u8]) -> Result<Kernel, KernelFault> {
    if bytes.len() > FILE_LIMIT {
        return Err(KernelFault::Memory);
    }
    Kernel::from_map(alloc, bytes)
}

fn is_added(kernel: &mut Kernel, bytes: &[u8]) -> bool {
    bytes.len() <= FILE_LIMIT && kernel.add_addresses(bytes).is_ok()
}

/// A Module.symvers with two exports of the kernel, the first of them twice, and one of a module.
static SYMVERS: &[u8] = b"0x11111111\tprintk\tvmlinux\tEXPORT_SYMBOL\n\
    \n\
    0x2\tfa\tkernel/a\tEXPORT_SYMBOL\n\
    0xaB\tfb\tvmlinux\tEXPORT_SYMBOL_GPL\tNS\n\
    0x3\tprintk\tvmlinux\tEXPORT_SYMBOL_GPL\n";

/// A System.map with two addresses of one name.
static MAP: &[u8] = b"ffffffff81000000 T printk\nffffffff82000000 r __ksymtab_printk\n1 t printk";

fn same(rt: &impl Abort, got: &[u8], want: &[u8]) {
    assert_eq!(rt; got, want);
}

fn same_crc(rt: &impl Abort, got: Option<u64>, want: Option<u64>) {
    assert_eq!(rt; got, want);
}

/// Returns an export of a kernel.
fn export<'a>(rt: &impl Abort, kernel: &'a Kernel, place: usize) -> &'a KernelExport {
    kernel.exports.get(place).expect(rt, "an export")
}

/// Checks the exports of a Module.symvers.
fn expect_exports(rt: &impl Abort, kernel: &Kernel) {
    assert!(rt; kernel.known);
    assert!(rt; kernel.exports.len() == 2);
    let first = export(rt, kernel, 0);
    same(rt, first.name.as_bytes(), b"printk");
    same_crc(rt, first.crc, Some(0x1111_1111));
    assert!(rt; !first.gpl);
    let second = export(rt, kernel, 1);
    same_crc(rt, second.crc, Some(0xab));
    assert!(rt; second.gpl);
    same(rt, second.space.as_bytes(), b"NS");
    same_crc(rt, second.address, None);
}

/// Checks the exports of a Module.symvers, and then an address.
fn expect_symvers(rt: &impl Abort, alloc: Global) {
    let mut kernel = kernel_of_symvers(alloc, SYMVERS).expect(rt, "a kernel");
    expect_exports(rt, &kernel);
    assert!(rt; is_added(&mut kernel, b"10 t fb\n20 T fb\n"));
    same_crc(rt, export(rt, &kernel, 1).address, Some(0x20));
}

/// Checks the export of a System.map.
fn expect_map(rt: &impl Abort, alloc: Global) {
    let kernel = kernel_of_map(alloc, MAP).expect(rt, "a kernel");
    assert!(rt; kernel.known);
    assert!(rt; kernel.exports.len() == 1);
    let export = export(rt, &kernel, 0);
    same(rt, export.name.as_bytes(), b"printk");
    same_crc(rt, export.address, Some(0xffff_ffff_8100_0000));
    same_crc(rt, export.crc, None);
}

/// Checks the number of the first bad line.
fn expect_bad_line(rt: &impl Abort, answer: Result<Kernel, KernelFault>, number: u32) {
    match answer {
        Err(KernelFault::BadKernelLine { line }) => assert!(rt; line == number),
        _ => panic!(rt; "not refused"),
    }
}

#[test]
fn tables_of_kernels(rt: HostRuntime) {
    let alloc = rt.alloc();
    assert!(rt; agree(Some(0x1234_5678), None));
    assert!(rt; !agree(Some(0x1_1234_5678), Some(0x1234_5678)));
    expect_symvers(&rt, alloc);
    expect_map(&rt, alloc);
    expect_bad_line(&rt, kernel_of_map(alloc, b"1 T a\n\n2  T b\n3 T"), 3);
    expect_bad_line(&rt, kernel_of_symvers(alloc, b"1\ta\tvmlinux\n"), 1);
}

/// Returns the facts of a module that exports nothing and needs `nosuch`.
fn needing(alloc: Global) -> Result<Facts, AllocError>
    ensures { IfOk result IsTreeModule }
{
    let mut needs = Needs::new(alloc);
    needs.push(Need {
        name: Name::from_slice(alloc, b"nosuch")?,
        symbol: 1,
        weak: false,
        crc: None,
    })?;
    Ok(Facts {
        path: PathText::from_slice(alloc, b"kernel/n.ko")?,
        name: Name::from_slice(alloc, b"n")?,
        exports: Exports::new(alloc),
        needs,
        aliases: Texts::new(alloc),
        softdeps: Texts::new(alloc),
        free: true,
        imports: Names::new(alloc),
    })
}

/// Returns the tree of one module.
fn tree_of_one(alloc: Global, facts: Facts) -> Result<TreeFacts, AllocError>
    requires { IsTreeModule facts }
    ensures { IfOk result IsTree }
{
    let mut tree = TreeFacts::new(alloc);
    tree.push(facts)?;
    Ok(tree)
}

/// Returns the relation of a tree over a kernel.
fn related(rt: &impl Abort, alloc: Global, tree: &TreeFacts, kernel: &Kernel) -> Relation
    requires { IsTree tree.now }
{
    Relation::make(alloc, tree, kernel).expect(rt, "a relation")
}

/// Checks that a need that nobody provides has a line.
fn expect_missing(rt: &impl Abort, relation: &Relation) {
    assert!(rt; relation.provider(b"printk") == Provider::Kernel);
    assert!(rt; relation.provider(b"nosuch") == Provider::Nobody);
    assert!(rt; relation.obstacles().len() == 1);
    match relation.obstacles().get(0) {
        Some(Unbound::Missing { path, symbol }) => {
            same(rt, path.as_bytes(), b"kernel/n.ko");
            same(rt, symbol.as_bytes(), b"nosuch");
        }
        _ => panic!(rt; "another line"),
    }
}

/// Checks no module over a kernel that isn't known.
fn expect_unknown(rt: &impl Abort, alloc: Global) {
    let tree = TreeFacts::new(alloc);
    let none = related(rt, alloc, &tree, &Kernel::unknown(alloc));
    assert!(rt; none.provider(b"printk") == Provider::Kernel);
    assert!(rt; none.obstacles().len() == 0);
}

/// Checks one module over a kernel that exports `printk`.
fn expect_known(rt: &impl Abort, alloc: Global) {
    let Ok(facts) = needing(alloc) else {
        panic!(rt; "no memory");
    };
    let Ok(tree) = tree_of_one(alloc, facts) else {
        panic!(rt; "no memory");
    };
    let kernel = kernel_of_symvers(alloc, b"0x1\tprintk\tvmlinux\n").expect(rt, "a kernel");
    expect_missing(rt, &related(rt, alloc, &tree, &kernel));
}

#[test]
fn needs_and_their_providers(rt: HostRuntime) {
    expect_unknown(&rt, rt.alloc());
    expect_known(&rt, rt.alloc());
}
