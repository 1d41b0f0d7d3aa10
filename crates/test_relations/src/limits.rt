// Trees of two thousand modules, up to the limit of dependencies and past it, and a cycle.
ghost use Rattle.std.specs.Prelude.{◌≡◌, ◌+◌, ◌/◌, ◌%◌, ◌<◌, ◌≤◌, [], ◌∷◌, length, All, AllPairs};
ghost use Rattle.std.specs.Prelude.{IsTrue, IfOk};
ghost use Rattle.km_names.specs.Ascii.{is_graphic};
ghost use Rattle.provider_rel.specs.Seen.{closures_by};
ghost use Rattle.provider_rel.specs.Tree.{IsTree, IsTreeModule};

use km_names::{Name, Names, PathText, Texts, TreeIndex};
use module_facts::{Export, Exports, Facts, Need, Needs};
use provider_rel::{Kernel, Relation, RelationFault, TreeFacts};
use std::alloc::{AllocError, Global};
use std::process::Abort;
use std::test::Fail;

/// Which modules of a tree a module needs a symbol of.
#[derive(Clone, Copy)]
enum Shape {
    /// The one before it.
    Chain,
    /// The next one.
    Back,
    /// The first one.
    Star,
    /// All before it.
    Clique,
    /// The next one, and for the last the second: the first leads to a cycle of all others.
    Circle,
}

/// Returns the modules that a module needs a symbol of: from the first number on, up to the second.
fn needed(shape: Shape, number: u16, count: u16) -> (u16, u16)
    requires there { number < count }
    requires few { count ≤ 2500 }
    ensures { result.1 ≤ 2500 }
{
    match shape {
        Shape::Chain => (number.max(1) - 1, number),
        Shape::Back => (number + 1, (number + 2).min(count)),
        Shape::Star => (0, number.min(1)),
        Shape::Clique => (0, number),
        Shape::Circle if number + 1 < count => (number + 1, number + 2),
        Shape::Circle => (1, 2),
    }
}

/// Returns the name of a module by its number, which is also the name of its symbol: two letters.
fn name(alloc: Global, number: u16) -> Result<Name, AllocError>
    requires { number < 2500 }
    ensures { IfOk result (λ name. name ≡ (65 + number / 50) ∷ (65 + number % 50) ∷ []) }
{
    Name::from_slice(
        alloc,
        &[b'A' + (number / 50) as u8, b'A' + (number % 50) as u8],
    )
}

/// Returns the needs of a module of the symbols of others.
fn needs(alloc: Global, start: u16, end: u16) -> Result<Needs, AllocError>
    requires { end ≤ 2500 }
    ensures { IfOk result (λ needs. All (λ need. IsTrue (is_graphic need.name)) needs) }
{
    let mut needs = Needs::new(alloc);
    for number in start..end {
        needs.push(Need {
            name: name(alloc, number)?,
            symbol: 1,
            weak: false,
            crc: None,
        })?;
    }
    Ok(needs)
}

/// Returns the symbol of a module.
fn exports(alloc: Global, number: u16) -> Result<Exports, AllocError>
    requires { number < 2500 }
    ensures distinct { IfOk result (λ exports. AllPairs (λ a b. a.name ≡ b.name → ⊥) exports) }
    ensures graphic { IfOk result
        (λ exports. All (λ export. IsTrue (is_graphic export.name)) exports) }
{
    let mut exports = Exports::new(alloc);
    exports.push(Export {
        name: name(alloc, number)?,
        symbol: 1,
        crc: None,
        gpl: false,
        space: Name::new(alloc),
    })?;
    Ok(exports)
}

/// Returns the facts of a module.
fn facts(alloc: Global, shape: Shape, number: u16, count: u16) -> Result<Facts, AllocError>
    requires there { number < count }
    requires few { count ≤ 2500 }
    ensures good { IfOk result IsTreeModule }
    ensures named { IfOk result
        (λ facts. facts.name ≡ (65 + number / 50) ∷ (65 + number % 50) ∷ []) }
{
    let (start, end) = needed(shape, number, count);
    let name = name(alloc, number)?;
    Ok(Facts {
        path: PathText::from_slice(alloc, name.as_bytes())?,
        name,
        exports: exports(alloc, number)?,
        needs: needs(alloc, start, end)?,
        aliases: Texts::new(alloc),
        softdeps: Texts::new(alloc),
        free: true,
        imports: Names::new(alloc),
    })
}

/// Returns a tree of so many modules that each export a symbol.
fn tree(alloc: Global, shape: Shape, count: u16) -> Result<TreeFacts, AllocError>
    requires { count ≤ 2500 }
    ensures good { IfOk result IsTree }
    ensures long { IfOk result (λ tree. length tree ≡ count) }
{
    let mut tree = TreeFacts::new(alloc);
    for number in 0..count {
        tree.push(facts(alloc, shape, number, count)?)?;
    }
    Ok(tree)
}

/// Returns how many dependencies all modules have together.
fn dependencies(relation: &Relation, count: u16) -> usize
    requires { length (closures_by relation.now) ≡ count }
{
    let mut sum: usize = 0;
    for number in 0..count {
        sum = sum.saturating_add(relation.closure(TreeIndex(u32::from(number))).len());
    }
    sum
}

/// Returns the relation of a tree of a shape over a kernel that exports nothing.
fn related(alloc: Global, shape: Shape, count: u16) -> Result<Result<Relation, RelationFault>, Fail>
    requires { count ≤ 2500 }
    ensures { IfOk result (λ made. IfOk made (λ relation. length (closures_by relation) ≡ count)) }
{
    let Ok(kernel) = Kernel::from_symvers(alloc, b"") else {
        return Err(Fail::from("no kernel"));
    };
    let tree = tree(alloc, shape, count)?;
    Ok(Relation::make(alloc, &tree, &kernel))
}

fn same_count(rt: &impl Abort, got: usize, want: usize) {
    assert_eq!(rt; got, want);
}

/// Checks the dependencies of 2,000 modules of a shape: of all together, of the first and of the
/// last.
fn expect_related(
    rt: &impl Abort,
    alloc: Global,
    shape: Shape,
    (all, first, last): (usize, usize, usize),
) -> Result<(), Fail> {
    let Ok(relation) = related(alloc, shape, 2000)? else {
        panic!(rt; "refused");
    };
    same_count(rt, dependencies(&relation, 2000), all);
    same_count(rt, relation.closure(TreeIndex(0)).len(), first);
    same_count(rt, relation.closure(TreeIndex(1999)).len(), last);
    same_count(rt, relation.obstacles().len(), 0);
    Ok(())
}

/// Checks that the 2,001 modules of a shape have too many dependencies together.
fn expect_too_many(rt: &impl Abort, alloc: Global, shape: Shape) -> Result<(), Fail> {
    match related(alloc, shape, 2001)? {
        Err(RelationFault::TooManyDeps { count }) => assert_eq!(rt; count, 2_001_000),
        _ => panic!(rt; "not refused"),
    }
    Ok(())
}

/// Checks four modules. The first leads to a cycle of the others, and the cycle is named by its
/// first module.
fn expect_circle(rt: &impl Abort, alloc: Global) -> Result<(), Fail> {
    let Err(RelationFault::Cycle { names }) = related(alloc, Shape::Circle, 4)? else {
        panic!(rt; "not refused");
    };
    let mut text = Vec::new(alloc);
    for name in names.as_slice() {
        text.extend_from_slice(name.as_bytes())?;
        text.push(b' ')?;
    }
    assert_eq!(rt; text.as_slice(), b"AB AC AD ".as_slice());
    Ok(())
}

#[test]
fn trees_up_to_the_limit(rt: HostRuntime) -> Result<(), Fail> {
    let alloc = rt.alloc();
    expect_related(&rt, alloc, Shape::Chain, (1_999_000, 0, 1_999))?;
    expect_related(&rt, alloc, Shape::Back, (1_999_000, 1_999, 0))?;
    expect_related(&rt, alloc, Shape::Star, (1_999, 0, 1))?;
    expect_related(&rt, alloc, Shape::Clique, (1_999_000, 0, 1_999))
}

#[test]
fn trees_past_the_limit(rt: HostRuntime) -> Result<(), Fail> {
    expect_too_many(&rt, rt.alloc(), Shape::Chain)?;
    expect_too_many(&rt, rt.alloc(), Shape::Back)?;
    expect_too_many(&rt, rt.alloc(), Shape::Clique)?;
    expect_circle(&rt, rt.alloc())
}
