// What keeps a request from having a plan.
ghost use Rattle.std.specs.Prelude.{◌≡◌, ◌<◌, ◌⊎◌, ◌||◌, ℕ, List, length, All, Some, None, IfOk};
ghost use Rattle.std.specs.Prelude.{IfErr, OnOk, option_map};
ghost use Rattle.km_names.specs.First.{first as first_spec};
ghost use Rattle.symbol_binding.specs.Unmet.{collides};
ghost use Rattle.name_table.specs.FirstSeen.{is_among};
ghost use Rattle.relation_order.specs.Sets.{marked};
ghost use Rattle.plan_builder.specs.Obstacles.{is_path_of, is_obstacle, as_obstacle, first_line};
ghost use Rattle.plan_builder.specs.Obstacles.{stands, unbound_line};
ghost use Rattle.plan_sources.specs.Sources.{modules as modules_spec};
ghost use Rattle.plan_builder.specs.Answers.{need_tests};
ghost use Rattle.plan_sources.specs.Planner.{sources_of};

use crate::obstacle::Obstacle;
use dependency_lines::Modules;
use km_names::{Name, PathText};
use name_table::NameSet;
use planned_modules::Planner;
use relation_order::marked;
use std::alloc::{AllocError, Global};
use symbol_binding::Unbound;
use unmet_file::LineKind;

/// The paths that lines of modules.unmet are compared with.
#[derive(Drop)]
pub(crate) struct ComparedPaths<'a> {
    /// Those of planned modules.
    pub(crate) planned: NameSet<'a>,
    /// Those of loaded modules, and the kernel's.
    pub(crate) there: NameSet<'a>,
}

/// Returns the paths that lines are compared with if the marked modules are planned.
pub(crate) fn compared_paths<'a>(
    alloc: Global,
    planner: &Planner<'a>,
    marks: &[bool],
) -> Result<ComparedPaths<'a>, AllocError>
    requires { length marks.now ≡ length (modules_spec (sources_of planner.now)) }
    ensures planned { IfOk result
        (λ paths. (path : List ℕ)
        → is_among paths.planned path
        ≡ is_path_of (modules_spec (sources_of planner.now)) (marked marks.now) path) }
    ensures there { IfOk result
        (λ paths. (path : List ℕ)
        → is_among paths.there path ≡ stands (sources_of planner.now) path) }
{
    let planned = marked_paths(alloc, planner, marks)?;
    let there = standing_paths(alloc, planner)?;
    Ok(ComparedPaths { planned, there })
}

/// Tests that no line is on a need of a planned module.
pub(crate) fn check_needs(
    alloc: Global,
    unmet: &[Unbound],
    planned: &NameSet<'_>,
    there: &NameSet<'_>,
) -> Result<(), Obstacle>
    ensures passed { OnOk result
        (first_spec (need_tests (is_among planned.now) (is_among there.now) unmet.now) ≡ None) }
    ensures err { IfErr result
        (λ o. (o ≡ Obstacle.Memory)
        ⊎ (option_map as_obstacle
        (first_spec
        (need_tests (is_among planned.now) (is_among there.now) unmet.now))
        ≡ Some o)) }
{
    check_unmet(alloc, LineKind::Missing, unmet, planned, there)?;
    check_unmet(alloc, LineKind::Gpl, unmet, planned, there)?;
    check_unmet(alloc, LineKind::Version, unmet, planned, there)?;
    check_unmet(alloc, LineKind::Namespace, unmet, planned, there)
}

/// Tests that no line of a kind is an obstacle, over the paths of planned modules and of what is
/// loaded before.
pub(crate) fn check_unmet(
    alloc: Global,
    kind: LineKind,
    unmet: &[Unbound],
    planned: &NameSet<'_>,
    there: &NameSet<'_>,
) -> Result<(), Obstacle>
    ensures passed { OnOk result
        (first_line kind (is_among planned.now) (is_among there.now) unmet.now ≡ None) }
    ensures err { IfErr result
        (λ o. (o ≡ Obstacle.Memory)
        ⊎ (option_map as_obstacle
        (first_line kind (is_among planned.now) (is_among there.now) unmet.now)
        ≡ Some o)) }
{
    for line in unmet {
        if is_obstacle(kind, line, planned, there) {
            return Err(as_obstacle(alloc, line)?);
        }
    }
    Ok(())
}

/// Returns the paths of the marked modules.
fn marked_paths<'a>(
    alloc: Global,
    planner: &Planner<'a>,
    marks: &[bool],
) -> Result<NameSet<'a>, AllocError>
    requires { length marks.now ≡ length (modules_spec (sources_of planner.now)) }
    ensures { IfOk result
        (λ paths. (path : List ℕ)
        → is_among paths path
        ≡ is_path_of (modules_spec (sources_of planner.now)) (marked marks.now) path) }
{
    let places = marked(alloc, marks)?;
    let paths = paths_of(alloc, planner.modules(), &places)?;
    Ok(paths)
}

/// Returns the paths of loaded modules, and the kernel's.
fn standing_paths<'a>(alloc: Global, planner: &Planner<'a>) -> Result<NameSet<'a>, AllocError>
    ensures { IfOk result
        (λ paths. (path : List ℕ) → is_among paths path ≡ stands (sources_of planner.now) path) }
{
    let places = planner.modules().places_of(alloc, planner.loaded())?;
    let mut paths = paths_of(alloc, planner.modules(), &places)?;
    paths.insert(b"vmlinux".as_slice())?;
    Ok(paths)
}

/// Returns whether a line is an obstacle of a kind.
fn is_obstacle(kind: LineKind, line: &Unbound, planned: &NameSet<'_>, there: &NameSet<'_>) -> bool
    ensures { result ≡ is_obstacle kind (is_among planned.now) (is_among there.now) line.now }
{
    match (kind, line) {
        (LineKind::Missing, Unbound::Missing { path, .. })
        | (LineKind::Gpl, Unbound::Gpl { path, .. })
        | (LineKind::Version, Unbound::Version { path, .. })
        | (LineKind::Namespace, Unbound::Namespace { path, .. }) => {
            planned.contains(path.as_bytes())
        }
        (LineKind::Double, Unbound::Double { first, second, .. }) => {
            collides(planned, there, first.as_bytes(), second.as_bytes())
        }
        (
            LineKind::Missing
            | LineKind::Gpl
            | LineKind::Version
            | LineKind::Namespace
            | LineKind::Double,
            Unbound::Missing { .. }
            | Unbound::Gpl { .. }
            | Unbound::Version { .. }
            | Unbound::Namespace { .. }
            | Unbound::Double { .. },
        ) => false,
    }
}

/// Makes an obstacle of a line.
fn as_obstacle(alloc: Global, line: &Unbound) -> Result<Obstacle, AllocError>
    ensures { IfOk result (λ obstacle. obstacle ≡ as_obstacle (unbound_line line.now)) }
{
    match line {
        Unbound::Missing { path, symbol } => {
            let (path, symbol) = need_copy(alloc, path, symbol)?;
            Ok(Obstacle::Missing { path, symbol })
        }
        Unbound::Gpl {
            path,
            symbol,
            provider,
        } => {
            let (path, symbol, provider) = pair_copy(alloc, path, symbol, provider)?;
            Ok(Obstacle::Gpl {
                path,
                symbol,
                provider,
            })
        }
        Unbound::Version {
            path,
            symbol,
            provider,
        } => {
            let (path, symbol, provider) = pair_copy(alloc, path, symbol, provider)?;
            Ok(Obstacle::Version {
                path,
                symbol,
                provider,
            })
        }
        Unbound::Namespace {
            path,
            symbol,
            provider,
        } => {
            let (path, symbol, provider) = pair_copy(alloc, path, symbol, provider)?;
            Ok(Obstacle::Namespace {
                path,
                symbol,
                provider,
            })
        }
        Unbound::Double {
            symbol,
            first,
            second,
        } => {
            let (first, symbol, second) = pair_copy(alloc, first, symbol, second)?;
            Ok(Obstacle::Double {
                symbol,
                first,
                second,
            })
        }
    }
}

/// Returns the paths of some modules.
fn paths_of<'a>(
    alloc: Global,
    modules: &Modules<'a>,
    places: &[usize],
) -> Result<NameSet<'a>, AllocError>
    requires { All (λ y. y < length modules.now) places.now }
    ensures { IfOk result
        (λ paths. (path : List ℕ) → is_among paths path ≡ is_path_of modules.now places.now path) }
{
    let mut paths = NameSet::new(alloc);
    for place in places {
        paths.insert(modules.path(*place))?;
    }
    Ok(paths)
}

/// Returns whether one of the paths of a double line is planned, and both are planned or loaded
/// before.
fn collides(planned: &NameSet<'_>, there: &NameSet<'_>, first: &[u8], second: &[u8]) -> bool
    ensures { (symbol : List ℕ) → result
        ≡ collides (λ path. is_among planned.now path || is_among there.now path)
        (is_among planned.now) (Unbound.Double symbol first.now second.now) }
{
    let has_first = planned.contains(first);
    let has_second = planned.contains(second);
    (has_first || has_second)
        && (has_first || there.contains(first))
        && (has_second || there.contains(second))
}

/// Copies a path and a symbol.
fn need_copy(alloc: Global, path: &PathText, symbol: &Name) -> Result<(PathText, Name), AllocError>
    ensures path { IfOk result (λ copies. copies.0 ≡ path.now) }
    ensures symbol { IfOk result (λ copies. copies.1 ≡ symbol.now) }
{
    let path = path_copy(alloc, path)?;
    Ok((path, name_copy(alloc, symbol)?))
}

/// Copies a path, a symbol and another path.
fn pair_copy(
    alloc: Global,
    path: &PathText,
    symbol: &Name,
    other: &PathText,
) -> Result<(PathText, Name, PathText), AllocError>
    ensures path { IfOk result (λ copies. copies.0 ≡ path.now) }
    ensures symbol { IfOk result (λ copies. copies.1 ≡ symbol.now) }
    ensures other { IfOk result (λ copies. copies.2 ≡ other.now) }
{
    let (path, symbol) = need_copy(alloc, path, symbol)?;
    Ok((path, symbol, path_copy(alloc, other)?))
}

fn path_copy(alloc: Global, path: &PathText) -> Result<PathText, AllocError>
    ensures { IfOk result (λ copy. copy ≡ path.now) }
{
    PathText::from_slice(alloc, path.as_bytes())
}

fn name_copy(alloc: Global, name: &Name) -> Result<Name, AllocError>
    ensures { IfOk result (λ copy. copy ≡ name.now) }
{
    Name::from_slice(alloc, name.as_bytes())
}
