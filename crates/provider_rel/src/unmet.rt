// The lines of modules.unmet on needs.
ghost use Rattle.std.specs.Prelude.{◌≡◌, ◌++◌, None, Some, map, option_copied, OnOk, IfOk};
ghost use Rattle.std.specs.List.{flat_map, list_any};
ghost use Rattle.module_facts.specs.declared.facts.Facts.{Facts};
ghost use Rattle.provider_rel.specs.Faces.{face_of, need_of_facts};
ghost use Rattle.provider_rel.specs.Items.{seen_under, path_under, bound_of};
ghost use Rattle.provider_rel.specs.Kinds.{test_of, line_of, line_if, lines_by, has_line};
ghost use Rattle.provider_rel.specs.Kinds.{has_lines, with_need_lines};

use crate::TreeFacts;
use crate::bindings::Bindings;
use crate::items::{ExportItem, item_at};
use km_names::{Name, PathText};
use module_facts::{Facts, Need};
use std::alloc::{AllocError, Global};
use symbol_binding::{Obstacles, Unbound, agree, may_use, sees};

/// The kinds of lines on needs.
#[derive(Clone, Copy)]
pub(crate) enum UnmetKind {
    Missing,
    Gpl,
    Version,
    Namespace,
}

/// Adds the lines of all needs of a tree, one kind after the other. Most trees have none, so that is
/// looked for first, in one pass.
pub(crate) fn push_need_lines(
    alloc: Global,
    lines: &mut Obstacles,
    tree: &TreeFacts,
    bindings: &Bindings,
) -> Result<(), AllocError>
    requires { map (λ b. b.items) bindings.now.bound.items
        ≡ map (λ f. bound_of bindings.now.names f.needs) tree.now }
    ensures { OnOk result
        (lines.new
        ≡ with_need_lines bindings.now.known bindings.now.items.items bindings.now.names
        tree.now lines.old) }
{
    if !any_line(tree, bindings) {
        return Ok(());
    }
    push_all_lines(alloc, lines, UnmetKind::Missing, tree, bindings)?;
    push_all_lines(alloc, lines, UnmetKind::Gpl, tree, bindings)?;
    push_all_lines(alloc, lines, UnmetKind::Version, tree, bindings)?;
    push_all_lines(alloc, lines, UnmetKind::Namespace, tree, bindings)
}

/// Returns whether any need of a tree has a line.
fn any_line(tree: &TreeFacts, bindings: &Bindings) -> bool
    requires { map (λ b. b.items) bindings.now.bound.items
        ≡ map (λ f. bound_of bindings.now.names f.needs) tree.now }
    ensures { result
        ≡ list_any
        (has_lines bindings.now.known bindings.now.items.items bindings.now.names)
        tree.now }
{
    let modules = tree.as_slice();
    let mut any = false;
    for i in 0..modules.len() {
        any = any_line_of(&modules[i], bindings, &bindings.bound[i]) || any;
    }
    any
}

/// Returns whether any need of a module has a line.
fn any_line_of(facts: &Facts, bindings: &Bindings, bound: &[Option<u32>]) -> bool
    requires { bound.now ≡ bound_of bindings.now.names facts.now.needs }
    ensures { result
        ≡ has_lines bindings.now.known bindings.now.items.items bindings.now.names facts.now }
{
    let needs = facts.needs.as_slice();
    let mut any = false;
    for i in 0..needs.len() {
        let found = item_at(&bindings.items, bound[i]);
        any = has_line(facts, &needs[i], found, bindings.known) || any;
    }
    any
}

/// Returns whether a need has a line of any kind.
fn has_line(facts: &Facts, need: &Need, found: Option<&ExportItem>, known: bool) -> bool
    ensures { result ≡ has_line known facts.now need.now (option_copied found.entry) }
{
    match found {
        Some(item) if sees(facts.free, item.gpl()) => {
            !agree(need.crc, item.crc()) || !may_use(&facts.imports, item.space())
        }
        Some(_) => !need.weak,
        None => known && !need.weak,
    }
}

/// Adds the lines of a kind of all modules.
fn push_all_lines(
    alloc: Global,
    lines: &mut Obstacles,
    kind: UnmetKind,
    tree: &TreeFacts,
    bindings: &Bindings,
) -> Result<(), AllocError>
    requires { map (λ b. b.items) bindings.now.bound.items
        ≡ map (λ f. bound_of bindings.now.names f.needs) tree.now }
    ensures { OnOk result
        (lines.new
        ≡ lines.old
        ++ flat_map
        (lines_by kind bindings.now.known bindings.now.items.items bindings.now.names)
        tree.now) }
{
    let modules = tree.as_slice();
    for i in 0..modules.len() {
        push_lines(
            alloc,
            lines,
            kind,
            &modules[i],
            bindings,
            &bindings.bound[i],
        )?;
    }
    Ok(())
}

/// Adds the lines of a kind of a module's needs.
fn push_lines(
    alloc: Global,
    lines: &mut Obstacles,
    kind: UnmetKind,
    facts: &Facts,
    bindings: &Bindings,
    bound: &[Option<u32>],
) -> Result<(), AllocError>
    requires { bound.now ≡ bound_of bindings.now.names facts.now.needs }
    ensures { OnOk result
        (lines.new
        ≡ lines.old
        ++ lines_by kind bindings.now.known bindings.now.items.items bindings.now.names
        facts.now) }
{
    let needs = facts.needs.as_slice();
    for i in 0..needs.len() {
        let found = item_at(&bindings.items, bound[i]);
        push_line(alloc, lines, kind, facts, &needs[i], found, bindings.known)?;
    }
    Ok(())
}

/// Adds the line of a kind of a need, if it has one.
#[tactic(auto, unfolding(crate::specs::Kinds::line_if))]
fn push_line(
    alloc: Global,
    lines: &mut Obstacles,
    kind: UnmetKind,
    facts: &Facts,
    need: &Need,
    found: Option<&ExportItem>,
    known: bool,
) -> Result<(), AllocError>
    ensures { OnOk result
        (lines.new
        ≡ lines.old ++ line_if kind known facts.now need.now (option_copied found.entry)) }
{
    let (unmet, provider) = match found {
        Some(item) => (is_unmet_by(kind, facts, need, item), item.path()),
        None => (is_unmet_alone(kind, need, known), path_of_none(known)),
    };
    if unmet {
        lines.push(line(alloc, kind, &facts.path, &need.name, provider)?)?;
    }
    Ok(())
}

/// Returns whether a need has a line of a kind, if an export was found under its name.
fn is_unmet_by(kind: UnmetKind, facts: &Facts, need: &Need, item: &ExportItem) -> bool
    ensures { result
        ≡ test_of kind (Some item.now.export) (face_of facts.now) (need_of_facts need.now) }
{
    let seen = sees(facts.free, item.gpl());
    match kind {
        UnmetKind::Missing => false,
        UnmetKind::Gpl => !need.weak && !seen,
        UnmetKind::Version => seen && !agree(need.crc, item.crc()),
        UnmetKind::Namespace => seen && !may_use(&facts.imports, item.space()),
    }
}

/// Returns whether a need has a line of a kind, if nothing was found under its name.
fn is_unmet_alone(kind: UnmetKind, need: &Need, known: bool) -> bool
    ensures { (facts : Facts)
        → result
        ≡ test_of kind (seen_under known need.now.name None) (face_of facts)
        (need_of_facts need.now) }
{
    match kind {
        UnmetKind::Missing => known && !need.weak,
        UnmetKind::Gpl | UnmetKind::Version | UnmetKind::Namespace => false,
    }
}

/// Returns the path of an unknown kernel as a provider, or the empty path for nobody.
fn path_of_none(known: bool) -> &'static [u8]
    ensures { result.now ≡ path_under known None }
{
    if known { b"" } else { b"vmlinux" }
}

/// Makes the line of a kind.
fn line(
    alloc: Global,
    kind: UnmetKind,
    path: &PathText,
    symbol: &Name,
    provider: &[u8],
) -> Result<Unbound, AllocError>
    ensures { IfOk result (λ line. line ≡ line_of kind path.now symbol.now provider.now) }
{
    let path = PathText::from_slice(alloc, path.as_bytes())?;
    let symbol = Name::from_slice(alloc, symbol.as_bytes())?;
    let provider = PathText::from_slice(alloc, provider)?;
    Ok(match kind {
        UnmetKind::Missing => Unbound::Missing { path, symbol },
        UnmetKind::Gpl => Unbound::Gpl {
            path,
            symbol,
            provider,
        },
        UnmetKind::Version => Unbound::Version {
            path,
            symbol,
            provider,
        },
        UnmetKind::Namespace => Unbound::Namespace {
            path,
            symbol,
            provider,
        },
    })
}
