// What the modules of a tree depend on.
ghost use Rattle.std.specs.Prelude.{◌≡◌, Some, None, OnOk, IfOk, length};
ghost use Rattle.provider_rel.specs.Tree.{IsTree};
ghost use Rattle.provider_rel.specs.Seen.{closures_by, places_of};
ghost use Rattle.stated_texts.specs.Text.{with_piece};
ghost use Rattle.depmod_core.specs.Dependencies.{path_at, line_of, dep_text, dep_map};

use index_write::KeyMap;
use km_names::{Blob, TreeIndex};
use module_facts::Facts;
use provider_rel::{Order, Relation, TreeFacts};
use stated_texts::Text;
use std::alloc::{AllocError, Global};

/// Puts the text of modules.dep. For each module it has its path, and the paths of the modules on
/// which it depends, from the last to the first. modules.dep(5).
pub(crate) fn put_dep_text(
    text: &mut Text,
    relation: &Relation,
    tree: &TreeFacts,
) -> Result<(), AllocError>
    requires tree { IsTree tree.now }
    requires long { length (closures_by relation.now) ≡ length tree.now }
    ensures { OnOk result
        (text.new ≡ with_piece text.old (dep_text tree.now (closures_by relation.now))) }
{
    let modules = tree.as_slice();
    for place in 0..modules.len() {
        let order = relation.closure(TreeIndex(place as u32));
        put_line(text, tree, &modules[place], order)?;
        text.put(b"\n")?;
    }
    Ok(())
}

/// Returns the map of modules.dep.bin, from the name of each module to its dependency line. The
/// priority is the module's place in the tree.
pub(crate) fn dep_map(
    alloc: Global,
    relation: &Relation,
    tree: &TreeFacts,
) -> Result<KeyMap, AllocError>
    requires tree { IsTree tree.now }
    requires long { length (closures_by relation.now) ≡ length tree.now }
    ensures { IfOk result (λ map. map ≡ dep_map tree.now (closures_by relation.now)) }
{
    let mut map = KeyMap::new(alloc);
    let modules = tree.as_slice();
    for place in 0..modules.len() {
        let facts = &modules[place];
        let order = relation.closure(TreeIndex(place as u32));
        let line = line(alloc, tree, facts, order)?;
        map.add(facts.name.as_bytes(), place as u32, line.as_bytes())?;
    }
    Ok(map)
}

/// Returns the dependency line of a module.
fn line(alloc: Global, tree: &TreeFacts, facts: &Facts, order: &Order) -> Result<Blob, AllocError>
    ensures { IfOk result (λ bytes. bytes ≡ line_of tree.now (facts.now, places_of order.now)) }
{
    let mut text = Text::with_capacity(alloc, facts.path.len())?;
    put_line(&mut text, tree, facts, order)?;
    Ok(text.into_bytes(alloc))
}

/// Puts the dependency line of a module, which depends on those at these places.
fn put_line(
    text: &mut Text,
    tree: &TreeFacts,
    facts: &Facts,
    order: &Order,
) -> Result<(), AllocError>
    ensures { OnOk result
        (text.new ≡ with_piece text.old (line_of tree.now (facts.now, places_of order.now))) }
{
    text.put_all(&[facts.path.as_bytes(), b":"])?;
    let places = order.as_slice();
    for n in (0..places.len()).rev() {
        text.put_all(&[b" ", path_at(tree, &places[n])])?;
    }
    Ok(())
}

/// Returns the path of the module at a place of a tree.
fn path_at<'a>(tree: &'a TreeFacts, place: &TreeIndex) -> &'a [u8]
    ensures { result.now ≡ path_at tree.now place.now.0 }
{
    match tree.get(place.0 as usize) {
        Some(facts) => facts.path.as_bytes(),
        None => &[],
    }
}
