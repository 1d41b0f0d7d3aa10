// What modules state for others to find them by.
ghost use Rattle.std.specs.Prelude.{◌≡◌, ◌==◌, [], List, Some, OnOk, IfOk};
ghost use Rattle.std.specs.Prelude.{IfSome, IsTrue, All, map};
ghost use Rattle.std.specs.List.{cons_option, list_all};
ghost use Rattle.km_names.specs.AliasForm.{normal_alias};
ghost use Rattle.km_names.specs.Ascii.{is_graphic};
ghost use Rattle.index_format.specs.Map.{IsKey};
ghost use Rattle.module_facts.specs.declared.facts.Facts.{Facts};
ghost use Rattle.provider_rel.specs.Tree.{IsTree};
ghost use Rattle.stated_texts.specs.Lines.{ended, lines_text};
ghost use Rattle.stated_texts.specs.Maps.{with_values};
ghost use Rattle.stated_texts.specs.Stated.{is_usable_alias, is_usable_softdep, is_printable};
ghost use Rattle.stated_texts.specs.Stated.{aliases_of, softdeps_of, symbols_of};
ghost use Rattle.stated_texts.specs.Kinds.{heading, key_of, line_of, map_for, text_of, texts_of};
ghost use Rattle.stated_texts.specs.Kinds.{value_with, values_with};
ghost use Rattle.stated_texts.specs.AllStated.{AreStated, AreAllStated};
ghost use Rattle.stated_texts.specs.Text.{with_piece};

use crate::text::Text;
use index_write::KeyMap;
use km_names::{Blob, is_graphic, normal_alias};
use module_facts::Facts;
use provider_rel::TreeFacts;
use std::alloc::{AllocError, Global};
use std::marker::Model;

/// What is stated.
#[derive(Clone, Copy)]
pub enum StatedKind {
    /// An alias. modules.alias has it as it is stated, and modules.alias.bin its normal form.
    Alias,
    /// The text of a soft dependency, for modules.softdep. modprobe.d(5).
    Softdep,
    /// A symbol that is exported, for modules.symbols and modules.symbols.bin.
    Symbol,
}

/// A text that a module states. Contracts see the text.
#[derive(Drop)]
struct Statement<'a> {
    text: &'a [u8],
}

impl<'a> Model for Statement<'a> {
    ghost use Rattle.std.specs.Prelude.{ℕ, List};

    ghost Value = { List ℕ };

    ghost view = { λ s. s.text.now };
}

/// What the modules of a tree state, of each kind.
#[derive(Drop)]
pub struct AllStated<'a> {
    aliases: Vec<Vec<Statement<'a>>>,
    softdeps: Vec<Vec<Statement<'a>>>,
    symbols: Vec<Vec<Statement<'a>>>,
}

impl<'a> AllStated<'a> {
    /// Looks at each thing that is stated once. The only error is out of memory.
    pub fn new(alloc: Global, tree: &'a TreeFacts) -> Result<AllStated<'a>, AllocError>
        ensures { IfOk result (λ all. AreAllStated tree.now all) }
    {
        Ok(AllStated {
            aliases: all_stated(alloc, StatedKind::Alias, tree)?,
            softdeps: all_stated(alloc, StatedKind::Softdep, tree)?,
            symbols: all_stated(alloc, StatedKind::Symbol, tree)?,
        })
    }

    /// Returns what the modules state of a kind.
    fn of(&self, kind: StatedKind) -> &[Vec<Statement<'a>>]
        ensures { (tree : List Facts) → AreAllStated tree self.now
            → AreStated kind tree result.now }
    {
        match kind {
            StatedKind::Alias => &self.aliases,
            StatedKind::Softdep => &self.softdeps,
            StatedKind::Symbol => &self.symbols,
        }
    }
}

/// Puts the text of a kind's file: a heading, and the lines of each module. The only error is out
/// of memory. depmod(8).
pub fn put_stated_text(
    text: &mut Text,
    kind: StatedKind,
    tree: &TreeFacts,
    stated: &AllStated<'_>,
) -> Result<(), AllocError>
    requires { AreAllStated tree.now stated.now }
    ensures { OnOk result (text.new ≡ with_piece text.old (text_of kind tree.now)) }
{
    text.put_all(&[heading(kind), b"\n"])?;
    let lists = stated.of(kind);
    let modules = tree.as_slice();
    for place in 0..modules.len() {
        let name = modules[place].name.as_bytes();
        put_lines(text, kind, name, &lists[place])?;
    }
    Ok(())
}

/// Makes the map of a kind's index. Its keys are what is stated, and its values are the names of
/// the modules that state it. The priority of a value is the module's place in the tree. The only
/// error is out of memory. depmod(8).
pub fn stated_map(
    alloc: Global,
    kind: StatedKind,
    tree: &TreeFacts,
    stated: &AllStated<'_>,
) -> Result<KeyMap, AllocError>
    requires tree { IsTree tree.now }
    requires stated { AreAllStated tree.now stated.now }
    ensures { IfOk result (λ map. map ≡ map_for kind tree.now) }
{
    let mut map = KeyMap::new(alloc);
    let lists = stated.of(kind);
    let modules = tree.as_slice();
    for place in 0..modules.len() {
        let name = modules[place].name.as_bytes();
        add_values(alloc, &mut map, kind, place as u32, name, &lists[place])?;
    }
    Ok(map)
}

/// Collects what the modules of a tree state of a kind.
fn all_stated(
    alloc: Global,
    kind: StatedKind,
    tree: &TreeFacts,
) -> Result<Vec<Vec<Statement<'_>>>, AllocError>
    ensures { IfOk result (λ all. AreStated kind tree.now all.items) }
{
    let mut all = Vec::new(alloc);
    for facts in tree.as_slice() {
        all.push(stated_by(alloc, kind, facts)?)?;
    }
    Ok(all)
}

/// Puts the values of the module at a place into a kind's map.
fn add_values(
    alloc: Global,
    key_map: &mut KeyMap,
    kind: StatedKind,
    place: u32,
    name: &[u8],
    all: &[Statement<'_>],
) -> Result<(), AllocError>
    requires name { IsTrue (is_graphic name.now) }
    requires keys { All (λ text. IfSome (key_of kind text) IsKey) all.now }
    ensures { OnOk result
        (key_map.new ≡ with_values key_map.old (values_with kind place name.now all.now)) }
{
    for stated in all {
        add_value(alloc, key_map, kind, place, name, stated.text)?;
    }
    Ok(())
}

/// Puts the value of a text that the module at a place states into a kind's map, if it has a key.
fn add_value(
    alloc: Global,
    key_map: &mut KeyMap,
    kind: StatedKind,
    place: u32,
    name: &[u8],
    text: &[u8],
) -> Result<(), AllocError>
    requires name { IsTrue (is_graphic name.now) }
    requires key { IfSome (key_of kind text.now) IsKey }
    ensures { OnOk result
        (key_map.new
        ≡ with_values key_map.old (cons_option (value_with kind place name.now text.now) [])) }
{
    if let Some(key) = key(alloc, kind, text)? {
        key_map.add_owned(key.into_vec()?, place, name)?;
    }
    Ok(())
}

/// Returns the key under which the index of a kind has a text, if it has one.
fn key(alloc: Global, kind: StatedKind, text: &[u8]) -> Result<Option<Blob>, AllocError>
    ensures { IfOk result (λ key. key ≡ key_of kind text.now) }
{
    match kind {
        StatedKind::Alias => alias_key(alloc, text),
        StatedKind::Softdep => Ok(None),
        StatedKind::Symbol => Ok(Some(Blob::concat(alloc, &[b"symbol:", text])?)),
    }
}

/// Returns the normal form of an alias, if it has one.
fn alias_key(alloc: Global, alias: &[u8]) -> Result<Option<Blob>, AllocError>
    ensures { IfOk result (λ key. key ≡ normal_alias alias.now) }
{
    if is_plain(alias) {
        return Ok(Some(Blob::from_slice(alloc, alias)?));
    }
    match normal_alias(alloc, alias)? {
        Some(form) => Ok(Some(form.into_kind())),
        None => Ok(None),
    }
}

/// Returns whether an alias has no `-` and no bracket, as most. It is its own normal form then.
fn is_plain(alias: &[u8]) -> bool
    ensures { IsTrue result → normal_alias alias.now ≡ Some alias.now }
{
    if alias.contains(&b'-') {
        return false;
    }
    if alias.contains(&b'[') {
        return false;
    }
    !alias.contains(&b']')
}

/// Returns what a module states of a kind.
fn stated_by(
    alloc: Global,
    kind: StatedKind,
    facts: &Facts,
) -> Result<Vec<Statement<'_>>, AllocError>
    ensures { IfOk result (λ stated. stated.items ≡ texts_of kind facts.now) }
{
    match kind {
        StatedKind::Alias => aliases(alloc, facts),
        StatedKind::Softdep => softdeps(alloc, facts),
        StatedKind::Symbol => symbols(alloc, facts),
    }
}

/// Returns the heading of a kind's file.
fn heading(kind: StatedKind) -> &'static [u8]
    ensures { result.now ≡ heading kind }
{
    match kind {
        StatedKind::Alias => b"# Aliases extracted from modules themselves.",
        StatedKind::Softdep => b"# Soft dependencies extracted from modules themselves.",
        StatedKind::Symbol => b"# Aliases for symbols, used by symbol_request().",
    }
}

/// Puts the lines of the module of this name.
fn put_lines(
    text: &mut Text,
    kind: StatedKind,
    name: &[u8],
    all: &[Statement<'_>],
) -> Result<(), AllocError>
    ensures { OnOk result
        (text.new
        ≡ with_piece text.old
        (lines_text (map (line_of kind name.now) all.now))) }
{
    for stated in all {
        put_line(text, kind, name, stated.text)?;
    }
    Ok(())
}

/// Returns the aliases of a module that can be used.
fn aliases(alloc: Global, facts: &Facts) -> Result<Vec<Statement<'_>>, AllocError>
    ensures { IfOk result
        (λ stated. stated.items ≡ aliases_of facts.now) }
{
    let mut usable = Vec::with_capacity(alloc, facts.aliases.len())?;
    for alias in facts.aliases.as_slice() {
        let text = alias.as_bytes();
        if is_usable_alias(alloc, text)? {
            usable.push(Statement { text })?;
        }
    }
    Ok(usable)
}

/// Returns the texts of a module's softdeps that can be used.
fn softdeps(alloc: Global, facts: &Facts) -> Result<Vec<Statement<'_>>, AllocError>
    ensures { IfOk result
        (λ stated. stated.items ≡ softdeps_of facts.now) }
{
    let mut usable = Vec::with_capacity(alloc, facts.softdeps.len())?;
    for text in facts.softdeps.as_slice() {
        let text = text.as_bytes();
        if is_usable_softdep(text) {
            usable.push(Statement { text })?;
        }
    }
    Ok(usable)
}

/// Returns the names of the symbols that a module exports.
fn symbols(alloc: Global, facts: &Facts) -> Result<Vec<Statement<'_>>, AllocError>
    ensures { IfOk result
        (λ stated. stated.items ≡ symbols_of facts.now) }
{
    let mut names = Vec::with_capacity(alloc, facts.exports.len())?;
    for export in facts.exports.as_slice() {
        names.push(Statement {
            text: export.name.as_bytes(),
        })?;
    }
    Ok(names)
}

/// Puts a line of the module of this name.
fn put_line(text: &mut Text, kind: StatedKind, name: &[u8], stated: &[u8]) -> Result<(), AllocError>
    ensures { OnOk result
        (text.new ≡ with_piece text.old (ended (line_of kind name.now stated.now))) }
{
    match kind {
        StatedKind::Alias => text.put_all(&[b"alias ", stated, b" ", name, b"\n"]),
        StatedKind::Softdep => text.put_all(&[b"softdep ", name, b" ", stated, b"\n"]),
        StatedKind::Symbol => text.put_all(&[b"alias symbol:", stated, b" ", name, b"\n"]),
    }
}

/// Returns whether an alias can be used: it is a word of visible characters, and has a normal form.
#[tactic(auto, unfolding(crate::specs::Stated::is_usable_alias))]
fn is_usable_alias(alloc: Global, alias: &[u8]) -> Result<bool, AllocError>
    ensures { IfOk result (λ usable. usable ≡ is_usable_alias alias.now) }
{
    if !is_graphic(alias) {
        return Ok(false);
    }
    if is_plain(alias) {
        return Ok(true);
    }
    Ok(normal_alias(alloc, alias)?.is_some())
}

/// Returns whether the text of a softdep can be used. It has only visible characters and spaces, at
/// least one character that isn't a space, and no mark of continuation at its end.
#[tactic(auto, unfolding(crate::specs::Stated::is_usable_softdep))]
fn is_usable_softdep(text: &[u8]) -> bool
    ensures { result ≡ is_usable_softdep text.now }
{
    is_printable(text) && !is_spaces(text) && !text.ends_with(b"\\")
}

fn is_printable(text: &[u8]) -> bool
    ensures { result ≡ list_all is_printable text.now }
{
    text.iter().all(|b| b.is_ascii_graphic() || *b == b' ')
}

fn is_spaces(text: &[u8]) -> bool
    ensures { result ≡ list_all (λ b. b == 32) text.now }
{
    text.iter().all(|b| *b == b' ')
}
