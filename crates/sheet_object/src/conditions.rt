// The conditions of a sheet, as a test.
ghost use Rattle.std.specs.Prelude.{◌≡◌, ◌≤◌, ◌&&◌, ℕ, List, [], true, length, map, Some, IfOk};
ghost use Rattle.std.specs.List.{list_all};
ghost use Rattle.name_table.specs.NameTable.{IsTableOf};
ghost use Rattle.sheet_object.specs.Sheet.{has_no_nul, is_few, is_text, is_version, is_extended};
ghost use Rattle.name_table.specs.FirstSeen.{is_among};
ghost use Rattle.sheet_object.specs.Sheet.{is_space, are_distinct, are_chosen, are_few};
ghost use Rattle.sheet_object.specs.Sheet.{are_texts, are_known, symbol_names, is_sheet};
ghost use Rattle.sheet_object.specs.Writing.{names_of};

use crate::names::{Named, symbol_names, table_of};
use crate::sheet::{Sheet, SheetMore, SheetSpace, SheetVersion};
use km_names::{Blob, List};
use name_table::NameTable;
use std::alloc::{AllocError, Global};

/// The greatest number of items in a list.
const ITEM_LIMIT: usize = 65535;

/// The greatest length of a text or a name in bytes.
const LONGEST_TEXT: usize = 4096;

/// The greatest length of the name of a version in bytes.
const LONGEST_VERSION_NAME: usize = 55;

/// The greatest extended version.
const GREATEST_EXTENDED: u64 = 0xffff_ffff;

/// Returns whether an object can be made of a sheet and its additions.
///
/// No list of the sheet has more than 65,535 items. Its texts and names have no NUL and at most
/// 4096 bytes, the names of versions at most 55. The names of symbols are distinct, and places name
/// them.
///
/// The names of extended versions and the namespaces have no NUL, no namespace is empty, and
/// extended versions have 32 bits. GPL-only names and the names of exports in namespaces are
/// exports, each at most once. The only error is out of memory.
#[tactic(auto, unfolding(crate::specs::Sheet::is_sheet))]
pub fn is_sheet(alloc: Global, sheet: &Sheet, more: &SheetMore) -> Result<bool, AllocError>
    ensures { IfOk result (λ b. b ≡ is_sheet sheet.now more.now) }
{
    if !are_few(sheet) {
        return Ok(false);
    }
    let symbols = symbol_names(alloc, sheet)?;
    let texts = are_texts(sheet, more, &symbols);
    let known = are_known(alloc, sheet, more, &symbols)?;
    Ok(texts && known)
}

/// Returns whether no list of a sheet is too long.
#[tactic(auto, unfolding(crate::specs::Sheet::are_few))]
fn are_few(sheet: &Sheet) -> bool
    ensures { result ≡ are_few sheet.now }
{
    is_few(&sheet.texts)
        && is_few(&sheet.versions)
        && is_few(&sheet.exports)
        && is_few(&sheet.needs)
        && is_few(&sheet.places)
}

/// Returns whether texts and names are texts, and numbers and namespaces can be written, for these
/// names of symbols.
#[tactic(auto, using(crate::proofs::NameLemmas::names_are_texts), unfolding(crate::specs::Sheet::are_texts))]
fn are_texts(sheet: &Sheet, more: &SheetMore, symbols: &[&[u8]]) -> bool
    requires { names_of symbols.now ≡ symbol_names sheet.now }
    ensures { result ≡ are_texts sheet.now more.now }
{
    texts_are(sheet.texts.as_slice())
        && versions_are(sheet.versions.as_slice())
        && names_are(symbols)
        && extended_are(more.ext.as_slice())
        && spaces_are(more.spaces.as_slice())
}

/// Returns whether the names of symbols are distinct, places name symbols, and GPL-only names and
/// names in namespaces are exports.
#[tactic(auto, unfolding(crate::specs::Sheet::are_known))]
fn are_known(
    alloc: Global,
    sheet: &Sheet,
    more: &SheetMore,
    symbols: &[&[u8]],
) -> Result<bool, AllocError>
    requires few { are_few sheet.now ≡ true }
    requires symbols { names_of symbols.now ≡ symbol_names sheet.now }
    ensures { IfOk result (λ b. b ≡ are_known sheet.now more.now) }
{
    let distinct = are_distinct(alloc, symbols)?;
    let placed = are_among(alloc, symbols, sheet.places.as_slice())?;
    let exports = sheet.exports.as_slice();
    let gpl = are_chosen(alloc, exports, more.gpl.as_slice())?;
    let spaced = are_chosen(alloc, exports, more.spaces.as_slice())?;
    Ok(all_of(distinct, placed, gpl, spaced))
}

/// Returns whether a list isn't too long.
fn is_few<T: Drop>(items: &List<T>) -> bool
    ensures { result ≡ is_few items.now }
{
    items.len() <= ITEM_LIMIT
}

/// Returns whether each of these is a text.
fn texts_are(texts: &[Blob]) -> bool
    ensures { result ≡ list_all is_text texts.now }
{
    texts.iter().all(|text| is_text(text.as_bytes()))
}

/// Returns whether each of these versions fits its entry.
fn versions_are(versions: &[SheetVersion]) -> bool
    ensures { result ≡ list_all is_version versions.now }
{
    versions.iter().all(is_version)
}

/// Returns whether each of these names is a text.
fn names_are(names: &[&[u8]]) -> bool
    ensures { result ≡ list_all (λ n. is_text n.now) names.now }
{
    names.iter().all(|name| is_text(name))
}

/// Returns whether each of these extended versions can be written.
fn extended_are(versions: &[SheetVersion]) -> bool
    ensures { result ≡ list_all is_extended versions.now }
{
    versions.iter().all(is_extended)
}

/// Returns whether each of these namespaces is one.
fn spaces_are(spaces: &[SheetSpace]) -> bool
    ensures { result ≡ list_all is_space spaces.now }
{
    spaces.iter().all(is_space)
}

/// Returns whether no name of an item occurs twice.
fn are_distinct<T: Named>(alloc: Global, items: &[T]) -> Result<bool, AllocError>
    requires { length items.now ≤ 131070 }
    ensures { IfOk result (λ b. b ≡ are_distinct (map T.name items.now)) }
{
    let mut seen = NameTable::new(alloc);
    are_new(&mut seen, items)
}

/// Returns whether the name of each item is one of the names of others.
fn are_among<S: Named, T: Named>(
    alloc: Global,
    others: &[S],
    items: &[T],
) -> Result<bool, AllocError>
    requires { length others.now ≤ 131070 }
    ensures { IfOk result
        (λ b. b ≡ list_all (is_among (map S.name others.now)) (map T.name items.now)) }
{
    let table = table_of(alloc, others)?;
    Ok(has_each(&table, items))
}

/// Returns whether the names of items are distinct, and each is one of the names of others.
fn are_chosen<S: Named, T: Named>(
    alloc: Global,
    others: &[S],
    items: &[T],
) -> Result<bool, AllocError>
    requires { length others.now ≤ 131070 }
    ensures { IfOk result (λ b. b ≡ are_chosen (map S.name others.now) (map T.name items.now)) }
{
    if items.len() > others.len() {
        return Ok(false);
    }
    let distinct = are_distinct(alloc, items)?;
    let among = are_among(alloc, others, items)?;
    Ok(distinct && among)
}

/// Returns whether all four hold.
fn all_of(first: bool, second: bool, third: bool, fourth: bool) -> bool
    ensures { result ≡ (first && second && third && fourth) }
{
    first && second && third && fourth
}

/// Returns whether these bytes are short and have no NUL.
#[tactic(auto, unfolding(crate::specs::Sheet::is_text))]
fn is_text(text: &[u8]) -> bool
    ensures { result ≡ is_text text.now }
{
    text.len() <= LONGEST_TEXT && has_no_nul(text)
}

/// Returns whether the name of a version is a text that fits its entry.
fn is_version(version: &SheetVersion) -> bool
    ensures { result ≡ is_version version.now }
{
    is_text(version.name.as_bytes()) && version.name.len() <= LONGEST_VERSION_NAME
}

/// Returns whether an extended version has 32 bits, and its name has no NUL.
fn is_extended(version: &SheetVersion) -> bool
    ensures { result ≡ is_extended version.now }
{
    has_no_nul(version.name.as_bytes()) && version.crc <= GREATEST_EXTENDED
}

/// Returns whether a namespace has no NUL and isn't empty.
fn is_space(space: &SheetSpace) -> bool
    ensures { result ≡ is_space space.now }
{
    has_no_nul(space.space.as_bytes()) && !space.space.is_empty()
}

/// Returns whether no name of an item occurs twice, and puts those before the first one that does
/// into a table that has none.
fn are_new<'a, T: Named>(seen: &mut NameTable<'a>, items: &'a [T]) -> Result<bool, AllocError>
    requires few { length items.now ≤ 131070 }
    requires none { IsTableOf seen.old [] }
    requires count { seen.old.count ≡ 0 }
    ensures { IfOk result (λ b. b ≡ are_distinct (map T.name items.now)) }
{
    for item in items {
        let name = item.name();
        if seen.place(name).is_some() {
            return Ok(false);
        }
        seen.push(Some(name))?;
    }
    Ok(true)
}

/// Returns whether a table has the name of each item.
fn has_each<T: Named>(table: &NameTable, items: &[T]) -> bool
    ensures { (others : List (List ℕ)) → IsTableOf table.now (map (λ n. Some n) others) →
        result ≡ list_all (is_among others) (map T.name items.now) }
{
    for item in items {
        if table.place(item.name()).is_none() {
            return false;
        }
    }
    true
}

/// Returns whether these bytes have no NUL.
fn has_no_nul(text: &[u8]) -> bool
    ensures { result ≡ has_no_nul text.now }
{
    !text.contains(&0)
}
