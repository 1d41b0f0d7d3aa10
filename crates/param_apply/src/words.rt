// The words of options, and the parameters that they name.

ghost use Rattle.std.specs.Prelude.{◌≡◌, ◌+◌, ◌-◌, ◌<◌, ◌^◌, ℕ, List, Option, Some, [], ◌∷◌, ◌++◌};
ghost use Rattle.std.specs.Prelude.{map};
ghost use Rattle.std.specs.Prelude.{length, slice_get, is_some, IfOk, OnOk};
ghost use Rattle.name_table.specs.NameTable.{IsTableOf, place_of};
ghost use Rattle.param_apply.specs.Naming.{AreWordNames, kept_name, parameters_of};
ghost use Rattle.param_apply.specs.Words.{Parameter, stating};

use crate::parameter::{Parameters, push_name};
use km_names::{split_at_byte, underscored};
use name_table::OwnedNameTable;
use std::alloc::{AllocError, Global};
use std::marker::Model;

/// A word of options. Contracts see its bytes.
#[derive(Drop)]
pub(crate) struct WordRef<'a> {
    pub(crate) text: &'a [u8],
}

impl<'a> Model for WordRef<'a> {
    ghost use Rattle.std.specs.Prelude.{ℕ, List};

    ghost Value = { List ℕ };

    ghost view = { λ w. w.text.now };
}

/// Returns the words of options that state values: those before a word `--`. modprobe(8).
pub(crate) fn stated_words<'a>(
    alloc: Global,
    options: &'a [u8],
) -> Result<Vec<WordRef<'a>>, AllocError>
    ensures { IfOk result (λ v. v.items ≡ stating options.now) }
{
    let mut words = Vec::new(alloc);
    let mut rest = options;
    while !rest.is_empty() {
        let (text, after) = split_at_byte(rest, b' ');
        if text == b"--".as_slice() {
            return Ok(words);
        }
        if !text.is_empty() {
            words.push(WordRef { text })?;
        }
        rest = after;
    }
    Ok(words)
}

/// The names in words, each with `-` replaced by `_`, and the length of the longest.
#[derive(Drop)]
pub(crate) struct WordNames {
    pub(crate) table: OwnedNameTable,
    pub(crate) longest: usize,
}

impl WordNames {
    /// Returns the names in these words.
    fn new(alloc: Global, words: &[WordRef]) -> Result<WordNames, AllocError>
        ensures { IfOk result (λ names. AreWordNames names words.now) }
    {
        // No options have so many words.
        if u32::MAX as usize <= words.len() {
            return Err(AllocError);
        }
        let mut table = OwnedNameTable::new(alloc);
        let mut longest = 0;
        for word in words {
            let (name, _) = split_at_byte(word.text, b'=');
            push_name(alloc, &mut table, name)?;
            longest = name.len().max(longest);
        }
        Ok(WordNames { table, longest })
    }

    /// Returns whether a name, with each `-` replaced by `_`, is one of them.
    fn has(&self, name: &[u8]) -> bool
        ensures { result ≡ is_some (place_of self.now.table name.now) }
    {
        self.table.place(name).is_some()
    }
}

/// Returns the table of the parameters that words name. Names may share their bytes, so none is
/// read further than the longest name of a word, and only names of words are copied into it.
pub(crate) fn named_params(
    alloc: Global,
    params: &Parameters,
    words: &[WordRef],
) -> Result<OwnedNameTable, AllocError>
    ensures { IfOk result
        (λ t. IsTableOf t (map (kept_name words.now) (parameters_of params.now))) }
{
    let names = WordNames::new(alloc, words)?;
    params_of_names(alloc, params, &names)
}

/// Returns the table of the parameters that have one of these names.
fn params_of_names(
    alloc: Global,
    params: &Parameters,
    names: &WordNames,
) -> Result<OwnedNameTable, AllocError>
    ensures { IfOk result (λ t. (words : List (List ℕ)) → AreWordNames names.now words
        → IsTableOf t (map (kept_name words) (parameters_of params.now))) }
{
    let mut table = OwnedNameTable::new(alloc);
    for k in 0..params.count() {
        push_param(alloc, &mut table, names, params, k)?;
    }
    Ok(table)
}

/// Adds the parameter `k` to a table, by its name if that is a name of a word.
fn push_param(
    alloc: Global,
    table: &mut OwnedNameTable,
    names: &WordNames,
    params: &Parameters,
    k: usize,
) -> Result<(), AllocError>
    requires room { table.old.count < 2 ^ 32 - 1 }
    requires number { k < length (parameters_of params.now) }
    ensures table { OnOk result
        ((words : List (List ℕ)) (items : List (Option (List ℕ))) (p : Parameter)
        → AreWordNames names.now words → slice_get (parameters_of params.now) k ≡ Some p
        → IsTableOf table.old items
        → IsTableOf table.new (items ++ kept_name words p ∷ [])) }
    ensures count { OnOk result (table.new.count ≡ table.old.count + 1) }
{
    let Some(name) = params.short_name(k, names.longest) else {
        return table.push(alloc, None);
    };
    let name = underscored(alloc, name)?;
    if names.has(name.as_bytes()) {
        table.push(alloc, Some(name.as_bytes()))
    } else {
        table.push(alloc, None)
    }
}
