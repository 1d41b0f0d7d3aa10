// The words that name parameters.

ghost use Rattle.std.specs.Prelude.{◌≡◌, ℕ, List, true, map, IfOk, option_copied, option_map};
ghost use Rattle.std.specs.List.{filter_map};
ghost use Rattle.name_table.specs.NameTable.{IsTableOf};
ghost use Rattle.param_apply.specs.Naming.{is_word_name, kept_name, parameters_of};
ghost use Rattle.param_apply.specs.Words.{Parameter, setting, settings as settings_spec, word_name};
ghost use Rattle.param_apply.specs.Words.{word_text};

use crate::parameter::{Parameters, place_named};
use crate::words::{WordRef, named_params, stated_words};
use km_names::split_at_byte;
use name_table::OwnedNameTable;
use std::alloc::{AllocError, Global};
use std::marker::Model;

/// A word that names a parameter: the parameter's number, and the text that the word states for it.
/// Contracts see the text as its bytes.
#[derive(Drop)]
pub(crate) struct SettingRef<'a> {
    pub(crate) number: u32,
    pub(crate) text: Option<&'a [u8]>,
}

impl<'a> Model for SettingRef<'a> {
    ghost use Rattle.std.specs.Prelude.{option_copied};
    ghost use Rattle.param_apply.specs.Words.{Setting};

    ghost Value = { Setting };

    ghost view = { λ s. record { number = s.number; text = option_copied s.text } };
}

/// Returns the settings of the words of options that name parameters, in order. modprobe(8).
pub(crate) fn settings<'a>(
    alloc: Global,
    params: &Parameters,
    options: &'a [u8],
) -> Result<Vec<SettingRef<'a>>, AllocError>
    ensures { IfOk result (λ v. v.items ≡ settings_spec (parameters_of params.now) options.now) }
{
    let words = stated_words(alloc, options)?;
    let table = named_params(alloc, params, &words)?;
    settings_of(alloc, &table, &words)
}

/// Returns the settings of words, by the table of the parameters that they name.
fn settings_of<'a>(
    alloc: Global,
    table: &OwnedNameTable,
    words: &[WordRef<'a>],
) -> Result<Vec<SettingRef<'a>>, AllocError>
    ensures { IfOk result (λ v. (params : List Parameter)
        → IsTableOf table.now (map (kept_name words.now) params)
        → v.items ≡ filter_map (setting params) words.now) }
{
    let mut settings = Vec::new(alloc);
    for word in words {
        if let Some(setting) = word_setting(alloc, table, word.text)? {
            settings.push(setting)?;
        }
    }
    Ok(settings)
}

/// Returns what a word states, if it names a parameter.
fn word_setting<'a>(
    alloc: Global,
    table: &OwnedNameTable,
    word: &'a [u8],
) -> Result<Option<SettingRef<'a>>, AllocError>
    ensures { IfOk result (λ s. (words : List (List ℕ)) (params : List Parameter)
        → IsTableOf table.now (map (kept_name words) params)
        → is_word_name words (word_name word.now) ≡ true → s ≡ setting params word.now) }
{
    let (name, _) = split_at_byte(word, b'=');
    let number = place_named(alloc, table, name)?;
    Ok(setting_at(number, word))
}

/// Returns the setting of a word that names the parameter of a number, if it names one.
fn setting_at(number: Option<u32>, word: &[u8]) -> Option<SettingRef<'_>>
    ensures { result ≡ option_map (λ k. record { number = k; text = word_text word.now }) number }
{
    let number = number?;
    let text = word_text(word);
    Some(SettingRef { number, text })
}

/// Returns the text that a word states, if it states one.
fn word_text(word: &[u8]) -> Option<&[u8]>
    ensures { option_copied result ≡ word_text word.now }
{
    let (_, text) = split_at_byte(word, b'=');
    if word.contains(&b'=') {
        Some(text)
    } else {
        None
    }
}
