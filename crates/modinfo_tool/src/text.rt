// The text that modinfo shows of a module.

ghost use Rattle.std.specs.Prelude.{◌≡◌, ◌-◌, ◌++◌, ◌∷◌, [], codes, map, filter, not, IfOk, OnOk};
ghost use Rattle.std.specs.List.{repeat};
ghost use Rattle.modinfo_fields.specs.declared.piece.Field.{Field};
ghost use Rattle.modinfo_fields.specs.Fields.{fields_of, values_of_key};
ghost use Rattle.modinfo_tool.specs.Parameters.{is_parameter};
ghost use Rattle.modinfo_tool.specs.Show.{labelled, all_lines, values_under, ended, line_end};
ghost use Rattle.modinfo_tool.specs.Show.{shown_text};

use crate::parameters::{is_parameter, parameter_values};
use km_names::{Blob, Name, PathText, Texts, split_at_byte};
use modinfo_fields::{FieldList, value_of};
use std::alloc::{AllocError, Global};

/// The options of what modinfo shows of a module.
#[derive(Debug, Drop)]
pub struct ShowOptions {
    /// The only key whose values are shown: `filename` is the path, `parm` are the parameters.
    /// `None` shows all.
    pub field: Option<Name>,
    /// Whether a line ends with a NUL instead of a line end.
    pub zero: bool,
}

/// Returns the text that modinfo shows of the module at a path, with these fields. modinfo(8).
///
/// Without a key it has a line for the path, and one for each field except `parm` and `parmtype`,
/// in order. Then it has one for each parameter, in the order they are first seen in. The value of
/// a parameter is `NAME:TEXT (TYPE)`, by its first `parm` and its first `parmtype`. With a key it
/// has only the values of that key.
#[tactic(auto, unfolding(crate::specs::Show::shown_text))]
pub fn show(
    alloc: Global,
    path: &PathText,
    fields: &FieldList,
    options: &ShowOptions,
) -> Result<Blob, AllocError>
    ensures { IfOk result (λ text. text ≡ shown_text path.now fields.now options.now) }
{
    let end = line_end(options.zero);
    match &options.field {
        None => all_text(alloc, path, fields, end),
        Some(key) => {
            let values = values_under(alloc, key.as_bytes(), path, fields)?;
            lines_text(alloc, values.as_slice(), end)
        }
    }
}

/// Returns the lines that modinfo shows of a module for one key, from the bytes of its `.modinfo`
/// section. They are the values of the fields with this key, in order, each with its end. Each
/// value is copied once. For `filename` and `parm` modinfo shows something else, as [`show`] does.
/// modinfo(8), `-F`.
pub fn show_values(
    alloc: Global,
    section: &[u8],
    key: &[u8],
    zero: bool,
) -> Result<Blob, AllocError>
    ensures { IfOk result
        (λ text. text ≡ ended (line_end zero) (values_of_key key.now (fields_of section.now))) }
{
    let end = line_end(zero);
    let mut text = Blob::new(alloc);
    let mut rest = section;
    while !rest.is_empty() {
        let (piece, after) = split_at_byte(rest, 0);
        if let Some(value) = value_of(piece, key) {
            push_line(&mut text, value, end)?;
        }
        rest = after;
    }
    Ok(text)
}

/// Puts a line with its end at the end.
fn push_line(text: &mut Blob, line: &[u8], end: u8) -> Result<(), AllocError>
    ensures { OnOk result (text.new ≡ text.old ++ (line.now ++ end ∷ [])) }
{
    text.extend(line)?;
    text.push(end)
}

fn line_end(zero: bool) -> u8
    ensures { result ≡ line_end zero }
{
    if zero { 0 } else { b'\n' }
}

/// Returns all lines of a module.
#[tactic(auto, unfolding(crate::specs::Show::all_lines))]
fn all_text(alloc: Global, path: &PathText, fields: &FieldList, end: u8) -> Result<Blob, AllocError>
    ensures { IfOk result (λ text. text ≡ ended end (all_lines path.now fields.now)) }
{
    let mut text = Blob::new(alloc);
    push_labelled(&mut text, b"filename", path.as_bytes(), end)?;
    push_fields(&mut text, fields, end)?;
    let parameters = parameter_values(alloc, fields)?;
    push_parameters(&mut text, parameters.as_slice(), end)?;
    Ok(text)
}

/// Puts a line for each field at the end, except those that describe parameters.
fn push_fields(text: &mut Blob, fields: &FieldList, end: u8) -> Result<(), AllocError>
    ensures ok { OnOk result (text.new ≡ text.old ++ ended end
        (map (λ (field : Field). labelled field.key field.value)
        (filter (λ field. not (is_parameter field)) fields.now))) }
{
    for i in 0..fields.len() {
        if let Some(field) = fields.get(i) {
            if !is_parameter(field) {
                push_labelled(text, field.key.as_bytes(), field.value.as_bytes(), end)?;
            }
        }
    }
    Ok(())
}

/// Puts a line for each parameter at the end.
fn push_parameters(text: &mut Blob, values: &[Blob], end: u8) -> Result<(), AllocError>
    ensures ok { OnOk result
        (text.new ≡ text.old ++ ended end (map (labelled (codes "parm")) values.now)) }
{
    for value in values {
        push_labelled(text, b"parm", value.as_bytes(), end)?;
    }
    Ok(())
}

/// Puts a value under its key at the end, on a line of its own.
fn push_labelled(text: &mut Blob, key: &[u8], value: &[u8], end: u8) -> Result<(), AllocError>
    ensures ok { OnOk result (text.new ≡ text.old ++ (labelled key.now value.now ++ end ∷ [])) }
{
    text.extend(key)?;
    text.push(b':')?;
    push_spaces(text, 15usize.saturating_sub(key.len()))?;
    text.extend(value)?;
    text.push(end)
}

fn push_spaces(text: &mut Blob, count: usize) -> Result<(), AllocError>
    ensures ok { OnOk result (text.new ≡ text.old ++ repeat count (codes " ")) }
{
    for _space in 0..count {
        text.push(b' ')?;
    }
    Ok(())
}

/// Returns the values under a key.
#[tactic(auto, unfolding(crate::specs::Show::values_under))]
fn values_under(
    alloc: Global,
    key: &[u8],
    path: &PathText,
    fields: &FieldList,
) -> Result<Texts, AllocError>
    ensures { IfOk result (λ values. values ≡ values_under key.now path.now fields.now) }
{
    if key == b"filename".as_slice() {
        let mut values = Texts::new(alloc);
        values.push(Blob::from_slice(alloc, path.as_bytes())?)?;
        return Ok(values);
    }
    if key == b"parm".as_slice() {
        return parameter_values(alloc, fields);
    }
    fields.values_of(alloc, key)
}

/// Returns the lines, each with its end.
fn lines_text(alloc: Global, lines: &[Blob], end: u8) -> Result<Blob, AllocError>
    ensures { IfOk result (λ text. text ≡ ended end lines.now) }
{
    let mut text = Blob::new(alloc);
    for line in lines {
        text.extend(line.as_bytes())?;
        text.push(end)?;
    }
    Ok(text)
}
