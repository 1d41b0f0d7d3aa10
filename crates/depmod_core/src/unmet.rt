// The obstacles to loading modules.
ghost use Rattle.std.specs.Prelude.{◌≡◌, OnOk};
ghost use Rattle.unmet_file.specs.Line.{line_text, first_word, two_text, three_text};
ghost use Rattle.unmet_file.specs.Unmet.{file_text};
ghost use Rattle.stated_texts.specs.Lines.{ended};
ghost use Rattle.stated_texts.specs.Text.{with_piece};

use km_names::{Name, PathText};
use provider_rel::{Obstacles, Unbound};
use stated_texts::Text;
use std::alloc::AllocError;
use unmet_file::LineKind;

/// Puts the text of modules.unmet.
#[tactic(auto, unfolding(unmet_file::specs::Unmet::file_text))]
pub(crate) fn put_unmet_text(text: &mut Text, lines: &Obstacles) -> Result<(), AllocError>
    ensures { OnOk result (text.new ≡ with_piece text.old (file_text lines.now)) }
{
    for line in lines.as_slice() {
        put_line(text, line)?;
    }
    Ok(())
}

/// Puts a line of modules.unmet, with its line end.
#[tactic(auto, unfolding(unmet_file::specs::Line::line_text))]
fn put_line(text: &mut Text, line: &Unbound) -> Result<(), AllocError>
    ensures { OnOk result (text.new ≡ with_piece text.old (ended (line_text line.now))) }
{
    match line {
        Unbound::Missing { path, symbol } => put_two(
            text,
            LineKind::Missing.word(),
            path.as_bytes(),
            symbol.as_bytes(),
        ),
        Unbound::Gpl {
            path,
            symbol,
            provider,
        } => put_use(text, LineKind::Gpl, path, symbol, provider),
        Unbound::Version {
            path,
            symbol,
            provider,
        } => put_use(text, LineKind::Version, path, symbol, provider),
        Unbound::Namespace {
            path,
            symbol,
            provider,
        } => put_use(text, LineKind::Namespace, path, symbol, provider),
        Unbound::Double {
            symbol,
            first,
            second,
        } => put_three(
            text,
            LineKind::Double.word(),
            symbol.as_bytes(),
            first.as_bytes(),
            second.as_bytes(),
        ),
    }
}

/// Puts a line of a word and two names, with its line end.
fn put_two(text: &mut Text, word: &[u8], first: &[u8], second: &[u8]) -> Result<(), AllocError>
    ensures { OnOk result
        (text.new
        ≡ with_piece text.old (ended (two_text word.now (two_text first.now second.now)))) }
{
    text.put_all(&[word, b" ", first, b" ", second, b"\n"])
}

/// Puts a line that names a module, a symbol and the module that provides it.
fn put_use(
    text: &mut Text,
    kind: LineKind,
    path: &PathText,
    symbol: &Name,
    provider: &PathText,
) -> Result<(), AllocError>
    ensures { OnOk result
        (text.new
        ≡ with_piece text.old
        (ended
        (two_text (first_word kind) (three_text path.now symbol.now provider.now)))) }
{
    put_three(
        text,
        kind.word(),
        path.as_bytes(),
        symbol.as_bytes(),
        provider.as_bytes(),
    )
}

/// Puts a line of a word and three names, with its line end.
fn put_three(
    text: &mut Text,
    word: &[u8],
    first: &[u8],
    second: &[u8],
    third: &[u8],
) -> Result<(), AllocError>
    ensures { OnOk result
        (text.new
        ≡ with_piece text.old
        (ended (two_text word.now (three_text first.now second.now third.now)))) }
{
    text.put_all(&[word, b" ", first, b" ", second, b" ", third, b"\n"])
}
