// The texts of obstacles.
ghost use Rattle.std.specs.Prelude.{◌≡◌, IfOk};
ghost use Rattle.unmet_file.specs.Line.{first_word, two_text, three_text};

use crate::obstacle::Obstacle;
use km_names::{Blob, Name, PathText, cycle_text, not_found_text};
use std::alloc::{AllocError, Global};
use unmet_file::LineKind;

impl Obstacle {
    ghost use Rattle.plan_builder.specs.Text.{obstacle_text};

    /// Returns the text of the obstacle, as a line on standard error has it. For a line of
    /// modules.unmet it is that line.
    #[tactic(auto, unfolding(unmet_file::specs::Line::line_text))]
    pub fn text(&self, alloc: Global) -> Result<Blob, AllocError>
        ensures { IfOk result (λ text. text ≡ obstacle_text self.now) }
    {
        match self {
            Obstacle::BadDepLine { name } => {
                Blob::concat(alloc, &[b"bad dependency line ", name.as_bytes()])
            }
            Obstacle::NotFound { name } => not_found_text(alloc, name),
            Obstacle::Missing { path, symbol } => missing(alloc, path, symbol),
            Obstacle::Gpl {
                path,
                symbol,
                provider,
            } => provided(alloc, LineKind::Gpl, path, symbol, provider),
            Obstacle::Version {
                path,
                symbol,
                provider,
            } => provided(alloc, LineKind::Version, path, symbol, provider),
            Obstacle::Namespace {
                path,
                symbol,
                provider,
            } => provided(alloc, LineKind::Namespace, path, symbol, provider),
            Obstacle::Cycle { names } => cycle_text(alloc, names),
            Obstacle::Double {
                symbol,
                first,
                second,
            } => double(alloc, symbol, first, second),
            Obstacle::Memory => Blob::from_slice(alloc, b"out of memory"),
        }
    }
}

/// Returns the text of a line on a symbol that nobody exports.
fn missing(alloc: Global, path: &PathText, symbol: &Name) -> Result<Blob, AllocError>
    ensures { IfOk result
        (λ text. text ≡ two_text (first_word LineKind.Missing) (two_text path.now symbol.now)) }
{
    let word = LineKind::Missing.word();
    three(alloc, word, path.as_bytes(), symbol.as_bytes())
}

/// Returns the text of a line that names a provider.
fn provided(
    alloc: Global,
    kind: LineKind,
    path: &PathText,
    symbol: &Name,
    provider: &PathText,
) -> Result<Blob, AllocError>
    ensures { IfOk result
        (λ text. text ≡ two_text (first_word kind) (three_text path.now symbol.now provider.now)) }
{
    four(
        alloc,
        kind.word(),
        path.as_bytes(),
        symbol.as_bytes(),
        provider.as_bytes(),
    )
}

/// Returns the text of a line on a symbol that two export.
fn double(
    alloc: Global,
    symbol: &Name,
    first: &PathText,
    second: &PathText,
) -> Result<Blob, AllocError>
    ensures { IfOk result
        (λ text. text
        ≡ two_text (first_word LineKind.Double) (three_text symbol.now first.now second.now)) }
{
    four(
        alloc,
        LineKind::Double.word(),
        symbol.as_bytes(),
        first.as_bytes(),
        second.as_bytes(),
    )
}

fn three(alloc: Global, word: &[u8], a: &[u8], b: &[u8]) -> Result<Blob, AllocError>
    ensures { IfOk result (λ text. text ≡ two_text word.now (two_text a.now b.now)) }
{
    Blob::spaced(alloc, &[word, a, b])
}

fn four(alloc: Global, word: &[u8], a: &[u8], b: &[u8], c: &[u8]) -> Result<Blob, AllocError>
    ensures { IfOk result (λ text. text ≡ two_text word.now (three_text a.now b.now c.now)) }
{
    Blob::spaced(alloc, &[word, a, b, c])
}
