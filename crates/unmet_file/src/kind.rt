// The kinds of lines of modules.unmet.
ghost use Rattle.std.specs.Prelude.{◌≡◌};
ghost use Rattle.unmet_file.specs.Line.{first_word};

/// What a line of modules.unmet is about.
#[derive(Clone, Copy)]
pub enum LineKind {
    /// A symbol that nobody exports.
    Missing,
    /// A symbol that is exported only for GPL-compatible modules.
    Gpl,
    /// A symbol in another version.
    Version,
    /// A symbol in a namespace that isn't imported.
    Namespace,
    /// A symbol with two exporters.
    Double,
}

impl LineKind {
    /// Returns the first word of a line of the kind, for writers and readers of lines.
    pub fn word(self) -> &'static [u8]
        ensures { result.now ≡ first_word self }
    {
        match self {
            LineKind::Missing => b"missing",
            LineKind::Gpl => b"gpl",
            LineKind::Version => b"version",
            LineKind::Namespace => b"namespace",
            LineKind::Double => b"double",
        }
    }
}
