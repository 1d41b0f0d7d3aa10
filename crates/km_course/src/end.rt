use crate::Refusal;
use km_names::{Blob, PathText};

/// How a course ends before its last act, with a status and one line on err. Each end owns what its
/// line needs.
#[derive(Debug, Drop)]
pub enum End {
    /// The command is refused: status 1.
    Refused(Refusal),
    /// The words weren't understood: status 2 with the usage line.
    NotUnderstood,
    /// A needed file or folder is missing: status 1.
    NoFile { path: PathText },
    /// A file or a folder exceeds its limit: status 1.
    TooLarge { path: PathText },
    /// A command that was run inside this one was refused with this whole line: status 1.
    Inner { line: Blob },
}
