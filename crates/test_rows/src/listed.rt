// The paths of all files in memory.
use km_names::{PathText, Paths, join};
use outside_calls::{FileAnswer, Files, MemFiles};
use std::alloc::{AllocError, Global};

/// Returns the paths of all files. A listing that was to fail fails here once.
pub(crate) fn paths_of(alloc: Global, files: &mut MemFiles) -> Result<Paths, FileAnswer> {
    let root = PathText::from_slice(alloc, b"/")?;
    let listed = match list(alloc, files, &root) {
        Err(FileAnswer::Failed) => list(alloc, files, &root),
        answer => answer,
    };
    match listed {
        Ok(paths) => Ok(rooted(alloc, &root, &paths)?),
        Err(FileAnswer::Absent) => Ok(Paths::new(alloc)),
        Err(answer) => Err(answer),
    }
}

/// Lists the files below a folder, and promises nothing.
fn list(alloc: Global, files: &mut MemFiles, folder: &PathText) -> Result<Paths, FileAnswer> {
    files.list_tree(alloc, folder)
}

/// Returns the paths below a folder, with the folder.
fn rooted(alloc: Global, folder: &PathText, paths: &Paths) -> Result<Paths, AllocError> {
    let mut whole = Paths::new(alloc);
    for path in paths.as_slice() {
        whole.push(join(alloc, folder, path.as_bytes())?)?;
    }
    Ok(whole)
}
