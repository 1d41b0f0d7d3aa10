// What a command is handed, and what it leaves.
use crate::images::image;
use crate::listed::paths_of;
use crate::row::{FOLDER, Failing, FileRow, ImageRow, ModuleRow, TreeRow};
use km_names::{List, PathText, Paths, Word, join};
use outside_calls::{FileAnswer, MemFiles, MemOut};
use std::alloc::{AllocError, Global};
use test_objects::{MoreRow, RowFault, SheetRow, object_with};

/// The names of the files of depmod, in the order in which they are replaced.
static NAMES: [&[u8]; 11] = [
    b"modules.dep",
    b"modules.dep.bin",
    b"modules.alias",
    b"modules.alias.bin",
    b"modules.softdep",
    b"modules.symbols",
    b"modules.symbols.bin",
    b"modules.builtin.bin",
    b"modules.unmet",
    b"modules.builtin.alias.bin",
    b"modules.devname",
];

/// The objects that a command is handed, what the files are to be after it, and the status that the
/// last one answered.
#[derive(Drop)]
pub struct Objects {
    /// The files.
    pub files: MemFiles,
    /// The files as they are to be.
    pub wanted: MemFiles,
    /// The output.
    pub out: MemOut,
    /// The output of lines that say why.
    pub err: MemOut,
    /// The status that was answered last, at first 0.
    pub status: u8,
}

impl Objects {
    /// Returns no file, and outputs with ample room. The only error is out of memory.
    pub fn new(alloc: Global) -> Result<Objects, AllocError> {
        let out = MemOut::with_room(alloc, 4096)?;
        let err = MemOut::with_room(alloc, 4096)?;
        Ok(Objects {
            files: MemFiles::new(alloc),
            wanted: MemFiles::new(alloc),
            out,
            err,
            status: 0,
        })
    }

    /// Puts the modules and other files of a tree, with the old index if there is one, and sets
    /// what fails. It is refused if a module isn't a sheet.
    pub fn fill(&mut self, alloc: Global, tree: &TreeRow<'_>) -> Result<(), RowFault> {
        self.put_modules(alloc, tree.modules)?;
        self.put_files(alloc, tree.files)?;
        if tree.is_old {
            self.put_old(alloc)?;
        }
        Ok(self.set_failing(tree.failing)?)
    }

    /// Puts modules, which are to stay. They are refused if one isn't a sheet.
    pub fn put_modules(
        &mut self,
        alloc: Global,
        modules: &[ModuleRow<'_>],
    ) -> Result<(), RowFault> {
        for (path, sheet, more) in modules {
            self.put_module(alloc, path, (sheet, more))?;
        }
        Ok(())
    }

    /// Puts files that are written out, which are to stay. The only error is out of memory.
    pub fn put_files(&mut self, alloc: Global, files: &[FileRow<'_>]) -> Result<(), AllocError> {
        for file in files {
            self.put_at(alloc, file.path.as_bytes(), file.bytes)?;
        }
        Ok(())
    }

    /// Wants the files that the rows of a tree leave. The only error is out of memory.
    pub fn want_after(&mut self, alloc: Global, tree: &TreeRow<'_>) -> Result<(), AllocError> {
        self.want_index(alloc, tree)?;
        self.want_files(alloc, tree.after)?;
        self.want_images(alloc, tree.images)
    }

    /// Wants the files as they are. A listing that was to fail fails here once. The only error is
    /// out of memory.
    pub(crate) fn want_all(&mut self, alloc: Global) -> Result<(), FileAnswer> {
        let paths = paths_of(alloc, &mut self.files)?;
        for path in paths.as_slice() {
            if let Some(bytes) = self.files.get(path) {
                self.wanted.put(path, bytes)?;
            }
        }
        Ok(())
    }

    /// Returns the path of the first file that isn't as it is to be, if there is one: of those that
    /// are there, and then of those that are wanted. A listing that was to fail fails here once.
    /// The only error is out of memory.
    pub(crate) fn differing(&mut self, alloc: Global) -> Result<Option<PathText>, FileAnswer> {
        let paths = paths_of(alloc, &mut self.files)?;
        if let Some(path) = self.other_of(alloc, &paths)? {
            return Ok(Some(path));
        }
        let paths = paths_of(alloc, &mut self.wanted)?;
        Ok(self.other_of(alloc, &paths)?)
    }

    /// Puts a file, which is to stay, at a path that begins with a `/`, or is one in the folder of
    /// the kernel. The only error is out of memory.
    fn put_at(&mut self, alloc: Global, path: &[u8], bytes: &[u8]) -> Result<(), AllocError> {
        let path = path_in(alloc, FOLDER, path)?;
        self.files.put(&path, bytes)?;
        self.wanted.put(&path, bytes)
    }

    /// Puts the module of a sheet. It is refused if it isn't a sheet.
    fn put_module(
        &mut self,
        alloc: Global,
        path: &str,
        (sheet, more): (&SheetRow, &MoreRow),
    ) -> Result<(), RowFault> {
        let object = object_with(alloc, sheet, more)?;
        Ok(self.put_at(alloc, path.as_bytes(), object.as_bytes())?)
    }

    /// Puts an index, each file of which has the bytes `old` and is to stay. The only error is out
    /// of memory.
    fn put_old(&mut self, alloc: Global) -> Result<(), AllocError> {
        for name in &NAMES {
            self.put_at(alloc, name, b"old")?;
        }
        Ok(())
    }

    /// Makes fail what a row says. The only error is out of memory.
    fn set_failing(&mut self, failing: Failing) -> Result<(), AllocError> {
        match failing {
            Failing::Nothing => Ok(()),
            Failing::Call(kind, number) => self.files.fail_call(kind, u64::from(number)),
            Failing::Write(number) => self.out.fail_write(u64::from(number)),
            Failing::Line(number) => self.err.fail_write(u64::from(number)),
        }
    }

    /// Wants a file at a path that begins with a `/`, or is one in a folder. The only error is out
    /// of memory.
    fn want_at(
        &mut self,
        alloc: Global,
        (folder, path): (&[u8], &[u8]),
        bytes: &[u8],
    ) -> Result<(), AllocError> {
        let path = path_in(alloc, folder, path)?;
        self.wanted.put(&path, bytes)
    }

    /// Wants files that are written out. The only error is out of memory.
    fn want_files(&mut self, alloc: Global, files: &[FileRow<'_>]) -> Result<(), AllocError> {
        for file in files {
            self.want_at(alloc, (FOLDER, file.path.as_bytes()), file.bytes)?;
        }
        Ok(())
    }

    /// Wants the first files of an index, which a row replaces. The only error is out of memory.
    fn want_index(&mut self, alloc: Global, tree: &TreeRow<'_>) -> Result<(), AllocError> {
        for (name, bytes) in NAMES.iter().zip(tree.index).take(tree.replaced) {
            self.want_at(alloc, (tree.folder, name), bytes)?;
        }
        Ok(())
    }

    /// Wants images. The only error is out of memory.
    fn want_images(&mut self, alloc: Global, images: &[ImageRow<'_>]) -> Result<(), AllocError> {
        for row in images {
            let bytes = image(alloc, row.length, row.pieces)?;
            self.want_at(alloc, (FOLDER, row.path.as_bytes()), bytes.as_slice())?;
        }
        Ok(())
    }

    /// Returns the first of these paths whose file isn't as it is to be.
    fn other_of(&self, alloc: Global, paths: &Paths) -> Result<Option<PathText>, AllocError> {
        for path in paths.as_slice() {
            if self.files.get(path) != self.wanted.get(path) {
                return Ok(Some(PathText::from_slice(alloc, path.as_bytes())?));
            }
        }
        Ok(None)
    }
}

/// Returns the words of a text, with one space between each and the next. An empty text has none.
/// The only error is out of memory.
pub fn words_of(alloc: Global, text: &str) -> Result<List<Word>, AllocError> {
    let mut words = List::new(alloc);
    if !text.is_empty() {
        for word in text.split(' ') {
            words.push(Word::from_text(alloc, word)?)?;
        }
    }
    Ok(words)
}

/// Returns a path: it begins with a `/`, or is one in a folder. The only error is out of memory.
fn path_in(alloc: Global, folder: &[u8], path: &[u8]) -> Result<PathText, AllocError> {
    if path.starts_with(b"/") {
        return PathText::from_slice(alloc, path);
    }
    let folder = PathText::from_slice(alloc, folder)?;
    join(alloc, &folder, path)
}
