// Rows that are written out.
use outside_calls::CallKind;
use test_objects::{GIVES, MoreRow, NEEDS, NO_MORE, SheetRow};

/// The folder of a kernel's modules.
pub(crate) const FOLDER: &[u8] = b"/r/lib/modules/6.1.0";

/// Words with a space between each and the next, the status that they are to answer, and what they
/// are to write to the output and to err.
pub type RowOf<'a> = (&'a str, u8, &'a str, &'a str);

/// A row that is written out.
pub type Row = RowOf<'static>;

/// The line of words that aren't understood.
pub const USAGE: &str =
    "kmod: usage: kmod depmod|modprobe|modinfo|trial|static-nodes|builtin-alias WORDS\n";

/// A file before a command, or one that is expected after it.
#[derive(Clone, Copy)]
pub struct FileRow<'a> {
    /// Its path.
    pub path: &'a str,
    /// Its contents.
    pub bytes: &'a [u8],
}

/// A module: its path in the tree or, with a `/` first, from the root; its sheet; and what more its
/// object is to have.
pub type ModuleRow<'a> = (&'a str, &'a SheetRow, &'a MoreRow);

/// What is made to fail. Calls of each kind are counted on their own, from 0.
#[derive(Clone, Copy)]
pub enum Failing {
    /// Nothing.
    Nothing,
    /// A call of this kind on the files.
    Call(CallKind, u8),
    /// A write to the output.
    Write(u8),
    /// A write to err.
    Line(u8),
}

/// The table of a kernel that exports `printk`.
pub const SYMVERS: FileRow<'static> = FileRow {
    path: "/r/Module.symvers",
    bytes: b"0x11111111\tprintk\tvmlinux\tEXPORT_SYMBOL\n",
};

/// The addresses of that kernel.
pub const SYSTEM_MAP: FileRow<'static> = FileRow {
    path: "/r/System.map",
    bytes: b"ffffffff81000000 T printk\n",
};

/// Two modules. `b` needs `a`.
pub const TWO: &[ModuleRow<'static>] = &[
    ("kernel/a.ko", &GIVES, &NO_MORE),
    ("kernel/b.ko", &NEEDS, &NO_MORE),
];

/// The words that index the tree over the usual table.
pub const INDEX: &str = "depmod -b /r -E /r/Module.symvers 6.1.0";

/// The words that index it with the two other files.
pub const EXTRA: &str = "depmod --extra -b /r -E /r/Module.symvers 6.1.0";

/// An image that is expected after a command: zeros but for some bytes.
#[derive(Clone, Copy)]
pub struct ImageRow<'a> {
    /// Its path.
    pub path: &'a str,
    /// How many bytes it has.
    pub length: usize,
    /// Its other bytes, each piece of them with the place where it begins.
    pub pieces: &'a [(usize, &'a [u8])],
}

/// Commands over a tree: each row over files of its own.
#[derive(Clone, Copy)]
pub struct TreeRow<'a> {
    /// What the rows show, or nothing if their words do.
    pub name: &'a str,
    /// The modules of the tree.
    pub modules: &'a [ModuleRow<'a>],
    /// The other files.
    pub files: &'a [FileRow<'a>],
    /// Whether there is an index before, each file of which has the bytes `old`.
    pub is_old: bool,
    /// What fails, counted from the first call of the first command's.
    pub failing: Failing,
    /// The words that index the tree, or nothing. They are to be done, and to write nothing. What
    /// they leave is to stay, but for the files below.
    pub first: &'a str,
    /// The words, and what they are to result in.
    pub rows: &'a [RowOf<'a>],
    /// The folder of the index that the words leave.
    pub folder: &'a [u8],
    /// The files of that index, in the order in which they are replaced.
    pub index: &'a [&'a [u8]],
    /// How many of them are replaced.
    pub replaced: usize,
    /// Other files that are to be there afterwards.
    pub after: &'a [FileRow<'a>],
    /// The images that are to be there afterwards.
    pub images: &'a [ImageRow<'a>],
}

/// Files alone, which no row changes.
pub const PLAIN: TreeRow<'static> = TreeRow {
    name: "",
    modules: &[],
    files: &[],
    is_old: false,
    failing: Failing::Nothing,
    first: "",
    rows: &[],
    folder: FOLDER,
    index: &[],
    replaced: 0,
    after: &[],
    images: &[],
};

/// The usual table and no modules, indexed. No row changes a file.
pub const INDEXED: TreeRow<'static> = TreeRow {
    files: &[SYMVERS],
    first: INDEX,
    ..PLAIN
};

/// The usual words over the usual table and an old index, done: the nine files are replaced.
pub const DONE: TreeRow<'static> = TreeRow {
    files: &[SYMVERS],
    is_old: true,
    rows: &[(INDEX, 0, "", "")],
    replaced: 9,
    ..PLAIN
};

/// Over the same, but no file is replaced.
pub const KEPT: TreeRow<'static> = TreeRow {
    replaced: 0,
    ..DONE
};
