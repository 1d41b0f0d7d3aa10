//! Rows of whole commands, for the crates of tests that run these. A row has the modules and files
//! before a command, its words, and the status, the output, the lines on err and the files that
//! come out. `run_trees` runs rows, each over files and outputs of its own, and says what differs
//! from what a row says.
//!
//! It builds on `kmod_cli` for the commands, on `outside_calls` for files and outputs in memory, on
//! `km_names` for paths and words, and on `test_objects` for modules.
#![tactic(auto)]

mod difference;
mod file_system;
mod images;
mod indexes;
mod listed;
mod objects;
mod row;
mod runs;

pub use difference::{Difference, compare_all, compare_seen};
pub use file_system::{FILE_SYSTEM, FILE_SYSTEM_KERNEL};
pub use images::image;
pub use indexes::{
    NO_ALIASES, NO_KEYS, NO_SOFTDEPS, NO_SYMBOLS, NOSUCH_MISSING, ONE_LINE, ONE_LINE_INDEX,
    ONE_SYMBOL, ONE_SYMBOL_INDEX, TWO_FILES, TWO_LINES, TWO_LINES_INDEX,
};
pub use objects::{Objects, words_of};
pub use row::{
    DONE, EXTRA, Failing, FileRow, INDEX, INDEXED, ImageRow, KEPT, ModuleRow, PLAIN, Row, RowOf,
    SYMVERS, SYSTEM_MAP, TWO, TreeRow, USAGE,
};
pub use runs::{run_first, run_next, run_over, run_tree, run_trees, run_words};
