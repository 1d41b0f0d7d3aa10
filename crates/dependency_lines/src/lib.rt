//! The modules of a folder by their dependency lines, as modules.dep.bin has them. modules.dep(5),
//! depmod(8).
//!
//! [`DependencyLines`] has the lines of an index, each under the name of the module whose path it
//! begins with. The first line that begins otherwise ends the reading, so that the names together
//! are no longer than the lines, whatever keys a file has.
//!
//! [`Modules`] has the modules of such lines by their places in the order of the tree, once each
//! line is known to be well formed: each module that it names has a line too.
//!
//! It hands out the place of a name, and the name, the path and the needs of the module at a place.
//! [`well_formed`] tests the line of one name in the index itself.
//!
//! depmod gives each module the number of its place. The lines are in the order of their names, in
//! which a name of modules with such numbers is searched for. For others there is a table of names.
//! Most paths that lines name are found among those with which lines begin.
//!
//! The crate builds on `mod_tree` for what a dependency line is, on `index_read` for the values of
//! an index, on `name_table` for the table of names, and on `memchr` for the names in paths.
#![tactic(auto)]

mod fault;
mod good_texts;
mod line;
mod modules;
mod named_lines;
mod order;
mod own_paths;
mod path_name;
mod places;
mod read;

pub use fault::LineFault;
pub use line::well_formed;
pub use modules::Modules;
pub use read::DependencyLines;
