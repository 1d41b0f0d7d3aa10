// The facts of a module.

use km_names::{Name, Names, PathText, Texts};
use module_symbols::{Exports, Needs};

/// What a module states of itself.
#[derive(Debug, Drop)]
pub struct Facts {
    /// The path of its file.
    pub path: PathText,
    /// Its name.
    pub name: Name,
    /// The symbols that it exports.
    pub exports: Exports,
    /// The symbols that it needs.
    pub needs: Needs,
    /// The values of the key `alias` in its section `.modinfo`, unchanged.
    pub aliases: Texts,
    /// The values of the key `softdep`, unchanged. modprobe.d(5), "softdep".
    pub softdeps: Texts,
    /// Whether its license permits GPL-only symbols. The kernel's include/linux/license.h.
    pub free: bool,
    /// The namespaces whose exports it may use. MODULE_IMPORT_NS.
    pub imports: Names,
}
