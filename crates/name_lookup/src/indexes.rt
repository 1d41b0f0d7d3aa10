use index_read::Index;

/// The index files of a folder of modules that names are looked up in. depmod(8) says what each
/// has.
#[derive(Drop)]
pub struct Indexes {
    /// modules.dep.bin: dependency lines by module names.
    pub dep: Index,
    /// modules.alias.bin: module names by the patterns of aliases.
    pub alias: Index,
    /// modules.symbols.bin: module names by `symbol:` and the names of symbols.
    pub symbols: Index,
    /// modules.builtin.bin: the names of built-in modules.
    pub builtin: Index,
}
