// Symbols. gABI 4, "Symbol Table", and "Sections" for the special section numbers.

/// The section number of an undefined symbol, st_shndx.
pub const SHN_UNDEF: u16 = 0;
/// Section numbers from here on are reserved.
pub const SHN_LORESERVE: u16 = 0xff00;
/// The section number of a symbol whose value is absolute.
pub const SHN_ABS: u16 = 0xfff1;
/// The section number of a common symbol, which the linker allocates.
pub const SHN_COMMON: u16 = 0xfff2;
/// The section number of a symbol whose true section number is elsewhere, in a section of type
/// SHT_SYMTAB_SHNDX.
pub const SHN_XINDEX: u16 = 0xffff;

/// The binding of a symbol that other files don't see, st_info / 16.
pub const STB_LOCAL: u8 = 0;
/// The binding of a symbol that other files see.
pub const STB_GLOBAL: u8 = 1;
/// The binding of a symbol that other files see, and that may stay undefined.
pub const STB_WEAK: u8 = 2;

/// The type of a symbol whose type isn't specified, st_info % 16.
pub const STT_NOTYPE: u8 = 0;
/// The type of a symbol that stands for a function.
pub const STT_FUNC: u8 = 2;

/// The size of an entry of a symbol table in bytes, Elf64_Sym.
pub const SYM_SIZE: usize = 24;
