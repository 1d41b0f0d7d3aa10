// Sections. gABI 4, "Sections".

/// The type of a section header that describes no section, sh_type.
pub const SHT_NULL: u32 = 0;
/// The type of a section whose bytes the program gives a meaning.
pub const SHT_PROGBITS: u32 = 1;
/// The type of a section that holds a symbol table.
pub const SHT_SYMTAB: u32 = 2;
/// The type of a section that holds a string table.
pub const SHT_STRTAB: u32 = 3;
/// The type of a section that holds relocations with addends.
pub const SHT_RELA: u32 = 4;
/// The type of a section that takes no bytes of the file.
pub const SHT_NOBITS: u32 = 8;
/// The type of a section that holds relocations without addends.
pub const SHT_REL: u32 = 9;

/// The flag of a section that is written while the program runs, sh_flags.
pub const SHF_WRITE: u64 = 1;
/// The flag of a section that takes memory while the program runs.
pub const SHF_ALLOC: u64 = 2;
/// The flag of a section that holds machine code.
pub const SHF_EXECINSTR: u64 = 4;
/// The flag of a section whose sh_info is the number of a section.
pub const SHF_INFO_LINK: u64 = 0x40;

/// The size of a page of x86-64 in bytes. It is the greatest alignment that a section in memory may
/// ask for here.
pub const PAGE: u64 = 4096;
