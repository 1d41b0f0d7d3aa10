//! The numbers of relocatable object files of x86-64, under the names of the standard. They are the
//! numbers of the file header, of sections and symbols, and of relocations with the widths of what
//! they change.
//!
//! Readers, writers and loaders of object files all cite these, in code and in contracts, so that
//! each number of the format is stated once. `specs/Relocation.antt` has the widths for contracts.
//! The crate uses only std.
#![tactic(auto)]

mod file_header;
mod relocation;
mod section;
mod symbol;

pub use file_header::{
    EHDR_SIZE, ELFCLASS64, ELFDATA2LSB, ELFMAG, EM_X86_64, ET_REL, EV_CURRENT, SHDR_SIZE,
};
pub use relocation::{
    R_X86_64_32, R_X86_64_32S, R_X86_64_64, R_X86_64_NONE, R_X86_64_PC32, R_X86_64_PC64,
    R_X86_64_PLT32, RELA_SIZE, width,
};
pub use section::{
    PAGE, SHF_ALLOC, SHF_EXECINSTR, SHF_INFO_LINK, SHF_WRITE, SHT_NOBITS, SHT_NULL, SHT_PROGBITS,
    SHT_REL, SHT_RELA, SHT_STRTAB, SHT_SYMTAB,
};
pub use symbol::{
    SHN_ABS, SHN_COMMON, SHN_LORESERVE, SHN_UNDEF, SHN_XINDEX, STB_GLOBAL, STB_LOCAL, STB_WEAK,
    STT_FUNC, STT_NOTYPE, SYM_SIZE,
};
