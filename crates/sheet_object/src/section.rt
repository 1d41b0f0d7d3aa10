// The numbers of the sections of an object, by their order in it.

/// The number of the section of code, by the order of sections in an object.
pub(crate) const TEXT: u16 = 1;

/// The number of the section of words.
pub(crate) const DATA: u32 = 2;

/// The number of the section of symbols.
pub(crate) const SYMTAB: u32 = 6;

/// The number of the section of the names of symbols.
pub(crate) const STRTAB: u32 = 7;

/// The number of the section of the names of sections.
pub(crate) const SECTION_NAMES: u16 = 8;

/// The number of the first further section.
pub(crate) const FURTHER: u16 = 9;
