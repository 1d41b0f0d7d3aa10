// The file header. gABI 4, "ELF Header".

/// The bytes that a file begins with, e_ident from EI_MAG0 to EI_MAG3.
pub const ELFMAG: [u8; 4] = [0x7f, b'E', b'L', b'F'];
/// The class of files of 64 bits, e_ident[EI_CLASS].
pub const ELFCLASS64: u8 = 2;
/// The encoding of numbers with the lowest byte first, e_ident[EI_DATA].
pub const ELFDATA2LSB: u8 = 1;
/// The version of the format, e_ident[EI_VERSION] and e_version.
pub const EV_CURRENT: u8 = 1;
/// The type of a relocatable object file, e_type.
pub const ET_REL: u16 = 1;
/// The machine x86-64, e_machine.
pub const EM_X86_64: u16 = 62;

/// The size of the file header in bytes, Elf64_Ehdr.
pub const EHDR_SIZE: usize = 64;
/// The size of a section header in bytes, Elf64_Shdr.
pub const SHDR_SIZE: usize = 64;
