// A section of an object file.
ghost use Rattle.std.specs.Prelude.{◌≡◌, IfOk};
ghost use Rattle.elf_write.specs.Part.{plain, table};

use elf_format::SYM_SIZE;
use km_names::{Blob, Name};
use std::alloc::{AllocError, Global};

/// The attributes of a section in its header, without the places of its name and its content. gABI
/// 4, "Sections", Elf64_Shdr.
#[derive(Clone, Copy)]
pub struct Attributes {
    /// Its type, sh_type.
    pub kind: u32,
    /// Its flags, sh_flags.
    pub flags: u64,
    /// The number of the section that belongs to it, or 0. sh_link.
    pub link: u32,
    /// Its further number, by its type. sh_info.
    pub info: u32,
    /// The alignment of its content in bytes. sh_addralign.
    pub align: u64,
    /// The size of its entries in bytes, or 0. sh_entsize.
    pub entry_size: u64,
}

impl Attributes {
    /// Returns the attributes of a section of bytes, by its type, flags and alignment.
    pub fn plain(kind: u32, flags: u64, align: u64) -> Attributes
        ensures { result ≡ plain kind flags align }
    {
        Attributes {
            kind,
            flags,
            link: 0,
            info: 0,
            align,
            entry_size: 0,
        }
    }

    /// Returns the attributes of a section of entries, which are as long as symbol entries, by its
    /// type, its flags, the section that belongs to it, and its further number.
    pub fn table(kind: u32, flags: u64, link: u32, info: u32) -> Attributes
        ensures { result ≡ table kind flags link info }
    {
        Attributes {
            kind,
            flags,
            link,
            info,
            align: 8,
            entry_size: SYM_SIZE as u64,
        }
    }
}

/// A section: its name, its attributes, and its content.
#[derive(Drop)]
pub struct Part {
    /// Its name.
    pub name: Name,
    /// Its attributes.
    pub attributes: Attributes,
    /// Its bytes in the file.
    pub content: Blob,
}

impl Part {
    /// Makes the section of this name, with a copy of the name. The only error is out of memory.
    pub fn new(
        alloc: Global,
        name: &[u8],
        attributes: Attributes,
        content: Vec<u8>,
    ) -> Result<Part, AllocError>
        ensures { IfOk result
            (λ p. p
            ≡ record { name = name.now; attributes = attributes; content = content.items }) }
    {
        Ok(Part {
            name: Name::from_slice(alloc, name)?,
            attributes,
            content: Blob::from_vec(content),
        })
    }
}
