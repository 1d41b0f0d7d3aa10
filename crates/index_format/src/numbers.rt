//! The numbers of kmod's index format 2.1.

/// The number that a file begins with.
pub const MAGIC: u32 = 0xb007_f457;

/// The version of the format, 2.1, which follows the magic.
pub const VERSION: u32 = 0x0002_0001;

/// The first possible place of a node, after the magic, the version and the offset of the root.
pub const FIRST_PLACE: u32 = 12;

/// The bits of an offset that are the place of its node.
pub const PLACE_MASK: u32 = 0x0fff_ffff;

/// The bit of an offset whose node has a prefix.
pub const HAS_PREFIX: u32 = 0x8000_0000;

/// The bit of an offset whose node has values.
pub const HAS_VALUES: u32 = 0x4000_0000;

/// The bit of an offset whose node has children.
pub const HAS_CHILDREN: u32 = 0x2000_0000;
