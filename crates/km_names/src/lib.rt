//! The words that every crate above shares: lists that contracts see as the list of their items,
//! and numbers and strings as files have them. Byte lists have kinds, so that a path can't be
//! passed for a name.
//!
//! The crate uses std, `byteorder` for the numbers, `memchr` for the ends of lines and strings, and
//! `bstr` to show bytes. Each list keeps its allocator. Only `push`, `extend` and `append` of a
//! list can be refused, when memory runs out, and then the list is as it was.
#![tactic(auto)]

mod alias;
mod ascii;
mod bytes;
mod conf;
mod limit;
mod lines;
mod list;
mod numbers;
mod path;
mod space;
mod split;
mod statement;
mod string;
mod texts;
mod word;

pub use alias::{normal_alias, normal_or_itself};
pub use ascii::{hexadecimal, is_graphic, prefixed_hexadecimal};
pub use bytes::{Alias, AliasKind, Blob, BlobKind, Bytes, Name, NameKind, PathKind, PathText};
pub use conf::{ConfFault, ConfFile, ConfFiles, Line, Lines, TreeIndex};
pub use limit::FILE_LIMIT;
pub use lines::{conf_lines, first_line};
pub use list::{List, Names, Paths, Texts};
pub use numbers::{be_u16_at, be_u32_at, le_u16_at, le_u32_at, le_u64_at};
pub use path::{is_compressed, join, module_name, underscored};
pub use space::{split_word, trimmed, words};
pub use split::split_at_byte;
pub use statement::{Statement, parse_files};
pub use string::{first_nul, first_string, near_nul, string_at};
pub use texts::{cycle_text, not_found_text};
pub use word::Word;
